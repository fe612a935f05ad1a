ghost use Rattle.packed_roll.specs.Packed.{meaning_of};
ghost use Rattle.packed_roll.specs.Soundness.{sound_of};
ghost use Rattle.std.proofs.Common.{rules};

use crate::bits::lowest_bit;
use crate::packed::PackedRoll;
use crate::trail::{Save, Trail};
use crate::words::Words;
use refusal::Refusal;
use roll::Roll;

impl Roll for PackedRoll {
    const MOST: u32 = 4096;

    ghost MOST = { 4096 };

    ghost meaning = { meaning_of };

    ghost few = { Prim.search rules };

    ghost sound = { λ x. sound_of x };

    fn new() -> PackedRoll {
        PackedRoll {
            words: Words { bits: [0; 64] },
            trail: Trail {
                saves: [Save {
                    noted: 0,
                    words: [0; 64],
                    count: 0,
                }; 32],
            },
            size: 0,
            count: 0,
            kept: 0,
        }
    }

    fn begin(&mut self, n: u32) -> Result<(), Refusal> {
        if n > Self::MOST {
            return Err(Refusal::AboveMost);
        }
        self.words.fill(n);
        self.size = n;
        self.count = n;
        self.kept = 0;
        Ok(())
    }

    fn strike(&mut self, k: u32) -> bool {
        if !self.stands(k) {
            return false;
        }
        let old = self.words.bits[(k / 64) as usize];
        self.trail.note(self.kept, k / 64, old);
        self.words.clear(k);
        self.count -= 1;
        true
    }

    // The counts are told, and calls declined, alike by both kinds: each is a struct of its own, whose invariant ties the
    // counts to its own parts.
    fn size(&self) -> u32 {
        self.size
    }

    fn stands(&self, k: u32) -> bool {
        k < self.size && self.words.has(k)
    }

    fn count(&self) -> u32 {
        self.count
    }

    fn kept(&self) -> u32 {
        self.kept
    }

    fn free(&self) -> u32 {
        32 - self.kept
    }

    // Goes by words, from the place's own bit on in its word and from bit 0 on in the words after it. It counts the
    // words: on what a `find_map` over them finds, the library has no lemma.
    fn first_from(&self, place: u32) -> Option<u32> {
        for w in place / 64..self.size.div_ceil(64) {
            let from = place.saturating_sub(w * 64);
            if let Some(j) = lowest_bit(self.words.bits[w as usize], from) {
                return Some(w * 64 + j);
            }
        }
        None
    }

    fn save(&mut self) -> Result<(), Refusal> {
        if self.kept == 32 {
            return Err(Refusal::NoSaveFree);
        }
        let save = &mut self.trail.saves[self.kept as usize];
        save.noted = 0;
        save.count = self.count;
        self.kept += 1;
        Ok(())
    }

    fn back(&mut self) -> Result<(), Refusal> {
        if self.kept == 0 {
            return Err(Refusal::NoSaveKept);
        }
        let save = &self.trail.saves[(self.kept - 1) as usize];
        self.words.restore(save);
        self.count = save.count;
        self.kept -= 1;
        Ok(())
    }
}
