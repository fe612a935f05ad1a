ghost use Rattle.ordered_roll.specs.Ordered.{meaning_of};
ghost use Rattle.ordered_roll.specs.Soundness.{sound_of};
ghost use Rattle.std.proofs.Common.{rules};

use crate::lists::Lists;
use crate::ordered::{Notes, OrderedRoll};
use refusal::Refusal;
use roll::Roll;

// No number or count is above 1,024, so the casts to `u16` lose nothing.
impl Roll for OrderedRoll {
    const MOST: u32 = 1024;

    ghost MOST = { 1024 };

    ghost meaning = { meaning_of };

    ghost few = { Prim.search rules };

    ghost sound = { λ x. sound_of x };

    fn new() -> OrderedRoll {
        OrderedRoll {
            lists: Lists {
                list: [0; 1024],
                place: [0; 1024],
            },
            notes: Notes { counts: [0; 32] },
            size: 0,
            count: 0,
            kept: 0,
        }
    }

    fn begin(&mut self, n: u32) -> Result<(), Refusal> {
        if n > Self::MOST {
            return Err(Refusal::AboveMost);
        }
        self.lists.fill(n as u16);
        self.size = n;
        self.count = n;
        self.kept = 0;
        Ok(())
    }

    // The last number that stands takes the place of k, and the places that count become one fewer.
    fn strike(&mut self, k: u32) -> bool {
        if !self.stands(k) {
            return false;
        }
        self.lists.exchange(k as u16, (self.count - 1) as u16);
        self.count -= 1;
        true
    }

    // The counts are told, and calls declined, alike by both kinds: each is a struct of its own, whose invariant ties the
    // counts to its own parts.
    fn size(&self) -> u32 {
        self.size
    }

    fn stands(&self, k: u32) -> bool {
        k < self.size && u32::from(self.lists.place[k as usize]) < self.count
    }

    fn count(&self) -> u32 {
        self.count
    }

    fn kept(&self) -> u32 {
        self.kept
    }

    fn free(&self) -> u32 {
        32 - self.kept
    }

    fn first_from(&self, place: u32) -> Option<u32> {
        (place..self.size).find(|k| u32::from(self.lists.place[*k as usize]) < self.count)
    }

    fn save(&mut self) -> Result<(), Refusal> {
        if self.kept == 32 {
            return Err(Refusal::NoSaveFree);
        }
        self.notes.counts[self.kept as usize] = self.count as u16;
        self.kept += 1;
        Ok(())
    }

    // Strikes since the save only exchanged places in front of those that stood then, so the count says it all.
    fn back(&mut self) -> Result<(), Refusal> {
        if self.kept == 0 {
            return Err(Refusal::NoSaveKept);
        }
        self.count = u32::from(self.notes.counts[(self.kept - 1) as usize]);
        self.kept -= 1;
        Ok(())
    }
}
