ghost use Rattle.std.specs.Prelude.{◌≡◌, ◌<◌, ◌≤◌};
ghost use Rattle.packed_roll.specs.Trail.{rewound};
ghost use Rattle.packed_roll.specs.Words.{full, mark, without, word_in};

use crate::bits::has_bit;
use crate::trail::Save;

// The bits of a packed roll: bit k % 64 of the word k / 64 is set where the number k stands.
#[derive(Drop)]
pub(crate) struct Words {
    pub(crate) bits: [u64; 64],
}

impl Words {
    // Whether k stands.
    pub(crate) fn has(&self, k: u32) -> bool
        requires { k < 4096 }
        ensures { result ≡ mark (word_in self.now.bits) k }
    {
        has_bit(self.bits[(k / 64) as usize], k % 64)
    }

    // Takes k out, which stands.
    pub(crate) fn clear(&mut self, k: u32)
        requires { k < 4096 }
        ensures { word_in self.new.bits ≡ without (word_in self.old.bits) k }
    {
        self.bits[(k / 64) as usize] ^= 1 << (k % 64);
    }

    // Lets the numbers below n stand, and no others.
    pub(crate) fn fill(&mut self, n: u32)
        requires { n ≤ 4096 }
        ensures { word_in self.new.bits ≡ full n }
    {
        for (w, word) in self.bits.iter_mut().enumerate() {
            let rest = n.saturating_sub(w as u32 * 64).min(64); // w is below 64
            *word = if rest == 64 {
                u64::MAX
            } else {
                (1 << rest) - 1
            };
        }
    }

    // Puts back the words that the save noted. It goes by the bits of `noted`, since a loop over the words would take
    // 64 turns to put back one.
    pub(crate) fn restore(&mut self, save: &Save)
        ensures { word_in self.new.bits ≡ rewound save.now (word_in self.old.bits) }
    {
        let mut left = save.noted;
        while left != 0 {
            let w = left.trailing_zeros();
            self.bits[w as usize] = save.words[w as usize];
            left ^= 1 << w;
        }
    }
}
