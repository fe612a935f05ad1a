ghost use Rattle.std.specs.Prelude.{ℕ, ◌<◌, ◌≤◌};
ghost use Rattle.packed_roll.specs.Trail.{save_at, words_at};
ghost use Rattle.packed_roll.specs.Words.{Tallied, word_in};

use crate::trail::Trail;
use crate::words::Words;

pub mod kind;

// A roll of up to 4,096 numbers. No bit at or above the size is set, now or at a save, and the counts are those
// of the bits.
#[derive(Drop)]
pub struct PackedRoll {
    words: Words,
    trail: Trail,
    size: u32,
    count: u32,
    kept: u32,
    ghost few: { size ≤ 4096 },
    ghost few_saves: { kept ≤ 32 },
    ghost now: { Tallied size count (word_in words.bits) },
    ghost at_saves: { ((i : ℕ) → i < kept
        → Tallied size (save_at trail.saves i).count (words_at trail.saves (word_in words.bits) kept i)) },
}
