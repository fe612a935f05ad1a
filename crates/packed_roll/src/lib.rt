// The packed kind of roll: one bit for each number, in 64-bit words, and for its saves the words overwritten
// since each of them (a reversible bitset with a trail).
#![tactic(auto)]

ghost use Rattle.packed_roll.specs.Packed.{NoBitBeyond};

mod bits;
mod packed;
mod trail;
mod words;

pub use packed::PackedRoll;

// No packed roll has a bit set at or above its size, now or at a save.
pub fn no_bit_beyond()
    ensures { NoBitBeyond }
{}
