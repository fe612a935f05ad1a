ghost use Rattle.std.specs.Prelude.{◌≡◌, ℕ, ◌+◌, ◌<◌, ◌≤◌, slice_index};
ghost use Rattle.ordered_roll.specs.Places.{Inverse, marks_of};
ghost use Rattle.roll.specs.Meaning.{trues};

use crate::lists::Lists;

pub mod kind;

// How many numbers stood at each save, the oldest first. Memory is fixed; how many are kept is tied to it by the
// invariant of the roll.
#[derive(Drop)]
pub(crate) struct Notes {
    pub(crate) counts: [u16; 32],
}

// A roll of up to 1,024 numbers. Those at the first `count` places of the list stand. List and places are
// inverse to each other, so no number is listed twice; an older save had no fewer numbers than a newer one.
#[derive(Drop)]
pub struct OrderedRoll {
    lists: Lists,
    notes: Notes,
    size: u32,
    count: u32,
    kept: u32,
    ghost fits: { size ≤ 1024 },
    ghost few: { kept ≤ 32 },
    ghost within: { count ≤ size },
    ghost placed: { Inverse size lists.place lists.list },
    ghost listed: { Inverse size lists.list lists.place },
    ghost counted: { trues (marks_of lists.place count size) ≡ count },
    ghost falling: { ((i d : ℕ) → i + d < kept → slice_index notes.counts (i + d) ≤ slice_index notes.counts i) },
    ghost fewer: { ((i : ℕ) → i < kept → (count ≤ slice_index notes.counts i) × (slice_index notes.counts i ≤ size)) },
    ghost saves_counted: { ((i : ℕ) → i < kept → trues (marks_of lists.place (slice_index notes.counts i) size) ≡ slice_index notes.counts i) },
}
