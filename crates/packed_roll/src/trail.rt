ghost use Rattle.std.specs.Prelude.{◌≡◌, ◌-◌, ◌<◌, ◌≤◌, length};
ghost use Rattle.packed_roll.specs.Trail.{noting, save_at, saves_noting};

use crate::bits::has_bit;

// Which words were overwritten since the save (a mask with one bit for each word), those words as they were at the
// save, and how many numbers stood.
#[derive(Clone, Copy, Drop)]
pub(crate) struct Save {
    pub(crate) noted: u64,
    pub(crate) words: [u64; 64],
    pub(crate) count: u32,
}

impl Save {
    // Before the word w, so far `old`, is overwritten: keeps it, unless it was overwritten since the save already.
    // That w is within the words the type says, but a caller that holds the save in an array is not told it.
    pub(crate) fn note(&mut self, w: u32, old: u64)
        requires { w < 64 }
        ensures noted { self.new ≡ noting self.old w old }
        ensures within { w < length self.old.words }
    {
        if !has_bit(self.noted, w) {
            self.noted ^= 1 << w;
            self.words[w as usize] = old;
        }
    }
}

// A place for each save that can be kept, the oldest first. Memory is fixed; how many are kept is tied to it by the
// invariant of the roll.
#[derive(Drop)]
pub(crate) struct Trail {
    pub(crate) saves: [Save; 32],
}

impl Trail {
    // Before the word w, so far `old`, is overwritten: the newest of the saves kept notes it. That w is within its words is
    // told here too, since the roll holds the saves in this array.
    pub(crate) fn note(&mut self, kept: u32, w: u32, old: u64)
        requires saves { kept ≤ 32 }
        requires word { w < 64 }
        ensures noted { self.new.saves ≡ saves_noting self.old.saves kept w old }
        ensures within { 0 < kept → w < length (save_at self.old.saves (kept - 1)).words }
    {
        if kept > 0 {
            self.saves[(kept - 1) as usize].note(w, old);
        }
    }
}
