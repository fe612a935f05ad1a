ghost use Rattle.std.specs.Prelude.{◌≡◌, ◌<◌, ◌≤◌, List, [], ◌∷◌, ◌++◌, length, nat_lt, slice_index, sum as sum_of, take, ℕ};
ghost use Rattle.plan_format.specs.Reading.{may_follow};

use std::marker::Model;

// Up to 32 small numbers, in the order in which they came: value counts, a scope or a row. The memory is fixed,
// since reading a file takes no heap. The length is a whole word, since rows are copied and a list of 33 bytes
// is copied in pieces.
#[derive(Drop)]
pub(crate) struct ShortList {
    items: [u8; 32],
    len: usize,
}

impl Model for ShortList {
    ghost Value = { List ℕ };

    ghost view = { λ l. take l.len l.items };

    ghost invariant = { λ l. l.len ≤ 32 };
}

impl ShortList {
    pub(crate) fn new() -> Self
        ensures { result ≡ [] }
    {
        ShortList {
            items: [0; 32],
            len: 0,
        }
    }

    pub(crate) fn len(&self) -> u8
        ensures len { result ≡ length self.now }
        ensures few { result ≤ 32 }
    {
        self.len as u8 // at most 32
    }

    pub(crate) fn as_slice(&self) -> &[u8]
        ensures items { result.now ≡ self.now }
        ensures few { length result.now ≤ 32 }
    {
        &self.items[..self.len]
    }

    // The number at place `i`, or 0 past the end.
    pub(crate) fn at(&self, i: usize) -> u8
        ensures { result ≡ slice_index self.now i }
    {
        self.as_slice().get(i).copied().unwrap_or(0)
    }

    // One number more at the end.
    pub(crate) fn push(&mut self, number: u8)
        requires { length self.old < 32 }
        ensures { self.new ≡ self.old ++ number ∷ [] }
    {
        self.items[self.len] = number;
        self.len += 1;
    }

    // Whether a number may follow in an ascending list: it is the first, or above the last.
    pub(crate) fn rises_to(&self, number: u8) -> bool
        ensures { result ≡ may_follow nat_lt self.now number }
    {
        match self.as_slice() {
            [.., last] => *last < number,
            [] => true,
        }
    }

    pub(crate) fn sum(&self) -> u32
        ensures { result ≡ sum_of self.now }
    {
        let numbers = self.as_slice();
        sum(numbers)
    }
}

// The sum of a few numbers.
fn sum(numbers: &[u8]) -> u32
    requires { length numbers.now ≤ 32 }
    ensures { result ≡ sum_of numbers.now }
{
    numbers.iter().map(|number| u32::from(*number)).sum()
}
