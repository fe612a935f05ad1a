ghost use Rattle.std.specs.Prelude.{◌≡◌, ℕ, ◌≤◌};
ghost use Rattle.roll.specs.Calls.{after_back, after_begin, after_save, back_answer, begin_answer, save_answer};
ghost use Rattle.roll.specs.Meaning.{Meaning, Sound, begun, first_at, kept_of, size_of, standing, stands_at, struck};

use refusal::Refusal;

// A roll: a size, which of the numbers below it stand, and saves of that to go back to. The ghost member
// `meaning` says what a roll means, and every contract speaks of it alone, so that what is built on rolls is
// proved once for every kind.
pub trait Roll {
    // The greatest size that the kind takes.
    const MOST: u32;

    ghost MOST: { ℕ };

    ghost meaning: { Self → Meaning };

    // A roll as after `begin` with 0.
    fn new() -> Self
    where
        Self: Sized,
        ensures { meaning result ≡ begun 0 };

    // Begins anew with n numbers, all standing. Declined where n is above the most.
    fn begin(&mut self, n: u32) -> Result<(), Refusal>
        ensures answer { result ≡ begin_answer MOST n }
        ensures after { meaning self.new ≡ after_begin MOST n (meaning self.old) };

    // Takes k out, and answers whether it stood. A number at or above the size does not stand.
    fn strike(&mut self, k: u32) -> bool
        ensures answer { result ≡ stands_at (meaning self.old) k }
        ensures after { meaning self.new ≡ struck (meaning self.old) k };

    fn size(&self) -> u32
        ensures { result ≡ size_of (meaning self.now) };

    fn stands(&self, k: u32) -> bool
        ensures { result ≡ stands_at (meaning self.now) k };

    // How many stand.
    fn count(&self) -> u32
        ensures { result ≡ standing (meaning self.now) };

    // How many saves are kept.
    fn kept(&self) -> u32
        ensures { result ≡ kept_of (meaning self.now) };

    // How many saves are free.
    fn free(&self) -> u32
        ensures { result ≡ (meaning self.now).free };

    // The lowest number at or after the place that stands, or none.
    fn first_from(&self, place: u32) -> Option<u32>
        ensures { result ≡ first_at (meaning self.now) place };

    // Keeps what stands as the newest save. Declined where no save is free.
    fn save(&mut self) -> Result<(), Refusal>
        ensures answer { result ≡ save_answer (meaning self.old) }
        ensures after { meaning self.new ≡ after_save (meaning self.old) };

    // Lets stand what stood at the newest save, and takes that save off. Declined where none is kept.
    fn back(&mut self) -> Result<(), Refusal>
        ensures answer { result ≡ back_answer (meaning self.old) }
        ensures after { meaning self.new ≡ after_back (meaning self.old) };

    ghost few: { MOST ≤ 65535 };

    // What is true of every roll's meaning.
    ghost sound: { (x : Self) → Sound MOST (meaning x) };
}
