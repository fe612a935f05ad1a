ghost use Rattle.std.specs.Prelude.{◌≡◌, ℕ, ◌<◌, ◌≤◌, length, slice_index};
ghost use Rattle.ordered_roll.specs.Places.{list_after, place_after};

// The numbers below the size, each once, and the place of each in that list. Each array leads back from the other,
// so they are no columns of one table.
#[derive(Drop)]
pub(crate) struct Lists {
    pub(crate) list: [u16; 1024],
    pub(crate) place: [u16; 1024],
}

impl Lists {
    // Lists the numbers below n in ascending order.
    pub(crate) fn fill(&mut self, n: u16)
        requires { n ≤ 1024 }
        ensures list { (i : ℕ) → i < n → slice_index self.new.list i ≡ i }
        ensures place { (i : ℕ) → i < n → slice_index self.new.place i ≡ i }
    {
        ascend(&mut self.list[..usize::from(n)]);
        ascend(&mut self.place[..usize::from(n)]);
    }

    // Moves k to the place q, and the number that was there to the place of k.
    pub(crate) fn exchange(&mut self, k: u16, q: u16)
        requires number { k < 1024 }
        requires place { q < 1024 }
        requires place_of_number { slice_index self.old.place k < 1024 }
        requires number_at_place { slice_index self.old.list q < 1024 }
        ensures list { self.new.list ≡ list_after self.old.list self.old.place k q }
        ensures place { self.new.place ≡ place_after self.old.list self.old.place k q }
    {
        let p = self.place[usize::from(k)];
        let other = self.list[usize::from(q)];
        self.list[usize::from(p)] = other;
        self.list[usize::from(q)] = k;
        self.place[usize::from(other)] = p;
        self.place[usize::from(k)] = q;
    }
}

// Writes each number at its own place.
fn ascend(numbers: &mut [u16])
    requires { length numbers.old ≤ 1024 }
    ensures { (i : ℕ) → i < length numbers.old → slice_index numbers.new i ≡ i }
{
    for (i, number) in numbers.iter_mut().enumerate() {
        *number = i as u16; // below 1,024
    }
}
