ghost use Rattle.std.specs.Prelude.{ℕ, ◌≤◌, List};
ghost use Rattle.plan_format.specs.Reading.{Read, repeat};
ghost use Rattle.plan_reader.specs.Outcomes.{Reads};

use crate::reader::Reader;
use crate::short_list::ShortList;
use refusal::Refusal;

// A kind of small number of which files hold lists: a value count, a setting number or a value. The ghost
// member `reading` says how the format reads one, of the bits of a file and told the numbers before it.
pub(crate) trait Item {
    ghost reading: { Self → List ℕ → List ℕ → ℕ → Read ℕ };

    fn read(&self, reader: &mut Reader<'_>, before: &ShortList) -> Result<u8, Refusal>
        ensures { Reads reader.old reader.new result (λ b. reading self.now b before.now) };
}

impl Reader<'_> {
    // A list of `n` items.
    pub(crate) fn list<I: Item>(&mut self, item: &I, n: u16) -> Result<ShortList, Refusal>
        requires { n ≤ 32 }
        ensures { Reads self.old self.new result (λ b. repeat (I.reading item.now b) n) }
    {
        let mut list = ShortList::new();
        for _ in 0..usize::from(n) {
            let one = item.read(self, &list)?;
            list.push(one);
        }
        Ok(list)
    }
}
