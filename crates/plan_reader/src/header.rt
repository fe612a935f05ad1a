ghost use Rattle.plan_format.specs.Reading.{header as header_of, ranged as ranged_of};
ghost use Rattle.plan_reader.specs.Outcomes.{Reads};

use crate::items::Item;
use crate::reader::Reader;
use crate::short_list::ShortList;
use refusal::Refusal;

// How many values a setting has.
struct ValueCount;

impl Item for ValueCount {
    ghost reading = { λ _ b _. ranged_of b 6 1 32 };

    fn read(&self, reader: &mut Reader<'_>, _before: &ShortList) -> Result<u8, Refusal> {
        let count = reader.ranged(6, 1, 32)?;
        Ok(count as u8) // at most 32
    }
}

impl Reader<'_> {
    // Edition, setting count and value counts.
    pub(crate) fn header(&mut self) -> Result<ShortList, Refusal>
        ensures { Reads self.old self.new result header_of }
    {
        self.ranged(8, 1, 1)?;
        let n = self.ranged(6, 1, 32)?;
        self.list(&ValueCount, n)
    }
}
