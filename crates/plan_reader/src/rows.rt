ghost use Rattle.std.specs.Prelude.{◌≡◌, ℕ, List, length};
ghost use Rattle.plan_format.specs.Reading.{repeat, row as row_of, value as value_of};
ghost use Rattle.plan_reader.specs.Rows.{above, Last};
ghost use Rattle.plan_reader.specs.Outcomes.{Keeps, Reads};

use crate::items::Item;
use crate::reader::Reader;
use crate::short_list::ShortList;
use refusal::Refusal;

// The columns of a table: the settings of its scope, among settings of these value counts.
#[derive(Clone, Copy)]
pub(crate) struct Columns<'a> {
    pub(crate) counts: &'a ShortList,
    pub(crate) scope: &'a ShortList,
}

// A value of a row, in the column after the values before it.
impl Item for Columns<'_> {
    ghost reading = { λ c b before. value_of b c.counts.now c.scope.now before };

    fn read(&self, reader: &mut Reader<'_>, before: &ShortList) -> Result<u8, Refusal> {
        let setting = self.scope.at(before.as_slice().len());
        reader.below(self.counts.at(usize::from(setting)))
    }
}

// Whether a row is above the one before it, if there is one. `cmp` goes past equal values faster than `<`, which
// finds an order for each pair of them.
fn is_above(last: &Option<ShortList>, row: &ShortList) -> bool
    ensures { result ≡ above last.now row.now }
{
    match last {
        Some(last) => last.as_slice().cmp(&row.as_slice()).is_lt(),
        None => true,
    }
}

impl Reader<'_> {
    // A row, above the last one before it.
    fn row(&mut self, columns: Columns<'_>, last: &Option<ShortList>) -> Result<ShortList, Refusal>
        ensures { (before : List (List ℕ)) → Last before last.now → Reads self.old self.new result (λ b. row_of b columns.entry.counts.now columns.entry.scope.now before) }
    {
        let place = self.place();
        let row = self.list(&columns, u16::from(columns.scope.len()))?;
        if !is_above(last, &row) {
            return Err(Refusal::NotAscending(place));
        }
        Ok(row)
    }

    // `count` rows, ascending.
    pub(crate) fn rows(&mut self, columns: Columns<'_>, count: u16) -> Result<(), Refusal>
        ensures { Keeps (λ _ rows. length rows ≡ count) self.old self.new result (λ b. repeat (row_of b columns.entry.counts.now columns.entry.scope.now) count) }
    {
        let mut last = None;
        for _ in 0..count {
            let row = self.row(columns, &last)?;
            last = Some(row);
        }
        Ok(())
    }
}
