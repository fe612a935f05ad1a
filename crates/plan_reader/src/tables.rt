ghost use Rattle.std.specs.Prelude.{◌≡◌, ◌+◌, ◌≤◌, IfOk, List};
ghost use Rattle.model.specs.Plan.{Table, rows_in};
ghost use Rattle.plan_format.specs.Reading.{repeat, table as table_of};
ghost use Rattle.plan_reader.specs.Heads.{HeadOf, HeadOfTables};
ghost use Rattle.plan_reader.specs.Outcomes.{Keeps};

use crate::named::Named;
use crate::reader::Reader;
use crate::rows::Columns;
use crate::scope::Setting;
use crate::short_list::ShortList;
use refusal::Refusal;

// What is kept of a table that was read: its scope, and how many rows it has.
#[derive(Drop)]
pub(crate) struct TableHead {
    pub(crate) scope: ShortList,
    pub(crate) rows: u16,
}

// What is kept of all tables: which settings they name, and how many rows they have together.
#[derive(Clone, Copy)]
pub(crate) struct TablesHead {
    pub(crate) named: Named,
    pub(crate) rows: u16,
}

impl Reader<'_> {
    // A table, where those before it have `earlier` rows.
    fn table(&mut self, counts: &ShortList, earlier: u16) -> Result<TableHead, Refusal>
        requires { earlier ≤ 4096 }
        ensures keeps { (before : List Table) → rows_in before ≡ earlier → Keeps HeadOf self.old self.new result (λ b. table_of b counts.now before) }
        ensures few { IfOk result (λ head. earlier + head.rows ≤ 4096) }
    {
        let width = self.ranged(4, 1, 8)?;
        let scope = self.list(&Setting { counts }, width)?;
        let place = self.place();
        let rows = self.ranged(10, 0, 512)?;
        if earlier + rows > 4096 {
            return Err(Refusal::TooManyRows(place));
        }
        let columns = Columns {
            counts,
            scope: &scope,
        };
        self.rows(columns, rows)?;
        Ok(TableHead { scope, rows })
    }

    // `count` tables.
    pub(crate) fn tables(&mut self, counts: &ShortList, count: u16) -> Result<TablesHead, Refusal>
        ensures { Keeps HeadOfTables self.old self.new result (λ b. repeat (table_of b counts.now) count) }
    {
        let mut named = Named::none();
        let mut rows = 0;
        for _ in 0..count {
            let table = self.table(counts, rows)?;
            named.add(table.scope.as_slice());
            rows += table.rows;
        }
        Ok(TablesHead { named, rows })
    }
}
