ghost use Rattle.plan_format.specs.Reading.{body as body_of};
ghost use Rattle.plan_reader.specs.Heads.{HeadOfPlan};
ghost use Rattle.plan_reader.specs.Outcomes.{Keeps};

use crate::named::Named;
use crate::reader::Reader;
use crate::short_list::ShortList;
use refusal::Refusal;

// What is kept of a plan that was read: its value counts, which settings are named, and how many tables and rows it has.
#[derive(Drop)]
pub(crate) struct PlanHead {
    pub(crate) counts: ShortList,
    pub(crate) named: Named,
    pub(crate) tables: u16,
    pub(crate) rows: u16,
}

impl Reader<'_> {
    // Header and tables.
    pub(crate) fn body(&mut self) -> Result<PlanHead, Refusal>
        ensures { Keeps HeadOfPlan self.old self.new result body_of }
    {
        let counts = self.header()?;
        let tables = self.ranged(5, 1, 16)?;
        let head = self.tables(&counts, tables)?;
        Ok(PlanHead {
            counts,
            named: head.named,
            tables,
            rows: head.rows,
        })
    }
}
