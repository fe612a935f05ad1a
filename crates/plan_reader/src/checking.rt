ghost use Rattle.std.specs.Prelude.{◌≡◌};
ghost use Rattle.plan_format.specs.Reading.{read};
ghost use Rattle.plan_reader.specs.Checking.{answer, Judges, numbers_of};

use crate::numbers::Numbers;
use crate::reader::Reader;
use refusal::Refusal;

// Reads a file front to back.
fn judge(file: &[u8]) -> Result<Numbers, Refusal>
    ensures { result ≡ answer numbers_of (read file.now) }
{
    let mut reader = Reader::new(file);
    let plan = reader.body()?;
    if !plan.named.has_all(plan.counts.len()) {
        return Err(Refusal::Unnamed(reader.place()));
    }
    if !reader.is_padded() {
        return Err(Refusal::NotPadded(reader.place()));
    }
    let rows = u32::from(plan.rows);
    Ok(Numbers {
        settings: u32::from(plan.counts.len()),
        tables: u32::from(plan.tables),
        rows,
        values: plan.counts.sum(),
        cells: 8 * rows,
    })
}

// Whether a file is a plan file: how large its plan is, or the first reason why it is none.
pub fn check(file: &[u8]) -> Result<Numbers, Refusal>
    ensures answers { result ≡ answer numbers_of (read file.now) }
    ensures judges { Judges file.now result }
{
    judge(file)
}
