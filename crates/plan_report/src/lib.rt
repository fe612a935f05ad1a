// What is told of a file: that it is a plan file and how large its plan is, or why it is none.
#![tactic(auto)]

ghost use Rattle.std.specs.Prelude.{◌≡◌, IfOk, Some, string_bytes};
ghost use Rattle.plan_format.specs.Reading.{read};
ghost use Rattle.plan_report.specs.Report.{answer_text, report_text};

use plan_reader::{Numbers, check};
use refusal::Refusal;
use std::alloc::{AllocError, Global};
use std::fmt;

// What checking a file answers, shown in lines for people.
#[derive(Drop)]
struct Answer(Result<Numbers, Refusal>);

impl fmt::Display for Answer {
    ghost output = { λ answer. Some (answer_text answer.0) };

    fn fmt<W: fmt::Write>(&self, f: &mut fmt::Formatter<W>) -> fmt::Result {
        match self.0 {
            Ok(numbers) => {
                let Numbers {
                    settings,
                    tables,
                    rows,
                    values,
                    cells,
                } = numbers;
                write!(
                    f,
                    "a plan file\nsettings: {settings}\ntables: {tables}\nrows: {rows}\nvalues: {values}\ncells to reserve: {cells}\n"
                )
            }
            Err(refusal) => {
                let number = refusal.number();
                write!(f, "no plan file\nrefusal: {number}")?;
                if let Some(place) = refusal.place() {
                    write!(f, "\nbit place: {place}")?;
                }
                write!(f, "\n{refusal}\n")
            }
        }
    }
}

// The lines that tell what a file is.
pub fn report(heap: Global, file: &[u8]) -> Result<String, AllocError>
    ensures { IfOk result (λ text. string_bytes text ≡ report_text (read file.now)) }
{
    Answer(check(file)).to_string(heap)
}

#[cfg(test)]
mod tests {
    use super::*;
    use std::process::Abort;
    use std::test::Fail;

    fn told(rt: &impl Abort, heap: Global, file: &[u8], text: &str) -> Result<(), Fail> {
        let report = report(heap, file)?;
        assert_eq!(rt; report.as_str(), text);
        Ok(())
    }

    // One setting with one value, and one table on it without rows.
    #[test]
    fn tells_the_numbers(rt: HostRuntime) -> Result<(), Fail> {
        told(
            &rt,
            rt.alloc(),
            &[0x01, 0x04, 0x10, 0x88, 0x00, 0x00],
            "a plan file\nsettings: 1\ntables: 1\nrows: 0\nvalues: 1\ncells to reserve: 0\n",
        )
    }

    #[test]
    fn tells_of_an_empty_file(rt: HostRuntime) -> Result<(), Fail> {
        told(
            &rt,
            rt.alloc(),
            &[],
            "no plan file\nrefusal: 1\nbit place: 0\nthe file ends inside the number that begins here\n",
        )
    }

    // The same plan file with a bit of its padding set.
    #[test]
    fn tells_of_a_damaged_file(rt: HostRuntime) -> Result<(), Fail> {
        told(
            &rt,
            rt.alloc(),
            &[0x01, 0x04, 0x10, 0x88, 0x00, 0x01],
            "no plan file\nrefusal: 6\nbit place: 44\nthe tables end here, and something else follows than zero bits up to the end of the byte\n",
        )
    }
}
