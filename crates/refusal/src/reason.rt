ghost use Rattle.std.specs.Prelude.{◌≡◌};
ghost use Rattle.refusal.specs.Refusals.{number_of, place_of, words_of};

use std::error::Error;
use std::fmt;

// Why a call of the filter is declined: one case for each reason. A refusal of a plan file holds the
// bit place that it is about; the first bit of the file has the place 0.
#[derive(Clone, Copy, Debug, PartialEq, Eq)]
pub enum Refusal {
    // The file ends inside the number at this place.
    CutShort(u32),
    // The number at this place is out of its range.
    OutOfRange(u32),
    // The setting number or the row that begins at this place is not above the one before it.
    NotAscending(u32),
    // With the row count at this place, the plan has more than 4,096 rows.
    TooManyRows(u32),
    // No table, up to this place after the last one, names some setting.
    Unnamed(u32),
    // Something else than padding follows from this place on, after the last table.
    NotPadded(u32),
    // A setting, value, table or row is not in the plan, or a row's partner is sought in its own table.
    NotInPlan,
    // There are too few cells or too few table records for the plan.
    NoRoom,
    // A roll does not take that many numbers.
    AboveMost,
    // The rolls are not those of the worked plan: another size, or another number of saves.
    OtherRolls,
    // No save is free.
    NoSaveFree,
    // No save is kept that could be returned to.
    NoSaveKept,
    // The command is not for this state.
    NotNow,
    // The line is no command.
    NoCommand,
}

impl Refusal {
    // The number by which the refusal is told; no cast gives it, since some cases hold a place.
    pub fn number(&self) -> u8
        ensures { result ≡ number_of self.now }
    {
        match self {
            Refusal::CutShort(_) => 1,
            Refusal::OutOfRange(_) => 2,
            Refusal::NotAscending(_) => 3,
            Refusal::TooManyRows(_) => 4,
            Refusal::Unnamed(_) => 5,
            Refusal::NotPadded(_) => 6,
            Refusal::NotInPlan => 7,
            Refusal::NoRoom => 8,
            Refusal::AboveMost => 9,
            Refusal::OtherRolls => 10,
            Refusal::NoSaveFree => 11,
            Refusal::NoSaveKept => 12,
            Refusal::NotNow => 13,
            Refusal::NoCommand => 14,
        }
    }

    // The bit place that is told with it, for a refusal of a plan file.
    pub fn place(&self) -> Option<u32>
        ensures { result ≡ place_of self.now }
    {
        match self {
            Refusal::CutShort(place)
            | Refusal::OutOfRange(place)
            | Refusal::NotAscending(place)
            | Refusal::TooManyRows(place)
            | Refusal::Unnamed(place)
            | Refusal::NotPadded(place) => Some(*place),
            _ => None,
        }
    }

    // What is wrong, in words.
    pub fn words(&self) -> &'static str
        ensures { result.now ≡ words_of self.now }
    {
        match self {
            Refusal::CutShort(_) => "the file ends inside the number that begins here",
            Refusal::OutOfRange(_) =>
                "the number here is out of its range: the edition is not 1, or a count, a width, a setting number or a value is too low or too high",
            Refusal::NotAscending(_) =>
                "the setting number or the row that begins here is not above the one before it in its table",
            Refusal::TooManyRows(_) =>
                "with the row count here the tables have more than 4096 rows",
            Refusal::Unnamed(_) => "the tables end here, and some setting is named by none of them",
            Refusal::NotPadded(_) =>
                "the tables end here, and something else follows than zero bits up to the end of the byte",
            Refusal::NotInPlan =>
                "a setting, value, table or row is not in the plan, or a partner is sought in the row's own table",
            Refusal::NoRoom => "there are too few cells or too few table records for the plan",
            Refusal::AboveMost => "the roll does not take so many numbers",
            Refusal::OtherRolls =>
                "the rolls are not those of the worked plan: a size or a number of saves differs",
            Refusal::NoSaveFree => "a roll has no save free",
            Refusal::NoSaveKept => "there is no save to return to",
            Refusal::NotNow => "the command is not for this state",
            Refusal::NoCommand => "the line is no command",
        }
    }
}

impl fmt::Display for Refusal {
    ghost use Rattle.std.specs.Prelude.{Some};

    ghost output = { λ refusal. Some (words_of refusal) };

    fn fmt<W: fmt::Write>(&self, f: &mut fmt::Formatter<W>) -> fmt::Result {
        f.write_str(self.words())
    }
}

impl Error for Refusal {}
