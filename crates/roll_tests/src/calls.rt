// Calls on a roll, and what is seen of it after each.
use refusal::Refusal;
use roll::Roll;

// A call as data, since tables list calls and scripts draw them at random.
#[derive(Clone, Copy)]
pub(crate) enum Call {
    Begin(u32),
    Strike(u32),
    Save,
    Back,
}

// What a call returned: an answer, or for a strike whether the number stood.
#[derive(Clone, Copy, Debug, PartialEq, Eq)]
pub(crate) enum Returned {
    Answered(Result<(), Refusal>),
    Struck(bool),
}

// What a call returned, and what the roll then tells.
#[derive(Clone, Copy, Debug, PartialEq, Eq)]
pub(crate) struct Seen {
    pub(crate) returned: Returned,
    pub(crate) size: u32,
    pub(crate) count: u32,
    pub(crate) kept: u32,
    pub(crate) free: u32,
}

pub(crate) fn make<R: Roll>(roll: &mut R, call: Call) -> Seen {
    let returned = match call {
        Call::Begin(n) => Returned::Answered(roll.begin(n)),
        Call::Strike(k) => Returned::Struck(roll.strike(k)),
        Call::Save => Returned::Answered(roll.save()),
        Call::Back => Returned::Answered(roll.back()),
    };
    Seen {
        returned,
        size: roll.size(),
        count: roll.count(),
        kept: roll.kept(),
        free: roll.free(),
    }
}
