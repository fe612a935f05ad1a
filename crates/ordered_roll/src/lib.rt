// The ordered kind of roll: the standing numbers are listed in front of the others (a sparse set), and a save
// notes only how many stood.
#![tactic(auto)]

ghost use Rattle.ordered_roll.specs.Ordered.{ListedOnce};

mod lists;
mod ordered;

pub use ordered::OrderedRoll;

// An ordered roll lists each number below its size once, and no other.
pub fn listed_once()
    ensures { ListedOnce }
{}
