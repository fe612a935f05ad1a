// Rolls: which numbers below a size stand, with saves to go back to. A roll is an interface, the trait
// `Roll`; its kinds are in crates of their own.
#![tactic(auto)]

ghost use Rattle.roll.specs.Examples.{Examples};
ghost use Rattle.roll.specs.Laws.{BackUndoes, CountsStanding, FirstIsLowest, RefusalsNumbered, StrikesExactly};

mod generic;
mod interface;

pub use generic::{begin_both, strike_all};
pub use interface::Roll;

// Back undoes what was struck since the save.
pub fn back_undoes()
    ensures { BackUndoes }
{}

// How many stand is the number of those that stand.
pub fn counts_standing()
    ensures { CountsStanding }
{}

// The worked examples hold.
pub fn examples_hold()
    ensures { Examples }
{}

// The first number from a place on is the lowest of those that stand there.
pub fn first_is_lowest()
    ensures { FirstIsLowest }
{}

// Which calls are declined, with which number; a declined call alters nothing.
pub fn refusals_numbered()
    ensures { RefusalsNumbered }
{}

// Strikes take out just the numbers struck.
pub fn strikes_exactly()
    ensures { StrikesExactly }
{}
