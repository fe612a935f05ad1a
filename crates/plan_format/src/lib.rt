// The format of plan files: what a plan file is, how one is read, and the laws that tie the two.
#![tactic(auto)]

ghost use Rattle.plan_format.specs.Examples.{Examples};
ghost use Rattle.plan_format.specs.Laws.{OneFile, OnePlan, ReadsExactly, ReadsNoFurther, RefusalsPlaced, RefusesTheRest};

// The worked examples hold.
pub fn examples_hold()
    ensures { Examples }
{}

// A file is read as a plan exactly where the plan keeps the rules and the file spells it.
pub fn reads_exactly()
    ensures { ReadsExactly }
{}

// A file is refused exactly where it is the file of no plan that keeps the rules.
pub fn refuses_the_rest()
    ensures { RefusesTheRest }
{}

// A file's refusal has a number from 1 to 6 and a bit place in the file.
pub fn refusals_have_places()
    ensures { RefusalsPlaced }
{}

// The first 65,536 bytes of a file are enough.
pub fn reads_no_further()
    ensures { ReadsNoFurther }
{}

// A file is the file of at most one plan.
pub fn has_one_plan()
    ensures { OnePlan }
{}

// A plan has exactly one file.
pub fn has_one_file()
    ensures { OneFile }
{}
