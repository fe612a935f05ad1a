// The plan as a model: what a plan is and which rules it keeps. Everything above speaks of it.
#![tactic(auto)]

ghost use Rattle.model.specs.Tests.{TestsDecide};

// Two rules are decided by tests: that a row is below another, and that every setting is named.
pub fn decides_the_rules()
    ensures { TestsDecide }
{}
