//! Laws of lowered blocks.
ghost use Rattle.pass_runs.specs.LowerRuns.{ConditionsAreComputed, PutsAreShown, SetsAreShown, ValuesAreComputed};

/// Where an expression has a value, the operations that it is lowered to give it, and none of them has a fault.
pub fn values_are_computed()
    ensures { ValuesAreComputed }
{}

/// Where a condition has a value, the operations that it is lowered to give the bit that says whether it holds.
pub fn conditions_are_computed()
    ensures { ConditionsAreComputed }
{}

/// Behind a variable that is set the block shows the store in which it has the value.
pub fn sets_are_shown()
    ensures { SetsAreShown }
{}

/// Behind an element that is written the block shows the store in which it has the value.
pub fn puts_are_shown()
    ensures { PutsAreShown }
{}
