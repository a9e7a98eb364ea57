//! What the definition of the longest path fixes.
ghost use Rattle.timing_path.specs.Laws.{LongestIsUnique, NoDelayGivesNoWires};

/// A circuit has only one longest path.
pub fn longest_is_unique()
    ensures { LongestIsUnique }
{}

/// The longest path of a circuit all of whose paths have delay 0 has no wires.
pub fn no_delay_gives_no_wires()
    ensures { NoDelayGivesNoWires }
{}
