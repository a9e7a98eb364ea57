//! Laws of the numbers that objects hold.
ghost use Rattle.expanded_programs.specs.ElaboratedPrograms.StoredNumbers.{RunsHoldNumbers, CallsAndBlocksBeginWithNumbers, PartsKeepNumbers, RunsLeaveWords};

/// In a program without faults, a run whose inputs fit starts with numbers of their types, and ends with such.
pub fn runs_hold_numbers()
    ensures { RunsHoldNumbers }
{}

/// A call begins with such numbers in its parameters, and a block with objects that are not written.
pub fn calls_and_blocks_begin_with_numbers()
    ensures { CallsAndBlocksBeginWithNumbers }
{}

/// Each part of a run of any program leaves numbers of their types, if it begins with such.
pub fn parts_keep_numbers()
    ensures { PartsKeepNumbers }
{}

/// The result of a run is a word of its type, and the elements and the contents of file scope that it leaves are again what a run may be started with.
pub fn runs_leave_words()
    ensures { RunsLeaveWords }
{}
