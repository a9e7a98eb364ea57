//! Laws of what is logged.
ghost use Rattle.fsm_datapath.specs.LoggedWrites.{LoggedForRegisters, LoggedNowhereElse, UnnamedAreGivenNothing, UnnamedMayTake};

/// For a register that a circuit has is logged what the plan gives it.
pub fn logged_for_registers()
    ensures { LoggedForRegisters }
{}

/// For other registers nothing is logged.
pub fn logged_nowhere_else()
    ensures { LoggedNowhereElse }
{}

/// Registers for values that a circuit does not have are given nothing.
pub fn unnamed_are_given_nothing()
    ensures { UnnamedAreGivenNothing }
{}

/// A register that a circuit leaves out may take something of its width in each cycle.
pub fn unnamed_may_take()
    ensures { UnnamedMayTake }
{}
