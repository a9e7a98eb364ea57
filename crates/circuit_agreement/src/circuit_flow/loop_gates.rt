//! Laws of the registers that all loops share.
ghost use Rattle.circuit_agreement.specs.CircuitFlow.LoopGates.{GatesBegin, GatesStep, LoopsCount, LoopsLeave, LoopsStore, IterationsAreAt, BlocksRun, BlocksRunOn, BlocksStore, LoopsBegin, LoopsGoOn, LoopsLead, BlocksGoOn};

/// As the time of a loop begins its gates are open, and no interval has passed.
pub fn gates_begin()
    ensures { GatesBegin }
{}

/// Gates and counters stay those of the clocked run.
pub fn gates_step()
    ensures { GatesStep }
{}

/// The intervals of a loop are counted.
pub fn loops_count()
    ensures { LoopsCount }
{}

/// A loop is left where the clocked run leaves it.
pub fn loops_leave()
    ensures { LoopsLeave }
{}

/// A store of a loop is let through where it starts in the clocked run.
pub fn loops_store()
    ensures { LoopsStore }
{}

/// An iteration is at a time as in the clocked run.
pub fn iterations_are_at()
    ensures { IterationsAreAt }
{}

/// The one iteration of a block runs.
pub fn blocks_run()
    ensures { BlocksRun }
{}

/// It runs until the block ends.
pub fn blocks_run_on()
    ensures { BlocksRunOn }
{}

/// A store of a block is let through where it starts.
pub fn blocks_store()
    ensures { BlocksStore }
{}

/// The time of a loop begins.
pub fn loops_begin()
    ensures { LoopsBegin }
{}

/// A loop that is not left goes on.
pub fn loops_go_on()
    ensures { LoopsGoOn }
{}

/// A loop that is left leads to the next node.
pub fn loops_lead()
    ensures { LoopsLead }
{}

/// A block goes on until its last cycle.
pub fn blocks_go_on()
    ensures { BlocksGoOn }
{}
