//! Laws of circuits.
ghost use Rattle.datapath.specs.Blocks.{BlocksBegin, BlocksLeave, BlocksStep};
ghost use Rattle.datapath.specs.Laws.{GoesOn, LeavesBlocks, LeavesLoops, Loads, ResetsAlways, Sequences, Starts, Stays, StaysInLoops, Waits};
ghost use Rattle.datapath.specs.Netlists.{ReducedIsCircuit};

/// From all contents, and whatever the pins, a circuit goes on.
pub fn circuits_go_on()
    ensures { GoesOn }
{}

/// A netlist that is a circuit still is it where registers and wires were left out on which no output, no memory and no other register depends.
pub fn reduced_law()
    ensures { ReducedIsCircuit }
{}

/// The controller comes to its first state in a cycle of reset, from whatever its registers hold, and no memory is changed then. The initial sequence takes its cycles. The controller waits for a start, enters the first node with it, begins the time of a loop one cycle later, and is in a block until its last cycle, and in a loop until that is left; from there it goes where the end of the block leads, or to what follows the loop.
pub fn controller_law()
    ensures resets { ResetsAlways }
    ensures sequence { Sequences }
    ensures waits { Waits }
    ensures starts { Starts }
    ensures loads { Loads }
    ensures stays { Stays }
    ensures leaves { LeavesBlocks }
    ensures stays_in_loops { StaysInLoops }
    ensures leaves_loops { LeavesLoops }
{}

/// In a block of simple operations one edge of the clock is one step of the clocked run: the registers go on to hold what the run holds of variables that are read and of results that are still read, and behind the last cycle the variables that are read again and the result have their values in the run.
pub fn block_law()
    ensures begins { BlocksBegin }
    ensures steps { BlocksStep }
    ensures leaves { BlocksLeave }
{}
