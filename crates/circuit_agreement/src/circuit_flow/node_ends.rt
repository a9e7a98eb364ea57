//! Laws of variables and results, and of the ends of nodes.
ghost use Rattle.circuit_agreement.specs.CircuitFlow.NodeEnds.{VariablesStay, VariablesStayInBlocks, VariablesStayLoading, VariablesStayWaiting, BlocksHandOn, LoopsHandOn, ComparisonsBegin, ComparisonsStay, BlocksEnter};

/// A node that is not left changes no variable.
pub fn variables_stay()
    ensures { VariablesStay }
{}

/// A block changes none before its last cycle.
pub fn variables_stay_in_blocks()
    ensures { VariablesStayInBlocks }
{}

/// A loop that takes its first values changes none.
pub fn variables_stay_loading()
    ensures { VariablesStayLoading }
{}

/// None changes while the circuit waits.
pub fn variables_stay_waiting()
    ensures { VariablesStayWaiting }
{}

/// A block hands on what its variables hold in the clocked run.
pub fn blocks_hand_on()
    ensures { BlocksHandOn }
{}

/// So does a loop, from the iteration before the one that does not run.
pub fn loops_hand_on()
    ensures { LoopsHandOn }
{}

/// As a block begins no comparison was made.
pub fn comparisons_begin()
    ensures { ComparisonsBegin }
{}

/// Comparisons that were made hold on.
pub fn comparisons_stay()
    ensures { ComparisonsStay }
{}

/// A block is left for the node to which its end leads.
pub fn blocks_enter()
    ensures { BlocksEnter }
{}
