//! Laws of the memories of circuits.
ghost use Rattle.circuit_agreement.specs.CircuitStores.{ContentsAreShown, FillingBegins, FillingEnds, FillingGoesOn, FoundContents, HostsAreServed, LoadingKeepsArrays, NodesStore, RunsBegin, WordsAreHeld};

/// In a cycle of a block or loop of a compiled program the arrays go on to hold what the clocked run holds, and the cycle in which a loop takes its first values changes none.
pub fn arrays_in_runs()
    ensures nodes { NodesStore }
    ensures loading { LoadingKeepsArrays }
{}

/// While nothing runs the host writes and reads elements as at the box, and nothing else changes; with the cycle of a start the parameters take the arguments. Where the arrays hold what a run has left, the circuit shows just that.
pub fn arrays_between_runs()
    ensures held { WordsAreHeld }
    ensures shown { ContentsAreShown }
    ensures served { HostsAreServed }
    ensures begin { RunsBegin }
{}

/// What the host reaches begins as the memories are found when the power comes up. Behind the cycles of the initial sequence, from a reset on, all at file scope stands as it begins, and what the host reaches is as it was.
pub fn initial_contents()
    ensures found { FoundContents }
    ensures begins { FillingBegins }
    ensures goes_on { FillingGoesOn }
    ensures ends { FillingEnds }
{}
