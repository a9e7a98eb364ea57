//! Laws of scheduled pieces.
ghost use Rattle.timed_pieces.specs.Laws.{ScheduledPiecesKeepRuns};

/// Where a run of pieces ends, the clocked run of the program that they are compiled to ends with the word of its result, and in exactly the cycles of its nodes; where it never ends, neither does the clocked run.
pub fn scheduled_pieces_keep_runs()
    ensures { ScheduledPiecesKeepRuns }
{}
