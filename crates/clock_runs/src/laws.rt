//! Laws of timed programs.
ghost use Rattle.clock_runs.specs.Laws.{TimesKeepRuns};

/// A well timed program, run cycle by cycle, ends with the word and the contents with which its blocks end, run one after another, and does so in exactly the cycles of its nodes and one more; where they never end, neither does it. Overlapped iterations behind the one whose test fails leave nothing.
pub fn times_keep_runs()
    ensures { TimesKeepRuns }
{}
