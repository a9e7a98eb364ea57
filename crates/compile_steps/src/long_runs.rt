//! The law of runs that end.
ghost use Rattle.compile_steps.specs.LongRuns.{EndedRunsAreLong};

/// A run that ends passes the point of its function, and this is the point of the first node: so it takes a cycle there, beside the first.
pub fn ended_runs_are_long()
    ensures { EndedRunsAreLong }
{}
