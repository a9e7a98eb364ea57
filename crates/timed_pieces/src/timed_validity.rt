//! Laws of programs that were given times.
ghost use Rattle.timed_pieces.specs.TimedValidity.{TimesKeepValidity};

/// A program with times is valid exactly where the program without them is.
pub fn times_keep_validity()
    ensures { TimesKeepValidity }
{}
