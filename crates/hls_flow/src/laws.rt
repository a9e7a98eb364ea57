//! Laws of what is refused.
ghost use Rattle.hls_flow.specs.Laws.{AcceptedHasNoFault};

/// A source that is accepted has no first fault.
pub fn accepted_has_no_fault()
    ensures { AcceptedHasNoFault }
{}
