//! What the machine's moves keep.
ghost use Rattle.c_machine.specs.Laws.{MovesFollow};

/// A move that passes no point leads along the run.
pub fn moves_follow()
    ensures { MovesFollow }
{}
