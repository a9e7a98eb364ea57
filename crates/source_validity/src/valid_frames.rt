//! Laws of the frames of expanded programs.
ghost use Rattle.source_validity.specs.ValidFrames.{ExpandedFramesAreValid};

/// The frame of an expanded program is valid, where its parameters, kept scalars and arrays are as expansions have them, and there are numbers enough for its variables and memories.
pub fn expanded_frames_are_valid()
    ensures { ExpandedFramesAreValid }
{}
