//! Laws of the addresses of memories.
ghost use Rattle.source_validity.specs.AddressedFrames.{CheckedFramesAreAddressed, ExpandedFramesAreAddressable};

/// Addresses of the memories of a program without faults have fewer than 32 bits.
pub fn expanded_frames_are_addressable()
    ensures { ExpandedFramesAreAddressable }
{}

/// So have those of each frame that has what stands beside the blocks of such a program.
pub fn checked_frames_are_addressed()
    ensures { CheckedFramesAreAddressed }
{}
