//! Laws of the tests of loops.
ghost use Rattle.lowered_shapes.specs.LoopTests.{NumberedTestsStand, OnlyBitsFollowTests};

/// The numbered block of a test sets nothing, and behind the operation that makes the test no other one may be undefined or stores.
pub fn numbered_tests_stand()
    ensures { NumberedTestsStand }
{}

/// The operations behind the one that makes the test only make bits.
pub fn only_bits_follow_tests()
    ensures { OnlyBitsFollowTests }
{}
