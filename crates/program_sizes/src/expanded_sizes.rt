//! Laws of the sizes of expanded programs.
ghost use Rattle.program_sizes.specs.ExpandedSizes.{ExpansionsAreSmall, ExpansionsAreWeighed};

/// What a program is expanded to weighs no more than its expansion, has few places behind calls that were left, and has few enough variables and arrays that there are numbers for them.
pub fn expansions_are_small()
    ensures { ExpansionsAreSmall }
{}

/// The pieces of a program weigh no more than it does, and are gone on with behind at most one call more than weighs.
pub fn expansions_are_weighed()
    ensures { ExpansionsAreWeighed }
{}
