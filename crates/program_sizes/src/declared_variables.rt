//! Laws of the variables of expanded programs.
ghost use Rattle.program_sizes.specs.DeclaredVariables.{VariablesAreCounted};

/// What a program is expanded to has no more variables than it has weight, parameters of its top function, and a result.
pub fn variables_are_counted()
    ensures { VariablesAreCounted }
{}
