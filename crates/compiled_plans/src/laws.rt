//! Laws of the plans of compiled programs.
ghost use Rattle.compiled_plans.specs.Laws.{FramesAreSound, SavingsAreSafe, PlansAreCompiled};

/// Arrays that the host reaches come first, what file scope keeps fills its arrays, and parameters and scalars that stay have variables of their own.
pub fn frames_are_sound()
    ensures { FramesAreSound }
{}

/// No value is left out that is read again, and cases that are taken in any order exclude each other.
pub fn savings_are_safe()
    ensures { SavingsAreSafe }
{}

/// The plan of a program that is laid out and scheduled from fine pieces, with registers for its results, is compiled.
pub fn plans_are_compiled()
    ensures { PlansAreCompiled }
{}
