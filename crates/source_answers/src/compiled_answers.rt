//! Laws of compiled programs.
ghost use Rattle.source_answers.specs.CompiledAnswers.{CompiledProgramsAnswer};

/// The program with times that a source without faults is compiled to answers what the source answers, in exactly the cycles that the formula of its report gives.
pub fn compiled_programs_answer()
    ensures { CompiledProgramsAnswer }
{}
