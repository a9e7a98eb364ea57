//! Laws of what clocked runs answer.
ghost use Rattle.source_answers.specs.Laws.{SourceProgramsAnswer};

/// The clocked run of a program that is laid out and scheduled from the pieces of a source without faults answers what the source answers, from all words that hold its inputs: where the run in C ends, it ends with the same result, elements and contents of file scope, after exactly the cycles of its nodes, which are those of the report's formula; where the run in C goes on for ever, so does it.
pub fn source_programs_answer()
    ensures { SourceProgramsAnswer }
{}
