//! Laws of the designs of sources.
ghost use Rattle.source_answers.specs.SourceDesigns.{SourceDesignsAgree};

/// A netlist that agrees with the clocked run of the plan of a source without faults agrees with the box of its top function: with the pins of the function, the first contents of the program's file scope, the initial cycles of the report, and the answers of C.
pub fn source_designs_agree()
    ensures { SourceDesignsAgree }
{}
