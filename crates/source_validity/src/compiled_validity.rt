//! Laws of compiled programs that are valid.
ghost use Rattle.source_validity.specs.CompiledValidity.{LaidOutExpansionsAreValid, SourcesCompileToValid};

/// The flat program that proper pieces are compiled to is valid, beside a valid frame.
pub fn laid_out_expansions_are_valid()
    ensures { LaidOutExpansionsAreValid }
{}

/// So is that of each source without faults.
pub fn sources_compile_to_valid()
    ensures { SourcesCompileToValid }
{}
