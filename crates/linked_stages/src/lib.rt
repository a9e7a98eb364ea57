//! The promise of `synth` joined with that of `link`: a law on compiled stages that are linked.
#![tactic(auto)]

ghost use Rattle.linked_stages.specs.LinkedStages.{CompiledStagesCompose};

/// A circuit that links compiled stages agrees with the chain of their runs in C, and what is taken out of it is their composed results, in order, each once.
pub fn compiled_stages_compose()
    ensures { CompiledStagesCompose }
{}
