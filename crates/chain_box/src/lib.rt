//! The box that a chain of stages is, what it answers item by item, and a stage as a part of a larger circuit. Laws for `chain_link`.
#![tactic(auto)]

pub mod stage_embedding;

ghost use Rattle.chain_box.specs.Laws.{ChainsCompose};
ghost use Rattle.chain_box.specs.Examples.{ExamplesRun};

/// The items taken out are the composed results of the items put in, in order, each once.
pub fn chains_compose()
    ensures { ChainsCompose }
{}

/// Worked runs of two stages.
pub fn examples_run()
    ensures { ExamplesRun }
{}
