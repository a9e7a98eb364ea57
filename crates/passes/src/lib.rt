//! What lowering, numbering and conversion make of blocks, as definitions, how large that is, and what numbering keeps.
#![tactic(auto)]

pub mod distinct_operations;
pub mod number_runs;
