//! Flat programs run as their trees; their memories, and a machine that runs one operation after another.
#![tactic(auto)]

pub mod layout_runs;
pub mod machine;
pub mod memory;
