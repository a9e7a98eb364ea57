//! Of a source: what its clocked run and its circuit answer, in how many cycles.
#![tactic(auto)]

pub mod compiled_answers;
pub mod ended_loops;
pub mod laws;
pub mod node_points;
pub mod source_cycles;
pub mod source_designs;
pub mod source_runs;
