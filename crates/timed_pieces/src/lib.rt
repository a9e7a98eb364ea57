//! Times keep runs, and the report's formula gives their cycles.
#![tactic(auto)]

pub mod flat_runs;
pub mod formula_cycles;
pub mod fused_programs;
pub mod laws;
pub mod schedule_runs;
pub mod sound_programs;
pub mod started_words;
pub mod timed_validity;
