//! Lowering and conversion keep runs: laws over the definitions in `passes`.
#![tactic(auto)]

pub mod convert_runs;
pub mod lower_runs;
