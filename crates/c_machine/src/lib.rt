//! A machine that runs C programs move by move: what it holds, and that it follows the run that the definition gives.
#![tactic(auto)]

pub mod laws;
pub mod state;
pub mod waiting;
