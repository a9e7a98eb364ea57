//! The interpreter of C programs.
#![tactic(auto)]

mod behind;
pub mod execution;
pub mod passing;
mod step;
