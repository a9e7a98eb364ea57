//! The least times of a block's operations.
#![tactic(auto)]

pub mod order;
pub mod schedule;
