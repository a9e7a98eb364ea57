//! Trees of blocks whose programs are what schedules take for granted: operands name what is there, accesses and sums are checked, and loop nodes have results of their own for what they set.
#![tactic(auto)]

pub mod laws;
pub mod valid_programs;
