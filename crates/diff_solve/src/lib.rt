//! The least solution of difference constraints, or a cycle that has none.
#![tactic(auto)]

pub mod solve;
