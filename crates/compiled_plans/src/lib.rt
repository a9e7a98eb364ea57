//! Plans of compiled programs are as the circuit takes for granted.
#![tactic(auto)]

pub mod laws;
pub mod valid_nodes;
