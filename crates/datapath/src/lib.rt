//! The circuit that a timed program stands for, as definitions, and the numbers and places that its plan has.
#![tactic(auto)]

pub mod circuit_wires;
pub mod laws;
pub mod places;
pub mod plan_sizes;
