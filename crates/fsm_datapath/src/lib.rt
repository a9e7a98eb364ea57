//! The circuit of a timed program, put together, and that it is the circuit of its plan.
#![tactic(auto)]

pub mod assembled_circuits;
pub mod beginnings;
pub mod build;
pub mod circuit_parts;
pub mod ends;
pub mod logged_writes;
mod nodes;
mod outputs;
mod parts;
pub mod places;
mod pushes;
pub mod sources;
mod ways;
