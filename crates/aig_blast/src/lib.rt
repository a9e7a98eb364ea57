//! The and-inverter graph of a circuit.
#![tactic(auto)]

pub mod blast;
mod given;
mod latches;
pub mod laws;
pub mod literals;
mod memories;
mod net;
mod pair;
#[cfg(test)]
mod tests;
mod weight;
mod wires;
