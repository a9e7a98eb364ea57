//! The multipliers and dividers of a circuit.

pub mod units;
pub mod uses;
