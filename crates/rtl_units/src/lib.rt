//! Memories, tables, multipliers and dividers as parts of a circuit.
#![tactic(auto)]

pub mod builder;
mod divider;
mod draft;
pub mod laws;
mod multiplier;
mod table;
