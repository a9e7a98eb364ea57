//! The memories, tables, multipliers and dividers of a circuit, and what operations ask of them.
#![tactic(auto)]

pub mod demands;
pub mod memories;
pub mod units;
