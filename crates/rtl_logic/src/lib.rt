//! The wires of a circuit, made once for each expression; tables; the wires of operations.
#![tactic(auto)]

mod fold;
mod key;
pub mod logic;
mod nets;
pub mod numbers;
pub mod operations;
pub mod prune;
pub mod select;
pub mod tables;
