//! The text of a circuit.
#![tactic(auto)]

mod blocks;
mod declarations;
mod expressions;
pub mod printer;
