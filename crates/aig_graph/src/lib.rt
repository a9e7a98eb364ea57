//! And-inverter graphs, their step, and gates and words of gates while a graph is made.
#![tactic(auto)]

pub mod aig;
pub mod bitwise;
pub mod builder;
pub mod compare;
pub mod constant;
pub mod memory;
pub mod product;
pub mod select;
pub mod shift;
pub mod sum;
pub mod word;
