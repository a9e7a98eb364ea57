//! A circuit under construction: what is to be done when, its registers, its times and operands as wires.
#![tactic(auto)]

pub mod address;
pub mod bank;
pub mod context;
pub mod host;
mod levels;
mod loads;
pub mod numbers;
pub mod operands;
pub mod ports;
mod stores;
pub mod tests;
pub mod times;
pub mod wanted;
