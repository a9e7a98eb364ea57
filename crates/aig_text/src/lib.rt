//! The ASCII form of AIGER for and-inverter graphs: writing and reading. Called by the command `blast`.
#![tactic(auto)]

mod cursor;
mod places;
pub mod print;
pub mod read;
pub mod round_trip;
mod rows;
mod tail;
#[cfg(test)]
mod tests;
