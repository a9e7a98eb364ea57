//! The controller of a circuit, and what a circuit leaves out.
#![tactic(auto)]

mod asked;
mod bits;
pub mod control;
pub mod drives;
pub mod exits;
pub mod loops;
pub mod savings;
mod time;
