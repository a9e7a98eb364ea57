//! The stages of a program in the middle of the compiler are run, operation by operation, and compared with the run in C.
#![tactic(auto)]

mod comparison;
pub mod laws;
mod lines;
mod points;
pub mod run;
mod running;
pub mod runs;
pub mod stage;
pub mod start;
mod steps;
mod trees;
