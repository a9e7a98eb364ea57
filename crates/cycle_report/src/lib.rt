//! The report of a compiled program: its text, and the number of cycles that it states.
#![tactic(auto)]

mod cursor;
pub mod formula;
mod lines;
pub mod print;
pub mod read;
pub mod report;
