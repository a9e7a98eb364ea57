//! Runs of a program's top function.

pub mod outcome;
pub mod run;
