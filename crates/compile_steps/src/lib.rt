//! From a program without faults to its flat form, without times and with them, and how runs of it begin and end.
#![tactic(auto)]

pub mod begun_programs;
mod frame;
pub mod long_runs;
pub mod steps;
