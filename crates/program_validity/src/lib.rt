//! Whether a flat program is valid and well timed.
#![tactic(auto)]

mod bodies;
mod frames;
mod operands;
mod operations;
pub mod program;
mod targets;
pub mod valid_programs;
pub mod well_timed;
mod widths;
