//! The times of a program and the rows of its report.
#![tactic(auto)]

pub mod costs;
pub mod initial;
pub mod nodes;
pub mod points;
pub mod resources;
