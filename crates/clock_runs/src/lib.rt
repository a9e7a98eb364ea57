//! Timed programs keep runs, and where the search for the least interval of a loop ends.
#![tactic(auto)]

pub mod interval_bounds;
pub mod laws;
