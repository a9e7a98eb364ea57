//! Two operators as one operation that takes one cycle.
#![tactic(auto)]

mod bodies;
pub mod choices;
pub mod fuse;
pub mod laws;
mod pairs;
mod reads;
mod subscripts;
pub mod valid_laws;
