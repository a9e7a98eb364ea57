//! Forks become selects with guards, and simple loops become loops whose iterations may overlap.
#![tactic(auto)]

mod boxes;
pub mod convert;
mod fork;
mod joining;
mod line;
mod merging;
mod outs;
mod overlap;
mod steps;
