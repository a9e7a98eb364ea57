//! From a tree of basic blocks to a flat program.
#![tactic(auto)]

mod boxes;
mod counts;
mod fits;
mod flat;
pub mod layout;
mod ways;
