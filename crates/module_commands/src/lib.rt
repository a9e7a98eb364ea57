//! The commands on modules, over texts in memory: the longest path of a module, its and-inverter graph, and linked stages.
#![tactic(auto)]

pub mod blast;
pub mod lines;
pub mod link;
pub mod outcome;
#[cfg(test)]
mod tests;
pub mod timing;
pub mod work;
