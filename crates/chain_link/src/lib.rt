//! Links modules of functions into one circuit: stages with queues between them. Its outputs are the composed results of the items put in, in order.
#![tactic(auto)]

mod chain;
mod faults;
pub mod laws;
mod linking;
mod numbers;
mod pins;
mod placing;
mod units;

pub use chain::link;
