//! The circuit that the definitions in `datapath` describe does in each cycle what the clocked run does.
#![tactic(auto)]

pub mod apart_stores;
pub mod circuit_flow;
pub mod circuit_stores;
pub mod laws;
pub mod unit_results;
