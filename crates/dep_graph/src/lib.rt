//! Which operations of a body wait for which others.
#![tactic(auto)]

pub mod access;
pub mod counter;
pub mod edge;
pub mod edges;
