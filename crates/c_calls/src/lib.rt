//! The calls in a program, and functions that come back to themselves by calls.
#![tactic(auto)]

pub mod called;
pub mod recursion;
