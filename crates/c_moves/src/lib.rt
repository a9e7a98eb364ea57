//! The moves of the machine that runs C programs.
#![tactic(auto)]

pub mod machine;
