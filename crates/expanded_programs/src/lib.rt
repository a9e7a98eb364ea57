//! Programs of C, and the pieces that they are expanded to, run alike: statements, calls and whole programs.
#![tactic(auto)]

pub mod elaborated_programs;
pub mod laws;
pub mod statements;
