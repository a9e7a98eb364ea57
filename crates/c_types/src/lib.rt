//! Whether a program of C is taken, and which of its faults is the least.
#![tactic(auto)]

mod calls;
mod expressions;
mod functions;
mod kinds;
mod parts;
pub mod program;
mod statements;
mod steps;
