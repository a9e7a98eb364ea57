//! From a checked program of C to the core program, which runs as the program does.
#![tactic(auto)]

mod blocks;
mod build;
mod chains;
pub mod elaborate;
pub mod elaborate_runs;
mod expressions;
mod file;
mod functions;
mod initialisers;
mod kinds;
mod names;
mod numbers;
mod statements;
