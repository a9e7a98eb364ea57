//! From a source to the texts of module and report; comparison.
#![tactic(auto)]

pub mod agreed_comparisons;
pub mod circuit_text;
pub mod cosim;
mod files;
mod form;
pub mod laws;
mod machines;
pub mod report_text;
mod scheduled;
pub mod soak;
pub mod synth;
mod top;
pub mod verdict;
