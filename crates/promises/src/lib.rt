//! From a program without faults to its circuit and its report, and that these keep the promise.
#![tactic(auto)]

pub mod circuit_promise;
pub mod compile;
pub mod design_promise;
pub mod ended_machines;
mod settings;
pub mod source_promise;
