//! Circuits that agree with the box, driven through their pins: a run of the module shows the answer of the box.
#![tactic(auto)]

pub mod laws;
