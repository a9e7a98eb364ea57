//! The least interval between the iterations of a loop.
#![tactic(auto)]

pub mod exit;
pub mod pipeline;
pub mod rules;
pub mod tight;
