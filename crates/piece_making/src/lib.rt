//! Making pieces: lists of them within others, variables and arrays of their own, values that are saved, and the weight of all that is made.
#![tactic(auto)]

pub mod assignments;
pub mod build;
pub mod effects;
pub mod frame;
pub mod leaving;
pub mod objects;
pub mod saving;
pub mod work;
