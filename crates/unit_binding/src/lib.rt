//! Which unit serves which operation, in which order.
#![tactic(auto)]

pub mod bind;
pub mod binding;
pub mod copy;
pub mod times;
