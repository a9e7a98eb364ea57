//! The block that is open while pieces are lowered: its operations, guards, what its variables hold, and what expressions and pieces add to it.
#![tactic(auto)]

pub mod draft;
pub mod expression;
pub mod guards;
pub mod operations;
pub mod outs;
