//! Equal operations of a block become one, and operations on constants are computed.
#![tactic(auto)]

pub mod block;
mod boxes;
mod key;
pub mod number;
