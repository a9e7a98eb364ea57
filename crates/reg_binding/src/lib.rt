//! Which variables may be read again, and which register holds which value.
#![tactic(auto)]

pub mod assign;
mod bits;
pub mod block_reads;
pub mod life;
pub mod live;
pub mod loop_reads;
pub(crate) mod pool;
mod reads;
pub mod registers;
pub mod share;
pub mod var_set;
