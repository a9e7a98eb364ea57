//! A program of blocks runs, one operation after another.

mod effects;
pub mod machine;
mod operands;
mod room;
mod state;
