//! From pieces to a tree of basic blocks.
#![tactic(auto)]

mod arms;
mod copies;
pub mod frame;
mod line;
pub mod lower;
mod points;
mod sets;
mod shape;
