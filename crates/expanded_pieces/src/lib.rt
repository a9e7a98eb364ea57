//! What lowering takes for granted of the pieces that programs are expanded to: their points, their blocks, their arrays.
#![tactic(auto)]

pub mod addressed_arrays;
pub mod apart_points;
pub mod begun_pieces;
pub mod block_points;
pub mod laws;
