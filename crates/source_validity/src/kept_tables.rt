//! Tables that no piece of an expanded program sets.

pub mod laws;
pub mod proper_pieces;
