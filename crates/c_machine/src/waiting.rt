//! What the interpreter of C programs does next and the frames of what waits behind it, and what it asks of the tree.

pub mod binding;
pub mod chain;
pub mod frame;
pub mod label;
pub mod landing;
pub mod objects;
pub mod rows;
pub mod stack;
pub mod tree;
