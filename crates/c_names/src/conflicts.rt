//! Accesses of names, and changes in conflict.

pub mod accesses;
pub mod conflicts;
