//! Conversion keeps runs, and what it takes for granted and keeps of trees.

pub mod converted_trees;
pub mod laws;
pub mod lowered_conversions;
pub mod merged_blocks;
