//! Lowering keeps runs, and what lowered trees are.

pub mod laws;
pub mod lowered_runs;
pub mod lowered_trees;
pub mod operator_words;
