//! Lowering, numbering, conversion and layout keep programs valid.
#![tactic(auto)]

pub mod valid_conversion;
pub mod valid_layout;
pub mod valid_lowering;
pub mod valid_numbering;
pub mod whole_trees;
