//! What expansion keeps of runs, expression by expression, and how the pieces that it makes are counted.
#![tactic(auto)]

pub mod piece_counts;
