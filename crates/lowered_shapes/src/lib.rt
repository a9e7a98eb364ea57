//! Which forks and loops of lowered pieces are converted, and what stands among straight pieces.
#![tactic(auto)]

pub mod converted_shapes;
pub mod loop_tests;
pub mod straight_calls;
pub mod tree_flow;
