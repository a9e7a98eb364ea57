//! What a circuit has in common with the clocked run, cycle by cycle: which iterations run, where nodes end, what registers hold.

pub mod held_results;
pub mod laws;
pub mod loop_gates;
pub mod node_ends;
