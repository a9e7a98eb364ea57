//! How large programs become, from the source to the flat program.
#![tactic(auto)]

pub mod compiled_sizes;
pub mod converted_operations;
pub mod counted_operations;
pub mod declared_objects;
pub mod declared_variables;
pub mod expanded_sizes;
pub mod few_objects;
pub mod kept_nodes;
pub mod lowered_nodes;
