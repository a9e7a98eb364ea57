//! Basic blocks of operations, as a tree and flat, with times and without: what each operation gives, and what runs are, as definitions.
#![tactic(auto)]

pub mod address;
pub mod body;
pub mod cfg;
pub mod machine;
pub mod numbers;
pub mod stamp;
pub mod timed;
pub mod timing;
pub mod tree;
pub mod value;
