//! Names, labels, and accesses in conflict.
#![tactic(auto)]

pub mod conflicts;
pub mod declarations;
pub mod labels;
