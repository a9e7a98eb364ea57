//! The box of a plan is the box of the C function that it is made from.

pub mod laws;
pub mod plan_answers;
pub mod plan_words;
pub mod source_circuits;
