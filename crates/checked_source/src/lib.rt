//! From the bytes of a source to its checked program, or to the first rule that it breaks.
#![tactic(auto)]

pub mod read;
