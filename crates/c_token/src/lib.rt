//! The tokens of C, and what the text of a source is as a list of them.
#![tactic(auto)]

pub mod ctype;
pub mod punct;
pub mod token;
