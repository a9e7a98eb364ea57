//! Types and subscripts of the pieces that programs are expanded to.
#![tactic(auto)]

pub mod fitting_subscripts;
pub mod laws;
