//! The values of C: types, conversions, operators, and constant expressions.
#![tactic(auto)]

mod arithmetic;
pub mod chain;
pub mod constant;
pub mod convert;
pub mod kind;
pub mod operate;
