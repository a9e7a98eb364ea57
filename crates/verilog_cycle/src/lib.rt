//! A simulator of circuits, cycle by cycle.
#![tactic(auto)]

mod arithmetic;
mod contents;
mod edge;
mod expression;
mod program;
mod run;
pub mod sim;
mod values;
mod word;
