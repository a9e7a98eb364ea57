//! A timed program runs, one step for each edge of the clock.
#![tactic(auto)]

mod acts;
mod first;
mod keeping;
mod leaving;
pub mod lines;
pub mod machine;
mod room;
mod state;
mod steps;
