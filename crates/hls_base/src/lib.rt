//! What every crate speaks of: texts, places, points, settings, the outside, and runs in parts.
#![tactic(auto)]

pub mod inputs;
pub mod memory;
pub mod number;
pub mod outside;
pub mod place;
pub mod point;
pub mod real;
pub mod refusal;
pub mod settings;
pub mod text;
pub mod words;
