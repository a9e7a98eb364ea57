//! The registers of a circuit under construction, by what they are for.

pub mod bank;
mod lines;
mod slots;
