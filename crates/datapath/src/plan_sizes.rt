//! Numbers that a timed program determines, the words of its tables, and the order of the pins.

pub mod laws;
pub mod pins;
pub mod sizes;
pub mod words;
