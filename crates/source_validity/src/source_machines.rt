//! The machine of the program that a source is: its times are there and small, and it ends where the run in C does.

pub mod forward_programs;
pub mod laws;
pub mod small_times;
pub mod whole_programs;
