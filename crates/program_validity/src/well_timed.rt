//! Whether the times of a program keep all that its operations wait for, and no unit is held twice in one cycle.

mod accesses;
mod counters;
mod flow;
pub mod program;
