//! What a circuit under construction is to do: which registers and units take which values, and when.

pub mod log;
pub mod role;
