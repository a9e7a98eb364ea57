//! Programs of C without faults: their core programs are sound, and their pieces run as they do.

pub mod laws;
pub mod stored_numbers;
