//! What operations compute, and what they give to shared units and to ports.

pub mod accesses;
pub mod arguments;
pub mod demands;
pub mod results;
pub mod shared;
pub mod started;
