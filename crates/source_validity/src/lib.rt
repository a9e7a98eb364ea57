//! What the compiler makes of an accepted source is valid, small and timed, and both machines run it.
#![tactic(auto)]

pub mod accepted_programs;
pub mod addressed_frames;
pub mod compiled_validity;
pub mod fused_programs;
pub mod kept_tables;
pub mod leading_hosts;
pub mod near_outs;
pub mod source_machines;
pub mod valid_frames;
