//! The commands of the program `hls`, over words, files and an output.
#![tactic(auto)]

mod lines;
pub mod run;
pub mod start;
mod verdict_lines;
mod work;
