//! The levels of a program are compared, its run in C and that of its module: what the box of a C program answers, a module that is driven through its pins, and the data of a run.
#![tactic(auto)]

pub mod c_box;
pub mod compared;
mod decimal;
pub mod difference;
pub mod draws;
pub mod fault;
pub mod levels;
mod line;
pub mod pins;
pub mod program;
pub mod read;
pub mod row;
pub mod shown;
pub mod verdict;
mod words;
