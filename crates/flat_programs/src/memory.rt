//! The memories of a program that runs.

mod bank;
pub mod memories;
