//! The memories and tables of a circuit, with all that reads and writes them.

pub mod memories;
pub mod outside;
pub mod places;
pub mod ports;
pub mod tables;
pub mod words;
