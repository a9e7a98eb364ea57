//! The clocked run of the program that a source is: all steps of the compiler before the circuit, one after another.

pub mod elaborated_subscripts;
pub mod fine_pieces;
pub mod laws;
pub mod source_types;
