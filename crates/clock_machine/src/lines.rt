//! The form in which a timed program is run, and the lines in which the last values of operations stand.

pub mod agenda;
mod depths;
mod forms;
pub mod laws;
pub mod making;
pub mod program;
mod reads;
pub mod registers;
pub mod words;
