//! What the grammar of C tells of a token without its text: its sort; and the words of a type, in any order.

pub mod sort;
pub mod words;
