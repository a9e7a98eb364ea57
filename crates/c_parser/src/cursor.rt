//! A cursor over the tokens of a program: what the next tokens are to the parser, and the types of C, whose words stand in any order.

pub mod cursor;
pub mod joiner;
pub mod keyword;
pub mod operators;
pub mod stop;
pub mod types;
pub mod words;
