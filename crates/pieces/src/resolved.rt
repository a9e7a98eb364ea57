//! A program of C whose names and types are resolved: objects and functions go by number, and each expression has its type.

pub mod expression;
pub mod program;
pub mod statement;
