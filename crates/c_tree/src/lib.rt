//! The syntax tree of C, and which tokens are which tree.
#![tactic(auto)]

pub mod action;
pub mod expression;
pub mod function;
pub mod object;
pub mod operator;
pub mod print;
pub mod program;
pub mod specifier;
pub mod statement;
