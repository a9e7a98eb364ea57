//! What is expected behind some tokens of a program, as a stack of goals, and what each goal does with a token.

mod action;
pub mod advance;
mod declaration;
mod expression;
pub mod goal;
mod item;
mod sign;
mod statement;
mod step;
