//! From the core program to pieces: each call is replaced by what its function does.
#![tactic(auto)]

mod calls;
mod chain;
mod declarations;
mod emitting;
pub mod expand;
mod expressions;
mod held;
mod here;
mod operators;
mod statements;
