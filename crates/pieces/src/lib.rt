//! A core program, whose names and types are resolved; pieces, which are left when its calls are expanded in place.
#![tactic(auto)]

pub mod copy;
pub mod expanded;
pub mod piece;
pub mod pure_expr;
pub mod pure_kind;
pub mod resolved;
pub mod shape;
pub mod weight;
