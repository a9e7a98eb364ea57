//! What a run of a C program holds: its objects, the names in scope, and the points that it has passed.

pub mod file_scope;
pub mod inputs;
pub mod lists;
pub mod meter;
pub mod names;
pub mod operator;
pub mod scopes;
pub mod store;
