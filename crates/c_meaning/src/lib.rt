//! Which programs of C are taken, and what C programs, core programs and expanded programs mean: their runs, as definitions.
#![tactic(auto)]

pub mod checks;
pub mod contents;
pub mod file_scope;
pub mod laws;
pub mod lengths;
pub mod names;
pub mod object;
pub mod operator_results;
pub mod outcome;
pub mod value;
