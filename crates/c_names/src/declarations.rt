//! Declarations: what names stand for, the types of objects and functions, and the limits on arrays, parameters and functions.

pub mod arrays;
pub mod declared;
pub mod faults;
pub mod lengths;
pub mod names;
