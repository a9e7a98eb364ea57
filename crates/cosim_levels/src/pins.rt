//! A module that is driven through its pins: it is reset, its arrays are written, it is started, and its arrays are read.

mod address;
pub mod drive;
mod driver;
pub mod interface;
