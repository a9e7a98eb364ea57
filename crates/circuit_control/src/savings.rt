//! What a circuit leaves out.

mod cases;
mod reads;
pub mod savings;
