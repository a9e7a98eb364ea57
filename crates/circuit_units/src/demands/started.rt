//! Operations where they stand.
use circuit_context::context::Reading;
use ir_core::body::Op;
use ir_core::timed::Timed;

/// An operation, with the node and the time at which it starts, its number in the node, and all operations there.
#[derive(Clone, Copy)]
pub struct Started<'a> {
    pub at: Reading,
    pub number: usize,
    pub op: &'a Op<Timed>,
    pub ops: &'a [Op<Timed>],
}
