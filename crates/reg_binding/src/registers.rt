use hls_base::number::{NodeId, OpId};

/// That a register holds the result of an operation of this node, in this place of its chain. Registers count from 0 in the order of `Registers::widths`.
#[derive(Clone, Copy, PartialEq, Eq)]
pub struct Held {
    pub node: NodeId,
    pub op: OpId,
    pub place: u32,
    pub register: u64,
}

/// The width of each register in bits, and what it holds when.
#[derive(Drop)]
pub struct Registers {
    pub widths: Vec<u8>,
    pub held: Vec<Held>,
}
