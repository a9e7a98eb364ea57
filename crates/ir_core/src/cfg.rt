use crate::body::{Body, Operand};
use crate::stamp::Stamp;
use hls_base::number::{Kept, NodeId, VarId};
use hls_base::point::Point;
use hls_base::text::Text;
use hls_base::words::Words;

/// How a block ends. A `Choose` goes to the node of the first case whose operand is 1, else to `other`.
#[derive(Drop)]
pub enum End {
    Jump(NodeId),
    Branch {
        test: Operand,
        yes: NodeId,
        no: NodeId,
    },
    Choose {
        cases: Vec<(Operand, NodeId)>,
        other: NodeId,
    },
    Return(Option<Operand>),
}

/// A basic block, which takes `length` cycles; 0 in a program without times.
#[derive(Drop)]
pub struct Block<S: Stamp> {
    pub point: Point,
    pub body: Body<S>,
    pub end: End,
    pub length: u32,
}

/// A loop whose iterations may overlap: one begins each `ii` cycles, and the exit takes `exit` more. Its point is the loop's Body, and `next` the block behind it.
#[derive(Drop)]
pub struct Loop<S: Stamp> {
    pub point: Point,
    pub body: Body<S>,
    pub next: NodeId,
    pub ii: u32,
    pub exit: u32,
}

#[derive(Drop)]
pub enum Node<S: Stamp> {
    Plain(Block<S>),
    Looped(Loop<S>),
}

/// A memory of words of so many bits, one for each element, row by row. A table has its words, and a memory of file scope its first contents. Those that the host reaches come first.
#[derive(Drop)]
pub struct Memory {
    pub name: Text,
    pub bits: u8,
    pub dims: Vec<u32>,
    pub table: Option<Words>,
    pub initial: Option<Words>,
    pub host: bool,
}

/// What a program has beside its blocks: the width of each variable, which of them are the parameters, the memories, the scalars that stay from one run to the next with their first values, and the width of the result, 0 for void.
#[derive(Drop)]
pub struct Frame {
    pub name: Text,
    pub params: Vec<VarId>,
    pub variables: Vec<u8>,
    pub memories: Vec<Memory>,
    pub kept: Vec<Kept>,
    pub ret: u8,
}

/// A flat program of blocks and loops.
#[derive(Drop)]
pub struct Cfg<S: Stamp> {
    pub frame: Frame,
    pub nodes: Vec<Node<S>>,
    pub first: NodeId,
}
