use crate::stamp::Stamp;
use hls_base::number::{ArrayId, OpId, VarId};
use hls_base::place::Place;
use smallvec::SmallVec;
use std::alloc::Global;

/// An operator of two that are fused.
#[derive(Clone, Copy, PartialEq, Eq, Hash)]
pub enum Simple {
    Add,
    Sub,
    And,
    Or,
    Xor,
}

/// Two operators as one operation: with `left` the value is `second(first(a, b), c)`, else `second(c, first(a, b))`.
#[derive(Clone, Copy, PartialEq, Eq, Hash)]
pub struct Pairing {
    pub first: Simple,
    pub second: Simple,
    pub left: bool,
}

/// What an operation makes of its arguments, which are bit patterns. A `Load` has its subscripts as arguments, a `Store` its subscripts and then the stored value, a `Select` its test, the value for 1 and the value for 0.
#[derive(Clone, Copy, PartialEq, Eq, Hash)]
pub enum OpKind {
    Add,
    Sub,
    Mul,
    Div,
    Rem,
    And,
    Or,
    Xor,
    Shl,
    Shr,
    Eq,
    Ne,
    Lt,
    Le,
    Not,
    Neg,
    Select,
    Widen,
    Narrow,
    Truth,
    Copy,
    Load,
    Store,
    Fused(Pairing),
}

/// Where an operand comes from: a constant bit pattern, what a variable holds as the block or iteration is entered, or the result of an operation of the body.
#[derive(Clone, Copy, PartialEq, Eq, Hash)]
pub enum Source {
    Constant(u64),
    Variable(VarId),
    Result(OpId),
}

/// An operand with distance d names the value of the iteration d before.
#[derive(Clone, Copy, PartialEq, Eq, Hash)]
pub struct Operand {
    pub value: Source,
    pub distance: u32,
}

/// A list of operands has room for some that are not there, which are constants.
impl Default for Operand {
    fn default() -> Operand {
        Operand {
            value: Source::Constant(0),
            distance: 0,
        }
    }
}

/// An operation. `bits` is the width of its result; for `Eq`, `Ne`, `Lt`, `Le` and `Truth`, whose result has one bit, it is the width of the operands, and for `Store` that of the stored value. Where the guard is 0 the operation has no effect: a load gives 0. The flag is the place of possible undefined behaviour.
#[derive(Drop)]
pub struct Op<S: Stamp> {
    pub kind: OpKind,
    pub signed: bool,
    pub bits: u8,
    pub args: SmallVec<Operand, 4, Global>,
    pub array: Option<ArrayId>,
    pub guard: Option<Operand>,
    pub flag: Option<Place>,
    pub stamp: S,
}

/// What a variable holds as the body is left.
#[derive(Clone, Copy, PartialEq, Eq)]
pub struct Out {
    pub variable: VarId,
    pub value: Operand,
}

/// Operations in order, and the variables that they set. The test of a loop's body tells whether the iteration runs.
#[derive(Drop)]
pub struct Body<S: Stamp> {
    pub ops: Vec<Op<S>>,
    pub outs: Vec<Out>,
    pub test: Option<Operand>,
}
