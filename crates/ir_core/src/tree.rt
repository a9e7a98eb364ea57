use crate::body::{Body, Op, Operand, Out};
use crate::cfg::Frame;
use crate::stamp::Untimed;
use hls_base::number::VarId;
use hls_base::point::Point;

/// The number of a place behind pieces that may be left from within.
#[derive(Clone, Copy, PartialEq, Eq, PartialOrd, Ord, Hash)]
pub struct LandId(pub u32);

/// How a basic block is left: to what stands behind it, by the value of an operand, by the case whose operand is 1, or to another place.
#[derive(Drop)]
pub enum Exit {
    Next,
    Branch(Operand),
    Choose(Vec<Operand>),
    Break,
    Continue,
    Leave(LandId),
}

/// Operations behind a point. An operand is a constant, a variable as the block is entered, or the result of an earlier operation of the block.
#[derive(Drop)]
pub struct BasicBlock {
    pub point: Point,
    pub ops: Vec<Op<Untimed>>,
    pub outs: Vec<Out>,
    pub exit: Exit,
}

/// A block, and then parts one after another. A block whose exit is a jump does not lead to the part behind it, which is then not reached, or only from elsewhere.
#[cycle(sequence)]
#[derive(Drop)]
pub struct Sequence {
    pub first: BasicBlock,
    pub rest: Vec<Part>,
}

/// A fork, loop or switch, to which the block before leads, and the block behind it, which begins at its End.
#[cycle(sequence)]
#[derive(Drop)]
pub struct Part {
    pub shape: Shape,
    pub after: BasicBlock,
}

/// What stands between two blocks of a sequence.
#[cycle(sequence)]
#[derive(Drop)]
pub enum Shape {
    /// The block before branches to `yes` or `no`; a side without blocks of its own is the block behind. Both lead to the block behind.
    Fork {
        yes: Option<Sequence>,
        no: Option<Sequence>,
        convertible: bool,
    },
    /// The last block of `test` branches to the body, or to the block behind. The body leads to `step`, where it is there, and then to the test. With `post` the body comes first. `Continue` leads to `step`, and to the test where there is none.
    Loop {
        post: bool,
        test: Box<Sequence>,
        body: Box<Sequence>,
        step: Option<Box<Sequence>>,
        eligible: bool,
    },
    /// The block before leads to one of the arms, each of which leads to the next, and the last to the block behind. `targets` names the arm of each case in order; without `other` control goes to the block behind where no case holds. `dead` stands before the first arm and is never reached.
    Choose {
        dead: Vec<Part>,
        targets: Vec<u32>,
        other: Option<u32>,
        arms: Vec<Sequence>,
    },
    /// The block before leads to the block behind, and so does each `Leave` with this number.
    Land(LandId),
    /// A loop whose iterations may overlap. Its point is the loop's Body.
    Overlapped {
        point: Point,
        body: Body<Untimed>,
    },
}

/// A program as a tree of basic blocks. The variable of its result is given where it is not void.
#[derive(Drop)]
pub struct BlockTree {
    pub frame: Frame,
    pub blocks: Sequence,
    pub result: Option<VarId>,
}
