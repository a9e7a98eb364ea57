//! A timed program in the form in which it is run.
ghost use Rattle.std.specs.Prelude.{◌≡◌};
ghost use Rattle.clock_machine.specs.Lines.Stages.{work_in};

use crate::lines::agenda::Agenda;
use hls_base::number::{ArrayId, NodeId};
use ir_core::body::OpKind;

/// Where a value is read. The last values of each operation stand in a line of its own; `back` counts from the one that came last.
#[derive(Clone, Copy, PartialEq, Eq)]
pub enum Read {
    Constant(u64),
    Variable(usize),
    Value { line: usize, back: usize },
}

/// An operation, in the order of its body. It starts at the time `start` of its iteration, and its value is there from `ready` on; then it stands `wait` places back among those that were made. `from_bits` is the width of its first argument, `gate` the place of its iteration among those whose test is known, and `entry` the variable with whose value the line begins.
#[derive(Drop)]
pub struct Action {
    pub kind: OpKind,
    pub signed: bool,
    pub bits: u8,
    pub from_bits: u8,
    pub args: Vec<Read>,
    pub array: Option<ArrayId>,
    pub guard: Option<Read>,
    pub start: u64,
    pub ready: u64,
    pub gate: u64,
    pub wait: usize,
    pub entry: Option<usize>,
}

/// The variable of this number takes a value.
#[derive(Clone, Copy)]
pub struct Assignment {
    pub variable: usize,
    pub value: Read,
}

/// The place of a line among the words of all lines of a body.
#[derive(Clone, Copy)]
pub struct Line {
    pub first: usize,
    pub length: usize,
}

/// When the iterations of a body begin, and when their test is known.
#[derive(Clone, Copy)]
pub struct Pace {
    pub interval: u64,
    pub known: u64,
    pub test: Option<Read>,
}

/// The operations of a body. Each has two lines: the first one, of its number, has the values that are there; the other one, behind those of all operations, the values that were made.
#[derive(Drop)]
pub struct Work {
    pub actions: Vec<Action>,
    pub assignments: Vec<Assignment>,
    pub lines: Vec<Line>,
    pub starts: Agenda,
    pub arrivals: Agenda,
    pub pace: Pace,
}

#[derive(Clone, Copy)]
pub struct Case {
    pub test: Read,
    pub to: NodeId,
}

/// Where control goes from a block.
#[derive(Drop)]
pub enum Way {
    Choose { cases: Vec<Case>, other: NodeId },
    Return(Option<Read>),
}

/// A loop is left at the time `exit` of the first iteration that does not run; `gate` is the place of that iteration among those whose test is known.
#[derive(Clone, Copy)]
pub struct Exit {
    pub exit: u64,
    pub gate: u64,
    pub next: NodeId,
}

/// A block is as long as the interval of its body.
#[derive(Drop)]
pub enum Stage {
    Block { work: Work, way: Way },
    Loop { work: Work, exit: Exit },
}

#[derive(Drop)]
pub struct Program {
    pub stages: Vec<Stage>,
    pub is_void: bool,
}

pub fn work_of(stage: &Stage) -> &Work
    ensures { result.now ≡ work_in stage.now }
{
    match stage {
        Stage::Block { work, .. } => work,
        Stage::Loop { work, .. } => work,
    }
}
