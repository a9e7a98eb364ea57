//! The stages of a program, and what their runs tell.
use c_meaning::outcome::Final;
use hls_base::point::Point;
use hls_base::refusal::Refusal;
use hls_base::text::Text;
use hls_base::words::Arrays;
use ir_core::machine::Halt;
use std::alloc::{AllocError, AllocFailed};

/// A stage of a program's tree of blocks: as its pieces are lowered, then with equal operations as one, then with forks and loops converted.
#[derive(Clone, Copy, PartialEq, Eq)]
pub enum StageName {
    Lowered,
    Numbered,
    Converted,
}

/// What is run: a source, its top function, its run file, whether no loop may be overlapped, and how many points the run in C may pass.
#[derive(Drop)]
pub struct StageInputs {
    pub source: Text,
    pub top: Text,
    pub run: Text,
    pub plain: bool,
    pub points: u64,
}

/// How often a run passed a point, and how often the run in C did.
#[derive(Drop)]
pub struct PointCount {
    pub point: Point,
    pub count: u128,
    pub in_c: u128,
}

/// Whether the program of a stage is valid, and what its run came to: its end, its result, the elements of the arrays of the host, its steps, and how often it passed the point of each node. The steps that the points of the run in C give are `tallied`.
#[derive(Drop)]
pub struct Stage {
    pub name: StageName,
    pub valid: bool,
    pub halt: Halt,
    pub ret: Option<u64>,
    pub arrays: Arrays,
    pub steps: u64,
    pub tallied: u128,
    pub points: Vec<PointCount>,
}

/// The run in C, and those of the stages in their order.
#[derive(Drop)]
pub struct StageRuns {
    pub ended: Final,
    pub stages: Vec<Stage>,
}

/// Why nothing is compared: the source is refused, or this line of the run file, or the run in C does not end, or there was no memory.
#[derive(Clone, Copy, PartialEq, Eq)]
pub enum StageFault {
    Refused(Refusal),
    Line(u32),
    Unended,
    Memory,
}

impl From<AllocError> for StageFault {
    ghost use Rattle.std.specs.Prelude.{◌≡◌};
    ghost use Rattle.stage_runs.specs.declared.stage.StageFault.TheVariants.{Memory};

    ghost from_gives = { λ _ e. e ≡ Memory };

    fn from(_e: AllocError) -> StageFault {
        StageFault::Memory
    }
}

impl<T: Drop> From<AllocFailed<T>> for StageFault {
    ghost use Rattle.std.specs.Prelude.{◌≡◌};
    ghost use Rattle.stage_runs.specs.declared.stage.StageFault.TheVariants.{Memory};

    ghost from_gives = { λ _ e. e ≡ Memory };

    fn from(_e: AllocFailed<T>) -> StageFault {
        StageFault::Memory
    }
}
