//! What a comparison comes to.
use hls_base::place::Place;
use hls_base::refusal::{Refusal, UbRule};
use hls_base::text::Text;
use std::alloc::{AllocError, AllocFailed};

/// The elements of an array parameter, row by row.
#[derive(Drop)]
pub struct Shown {
    pub name: Text,
    pub values: Vec<i128>,
}

/// A level at which a program runs.
#[derive(Clone, Copy, PartialEq, Eq)]
pub enum Level {
    C,
    Verilog,
}

/// A number that two levels have: the result, an element of an array parameter by its number, counted row by row, or the cycles.
#[derive(Drop)]
pub enum Item {
    Ret,
    Element { name: Text, index: u32 },
    Cycles,
}

/// A number in which two levels differ.
#[derive(Drop)]
pub struct Difference {
    pub item: Item,
    pub expected: i128,
    pub found: i128,
}

/// What a comparison comes to. `Waiting` says that a level did not end within its limit.
#[derive(Drop)]
pub enum Verdict {
    Agree {
        ret: Option<i128>,
        arrays: Vec<Shown>,
        cycles: u128,
        clock: u128,
    },
    Differ {
        item: Item,
        expected: i128,
        found: i128,
    },
    Waiting {
        level: Level,
        limit: u64,
    },
    RunLine(u32),
    ModuleBad(Refusal),
    ReportBad(Refusal),
    Undefined(UbRule, Place),
}

/// Why a comparison goes on no further: it has its verdict, or there was no memory.
#[derive(Drop)]
pub enum Stop {
    Answer(Verdict),
    Memory,
}

impl From<AllocError> for Stop {
    ghost use Rattle.std.specs.Prelude.{◌≡◌};
    ghost use Rattle.cosim_levels.specs.declared.verdict.Stop.TheVariants.{Memory};

    ghost from_gives = { λ _ e. e ≡ Memory };

    fn from(_e: AllocError) -> Stop {
        Stop::Memory
    }
}

impl<T: Drop> From<AllocFailed<T>> for Stop {
    ghost use Rattle.std.specs.Prelude.{◌≡◌};
    ghost use Rattle.cosim_levels.specs.declared.verdict.Stop.TheVariants.{Memory};

    ghost from_gives = { λ _ e. e ≡ Memory };

    fn from(_e: AllocFailed<T>) -> Stop {
        Stop::Memory
    }
}
