ghost use Rattle.std.specs.Prelude.{◌≡◌, alloc_error};

use crate::place::Place;
use std::alloc::{AllocError, AllocFailed};

/// Why a run has no meaning in C from some point on.
#[derive(Clone, Copy, Debug, PartialEq, Eq)]
pub enum UbRule {
    Overflow,
    DivideByZero,
    QuotientRange,
    ShiftCount,
    ShiftLeft,
    Index,
    Unset,
    UnsetElement,
    NoReturn,
}

/// The rule that a text breaks, and where.
#[derive(Clone, Copy, Debug, PartialEq, Eq)]
pub struct Refusal {
    pub rule: u8,
    pub place: Place,
}

/// Why there is no answer: the input is refused, or there was no memory.
#[derive(Clone, Copy, Debug, PartialEq, Eq)]
pub enum Fail {
    Refused(Refusal),
    Memory,
}

impl From<AllocError> for Fail {
    ghost use Rattle.std.specs.Prelude.{◌≡◌};
    ghost use Rattle.hls_base.specs.declared.refusal.Fail.TheVariants.{Memory};

    ghost from_gives = { λ _ e. e ≡ Memory };

    fn from(_e: AllocError) -> Fail {
        Fail::Memory
    }
}

impl<T: Drop> From<AllocFailed<T>> for Fail {
    ghost use Rattle.std.specs.Prelude.{◌≡◌};
    ghost use Rattle.hls_base.specs.declared.refusal.Fail.TheVariants.{Memory};

    ghost from_gives = { λ _ e. e ≡ Memory };

    fn from(_e: AllocFailed<T>) -> Fail {
        Fail::Memory
    }
}

/// Stands where a case cannot come and its proof waits for another crate. It says that there is no memory.
pub fn impossible() -> AllocError
    ensures { result ≡ alloc_error }
{
    AllocError
}
