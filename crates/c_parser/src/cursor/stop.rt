ghost use Rattle.std.specs.Prelude.{◌≡◌};
ghost use Rattle.c_parser.specs.declared.cursor.stop.Stop.TheVariants.{Memory};

use std::alloc::{AllocError, AllocFailed};

/// Why there is no tree: the tokens begin with none of the kind, or there was no memory.
#[derive(Clone, Copy, PartialEq, Eq)]
pub enum Stop {
    Absent,
    Memory,
}

impl From<AllocError> for Stop {
    ghost from_gives = { λ _ e. e ≡ Memory };

    fn from(_e: AllocError) -> Stop {
        Stop::Memory
    }
}

impl<T: Drop> From<AllocFailed<T>> for Stop {
    ghost from_gives = { λ _ e. e ≡ Memory };

    fn from(_e: AllocFailed<T>) -> Stop {
        Stop::Memory
    }
}
