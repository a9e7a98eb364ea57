//! What stands outside a program: files, and the place to which it puts its lines. A contract speaks of both by what they tell, and counts their faults.
ghost use Rattle.std.specs.Prelude.{◌≡◌, ◌≤◌, ◌⊎◌, ℕ, List, Option, IfOk, OnOk, OnErr, IsErrOf, vec_len};
ghost use Rattle.hls_base.specs.Outside.{Files, HasRisen, NeverFalls, WhereTold, AreFirstBytes, IsAbsent, IsWritten, IsCutShort, PutsAll, PutsPrefix};

use std::alloc::{AllocError, AllocFailed, Global};

/// Why a shelf has no answer: it failed, or there was no memory.
#[derive(Clone, Copy, Debug, PartialEq, Eq)]
pub enum ShelfError {
    Failed,
    Memory,
}

impl From<AllocError> for ShelfError {
    ghost use Rattle.std.specs.Prelude.{◌≡◌};
    ghost use Rattle.hls_base.specs.declared.outside.ShelfError.TheVariants.{Memory};

    ghost from_gives = { λ _ e. e ≡ Memory };

    fn from(_e: AllocError) -> ShelfError {
        ShelfError::Memory
    }
}

impl<T: Drop> From<AllocFailed<T>> for ShelfError {
    ghost use Rattle.std.specs.Prelude.{◌≡◌};
    ghost use Rattle.hls_base.specs.declared.outside.ShelfError.TheVariants.{Memory};

    ghost from_gives = { λ _ e. e ≡ Memory };

    fn from(_e: AllocFailed<T>) -> ShelfError {
        ShelfError::Memory
    }
}

/// Why a sink did not take all the bytes: it failed, or there was no memory.
#[derive(Clone, Copy, PartialEq, Eq)]
pub enum SinkError {
    Failed,
    Memory,
}

impl From<AllocError> for SinkError {
    ghost use Rattle.std.specs.Prelude.{◌≡◌};
    ghost use Rattle.hls_base.specs.declared.outside.SinkError.TheVariants.{Memory};

    ghost from_gives = { λ _ e. e ≡ Memory };

    fn from(_e: AllocError) -> SinkError {
        SinkError::Memory
    }
}

impl<T: Drop> From<AllocFailed<T>> for SinkError {
    ghost use Rattle.std.specs.Prelude.{◌≡◌};
    ghost use Rattle.hls_base.specs.declared.outside.SinkError.TheVariants.{Memory};

    ghost from_gives = { λ _ e. e ≡ Memory };

    fn from(_e: AllocFailed<T>) -> SinkError {
        SinkError::Memory
    }
}

/// Files by name.
pub trait Shelf {
    /// The files, where the shelf tells them.
    ghost files: { Self → Option Files };

    /// How often the shelf failed.
    ghost faults: { Self → ℕ };

    /// The first `most` bytes of a file, or all where it is shorter.
    fn read(&mut self, alloc: Global, name: &str, most: u32) -> Result<Vec<u8>, ShelfError>
        ensures bytes { IfOk result (λ v. AreFirstBytes (files self.old) name.now most v.items) }
        ensures bound { IfOk result (λ v. vec_len v ≤ most) }
        ensures files { files self.new ≡ files self.old }
        ensures failed { IsErrOf result ShelfError.Failed →
            HasRisen (faults self.old) (faults self.new) ⊎ IsAbsent (files self.old) name.now }
        ensures absent { IsAbsent (files self.old) name.now → faults self.new ≡ faults self.old }
        ensures count { NeverFalls (faults self.old) (faults self.new) };

    /// Makes these bytes the file of this name.
    fn write(&mut self, name: &str, bytes: &[u8]) -> Result<(), ShelfError>
        ensures written { OnOk result
            (WhereTold (IsWritten name.now bytes.now) (files self.old) (files self.new)) }
        ensures cut_short { OnErr result
            (WhereTold (IsCutShort name.now bytes.now) (files self.old) (files self.new)) }
        ensures failed { IsErrOf result ShelfError.Failed → HasRisen (faults self.old) (faults self.new) }
        ensures count { NeverFalls (faults self.old) (faults self.new) };
}

/// Where lines are put.
pub trait Sink {
    /// The bytes put so far, where the sink tells them.
    ghost written: { Self → Option (List ℕ) };

    /// How often the sink failed.
    ghost faults: { Self → ℕ };

    /// Puts these bytes after those that were put before.
    fn put(&mut self, bytes: &[u8]) -> Result<(), SinkError>
        ensures all { OnOk result
            (WhereTold (PutsAll bytes.now) (written self.old) (written self.new)) }
        ensures prefix { OnErr result
            (WhereTold (PutsPrefix bytes.now) (written self.old) (written self.new)) }
        ensures failed { IsErrOf result SinkError.Failed → HasRisen (faults self.old) (faults self.new) }
        ensures count { NeverFalls (faults self.old) (faults self.new) };
}
