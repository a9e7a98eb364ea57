ghost use Rattle.std.specs.Prelude.{◌≡◌, false};
ghost use Rattle.ir_core.specs.Halts.{HasHalted, is_ended};

use crate::stamp::Stamp;
use hls_base::number::ArrayId;
use hls_base::place::Place;
use hls_base::refusal::UbRule;

/// Whether a run goes on, has ended, or has no meaning in C from here on, by which rule and where.
#[derive(Clone, Copy, PartialEq, Eq)]
pub enum Halt {
    Running,
    Ended,
    Undefined(UbRule, Place),
}

/// A machine that runs a program with stamps `S` step by step. None of its calls takes memory. A machine that has halted stays as it is.
pub trait Machine<S: Stamp> {
    ghost use Rattle.ir_core.specs.declared.machine.Halt.{Halt};

    ghost halt: { Self → Halt };

    fn step(&mut self) -> Halt
        ensures answer { result ≡ halt self.new }
        ensures stays { HasHalted (halt self.old) → self.new ≡ self.old };

    /// So many steps, or fewer where it halts.
    fn run(&mut self, steps: u64) -> Halt
        ensures answer { result ≡ halt self.new }
        ensures stays { HasHalted (halt self.old) → self.new ≡ self.old }
        ensures none { steps ≡ 0 → self.new ≡ self.old };

    /// The result, once the run has ended, where the program has one.
    fn ret(&self) -> Option<u64>
        ensures { is_ended (halt self.now) ≡ false → result ≡ None };

    /// The element of this number, counted row by row.
    fn element(&self, array: ArrayId, index: u32) -> u64;
}
