ghost use Rattle.std.specs.Prelude.{◌≡◌, ◌<◌, ◌+◌, ◌==◌, ℕ, Option, length, map, get_or, IfOk, false, true};
ghost use Rattle.std.specs.Option.{IfSome, IfNone};
ghost use Rattle.hls_base.specs.ArrayAddress.{addresses};
ghost use Rattle.ir_core.specs.Bodies.{Words};
ghost use Rattle.ir_core.specs.FirstContents.{first_words};
ghost use Rattle.ir_core.specs.Halts.{HasHalted, is_ended};
ghost use Rattle.flat_programs.specs.Memory.Contents.{dims_in, dims_at, element_in};
ghost use Rattle.clock_ir.specs.ClockRuns.{TimedProgram, ended, timed_program, clock_run};
ghost use Rattle.clock_machine.specs.Lines.Forms.{IsProgramOf};
ghost use Rattle.clock_machine.specs.Lines.Regions.{IsOrderlyProgram};
ghost use Rattle.clock_machine.specs.Halts.{halt_at};
ghost use Rattle.clock_machine.specs.Runs.{IsBehind, GoesOn, RunEndsAfter};
ghost use Rattle.clock_machine.specs.Standing.{IsWholeProgram};
ghost use Rattle.clock_machine.specs.Starts.{IsNamed, IsStarting, words_of};

use crate::lines::making::program_of;
use crate::lines::program::Program;
use crate::state::{Position, State};
use hls_base::inputs::Inputs;
use hls_base::number::ArrayId;
use ir_core::cfg::Cfg;
use ir_core::machine::{Halt, Machine};
use ir_core::timed::Timed;
use std::alloc::{AllocError, Global};

/// Runs a timed program: a step is one edge of the clock, the first one that of the cycle in which the run is started.
#[derive(Drop)]
pub struct ClockMachine {
    program: Program,
    state: State,
}

impl ClockMachine {
    /// The machine before the first edge of the program's run with these inputs.
    pub fn new(alloc: Global, cfg: &Cfg<Timed>, inputs: &Inputs) -> Result<ClockMachine, AllocError>
        ensures void { IfOk result (λ m. m.program.is_void ≡ (cfg.now.frame.ret == 0)) }
        ensures dims { IfOk result (λ m. dims_in m.state.memories ≡ map (λ d. d.dims.items) cfg.now.frame.memories.items) }
        ensures program { IfOk result (λ m. IsOrderlyProgram cfg.now →
            IsProgramOf (timed_program cfg.now) m.program) }
        ensures begins { IfOk result (λ m. IsNamed cfg.now.frame →
            IsStarting (first_words cfg.now.frame inputs.now) m.state) }
        ensures first { IfOk result (λ m. IsOrderlyProgram cfg.now → IsWholeProgram (timed_program cfg.now) →
            IsNamed cfg.now.frame → IsBehind (timed_program cfg.now) (first_words cfg.now.frame inputs.now) 0 m) }
    {
        let program = program_of(alloc, cfg)?;
        let state = State::new(alloc, cfg, &program, inputs)?;
        Ok(ClockMachine { program, state })
    }

    fn halt(&self) -> Halt
        ensures { result ≡ halt_at self.now.state.position }
    {
        match self.state.position {
            Position::Start => Halt::Running,
            Position::Loading(_) => Halt::Running,
            Position::Inside(_) => Halt::Running,
            Position::Ended => Halt::Ended,
        }
    }

    /// One edge of the clock, if the run has not ended.
    fn go_on(&mut self)
        ensures stays { HasHalted (halt_at self.old.state.position) → self.new ≡ self.old }
        ensures program { self.new.program ≡ self.old.program }
        ensures run { (p : TimedProgram) (t : Words) (n : ℕ) →
            IsBehind p t n self.old → IsBehind p t (n + 1) self.new }
    {
        if let Position::Ended = self.state.position {
            return;
        }
        self.state.step(&self.program);
    }

    /// So many edges, or fewer where the run ends.
    fn go_far(&mut self, steps: u64)
        ensures stays { HasHalted (halt_at self.old.state.position) → self.new ≡ self.old }
        ensures none { steps ≡ 0 → self.new ≡ self.old }
        ensures program { self.new.program ≡ self.old.program }
        ensures run { (p : TimedProgram) (t : Words) (n : ℕ) →
            IsBehind p t n self.old → IsBehind p t (n + steps) self.new }
    {
        let mut left = steps;
        while left > 0 {
            if let Position::Ended = self.state.position {
                return;
            }
            self.go_on();
            left -= 1;
        }
    }

    /// The number of edges to the end of the run, of so many at most.
    pub fn steps_to_end(&mut self, most: u64) -> Option<u64>
        ensures program { self.new.program ≡ self.old.program }
        ensures end { (p : TimedProgram) (t : Words) → IsBehind p t 0 self.old → IfSome result (λ n.
            IsBehind p t n self.new × RunEndsAfter p t n self.new.state.returned (words_of self.new.state)) }
        ensures none { (p : TimedProgram) (t : Words) → IsBehind p t 0 self.old → IfNone result (GoesOn p t most) }
    {
        for steps in 0..most {
            self.go_on();
            if let Position::Ended = self.state.position {
                return Some(steps + 1);
            }
        }
        None
    }
}

impl Machine<Timed> for ClockMachine {
    ghost halt = { λ m. halt_at m.state.position };

    fn step(&mut self) -> Halt
        ensures answer { result ≡ halt_at self.new.state.position }
        ensures stays { HasHalted (halt_at self.old.state.position) → self.new ≡ self.old }
        ensures program { self.new.program ≡ self.old.program }
        ensures run { (p : TimedProgram) (t : Words) (n : ℕ) →
            IsBehind p t n self.old → IsBehind p t (n + 1) self.new }
    {
        self.go_on();
        self.halt()
    }

    fn run(&mut self, steps: u64) -> Halt
        ensures answer { result ≡ halt_at self.new.state.position }
        ensures stays { HasHalted (halt_at self.old.state.position) → self.new ≡ self.old }
        ensures none { steps ≡ 0 → self.new ≡ self.old }
        ensures program { self.new.program ≡ self.old.program }
        ensures run { (p : TimedProgram) (t : Words) (n : ℕ) →
            IsBehind p t n self.old → IsBehind p t (n + steps) self.new }
    {
        self.go_far(steps);
        self.halt()
    }

    fn ret(&self) -> Option<u64>
        ensures ended { is_ended (halt_at self.now.state.position) ≡ false → result ≡ None }
        ensures void { self.now.program.is_void ≡ true → result ≡ None }
        ensures result { is_ended (halt_at self.now.state.position) ≡ true →
            self.now.program.is_void ≡ false → result ≡ self.now.state.returned }
        ensures word { (p : TimedProgram) (t last : Words) (n : ℕ) (w : Option ℕ) → IsBehind p t n self.now →
            clock_run p t n ≡ ended w last → self.now.program.is_void ≡ false → result ≡ w }
    {
        if self.program.is_void || self.halt() != Halt::Ended {
            None
        } else {
            self.state.returned
        }
    }

    fn element(&self, array: ArrayId, index: u32) -> u64
        ensures at { index < length (addresses (dims_at (dims_in self.now.state.memories) array)) →
            result ≡ element_in self.now.state.memories array index }
        ensures last { (p : TimedProgram) (t last : Words) (n : ℕ) (w : Option ℕ) → IsBehind p t n self.now →
            clock_run p t n ≡ ended w last → index < length (addresses (dims_at p.shapes.dims array)) →
            result ≡ last.memories array.0 (get_or (addresses (dims_at p.shapes.dims array)) index 0) }
    {
        self.state.memories.element(array, index)
    }
}
