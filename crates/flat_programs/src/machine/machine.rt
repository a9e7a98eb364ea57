//! The machine that runs a flat program, one operation after another.
ghost use Rattle.std.specs.Prelude.{◌≡◌, ℕ, ◌≤◌, ◌<◌, ◌+◌, List, length, IfOk, option_map, false, true};
ghost use Rattle.hls_base.specs.ArrayAddress.{addresses};
ghost use Rattle.ir_core.specs.Bodies.{Words};
ghost use Rattle.ir_core.specs.FirstContents.{first_words};
ghost use Rattle.ir_core.specs.FlatRuns.{flat_run};
ghost use Rattle.hls_base.specs.declared.place.Place.{Place};
ghost use Rattle.hls_base.specs.declared.point.Point.{Point};
ghost use Rattle.hls_base.specs.declared.refusal.UbRule.{UbRule};
ghost use Rattle.ir_core.specs.Halts.{HasHalted, is_ended};
ghost use Rattle.flat_programs.specs.Memory.Contents.{dims_in, dims_at, element_in};
ghost use Rattle.flat_programs.specs.Machine.Rest.{IsWhole, HasRoom, GoesOn, Passes, rest, beginning, EndsSo, FailsSo};
ghost use Rattle.flat_programs.specs.Machine.Nearing.{IsOver, IsOverWithin, whole_run_steps};
ghost use Rattle.flat_programs.specs.Machine.States.{words_of};
ghost use Rattle.flat_programs.specs.Machine.Steps.{listed};

use crate::machine::state::State;
use hls_base::inputs::Inputs;
use hls_base::number::ArrayId;
use hls_base::point::Point;
use ir_core::cfg::Cfg;
use ir_core::machine::{Halt, Machine};
use ir_core::stamp::Untimed;
use std::alloc::{AllocError, Global};

/// Runs a program of blocks: a step is one operation, one block's end, or one iteration of a loop node, the one whose test is 0 included.
#[derive(Drop)]
pub struct SeqMachine<'a> {
    cfg: &'a Cfg<Untimed>,
    state: State,
    ghost room: { HasRoom cfg.now state },
}

fn is_running(halt: Halt) -> bool
    ensures running { result ≡ true → halt ≡ Halt.Running }
    ensures halted { result ≡ false → HasHalted halt }
{
    match halt {
        Halt::Running => true,
        _ => false,
    }
}

impl<'a> SeqMachine<'a> {
    /// The machine at the beginning of the program's run with these inputs.
    pub fn new(
        alloc: Global,
        cfg: &'a Cfg<Untimed>,
        inputs: &Inputs,
    ) -> Result<SeqMachine<'a>, AllocError>
        ensures program { IfOk result (λ m. m.cfg.now ≡ cfg.now) }
        ensures begins { IfOk result (λ m. IsWhole cfg.now →
            GoesOn 0 (beginning cfg.now (first_words cfg.now.frame inputs.now)) (rest m.cfg.now m.state)) }
        ensures ends { IfOk result (λ m. IsWhole cfg.now → (n : ℕ) →
            IsOver (flat_run cfg.now (first_words cfg.now.frame inputs.now) n) →
            IsOverWithin (whole_run_steps cfg.now n) m.cfg.now m.state) }
    {
        let state = State::new(alloc, cfg, inputs)?;
        Ok(SeqMachine { cfg, state })
    }

    /// A law: where the run of the program from some contents has come to this machine, and this machine has halted, that run ends so, however many more points it may pass.
    pub fn halts_as_the_run(&self)
        ensures ended { (t : Words) (most n : ℕ) →
            GoesOn most (beginning self.now.cfg.now t) (rest self.now.cfg.now self.now.state) →
            self.now.state.halt ≡ Halt.Ended → most ≤ n →
            EndsSo (flat_run self.now.cfg.now t n) self.now.state.returned (words_of self.now.state) }
        ensures undefined { (t : Words) (most n : ℕ) (rule : UbRule) (place : Place) →
            GoesOn most (beginning self.now.cfg.now t) (rest self.now.cfg.now self.now.state) →
            self.now.state.halt ≡ Halt.Undefined rule place → most ≤ n →
            FailsSo (flat_run self.now.cfg.now t n) rule place }
    {}

    /// A law: where the run of the program from some contents passed these points to come to this machine, and this machine has ended, that run passes no others, however many more it may pass.
    pub fn passes_as_the_run(&self)
        ensures { (t : Words) (points : List Point) (most n : ℕ) →
            Passes points most (beginning self.now.cfg.now t) (rest self.now.cfg.now self.now.state) →
            self.now.state.halt ≡ Halt.Ended → most ≤ n → length points ≤ n →
            (flat_run self.now.cfg.now t n).trace ≡ points }
    {}

    /// One step. Answers the point that it passes, if it passes one.
    pub fn pass(&mut self) -> Option<&'a Point>
        ensures stays { HasHalted self.old.state.halt → self.new ≡ self.old }
        ensures passes { IsWhole self.old.cfg.now →
            Passes (listed (option_map (λ point. point.now) result)) 1 (rest self.old.cfg.now self.old.state)
            (rest self.new.cfg.now self.new.state) }
        ensures nears { IsWhole self.old.cfg.now → (most : ℕ) →
            IsOverWithin (most + 1) self.old.cfg.now self.old.state →
            IsOverWithin most self.new.cfg.now self.new.state }
        ensures program { self.new.cfg.now ≡ self.old.cfg.now }
    {
        if is_running(self.state.halt) {
            self.state.advance(self.cfg)
        } else {
            None
        }
    }

    /// So many steps, or fewer where it halts.
    fn go_on(&mut self, steps: u64)
        ensures goes_on { IsWhole self.old.cfg.now →
            GoesOn steps (rest self.old.cfg.now self.old.state) (rest self.new.cfg.now self.new.state) }
        ensures nears { IsWhole self.old.cfg.now → (most : ℕ) →
            IsOverWithin (steps + most) self.old.cfg.now self.old.state →
            IsOverWithin most self.new.cfg.now self.new.state }
        ensures program { self.new.cfg.now ≡ self.old.cfg.now }
    {
        for _ in 0..steps {
            if !is_running(self.state.halt) {
                break;
            }
            self.state.advance(self.cfg);
        }
    }
}

impl<'a> Machine<Untimed> for SeqMachine<'a> {
    ghost halt = { λ m. m.state.halt };

    fn step(&mut self) -> Halt
        ensures answer { result ≡ self.new.state.halt }
        ensures stays { HasHalted self.old.state.halt → self.new ≡ self.old }
        ensures goes_on { IsWhole self.old.cfg.now →
            GoesOn 1 (rest self.old.cfg.now self.old.state) (rest self.new.cfg.now self.new.state) }
        ensures nears { IsWhole self.old.cfg.now → (most : ℕ) →
            IsOverWithin (most + 1) self.old.cfg.now self.old.state →
            IsOverWithin most self.new.cfg.now self.new.state }
        ensures program { self.new.cfg.now ≡ self.old.cfg.now }
    {
        self.pass();
        self.state.halt
    }

    fn run(&mut self, steps: u64) -> Halt
        ensures answer { result ≡ self.new.state.halt }
        ensures stays { HasHalted self.old.state.halt → self.new ≡ self.old }
        ensures none { steps ≡ 0 → self.new ≡ self.old }
        ensures goes_on { IsWhole self.old.cfg.now →
            GoesOn steps (rest self.old.cfg.now self.old.state) (rest self.new.cfg.now self.new.state) }
        ensures nears { IsWhole self.old.cfg.now → (most : ℕ) →
            IsOverWithin (steps + most) self.old.cfg.now self.old.state →
            IsOverWithin most self.new.cfg.now self.new.state }
        ensures halts { IsWhole self.old.cfg.now → (most : ℕ) →
            IsOverWithin most self.old.cfg.now self.old.state → most ≤ steps →
            HasHalted self.new.state.halt }
        ensures program { self.new.cfg.now ≡ self.old.cfg.now }
    {
        if steps > 0 && is_running(self.state.halt) {
            self.go_on(steps);
        }
        self.state.halt
    }

    fn ret(&self) -> Option<u64>
        ensures ended { is_ended self.now.state.halt ≡ false → result ≡ None }
        ensures void { self.now.cfg.now.frame.ret ≡ 0 → result ≡ None }
        ensures result { is_ended self.now.state.halt ≡ true → 0 < self.now.cfg.now.frame.ret →
            result ≡ self.now.state.returned }
    {
        match self.state.halt {
            Halt::Ended if self.cfg.frame.ret > 0 => self.state.returned,
            _ => None,
        }
    }

    fn element(&self, array: ArrayId, index: u32) -> u64
        ensures { index < length (addresses (dims_at (dims_in self.now.state.memories) array)) →
            result ≡ element_in self.now.state.memories array index }
    {
        self.state.memories.element(array, index)
    }
}
