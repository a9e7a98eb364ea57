//! What changes as a timed program runs, and what its operations do that start in a cycle.
ghost use Rattle.std.specs.Prelude.{◌≡◌, ◌≢◌, ◌≤◌, ◌<◌, ◌%◌, ◌&&◌, not, ℕ, List, length, map, get_or, slice_get, slice_set, IfOk, false};
ghost use Rattle.ir_core.specs.Bodies.{Shapes, effect, performed};
ghost use Rattle.ir_core.specs.FirstContents.{first_words};
ghost use Rattle.flat_programs.specs.Memory.Contents.{dims_in, words_in};
ghost use Rattle.clock_ir.specs.ClockRuns.{timed_program};
ghost use Rattle.clock_ir.specs.Flows as flows;
ghost use Rattle.clock_ir.specs.Flows.{TimedOp, TimedBody, Flow, gates_now};
ghost use Rattle.clock_machine.specs.Lines.Forms.{IsProgramOf};
ghost use Rattle.clock_machine.specs.Lines.Registers.{word_read};
ghost use Rattle.clock_machine.specs.Lines.Showing.{ShowsGates};
ghost use Rattle.clock_machine.specs.Acts.{shapes, op_in, IsThere, ReadsAreWithin, ReadIsWithinIf, allows, guard_holds, is_store};
ghost use Rattle.clock_machine.specs.Keeping.{IsMoment, GivesAt, HasGiven};
ghost use Rattle.clock_machine.specs.Standing.{IsWholeProgram, IsSteadyProgram, IsStateOf, KeepsRoom, IsAt, IsInside, HasStarted};
ghost use Rattle.clock_machine.specs.Starting.{value_of, stored_by};
ghost use Rattle.clock_machine.specs.Starts.{IsNamed, IsStarting, words_of};

use crate::acts::{does_guard_hold, given, is_allowed, perform, read_all};
use crate::first::first_variables;
use crate::lines::agenda::phase_of;
use crate::lines::program::{Action, Line, Program, Read, Work};
use crate::lines::registers::Registers;
use crate::lines::words::set_word;
use crate::room::sizes_of;
use flat_programs::memory::memories::Memories;
use hls_base::inputs::Inputs;
use hls_base::number::NodeId;
use ir_core::body::OpKind;
use ir_core::cfg::Cfg;
use ir_core::timed::Timed;
use std::alloc::{AllocError, Global};

/// Before the start, before the first values of a loop are loaded, in a block or loop, or at the end.
#[derive(Clone, Copy, PartialEq, Eq)]
pub enum Position {
    Start,
    Loading(NodeId),
    Inside(NodeId),
    Ended,
}

/// The time within a block or loop, its phase, and how many iterations were found not to run.
#[derive(Clone, Copy)]
pub struct Moment {
    pub time: u64,
    pub phase: u64,
    pub failed: u64,
}

pub const FIRST_MOMENT: Moment = Moment {
    time: 0,
    phase: 0,
    failed: 0,
};

/// `args` and `fresh` are buffers.
#[derive(Drop)]
pub struct State {
    pub memories: Memories,
    pub position: Position,
    pub returned: Option<u64>,
    pub registers: Registers,
    pub args: Vec<u64>,
    pub fresh: Vec<u64>,
    pub moment: Moment,
    pub first: NodeId,
}

impl State {
    pub fn new(
        alloc: Global,
        cfg: &Cfg<Timed>,
        program: &Program,
        inputs: &Inputs,
    ) -> Result<State, AllocError>
        ensures dims { IfOk result (λ s. dims_in s.memories ≡ map (λ m. m.dims.items) cfg.now.frame.memories.items) }
        ensures begins { IfOk result (λ s. IsNamed cfg.now.frame →
            IsStarting (first_words cfg.now.frame inputs.now) s) }
        ensures state { IfOk result (λ s. IsProgramOf (timed_program cfg.now) program.now →
            IsWholeProgram (timed_program cfg.now) → IsSteadyProgram (timed_program cfg.now) →
            IsStateOf (timed_program cfg.now) program.now s) }
    {
        let sizes = sizes_of(program);
        Ok(State {
            memories: Memories::new(alloc, &cfg.frame.memories, inputs)?,
            position: Position::Start,
            returned: None,
            registers: Registers {
                variables: first_variables(alloc, &cfg.frame, inputs)?,
                words: vec![in alloc; 0u64; sizes.words]?,
                heads: vec![in alloc; 0usize; sizes.lines]?,
            },
            args: vec![in alloc; 0u64; sizes.args]?,
            fresh: vec![in alloc; 0u64; sizes.fresh]?,
            moment: FIRST_MOMENT,
            first: cfg.first,
        })
    }

    /// What an operation gives that starts in this cycle, after what it does.
    fn act(&mut self, lines: &[Line], action: &Action) -> u64
        ensures does { (widths : List ℕ) → length action.now.args.items ≤ length self.old.args.items →
            ReadsAreWithin self.old.registers lines.now action.now.args.items →
            ReadIsWithinIf self.old.registers lines.now action.now.guard →
            IsThere action.now.array (dims_in self.old.memories) →
            effect (shapes widths (dims_in self.old.memories)) (op_in action.now) action.now.kind
            (allows self.old.registers lines.now self.old.moment.failed action.now) action.now.from_bits
            (map (word_read self.old.registers lines.now) action.now.args.items) (words_of self.old)
            ≡ performed result (words_of self.new) }
        ensures same { self.new ≡ record self.old { args = self.new.args; memories = self.new.memories } }
        ensures dims { dims_in self.new.memories ≡ dims_in self.old.memories }
        ensures args { length self.new.args.items ≡ length self.old.args.items }
    {
        let count = action.args.len().min(self.args.len());
        read_all(&self.registers, lines, &action.args, &mut self.args);
        let allowed = is_allowed(&self.registers, lines, self.moment.failed, action);
        perform(&mut self.memories, action, allowed, &self.args[..count])
    }

    /// What an operation gives that starts in this cycle.
    fn value(&mut self, lines: &[Line], action: &Action) -> u64
        ensures gives { (widths : List ℕ) → length action.now.args.items ≤ length self.old.args.items →
            ReadsAreWithin self.old.registers lines.now action.now.args.items →
            ReadIsWithinIf self.old.registers lines.now action.now.guard →
            result ≡ value_of (shapes widths (dims_in self.old.memories)) self.old.registers lines.now action.now
            (words_in self.old.memories) }
        ensures same { self.new ≡ record self.old { args = self.new.args } }
        ensures args { length self.new.args.items ≡ length self.old.args.items }
    {
        let count = action.args.len().min(self.args.len());
        read_all(&self.registers, lines, &action.args, &mut self.args);
        let allowed = does_guard_hold(&self.registers, lines, action.guard);
        given(&self.memories, action, allowed, &self.args[..count])
    }

    /// Keeps what operation `number` gives.
    fn set_fresh(&mut self, number: usize, word: u64)
        ensures fresh { self.new.fresh.items ≡ slice_set self.old.fresh.items number word }
        ensures same { self.new ≡ record self.old { fresh = self.new.fresh } }
    {
        set_word(&mut self.fresh, number, word);
    }

    /// Keeps what an operation gives, if its first iteration has come to it.
    fn start_value(&mut self, work: &Work, number: usize)
        ensures given { (shapes : Shapes) (b : TimedBody) (f : Flow) → IsAt shapes b work.now f self.old →
            words_in self.old.memories ≡ f.memories → GivesAt shapes b f self.new.fresh.items number }
        ensures others { (k : ℕ) → k ≢ number →
            get_or self.new.fresh.items k 0 ≡ get_or self.old.fresh.items k 0 }
        ensures same { self.new ≡ record self.old { args = self.new.args; fresh = self.new.fresh } }
        ensures args { length self.new.args.items ≡ length self.old.args.items }
        ensures fresh { length self.new.fresh.items ≡ length self.old.fresh.items }
    {
        let count = work.actions.len();
        let time = self.moment.time;
        if number < count && work.actions[number].start <= time {
            let word = self.value(&work.lines, &work.actions[number]);
            self.set_fresh(number, word);
        }
    }

    /// Keeps what the operations give that start in this cycle, all from what was held before it; a store gives 0.
    fn start_values(&mut self, work: &Work)
        ensures given { (shapes : Shapes) (b : TimedBody) (f : Flow) → IsAt shapes b work.now f self.old →
            words_in self.old.memories ≡ f.memories → HasGiven shapes b f self.new.fresh.items }
        ensures same { self.new ≡ record self.old { args = self.new.args; fresh = self.new.fresh } }
        ensures args { length self.new.args.items ≡ length self.old.args.items }
        ensures fresh { length self.new.fresh.items ≡ length self.old.fresh.items }
    {
        let mut number = work.starts.first(self.moment.phase);
        while number < work.actions.len() {
            self.start_value(work, number);
            number = work.starts.next(number);
        }
    }

    /// Does an operation if it is a store.
    fn store(&mut self, lines: &[Line], action: &Action)
        ensures stores { action.now.kind ≡ OpKind.Store → (widths : List ℕ) →
            length action.now.args.items ≤ length self.old.args.items →
            ReadsAreWithin self.old.registers lines.now action.now.args.items →
            ReadIsWithinIf self.old.registers lines.now action.now.guard →
            IsThere action.now.array (dims_in self.old.memories) →
            words_in self.new.memories ≡ (effect (shapes widths (dims_in self.old.memories)) (op_in action.now)
            action.now.kind (allows self.old.registers lines.now self.old.moment.failed action.now)
            action.now.from_bits (map (word_read self.old.registers lines.now) action.now.args.items)
            (words_of self.old)).words.memories }
        ensures rests { is_store action.now.kind ≡ false → self.new ≡ self.old }
        ensures same { self.new ≡ record self.old { args = self.new.args; memories = self.new.memories } }
        ensures dims { dims_in self.new.memories ≡ dims_in self.old.memories }
        ensures args { length self.new.args.items ≡ length self.old.args.items }
    {
        if let OpKind::Store = action.kind {
            self.act(lines, action);
        }
    }

    /// Does a store, if its first iteration has come to it.
    fn start_store(&mut self, work: &Work, number: usize)
        ensures stores { (shapes : Shapes) (b : TimedBody) (f : Flow) (o : TimedOp) →
            IsAt shapes b work.now f self.old → ShowsGates (gates_now b f) self.old.moment.failed →
            slice_get b.ops number ≡ Some o → o.start % b.interval ≡ self.old.moment.phase →
            words_in self.new.memories ≡ stored_by shapes b f o (words_in self.old.memories) }
        ensures same { self.new ≡ record self.old { args = self.new.args; memories = self.new.memories } }
        ensures dims { dims_in self.new.memories ≡ dims_in self.old.memories }
        ensures args { length self.new.args.items ≡ length self.old.args.items }
    {
        let count = work.actions.len();
        let time = self.moment.time;
        if number < count && work.actions[number].start <= time {
            self.store(&work.lines, &work.actions[number]);
        }
    }

    /// Does the stores of this cycle.
    fn start_stores(&mut self, work: &Work)
        ensures stores { (shapes : Shapes) (b : TimedBody) (f : Flow) → IsAt shapes b work.now f self.old →
            ShowsGates (gates_now b f) self.old.moment.failed → words_in self.old.memories ≡ f.memories →
            words_in self.new.memories ≡ flows.behind_stores shapes b f b.ops f.memories }
        ensures same { self.new ≡ record self.old { args = self.new.args; memories = self.new.memories } }
        ensures dims { dims_in self.new.memories ≡ dims_in self.old.memories }
        ensures args { length self.new.args.items ≡ length self.old.args.items }
    {
        let mut number = work.starts.first(self.moment.phase);
        while number < work.actions.len() {
            self.start_store(work, number);
            number = work.starts.next(number);
        }
    }

    /// Whether some iteration is at this time.
    pub fn is_at(&self, interval: u64, time: u64) -> bool
        ensures { (b : TimedBody) (f : Flow) → b.interval ≡ interval → 0 < b.interval →
            IsMoment b f self.now.moment.phase self.now.moment.time →
            result ≡ flows.is_at b.interval time f.time }
    {
        if time <= self.moment.time {
            phase_of(time, interval) == self.moment.phase
        } else {
            false
        }
    }

    /// Whether a test holds.
    fn holds(&self, lines: &[Line], test: Option<Read>) -> bool
        ensures { ReadIsWithinIf self.now.registers lines.now test → result ≡ guard_holds self.now.registers lines.now test }
    {
        does_guard_hold(&self.registers, lines, test)
    }

    /// Whether the iteration runs whose test is known in this cycle: the one before it runs, and the test holds.
    fn runs(&self, work: &Work) -> bool
        ensures { (shapes : Shapes) (b : TimedBody) (f : Flow) → IsAt shapes b work.now f self.now →
            ShowsGates f.gates self.now.moment.failed →
            result ≡ (f.gates 0 && flows.holds_at b f (flows.known b) b.test) }
    {
        let holds = self.holds(&work.lines, work.pace.test);
        if holds {
            self.moment.failed == 0
        } else {
            false
        }
    }

    /// How many iterations were found not to run, with the one whose test is known in this cycle, if there is one.
    fn failed(&self, work: &Work) -> u64
        ensures { (shapes : Shapes) (b : TimedBody) (f : Flow) → IsAt shapes b work.now f self.now →
            ShowsGates f.gates self.now.moment.failed → ShowsGates (gates_now b f) result }
    {
        let known = self.is_at(work.pace.interval, work.pace.known);
        let runs = self.runs(work);
        if known {
            if runs {
                self.moment.failed
            } else {
                self.moment.failed.saturating_add(1)
            }
        } else {
            self.moment.failed
        }
    }

    /// Looks at the test that is known in this cycle, if there is one.
    fn see_test(&mut self, work: &Work)
        ensures gates { (shapes : Shapes) (b : TimedBody) (f : Flow) → IsAt shapes b work.now f self.old →
            ShowsGates f.gates self.old.moment.failed → ShowsGates (gates_now b f) self.new.moment.failed }
        ensures same { self.new ≡
            record self.old { moment = record self.old.moment { failed = self.new.moment.failed } } }
    {
        self.moment.failed = self.failed(work);
    }

    /// Does what the operations do that start in this cycle.
    pub fn start(&mut self, work: &Work)
        ensures started { (shapes : Shapes) (b : TimedBody) (f : Flow) → IsInside shapes b work.now f self.old →
            HasStarted shapes b work.now f self.new }
        ensures position { self.new.position ≡ self.old.position }
        ensures returned { self.new.returned ≡ self.old.returned }
        ensures room { KeepsRoom self.old self.new }
    {
        self.see_test(work);
        self.start_values(work);
        self.start_stores(work);
    }
}
