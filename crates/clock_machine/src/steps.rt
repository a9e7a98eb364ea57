//! From one cycle of a timed program to the next one.
ghost use Rattle.std.specs.Prelude.{◌≡◌, ◌≤◌, ◌<◌, ◌&&◌, ◌-◌, ◌^◌, not, ℕ, length, slice_get, Some};
ghost use Rattle.ir_core.specs.Bodies.{Shapes};
ghost use Rattle.flat_programs.specs.Memory.Contents.{words_in};
ghost use Rattle.ir_core.specs.declared.cfg.End.{End};
ghost use Rattle.clock_ir.specs.ClockRuns as runs;
ghost use Rattle.clock_ir.specs.ClockRuns.{TimedProgram, Phase};
ghost use Rattle.clock_ir.specs.Flows as flows;
ghost use Rattle.clock_ir.specs.Flows.{TimedBody, Flow};
ghost use Rattle.clock_machine.specs.Lines.Forms.{IsStageOf};
ghost use Rattle.clock_machine.specs.Lines.Registers.{SameSizes, held, word_read};
ghost use Rattle.clock_machine.specs.Keeping.{IsMoment, IsNextMoment};
ghost use Rattle.clock_machine.specs.Leaving.{AssignmentsAreWithin, AssignmentsAreThere, WayIsWithin, assigned, going_in};
ghost use Rattle.clock_machine.specs.Standing.{IsStateOf, KeepsRoom, IsBodyIn, IsInside, HasStarted, IsInNode, StandsAt};
ghost use Rattle.clock_machine.specs.Starts.{words_of};

use crate::keeping::{begin_lines, keep_made, keep_ready};
use crate::leaving::{chosen, read_assigned, result_of, set_assigned};
use crate::lines::program::{Exit, Program, Stage, Way, Work};
use crate::state::{FIRST_MOMENT, Position, State};
use hls_base::number::NodeId;

impl State {
    /// Gives the variables their values, all from those before.
    fn assign(&mut self, work: &Work)
        ensures does { length work.now.assignments.items ≤ length self.old.fresh.items →
            AssignmentsAreWithin self.old.registers work.now.lines.items work.now.assignments.items →
            AssignmentsAreThere work.now.assignments.items (length self.old.registers.variables.items) →
            held self.new.registers.variables.items ≡ assigned (word_read self.old.registers work.now.lines.items)
            work.now.assignments.items (held self.old.registers.variables.items) }
        ensures memories { self.new.memories ≡ self.old.memories }
        ensures position { self.new.position ≡ self.old.position }
        ensures returned { self.new.returned ≡ self.old.returned }
        ensures room { KeepsRoom self.old self.new }
    {
        read_assigned(
            &self.registers,
            &work.lines,
            &work.assignments,
            &mut self.fresh,
        );
        set_assigned(
            &mut self.registers.variables,
            &work.assignments,
            &self.fresh,
        );
    }

    /// Begins a body in its first cycle.
    fn begin(&mut self, node: NodeId, work: &Work)
        ensures begins { (shapes : Shapes) (b : TimedBody) → IsBodyIn shapes b work.now self.old →
            IsInside shapes b work.now (flows.first_flow b (words_of self.old)) self.new }
        ensures position { self.new.position ≡ Position.Inside node }
        ensures room { KeepsRoom self.old self.new }
    {
        begin_lines(&mut self.registers, work);
        self.moment = FIRST_MOMENT;
        self.position = Position::Inside(node);
    }

    /// Goes to the first cycle of a block, or to the one in which the first values of a loop are loaded.
    fn enter(&mut self, program: &Program, node: NodeId)
        ensures { (p : TimedProgram) → IsStateOf p program.now self.old →
            StandsAt p program.now (runs.enter p.nodes node.0 (words_of self.old)) self.new }
    {
        self.position = Position::Loading(node);
        let index = node.0 as usize;
        let count = program.stages.len();
        if index < count {
            match &program.stages[index] {
                Stage::Block { work, .. } => self.begin(node, work),
                Stage::Loop { .. } => {}
            }
        }
    }

    /// Leaves a block.
    fn leave_block(&mut self, program: &Program, work: &Work, way: &Way)
        ensures { (p : TimedProgram) → IsStateOf p program.now self.old →
            length work.now.assignments.items ≤ length self.old.fresh.items →
            AssignmentsAreWithin self.old.registers work.now.lines.items work.now.assignments.items →
            AssignmentsAreThere work.now.assignments.items (length self.old.registers.variables.items) →
            WayIsWithin self.old.registers work.now.lines.items way.now →
            StandsAt p program.now (runs.goes_to p.nodes
            (going_in (word_read self.old.registers work.now.lines.items) way.now)
            (record {
              variables = assigned (word_read self.old.registers work.now.lines.items)
                  work.now.assignments.items (held self.old.registers.variables.items);
              memories = words_in self.old.memories;
            })) self.new }
    {
        match way {
            Way::Choose { cases, other } => {
                let next = chosen(&self.registers, &work.lines, cases, *other);
                self.assign(work);
                self.enter(program, next);
            }
            Way::Return(value) => {
                self.returned = result_of(&self.registers, &work.lines, *value);
                self.assign(work);
                self.position = Position::Ended;
            }
        }
    }

    /// Goes on to the next cycle of a block or loop.
    fn pass(&mut self, interval: u64)
        ensures moment { (b : TimedBody) (f : Flow) → b.interval ≡ interval → 0 < b.interval →
            IsMoment b f self.old.moment.phase self.old.moment.time →
            IsNextMoment b f self.new.moment.phase self.new.moment.time }
        ensures failed { self.new.moment.failed ≡ self.old.moment.failed }
        ensures same { self.new ≡ record self.old { moment = self.new.moment } }
    {
        let phase = self.moment.phase.saturating_add(1);
        self.moment.time = self.moment.time.saturating_add(1);
        self.moment.phase = if phase < interval { phase } else { 0 };
    }

    /// Puts the values of this cycle into their lines, and goes on to the next one.
    fn keep(&mut self, work: &Work)
        ensures ticks { (shapes : Shapes) (b : TimedBody) (f : Flow) → HasStarted shapes b work.now f self.old →
            IsInside shapes b work.now (flows.tick shapes b f) self.new }
        ensures position { self.new.position ≡ self.old.position }
        ensures returned { self.new.returned ≡ self.old.returned }
        ensures room { KeepsRoom self.old self.new }
    {
        let moment = self.moment;
        keep_made(
            &mut self.registers,
            work,
            &self.fresh,
            moment.phase,
            moment.time,
        );
        self.pass(work.pace.interval);
        keep_ready(
            &mut self.registers,
            work,
            self.moment.phase,
            self.moment.time,
        );
    }

    /// A cycle of a block.
    fn block_cycle(&mut self, program: &Program, work: &Work, way: &Way)
        ensures { (p : TimedProgram) (node : NodeId) (b : TimedBody) (end_ : End) (f : Flow) →
            IsStateOf p program.now self.old → self.old.position ≡ Position.Inside node →
            slice_get p.nodes node.0 ≡ Some (runs.block b end_) →
            slice_get program.now.stages.items node.0 ≡ Some (Stage.Block work.now way.now) →
            IsInside p.shapes b work.now f self.old → f.time < b.interval →
            StandsAt p program.now (runs.block_step p.shapes p.nodes node.0 b end_ f) self.new }
    {
        self.start(work);
        self.keep(work);
        let time = self.moment.time;
        let interval = work.pace.interval;
        if interval <= time {
            self.leave_block(program, work, way);
        }
    }

    /// Whether an iteration that does not run is at the exit of its loop.
    fn is_over(&self, interval: u64, exit: Exit) -> bool
        ensures { (shapes : Shapes) (b : TimedBody) (work : Work) (f : Flow) → b.interval ≡ interval →
            HasStarted shapes b work f self.now → exit.gate ≡ flows.place b.interval (flows.known b) exit.exit 0 →
            exit.gate < 2 ^ 64 - 1 →
            result ≡ (flows.is_at b.interval exit.exit f.time && not (flows.runs_at b f exit.exit)) }
    {
        self.is_at(interval, exit.exit) && exit.gate < self.moment.failed
    }

    /// A cycle of a loop.
    fn loop_cycle(&mut self, program: &Program, work: &Work, exit: Exit)
        ensures { (p : TimedProgram) (node : NodeId) (b : TimedBody) (last next : ℕ) (f : Flow) →
            IsStateOf p program.now self.old → self.old.position ≡ Position.Inside node →
            slice_get p.nodes node.0 ≡ Some (runs.overlapped b last next) →
            slice_get program.now.stages.items node.0 ≡ Some (Stage.Loop work.now exit) →
            IsInside p.shapes b work.now f self.old →
            StandsAt p program.now (runs.loop_step p.shapes p.nodes node.0 b last next f) self.new }
    {
        self.start(work);
        let over = self.is_over(work.pace.interval, exit);
        if over {
            self.assign(work);
            self.enter(program, exit.next);
        } else {
            self.keep(work);
        }
    }

    /// A cycle of the node in which the machine is.
    fn cycle(&mut self, program: &Program, node: NodeId)
        ensures { (p : TimedProgram) (f : Flow) → IsStateOf p program.now self.old →
            self.old.position ≡ Position.Inside node → IsInNode p program.now node.0 f self.old →
            StandsAt p program.now (runs.node_step p.shapes p.nodes node.0 f (slice_get p.nodes node.0)) self.new }
    {
        let index = node.0 as usize;
        let count = program.stages.len();
        if index < count {
            match &program.stages[index] {
                Stage::Block { work, way } => self.block_cycle(program, work, way),
                Stage::Loop { work, exit } => self.loop_cycle(program, work, *exit),
            }
        }
    }

    /// Begins a loop, whose first values are loaded in this cycle.
    fn load_loop(&mut self, program: &Program, node: NodeId)
        ensures { (p : TimedProgram) → IsStateOf p program.now self.old → self.old.position ≡ Position.Loading node →
            StandsAt p program.now (runs.load node.0 (words_of self.old) (slice_get p.nodes node.0)) self.new }
    {
        let index = node.0 as usize;
        let count = program.stages.len();
        if index < count {
            match &program.stages[index] {
                Stage::Block { .. } => {}
                Stage::Loop { work, .. } => self.begin(node, work),
            }
        }
    }

    /// One edge of the clock.
    pub fn step(&mut self, program: &Program)
        ensures { (p : TimedProgram) (phase : Phase) → StandsAt p program.now phase self.old →
            StandsAt p program.now (runs.clock_step p phase) self.new }
    {
        match self.position {
            Position::Start => self.enter(program, self.first),
            Position::Loading(node) => self.load_loop(program, node),
            Position::Inside(node) => self.cycle(program, node),
            Position::Ended => {}
        }
    }
}
