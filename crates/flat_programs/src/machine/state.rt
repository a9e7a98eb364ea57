//! What changes as a program runs.
ghost use Rattle.std.specs.Prelude.{◌≡◌, ◌≤◌, ◌<◌, ◌+◌, ◌++◌, ◌∷◌, [], ℕ, List, map, take, length, get_or, min, drop, slice_get, Some, option_map, OnOk, IfOk};
ghost use Rattle.ir_core.specs.declared.body.Op.{Op};
ghost use Rattle.ir_core.specs.declared.stamp.Untimed.{Untimed};
ghost use Rattle.ir_core.specs.Bodies as bodies;
ghost use Rattle.ir_core.specs.TreeRuns as trees;
ghost use Rattle.ir_core.specs.FlatRuns as flat;
ghost use Rattle.ir_core.specs.FirstContents.{first_words};
ghost use Rattle.flat_programs.specs.Memory.Contents.{dims_in};
ghost use Rattle.flat_programs.specs.Machine.Held.{shapes, IsThere, found};
ghost use Rattle.flat_programs.specs.Machine.Sizes.{HasArgs};
ghost use Rattle.flat_programs.specs.Machine.States.{results_of, words_of, ranged_of, Keeps, Stays, FitsBody, ArraysThere, VariablesThere, IsThereIn, settled};
ghost use Rattle.flat_programs.specs.Machine.Rest.{IsWhole, HasRoom, Passes, rest, moved};
ghost use Rattle.flat_programs.specs.Machine.Nearing.{IsOverWithin};
ghost use Rattle.flat_programs.specs.Machine.Steps as steps;
ghost use Rattle.flat_programs.specs.Machine.Steps.{HasGone, HasStepped, HasIterated, listed};

use crate::machine::effects::{Broken, act, check, first_bits};
use crate::machine::operands::{
    Target, goes_round, going, is_allowed, read_all, read_outs, set_outs,
};
use crate::machine::room::{first_variables, sizes_of};
use crate::memory::memories::Memories;
use hls_base::inputs::Inputs;
use hls_base::number::NodeId;
use hls_base::point::Point;
use ir_core::body::{Body, Op, Operand, Out, Source};
use ir_core::cfg::{Cfg, End, Node};
use ir_core::machine::Halt;
use ir_core::stamp::Untimed;
use std::alloc::{AllocError, Global};

/// Behind the first `position` operations of a block, whose results are there. `args` and `fresh` are buffers.
#[derive(Drop)]
pub struct State {
    pub memories: Memories,
    pub variables: Vec<u64>,
    pub results: Vec<u64>,
    pub args: Vec<u64>,
    pub fresh: Vec<u64>,
    pub node: NodeId,
    pub position: usize,
    pub halt: Halt,
    pub returned: Option<u64>,
}

/// What came of an iteration: an operation before its test has no meaning, or the test is 0, or its point was passed, and perhaps an operation behind that has no meaning.
#[derive(Clone, Copy)]
pub enum Round {
    Undefined(Broken),
    Over,
    Passed(Result<(), Broken>),
}

/// How many operations come before the test is known.
fn tested(test: Option<Operand>) -> usize
    ensures { result ≡ trees.tested test }
{
    match test {
        Some(test) => match test.value {
            Source::Result(op) => op.0 as usize + 1,
            _ => 0,
        },
        None => 0,
    }
}

fn is_passed(round: Round) -> bool
    ensures { result ≡ steps.is_passed round }
{
    matches!(round, Round::Passed(_))
}

/// A point, if it was passed.
fn point_if(passed: bool, point: &Point) -> Option<&Point>
    ensures { listed (option_map (λ point. point.now) result) ≡ steps.point_if passed point.now }
{
    if passed { Some(point) } else { None }
}

impl State {
    /// The state at the beginning of a run.
    pub fn new(alloc: Global, cfg: &Cfg<Untimed>, inputs: &Inputs) -> Result<State, AllocError>
        ensures room { IfOk result (λ s. HasRoom cfg.now s) }
        ensures first { IfOk result (λ s. IsWhole cfg.now →
            HasGone (flat.to cfg.now.first.0) (first_words cfg.now.frame inputs.now) s) }
    {
        let sizes = sizes_of(&cfg.nodes);
        Ok(State {
            memories: Memories::new(alloc, &cfg.frame.memories, inputs)?,
            variables: first_variables(alloc, &cfg.frame, inputs)?,
            results: vec![in alloc; 0u64; sizes.results]?,
            args: vec![in alloc; 0u64; sizes.args]?,
            fresh: vec![in alloc; 0u64; sizes.fresh]?,
            node: cfg.first,
            position: 0,
            halt: Halt::Running,
            returned: None,
        })
    }

    /// Runs an operation.
    pub fn perform(
        &mut self,
        widths: &[u8],
        ops: &[Op<Untimed>],
        op: &Op<Untimed>,
    ) -> Result<(), Broken>
        requires args { length op.now.args.items ≤ length self.old.args.items }
        requires results { self.old.position < length self.old.results.items }
        ensures does { IsThere op.now.array (dims_in self.old.memories) →
            bodies.perform (shapes widths.now (dims_in self.old.memories)) (map bodies.op_of ops.now)
            (bodies.op_of op.now) (results_of self.old) (words_of self.old)
            ≡ found result
            (bodies.performed (get_or self.new.results.items self.old.position 0) (words_of self.new)) }
        ensures next { OnOk result (self.new.position ≡ self.old.position + 1) }
        ensures bound { self.new.position ≤ length self.new.results.items }
        ensures behind { OnOk result (results_of self.new
            ≡ results_of self.old ++ get_or self.new.results.items self.old.position 0 ∷ []) }
        ensures keeps { Keeps self.old self.new }
        ensures stays { Stays self.old self.new }
    {
        let count = op.args.len();
        let done = self.position;
        read_all(
            &self.variables,
            &self.results[..done],
            op.args.as_slice(),
            &mut self.args,
        );
        let allowed = is_allowed(&self.variables, &self.results[..done], op.guard);
        check(&self.memories, op, allowed, &self.args[..count])?;
        let from_bits = first_bits(widths, ops, op);
        let result = act(
            &mut self.memories,
            op,
            allowed,
            from_bits,
            &self.args[..count],
        );
        self.results[done] = result;
        self.position = done + 1;
        Ok(())
    }

    /// Runs some of the operations of a block, up to the first that has no meaning.
    fn perform_all(
        &mut self,
        widths: &[u8],
        ops: &[Op<Untimed>],
        part: &[Op<Untimed>],
    ) -> Result<(), Broken>
        requires args { HasArgs part.now (length self.old.args.items) }
        requires results { self.old.position + length part.now ≤ length self.old.results.items }
        ensures does { ArraysThere part.now (dims_in self.old.memories) →
            bodies.operations (shapes widths.now (dims_in self.old.memories)) (map bodies.op_of ops.now)
            (map bodies.op_of part.now) (results_of self.old) (words_of self.old)
            ≡ found result (ranged_of self.new) }
        ensures next { OnOk result (self.new.position ≡ self.old.position + length part.now) }
        ensures bound { self.new.position ≤ length self.new.results.items }
        ensures keeps { Keeps self.old self.new }
        ensures stays { Stays self.old self.new }
    {
        for op in part {
            match self.perform(widths, ops, op) {
                Ok(()) => {}
                Err(broken) => return Err(broken),
            }
        }
        Ok(())
    }

    /// Gives the variables their values, all from those before.
    pub fn assign(&mut self, outs: &[Out])
        requires outs { length outs.now ≤ length self.old.fresh.items }
        requires position { self.old.position ≤ length self.old.results.items }
        ensures does { VariablesThere outs.now (length self.old.variables.items) → words_of self.new
            ≡ bodies.with_outs outs.now (record { results = results_of self.old; words = words_of self.old }) }
        ensures position { self.new.position ≡ self.old.position }
        ensures keeps { Keeps self.old self.new }
        ensures stays { Stays self.old self.new }
    {
        read_outs(
            &self.variables,
            &self.results[..self.position],
            outs,
            &mut self.fresh,
        );
        set_outs(&mut self.variables, outs, &self.fresh);
    }

    /// Stops where an operation had no meaning.
    fn settle(&mut self, done: Result<(), Broken>)
        ensures { self.new ≡ settled done self.old }
    {
        if let Err(broken) = done {
            self.halt = Halt::Undefined(broken.rule, broken.place);
        }
    }

    /// Leaves a block whose operations are done.
    fn leave(&mut self, body: &Body<Untimed>, end: &End)
        requires outs { length body.now.outs.items ≤ length self.old.fresh.items }
        requires position { self.old.position ≤ length self.old.results.items }
        requires running { self.old.halt ≡ Halt.Running }
        ensures does { VariablesThere body.now.outs.items (length self.old.variables.items) →
            HasGone (flat.going end.now (words_of self.old) (results_of self.old))
            (bodies.with_outs body.now.outs.items (ranged_of self.old)) self.new }
        ensures position { self.new.position ≤ length self.new.results.items }
        ensures keeps { Keeps self.old self.new }
    {
        let target = going(&self.variables, &self.results[..self.position], end);
        self.assign(&body.outs);
        match target {
            Target::Node(node) => {
                self.node = node;
                self.position = 0;
            }
            Target::End(word) => {
                self.returned = word;
                self.halt = Halt::Ended;
            }
        }
    }

    /// Runs one operation of a block, or leaves it behind the last one.
    fn block_step(&mut self, widths: &[u8], body: &Body<Untimed>, end: &End)
        requires fits { FitsBody self.old body.now }
        requires position { self.old.position ≤ length self.old.results.items }
        requires running { self.old.halt ≡ Halt.Running }
        ensures does { IsThereIn self.old body.now →
            HasStepped (shapes widths.now (dims_in self.old.memories)) body.now end.now self.old self.new }
        ensures position { self.new.position ≤ length self.new.results.items }
        ensures keeps { Keeps self.old self.new }
    {
        let position = self.position;
        if position < body.ops.len() {
            let done = self.perform(widths, &body.ops, &body.ops[position]);
            self.settle(done);
        } else {
            self.leave(body, end);
        }
    }

    /// Runs the operations before the test of a loop, and tells whether the iteration goes on.
    fn begin_round(&mut self, widths: &[u8], body: &Body<Untimed>) -> Result<bool, Broken>
        requires fits { FitsBody self.old body.now }
        ensures does { ArraysThere body.now.ops.items (dims_in self.old.memories) →
            bodies.operations (shapes widths.now (dims_in self.old.memories))
            (map bodies.op_of body.now.ops.items)
            (map bodies.op_of (take (trees.tested body.now.test) body.now.ops.items)) []
            (words_of self.old)
            ≡ found result (ranged_of self.new) }
        ensures round { IfOk result
            (λ goes. goes ≡ trees.goes_round body.now.test (words_of self.new) (results_of self.new)) }
        ensures next { OnOk result
            (self.new.position ≡ min (trees.tested body.now.test) (length body.now.ops.items)) }
        ensures bound { self.new.position ≤ length self.new.results.items }
        ensures keeps { Keeps self.old self.new }
        ensures stays { Stays self.old self.new }
    {
        self.position = 0;
        let tested = tested(body.test).min(body.ops.len());
        match self.perform_all(widths, &body.ops, &body.ops[..tested]) {
            Ok(()) => Ok(goes_round(&self.variables, &self.results[..self.position], body.test)),
            Err(broken) => Err(broken),
        }
    }

    /// Runs the operations of a loop that are left, and sets the variables.
    fn end_round(&mut self, widths: &[u8], body: &Body<Untimed>) -> Result<(), Broken>
        requires fits { FitsBody self.old body.now }
        requires position { self.old.position ≤ length body.now.ops.items }
        ensures does { IsThereIn self.old body.now → (r : bodies.Ranged)
            × (bodies.operations (shapes widths.now (dims_in self.old.memories))
            (map bodies.op_of body.now.ops.items)
            (map bodies.op_of (drop self.old.position body.now.ops.items))
            (results_of self.old) (words_of self.old) ≡ found result r)
            × OnOk result (words_of self.new ≡ bodies.with_outs body.now.outs.items r) }
        ensures bound { self.new.position ≤ length self.new.results.items }
        ensures keeps { Keeps self.old self.new }
        ensures stays { Stays self.old self.new }
    {
        match self.perform_all(widths, &body.ops, &body.ops[self.position..]) {
            Ok(()) => {
                self.assign(&body.outs);
                Ok(())
            }
            Err(broken) => Err(broken),
        }
    }

    /// Runs one iteration of a loop.
    fn iterate(&mut self, widths: &[u8], point: &Point, body: &Body<Untimed>) -> Round
        requires fits { FitsBody self.old body.now }
        ensures does { IsThereIn self.old body.now →
            HasIterated (shapes widths.now (dims_in self.old.memories)) point.now body.now result
            self.old self.new }
        ensures bound { self.new.position ≤ length self.new.results.items }
        ensures keeps { Keeps self.old self.new }
        ensures stays { Stays self.old self.new }
    {
        match self.begin_round(widths, body) {
            Ok(goes) => {
                if goes {
                    Round::Passed(self.end_round(widths, body))
                } else {
                    Round::Over
                }
            }
            Err(broken) => Round::Undefined(broken),
        }
    }

    /// Goes to the next iteration of a loop, or to the node behind it.
    fn turn(&mut self, next: NodeId, round: Round)
        ensures { self.new ≡ moved next round self.old }
    {
        match round {
            Round::Undefined(broken) => self.settle(Err(broken)),
            Round::Over => {
                self.node = next;
                self.position = 0;
            }
            Round::Passed(done) => {
                self.position = 0;
                self.settle(done);
            }
        }
    }

    /// One step of a run that goes on. Answers the point that it passes, if it passes one.
    pub fn advance<'c>(&mut self, cfg: &'c Cfg<Untimed>) -> Option<&'c Point>
        requires room { HasRoom cfg.now self.old }
        requires running { self.old.halt ≡ Halt.Running }
        ensures passes { IsWhole cfg.now →
            Passes (listed (option_map (λ point. point.now) result)) 1 (rest cfg.now self.old) (rest cfg.now self.new) }
        ensures nears { IsWhole cfg.now → (most : ℕ) →
            IsOverWithin (most + 1) cfg.now self.old → IsOverWithin most cfg.now self.new }
        ensures room { HasRoom cfg.now self.new }
    {
        let index = self.node.0 as usize;
        if index >= cfg.nodes.len() {
            return None;
        }
        match &cfg.nodes[index] {
            Node::Plain(block) => {
                let entered = self.position == 0;
                self.block_step(&cfg.frame.variables, &block.body, &block.end);
                point_if(entered, &block.point)
            }
            Node::Looped(region) => {
                let round = self.iterate(&cfg.frame.variables, &region.point, &region.body);
                self.turn(region.next, round);
                point_if(is_passed(round), &region.point)
            }
        }
    }
}
