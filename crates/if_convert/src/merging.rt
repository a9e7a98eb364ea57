//! A block that grows: the branches of a fork and the block behind it are merged into it.
ghost use Rattle.std.specs.Prelude.{◌≡◌, ◌++◌, IfOk, map};
ghost use Rattle.std.specs.Option.{option_map};
ghost use Rattle.ir_core.specs.Bodies.{op_of};
ghost use Rattle.ir_core.specs.Trees.{block_of};
ghost use Rattle.passes.specs.Conversion.Merging as spec;
ghost use Rattle.if_convert.specs.Entries.{outs_of};
ghost use Rattle.if_convert.specs.Views.{guards_of};
ghost use Rattle.if_convert.specs.Blocks.{branched_of, choice_of};

use crate::joining::{Behind, Guard, Joined, add, plain};
use crate::outs::{Sets, held, held_or, is_set, outs_in, set, set_all};
use hls_base::number::VarId;
use hls_base::point::Point;
use indexmap::IndexMap;
use ir_core::body::{Op, OpKind, Operand, Out};
use ir_core::stamp::Untimed;
use ir_core::tree::{BasicBlock, Exit};
use std::alloc::{AllocError, Global};

/// What is the same for all blocks: the widths of the variables, and whether loops are overlapped.
#[derive(Clone, Copy)]
pub struct Scope<'a> {
    pub alloc: Global,
    pub variables: &'a [u8],
    pub loops: bool,
}

/// The test of a fork, and its branches, which may have no block.
#[derive(Drop)]
pub struct Branches {
    pub test: Operand,
    pub yes: Option<BasicBlock>,
    pub no: Option<BasicBlock>,
}

/// Operations with those of a branch, and what it sets.
#[derive(Drop)]
struct Branched {
    ops: Vec<Op<Untimed>>,
    sets: Sets,
}

/// A variable that one of the branches sets, and what it holds behind each of them.
#[derive(Clone, Copy, PartialEq, Eq)]
struct Choice {
    variable: VarId,
    yes: Operand,
    no: Operand,
}

/// A block that is open.
#[derive(Drop)]
pub struct Open {
    pub point: Point,
    pub ops: Vec<Op<Untimed>>,
    pub sets: Sets,
    pub exit: Exit,
}

fn width(variables: &[u8], variable: VarId) -> u8
    ensures { result ≡ spec.selected_bits variables.now variable }
{
    let index = variable.0 as usize;
    if index < variables.len() {
        variables[index]
    } else {
        64
    }
}

fn branched_block(
    behind: &Behind<'_>,
    ops: Vec<Op<Untimed>>,
    guards: Vec<Guard>,
    block: BasicBlock,
) -> Result<Branched, AllocError>
    ensures { IfOk result (λ b. branched_of b ≡ spec.branched_block behind.now.variables.now (map op_of ops.items) (outs_of behind.now.sets.now) behind.now.test (guards_of guards.items) (block_of block)) }
{
    let BasicBlock {
        ops: more,
        outs,
        ..
    } = block;
    let mut joined = Joined::new(behind.alloc, ops, guards);
    joined.join_ops(behind, more)?;
    let outs = joined.outs(behind.alloc, behind.sets, outs.as_slice())?;
    let mut sets = IndexMap::new(behind.alloc);
    set_all(&mut sets, outs.as_slice())?;
    Ok(Branched {
        ops: joined.ops,
        sets,
    })
}

fn join_branch(
    behind: &Behind<'_>,
    ops: Vec<Op<Untimed>>,
    guards: Vec<Guard>,
    block: Option<BasicBlock>,
) -> Result<Branched, AllocError>
    ensures { IfOk result (λ b. branched_of b ≡ spec.branched behind.now.variables.now (map op_of ops.items) (outs_of behind.now.sets.now) behind.now.test (guards_of guards.items) (option_map block_of block)) }
{
    match block {
        Some(block) => branched_block(behind, ops, guards, block),
        None => Ok(Branched {
            ops,
            sets: IndexMap::new(behind.alloc),
        }),
    }
}

fn choice_for(outs: &Sets, yes: &Sets, no: &Sets, variable: VarId) -> Choice
    ensures { choice_of result ≡ spec.choice (outs_of outs.now) (outs_of yes.now) (outs_of no.now) variable }
{
    let before = held(outs, variable);
    Choice {
        variable,
        yes: held_or(yes, variable, before),
        no: held_or(no, variable, before),
    }
}

/// What the branch for 0 sets alone.
fn others(alloc: Global, yes: &Sets, no: &[Out]) -> Result<Vec<Out>, AllocError>
    ensures { IfOk result (λ outs. outs.items ≡ spec.others (outs_of yes.now) no.now) }
{
    let mut outs = Vec::new(alloc);
    for out in no {
        if !is_set(yes, out.variable) {
            outs.push(*out)?;
        }
    }
    Ok(outs)
}

fn add_choices(
    choices: &mut Vec<Choice>,
    outs: &Sets,
    yes: &Sets,
    no: &Sets,
    set: &[Out],
) -> Result<(), AllocError>
    ensures { IfOk result (λ u. map choice_of choices.new.items ≡ map choice_of choices.old.items ++ spec.choices_for (outs_of outs.now) (outs_of yes.now) (outs_of no.now) set.now) }
{
    for out in set {
        choices.push(choice_for(outs, yes, no, out.variable))?;
    }
    Ok(())
}

/// The variables that one of the branches sets, in the order in which they set them.
fn choices(alloc: Global, outs: &Sets, yes: &Sets, no: &Sets) -> Result<Vec<Choice>, AllocError>
    ensures { IfOk result (λ cs. map choice_of cs.items ≡ spec.choices (outs_of outs.now) (outs_of yes.now) (outs_of no.now)) }
{
    let mut choices = Vec::new(alloc);
    let first = outs_in(alloc, yes)?;
    let second = outs_in(alloc, no)?;
    let second = others(alloc, yes, second.as_slice())?;
    add_choices(&mut choices, outs, yes, no, first.as_slice())?;
    add_choices(&mut choices, outs, yes, no, second.as_slice())?;
    Ok(choices)
}

/// The bit of the branch for 1.
fn is_taken(alloc: Global, test: Operand) -> Result<Vec<Guard>, AllocError>
    ensures { IfOk result (λ guards. guards_of guards.items ≡ spec.is_taken test) }
{
    let mut guards = Vec::new(alloc);
    guards.push(Guard {
        own: None,
        bit: test,
    })?;
    Ok(guards)
}

impl Open {
    ghost use Rattle.std.specs.Prelude.{◌≡◌, IfOk, OnOk, map};
    ghost use Rattle.ir_core.specs.Trees.{block_of, exit_of};
    ghost use Rattle.passes.specs.Conversion.Merging as spec;
    ghost use Rattle.if_convert.specs.Blocks.{open_of, branches_of, choice_of};

    pub fn new(alloc: Global, block: BasicBlock) -> Result<Open, AllocError>
        ensures { IfOk result (λ opened. open_of opened ≡ spec.opened (block_of block)) }
    {
        let BasicBlock {
            point,
            ops,
            outs,
            exit,
        } = block;
        let mut sets = IndexMap::new(alloc);
        set_all(&mut sets, outs.as_slice())?;
        Ok(Open {
            point,
            ops,
            sets,
            exit,
        })
    }

    /// The variable is selected by the test.
    fn select(&mut self, scope: Scope<'_>, test: Operand, choice: Choice) -> Result<(), AllocError>
        ensures { OnOk result (open_of self.new ≡ spec.with_selection scope.entry.variables.now test (open_of self.old) (choice_of choice)) }
    {
        let bits = width(scope.variables, choice.variable);
        let op = plain(
            scope.alloc,
            OpKind::Select,
            bits,
            &[test, choice.yes, choice.no],
        )?;
        let value = add(&mut self.ops, op)?;
        set(&mut self.sets, choice.variable, value)
    }

    fn select_all(
        &mut self,
        scope: Scope<'_>,
        test: Operand,
        choices: &[Choice],
    ) -> Result<(), AllocError>
        ensures { OnOk result (open_of self.new ≡ spec.with_selections scope.entry.variables.now test (open_of self.old) (map choice_of choices.now)) }
    {
        for choice in choices {
            self.select(scope, test, *choice)?;
        }
        Ok(())
    }

    /// The block with the operations of both branches, and a selection for each variable that one of them sets.
    pub fn merge(self, scope: Scope<'_>, branches: Branches) -> Result<Open, AllocError>
        ensures { IfOk result (λ opened. open_of opened ≡ spec.merged scope.entry.variables.now (open_of self) (branches_of branches)) }
    {
        let alloc = scope.alloc;
        let Branches { test, yes, no } = branches;
        let Open {
            point,
            ops,
            sets,
            exit,
        } = self;
        let behind = Behind {
            alloc,
            variables: scope.variables,
            sets: &sets,
            test: Some(test),
        };
        let yes = join_branch(&behind, ops, is_taken(alloc, test)?, yes)?;
        let no = join_branch(&behind, yes.ops, Vec::new(alloc), no)?;
        let choices = choices(alloc, &sets, &yes.sets, &no.sets)?;
        let mut open = Open {
            point,
            ops: no.ops,
            sets,
            exit,
        };
        open.select_all(scope, test, choices.as_slice())?;
        Ok(open)
    }

    /// The block, and the one behind it.
    pub fn join(self, scope: Scope<'_>, block: BasicBlock) -> Result<Open, AllocError>
        ensures { IfOk result (λ opened. open_of opened ≡ spec.joined scope.entry.variables.now (open_of self) (block_of block)) }
    {
        let alloc = scope.alloc;
        let BasicBlock {
            ops: more,
            outs,
            exit,
            ..
        } = block;
        let Open {
            point,
            ops,
            mut sets,
            ..
        } = self;
        let behind = Behind {
            alloc,
            variables: scope.variables,
            sets: &sets,
            test: None,
        };
        let mut joined = Joined::new(alloc, ops, Vec::new(alloc));
        joined.join_ops(&behind, more)?;
        let outs = joined.outs(alloc, &sets, outs.as_slice())?;
        let exit = joined.exit(alloc, &sets, exit)?;
        set_all(&mut sets, outs.as_slice())?;
        Ok(Open {
            point,
            ops: joined.ops,
            sets,
            exit,
        })
    }

    /// Closes the block.
    pub fn finish(self, alloc: Global) -> Result<BasicBlock, AllocError>
        ensures { IfOk result (λ block. block_of block ≡ open_of self) }
    {
        let outs = outs_in(alloc, &self.sets)?;
        let Open {
            point,
            ops,
            exit,
            ..
        } = self;
        Ok(BasicBlock {
            point,
            ops,
            outs,
            exit,
        })
    }
}
