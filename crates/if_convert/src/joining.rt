//! The operations of one block behind those of another.
ghost use Rattle.std.specs.Prelude.{◌≡◌, IfOk, map};
ghost use Rattle.ir_core.specs.Bodies.{op_of};
ghost use Rattle.ir_core.specs.Trees.{exit_of};
ghost use Rattle.passes.specs.Numbering as numbering;
ghost use Rattle.passes.specs.Conversion.Joining as spec;
ghost use Rattle.if_convert.specs.Entries.{outs_of};
ghost use Rattle.if_convert.specs.Views.{values_of, guards_of};

use crate::outs::{Sets, held};
use hls_base::number::OpId;
use hls_base::refusal::impossible;
use ir_core::body::{Op, OpKind, Operand, Out, Source};
use ir_core::stamp::Untimed;
use ir_core::timing::result_bits;
use ir_core::tree::Exit;
use ir_core::value::evaluate;
use smallvec::SmallVec;
use std::alloc::{AllocError, Global};

/// What stands for the result of an operation of a block that is joined, and the width of this result.
#[derive(Clone, Copy, PartialEq, Eq)]
pub struct Value {
    operand: Operand,
    bits: u8,
}

/// A guard within a branch, or none, and the bit that says that the branch is taken and the guard holds.
#[derive(Clone, Copy, PartialEq, Eq)]
pub struct Guard {
    pub own: Option<Operand>,
    pub bit: Operand,
}

/// Where a block is joined: behind these outs, in a branch of a fork with this test, or behind the fork.
#[derive(Clone, Copy)]
pub struct Behind<'a> {
    pub alloc: Global,
    pub variables: &'a [u8],
    pub sets: &'a Sets,
    pub test: Option<Operand>,
}

/// A block to which another one is joined: the operations so far, what stands for the results of those that are joined, and the bits of guards that were made.
#[derive(Drop)]
pub struct Joined {
    pub ops: Vec<Op<Untimed>>,
    values: Vec<Value>,
    guards: Vec<Guard>,
}

fn constant(word: u64) -> Operand
    ensures { result ≡ numbering.constant word }
{
    Operand {
        value: Source::Constant(word),
        distance: 0,
    }
}

fn result_operand(index: usize) -> Result<Operand, AllocError>
    ensures { IfOk result (λ operand. operand ≡ numbering.result_of index) }
{
    let id = u32::try_from(index).map_err(|_| impossible())?;
    Ok(Operand {
        value: Source::Result(OpId(id)),
        distance: 0,
    })
}

/// An operation that has no sign, no guard and no flag.
pub fn plain(
    alloc: Global,
    kind: OpKind,
    bits: u8,
    args: &[Operand],
) -> Result<Op<Untimed>, AllocError>
    ensures { IfOk result (λ op. op_of op ≡ spec.plain kind bits args.now) }
{
    Ok(Op {
        kind,
        signed: false,
        bits,
        args: SmallVec::from_slice(alloc, args)?,
        array: None,
        guard: None,
        flag: None,
        stamp: Untimed,
    })
}

/// Adds an operation, and answers its result.
pub fn add(ops: &mut Vec<Op<Untimed>>, op: Op<Untimed>) -> Result<Operand, AllocError>
    ensures ops { IfOk result (λ x. map op_of ops.new.items ≡ spec.with_one (map op_of ops.old.items) (op_of op)) }
    ensures operand { IfOk result (λ x. x ≡ spec.next_result (map op_of ops.old.items)) }
{
    let operand = result_operand(ops.len())?;
    ops.push(op)?;
    Ok(operand)
}

// ---- operands

/// What an operand of the block that is joined is in the open one.
fn renamed(sets: &Sets, values: &[Value], operand: Operand) -> Operand
    ensures { result ≡ spec.renamed (outs_of sets.now) (values_of values.now) operand }
{
    match operand.value {
        Source::Constant(_) => operand,
        Source::Variable(variable) => held(sets, variable),
        Source::Result(op) => {
            let index = op.0 as usize;
            if index < values.len() {
                values[index].operand
            } else {
                operand
            }
        }
    }
}

fn renamed_args(
    alloc: Global,
    sets: &Sets,
    values: &[Value],
    operands: &[Operand],
) -> Result<SmallVec<Operand, 4, Global>, AllocError>
    ensures { IfOk result (λ done. done.items ≡ map (spec.renamed (outs_of sets.now) (values_of values.now)) operands.now) }
{
    let mut done = SmallVec::new(alloc);
    for operand in operands {
        done.push(renamed(sets, values, *operand))?;
    }
    Ok(done)
}

fn renamed_op(
    alloc: Global,
    sets: &Sets,
    values: &[Value],
    op: Op<Untimed>,
) -> Result<Op<Untimed>, AllocError>
    ensures { IfOk result (λ done. op_of done ≡ spec.renamed_op (outs_of sets.now) (values_of values.now) (op_of op)) }
{
    let args = renamed_args(alloc, sets, values, op.args.as_slice())?;
    let guard = match op.guard {
        Some(guard) => Some(renamed(sets, values, guard)),
        None => None,
    };
    Ok(Op { args, guard, ..op })
}

fn renamed_outs(
    alloc: Global,
    sets: &Sets,
    values: &[Value],
    outs: &[Out],
) -> Result<Vec<Out>, AllocError>
    ensures { IfOk result (λ done. done.items ≡ map (spec.renamed_out (outs_of sets.now) (values_of values.now)) outs.now) }
{
    let mut done = Vec::new(alloc);
    for out in outs {
        done.push(Out {
            variable: out.variable,
            value: renamed(sets, values, out.value),
        })?;
    }
    Ok(done)
}

fn renamed_cases(
    alloc: Global,
    sets: &Sets,
    values: &[Value],
    cases: &[Operand],
) -> Result<Vec<Operand>, AllocError>
    ensures { IfOk result (λ done. done.items ≡ map (spec.renamed (outs_of sets.now) (values_of values.now)) cases.now) }
{
    let mut done = Vec::new(alloc);
    for case in cases {
        done.push(renamed(sets, values, *case))?;
    }
    Ok(done)
}

fn renamed_exit(
    alloc: Global,
    sets: &Sets,
    values: &[Value],
    exit: Exit,
) -> Result<Exit, AllocError>
    ensures { IfOk result (λ done. exit_of done ≡ spec.renamed_exit (outs_of sets.now) (values_of values.now) (exit_of exit)) }
{
    match exit {
        Exit::Branch(test) => Ok(Exit::Branch(renamed(sets, values, test))),
        Exit::Choose(cases) => Ok(Exit::Choose(renamed_cases(
            alloc,
            sets,
            values,
            cases.as_slice(),
        )?)),
        _ => Ok(exit),
    }
}

/// The width of the first operand of an operation of the block that is joined; a constant has that of the operation.
fn first_bits(variables: &[u8], values: &[Value], bits: u8, args: &[Operand]) -> u8
    ensures { result ≡ numbering.first_bits variables.now (values_of values.now) bits args.now }
{
    if args.is_empty() {
        return bits;
    }
    match args[0].value {
        Source::Constant(_) => bits,
        Source::Variable(variable) => {
            let index = variable.0 as usize;
            if index < variables.len() {
                variables[index]
            } else {
                bits
            }
        }
        Source::Result(op) => {
            let index = op.0 as usize;
            if index < values.len() {
                values[index].bits
            } else {
                bits
            }
        }
    }
}

fn first_word(args: &[Operand]) -> Option<u64>
    ensures { result ≡ spec.first_word args.now }
{
    if args.is_empty() {
        return None;
    }
    match args[0].value {
        Source::Constant(word) => Some(word),
        _ => None,
    }
}

fn is_conversion(kind: OpKind) -> bool
    ensures { result ≡ spec.is_conversion kind }
{
    matches!(kind, OpKind::Widen | OpKind::Narrow | OpKind::Truth)
}

/// What a conversion of a constant gives.
fn converted(op: &Op<Untimed>, from_bits: u8) -> Option<u64>
    ensures { result ≡ spec.converted (op_of op.now) from_bits (spec.first_word op.now.args.items) }
{
    match first_word(op.args.as_slice()) {
        Some(word) => {
            if is_conversion(op.kind) {
                Some(evaluate(op.kind, op.signed, op.bits, from_bits, &[word]))
            } else {
                None
            }
        }
        None => None,
    }
}

/// An operation that may be undefined, and one that stores, may not run where control does not come to it.
pub fn needs_guard(op: &Op<Untimed>) -> bool
    ensures { result ≡ spec.needs_guard (op_of op.now) }
{
    op.flag.is_some() || op.kind == OpKind::Store
}

fn bit_for(guards: &[Guard], own: Option<Operand>) -> Option<Operand>
    ensures { result ≡ spec.bit_for (guards_of guards.now) own }
{
    for guard in guards {
        if own == guard.own {
            return Some(guard.bit);
        }
    }
    None
}

impl Joined {
    ghost use Rattle.std.specs.Prelude.{◌≡◌, OnOk, IfOk, [], map, Some};
    ghost use Rattle.ir_core.specs.Bodies.{op_of};
    ghost use Rattle.ir_core.specs.Trees.{exit_of};
    ghost use Rattle.passes.specs.Conversion.Joining as spec;
    ghost use Rattle.if_convert.specs.Entries.{outs_of};
    ghost use Rattle.if_convert.specs.Views.{joined_of, guards_of};

    pub fn new(alloc: Global, ops: Vec<Op<Untimed>>, guards: Vec<Guard>) -> Joined
        ensures { joined_of result ≡ record { ops = map op_of ops.items; values = []; guards = guards_of guards.items } }
    {
        Joined {
            ops,
            values: Vec::new(alloc),
            guards,
        }
    }

    fn note(&mut self, own: Option<Operand>, op: Op<Untimed>) -> Result<(), AllocError>
        ensures { OnOk result (joined_of self.new ≡ spec.with_guard (joined_of self.old) own (op_of op)) }
    {
        let bit = add(&mut self.ops, op)?;
        self.guards.push(Guard { own, bit })?;
        Ok(())
    }

    fn bit(&self, own: Option<Operand>) -> Operand
        ensures { result ≡ spec.bit_in (joined_of self.now) own }
    {
        match bit_for(self.guards.as_slice(), own) {
            Some(bit) => bit,
            None => constant(0),
        }
    }

    /// Makes the bit that says that the branch is taken.
    fn make_taken(&mut self, alloc: Global, test: Operand) -> Result<(), AllocError>
        ensures { OnOk result (joined_of self.new ≡ spec.with_taken test (joined_of self.old)) }
    {
        if bit_for(self.guards.as_slice(), None).is_some() {
            return Ok(());
        }
        let op = plain(alloc, OpKind::Not, 1, &[test])?;
        self.note(None, op)
    }

    /// Makes the bit of a guard, once the one that says that the branch is taken is there.
    fn make_both(&mut self, alloc: Global, own: Operand) -> Result<(), AllocError>
        ensures { OnOk result (joined_of self.new ≡ spec.with_both (joined_of self.old) own) }
    {
        let op = plain(alloc, OpKind::And, 1, &[self.bit(None), own])?;
        self.note(Some(own), op)
    }

    /// Makes the bit of a guard within the branch.
    fn make(&mut self, alloc: Global, test: Operand, own: Option<Operand>) -> Result<(), AllocError>
        ensures { OnOk result (joined_of self.new ≡ spec.with_bit test (joined_of self.old) own) }
    {
        match own {
            None => self.make_taken(alloc, test),
            Some(own) => {
                if bit_for(self.guards.as_slice(), Some(own)).is_some() {
                    return Ok(());
                }
                self.make_taken(alloc, test)?;
                self.make_both(alloc, own)
            }
        }
    }

    fn stand(&mut self, operand: Operand, bits: u8) -> Result<(), AllocError>
        ensures { OnOk result (joined_of self.new ≡ spec.with_result (joined_of self.old) operand bits) }
    {
        self.values.push(Value { operand, bits })?;
        Ok(())
    }

    /// The operation stays, with this guard.
    fn keep(&mut self, op: Op<Untimed>, guard: Option<Operand>) -> Result<(), AllocError>
        ensures { OnOk result (joined_of self.new ≡ spec.with_op (joined_of self.old) (op_of op) guard) }
    {
        let bits = result_bits(&op);
        let operand = add(&mut self.ops, Op { guard, ..op })?;
        self.stand(operand, bits)
    }

    /// The operation stays, in a branch of a fork with this test.
    fn keep_in_branch(
        &mut self,
        alloc: Global,
        test: Operand,
        op: Op<Untimed>,
    ) -> Result<(), AllocError>
        ensures { OnOk result (joined_of self.new ≡ spec.staying (Some test) (joined_of self.old) (op_of op)) }
    {
        let own = op.guard;
        if needs_guard(&op) {
            self.make(alloc, test, own)?;
            let bit = self.bit(own);
            return self.keep(op, Some(bit));
        }
        self.keep(op, own)
    }

    fn stay(&mut self, behind: &Behind<'_>, op: Op<Untimed>) -> Result<(), AllocError>
        ensures { OnOk result (joined_of self.new ≡ spec.staying behind.now.test (joined_of self.old) (op_of op)) }
    {
        let own = op.guard;
        match behind.test {
            Some(test) => self.keep_in_branch(behind.alloc, test, op),
            None => self.keep(op, own),
        }
    }

    /// Adds an operation of the block that is joined.
    fn join_op(&mut self, behind: &Behind<'_>, op: Op<Untimed>) -> Result<(), AllocError>
        ensures { OnOk result (joined_of self.new ≡ spec.joined_op behind.now.variables.now (outs_of behind.now.sets.now) behind.now.test (joined_of self.old) (op_of op)) }
    {
        let from_bits = first_bits(
            behind.variables,
            self.values.as_slice(),
            op.bits,
            op.args.as_slice(),
        );
        let op = renamed_op(behind.alloc, behind.sets, self.values.as_slice(), op)?;
        match converted(&op, from_bits) {
            Some(word) => self.stand(constant(word), result_bits(&op)),
            None => self.stay(behind, op),
        }
    }

    pub fn join_ops(&mut self, behind: &Behind<'_>, ops: Vec<Op<Untimed>>) -> Result<(), AllocError>
        ensures { OnOk result (joined_of self.new ≡ spec.joined_ops behind.now.variables.now (outs_of behind.now.sets.now) behind.now.test (joined_of self.old) (map op_of ops.items)) }
    {
        for op in ops {
            self.join_op(behind, op)?;
        }
        Ok(())
    }

    /// What the outs of the block that is joined are in the open one.
    pub fn outs(&self, alloc: Global, sets: &Sets, outs: &[Out]) -> Result<Vec<Out>, AllocError>
        ensures { IfOk result (λ done. done.items ≡ map (spec.renamed_out (outs_of sets.now) (joined_of self.now).values) outs.now) }
    {
        renamed_outs(alloc, sets, self.values.as_slice(), outs)
    }

    pub fn exit(&self, alloc: Global, sets: &Sets, exit: Exit) -> Result<Exit, AllocError>
        ensures { IfOk result (λ done. exit_of done ≡ spec.renamed_exit (outs_of sets.now) (joined_of self.now).values (exit_of exit)) }
    {
        renamed_exit(alloc, sets, self.values.as_slice(), exit)
    }
}
