//! One basic block.
ghost use Rattle.std.specs.Prelude.{◌≡◌, ℕ, ◌&&◌, ◌||◌, ◌<◌, IfOk, true, false, map, length, slice_index_or};
ghost use Rattle.ir_core.specs.Bodies.{op_of};
ghost use Rattle.ir_core.specs.Trees.{block_of, exit_of};
ghost use Rattle.passes.specs.Numbering as n;
ghost use Rattle.value_number.specs.Settled.{all_settled, is_block_settled};
ghost use Rattle.value_number.specs.Views.{values_of, Shows, Marks, scope_of};

use crate::key::{Key, computed, is_common};
use hls_base::number::OpId;
use hls_base::refusal::impossible;
use indexmap::IndexMap;
use ir_core::body::{Op, Operand, Out, Source};
use ir_core::stamp::Untimed;
use ir_core::timing::result_bits;
use ir_core::tree::{BasicBlock, Exit};
use smallvec::SmallVec;
use std::alloc::{AllocError, Global};

/// What stands for the result of an operation of the block before, and the width of this result.
#[derive(Clone, Copy, PartialEq, Eq)]
struct Value {
    operand: Operand,
    bits: u8,
}

/// The operations so far, what stands for those of the block before, and for each kind of operation on given operands the first that is not guarded. `makes_out` says which operations make an out.
#[derive(Drop)]
struct Numbering {
    ops: Vec<Op<Untimed>>,
    values: Vec<Value>,
    makes_out: Vec<bool>,
    firsts: IndexMap<Key, usize>,
}

fn constant(word: u64) -> Operand
    ensures { result ≡ n.constant word }
{
    Operand {
        value: Source::Constant(word),
        distance: 0,
    }
}

impl Numbering {
    ghost use Rattle.std.specs.Prelude.{◌≡◌, Bool, [], ◌++◌, ◌∷◌, map, length, OnOk, IfOk, true, ◌&&◌};
    ghost use Rattle.std.specs.Option.{option_map};
    ghost use Rattle.ir_core.specs.Bodies.{op_of};
    ghost use Rattle.passes.specs.Numbering.Constants as constants;
    ghost use Rattle.passes.specs.Numbering as n;
    ghost use Rattle.value_number.specs.Settled.{is_settled, all_settled};
    ghost use Rattle.value_number.specs.Views.{values_of, Shows, Notes, HasFirsts, kept_of, scope_of};

    fn new(alloc: Global) -> Numbering
        ensures settled { result.ops.items ≡ [] }
        ensures shows { Shows result n.nothing }
    {
        Numbering {
            ops: Vec::new(alloc),
            values: Vec::new(alloc),
            makes_out: Vec::new(alloc),
            firsts: IndexMap::new(alloc),
        }
    }

    /// What stands for an operand of the block before.
    fn operand(&self, operand: Operand) -> Operand
        ensures { result ≡ n.renamed (values_of self.now) operand }
    {
        match operand.value {
            Source::Result(op) => {
                let index = op.0 as usize;
                if index < self.values.len() {
                    self.values[index].operand
                } else {
                    operand
                }
            }
            _ => operand,
        }
    }

    fn optional(&self, operand: Option<Operand>) -> Option<Operand>
        ensures { result ≡ option_map (n.renamed (values_of self.now)) operand }
    {
        match operand {
            Some(operand) => Some(self.operand(operand)),
            None => None,
        }
    }

    /// The width of the first operand of an operation of the block before; a constant has that of the operation.
    fn first_bits(&self, variables: &[u8], bits: u8, args: &[Operand]) -> u8
        ensures { result ≡ n.first_bits variables.now (values_of self.now) bits args.now }
    {
        if args.is_empty() {
            return bits;
        }
        match args[0].value {
            Source::Constant(_) => bits,
            Source::Variable(variable) => {
                let index = variable.0 as usize;
                if index < variables.len() {
                    variables[index]
                } else {
                    bits
                }
            }
            Source::Result(op) => {
                let index = op.0 as usize;
                if index < self.values.len() {
                    self.values[index].bits
                } else {
                    bits
                }
            }
        }
    }

    fn mapped(
        &self,
        alloc: Global,
        args: &[Operand],
    ) -> Result<SmallVec<Operand, 4, Global>, AllocError>
        ensures { IfOk result (λ mapped. mapped.items ≡ map (n.renamed (values_of self.now)) args.now) }
    {
        let mut mapped = SmallVec::new(alloc);
        for arg in args {
            mapped.push(self.operand(*arg))?;
        }
        Ok(mapped)
    }

    /// The operation on what stands for its operands.
    fn renamed(&self, alloc: Global, op: Op<Untimed>) -> Result<Op<Untimed>, AllocError>
        ensures { IfOk result (λ renamed. op_of renamed ≡ n.renamed_op (values_of self.now) (op_of op)) }
    {
        let args = self.mapped(alloc, op.args.as_slice())?;
        let guard = self.optional(op.guard);
        Ok(Op { args, guard, ..op })
    }

    /// The earlier operation that this one becomes, where an equal one stands before it.
    fn earlier(&self, op: &Op<Untimed>, apart: bool) -> Option<usize>
        ensures { (s : n.Numbered) → Shows self.now s → result ≡ n.earlier apart (op_of op.now) s.ops }
    {
        if op.guard.is_some() || !is_common(op.kind) {
            return None;
        }
        match self.firsts.get(&Key::new(op)) {
            Some(first) if *first < self.makes_out.len() => {
                if apart && self.makes_out[*first] {
                    None
                } else {
                    Some(*first)
                }
            }
            _ => None,
        }
    }

    /// The operation of this number makes an out too, if it is so.
    fn mark(&mut self, first: usize, is_out: bool)
        ensures ops { self.new.ops ≡ self.old.ops }
        ensures shows { (s : n.Numbered) → Shows self.old s → Shows self.new (record s { ops = n.with_out is_out s.ops first }) }
    {
        if is_out && first < self.makes_out.len() {
            self.makes_out[first] = true;
        }
    }

    fn note_key(&mut self, key: Key) -> Result<(), AllocError>
        ensures ops { self.new.ops ≡ self.old.ops }
        ensures values { self.new.values ≡ self.old.values }
        ensures makes_out { self.new.makes_out ≡ self.old.makes_out }
        ensures noted { OnOk result (Notes self.old.firsts self.new.firsts key (length self.old.ops.items)) }
    {
        if self.firsts.get(&key).is_none() {
            self.firsts.insert(key, self.ops.len())?;
        }
        Ok(())
    }

    /// Notes an operation that is to stay, if it is one to become one with and no equal one stands before it.
    fn note(&mut self, op: &Op<Untimed>) -> Result<(), AllocError>
        ensures ops { self.new.ops ≡ self.old.ops }
        ensures values { self.new.values ≡ self.old.values }
        ensures makes_out { self.new.makes_out ≡ self.old.makes_out }
        ensures firsts { (s : n.Numbered) (is_out : Bool) → Shows self.old s → OnOk result (HasFirsts self.new.firsts (s.ops ++ kept_of op.now is_out ∷ [])) }
    {
        if op.guard.is_some() {
            return Ok(());
        }
        if !is_common(op.kind) {
            return Ok(());
        }
        self.note_key(Key::new(op))
    }

    fn stand(&mut self, operand: Operand, bits: u8) -> Result<(), AllocError>
        ensures ops { self.new.ops ≡ self.old.ops }
        ensures shows { (s : n.Numbered) → Shows self.old s → OnOk result (Shows self.new (record s { values = s.values ++ record { operand = operand; bits = bits } ∷ [] })) }
    {
        self.values.push(Value { operand, bits })?;
        Ok(())
    }

    #[tactic(auto, using(crate::proofs::Adding::adding))]
    fn add(&mut self, op: Op<Untimed>, is_out: bool) -> Result<(), AllocError>
        requires { is_settled op ≡ true }
        ensures settled { all_settled self.old.ops.items ≡ true → OnOk result (all_settled self.new.ops.items ≡ true) }
        ensures shows { (s : n.Numbered) → Shows self.old s → OnOk result (Shows self.new (record s { ops = s.ops ++ kept_of op is_out ∷ [] })) }
    {
        self.note(&op)?;
        self.ops.push(op)?;
        self.makes_out.push(is_out)?;
        Ok(())
    }

    /// Goes on by an operation on what stands for its operands that is not computed.
    fn go_on(&mut self, op: Op<Untimed>, is_out: bool, apart: bool) -> Result<(), AllocError>
        requires { is_settled op ≡ true }
        ensures settled { all_settled self.old.ops.items ≡ true → OnOk result (all_settled self.new.ops.items ≡ true) }
        ensures shows { (s : n.Numbered) → Shows self.old s → OnOk result (Shows self.new (n.with_earlier s (op_of op) is_out (n.earlier (apart && is_out) (op_of op) s.ops))) }
    {
        let bits = result_bits(&op);
        match self.earlier(&op, stays_apart(apart, is_out)) {
            Some(first) => {
                self.mark(first, is_out);
                self.stand(result_operand(first)?, bits)
            }
            None => {
                let operand = result_operand(self.ops.len())?;
                self.add(op, is_out)?;
                self.stand(operand, bits)
            }
        }
    }

    /// Goes on by one operation of the block before.
    fn number_op(
        &mut self,
        scope: Scope<'_>,
        op: Op<Untimed>,
        is_out: bool,
    ) -> Result<(), AllocError>
        ensures settled { all_settled self.old.ops.items ≡ true → OnOk result (all_settled self.new.ops.items ≡ true) }
        ensures shows { (s : n.Numbered) → Shows self.old s → OnOk result (Shows self.new (n.numbered_with (scope_of scope.entry) s (op_of op) is_out)) }
    {
        let from_bits = self.first_bits(scope.variables, op.bits, op.args.as_slice());
        let op = self.renamed(scope.alloc, op)?;
        match computed(&op, from_bits) {
            Some(word) => self.stand(constant(word), result_bits(&op)),
            None => self.go_on(op, is_out, scope.apart),
        }
    }
}

/// Whether an operation stays apart from an equal one that makes an out.
fn stays_apart(apart: bool, is_out: bool) -> bool
    ensures { result ≡ (apart && is_out) }
{
    apart && is_out
}

fn result_operand(index: usize) -> Result<Operand, AllocError>
    ensures { IfOk result (λ operand. operand ≡ n.result_of index) }
{
    let id = u32::try_from(index).map_err(|_| impossible())?;
    Ok(Operand {
        value: Source::Result(OpId(id)),
        distance: 0,
    })
}

/// Where a block stands: the widths of the variables, and whether operations that each make an out stay apart, as they do in a loop that may be overlapped.
#[derive(Clone, Copy)]
pub struct Scope<'a> {
    pub alloc: Global,
    pub variables: &'a [u8],
    pub apart: bool,
}

/// Whether the operation of this number is marked.
fn is_marked(marks: &[bool], index: usize) -> bool
    ensures { result ≡ slice_index_or marks.now index false }
{
    index < marks.len() && marks[index]
}

fn mark_result(marks: &mut [bool], source: Source)
    ensures count { length marks.new ≡ length marks.old }
    ensures marks { (i : ℕ) → i < length marks.old → slice_index_or marks.new i false ≡ (slice_index_or marks.old i false || n.is_result i source) }
{
    if let Source::Result(op) = source {
        let index = op.0 as usize;
        if index < marks.len() {
            marks[index] = true;
        }
    }
}

fn mark_outs(marks: &mut [bool], outs: &[Out])
    ensures count { length marks.new ≡ length marks.old }
    ensures marks { (i : ℕ) → i < length marks.old → slice_index_or marks.new i false ≡ (slice_index_or marks.old i false || n.makes_out outs.now i) }
{
    for out in outs {
        mark_result(marks, out.value.value);
    }
}

/// For each of so many operations whether it makes one of the outs.
fn outs_made(alloc: Global, count: usize, outs: &[Out]) -> Result<Vec<bool>, AllocError>
    ensures { IfOk result (λ marks. Marks marks.items count outs.now) }
{
    let mut marks = vec![in alloc; false; count]?;
    mark_outs(&mut marks, outs);
    Ok(marks)
}

fn number_ops(
    scope: Scope<'_>,
    ops: Vec<Op<Untimed>>,
    outs: &[Out],
) -> Result<Numbering, AllocError>
    ensures settled { IfOk result (λ numbering. all_settled numbering.ops.items ≡ true) }
    ensures shows { IfOk result (λ numbering. Shows numbering (n.numbered_ops (scope_of scope.entry) outs.now n.nothing (map op_of ops.items))) }
{
    let marks = outs_made(scope.alloc, ops.len(), outs)?;
    let mut numbering = Numbering::new(scope.alloc);
    for op in ops {
        let is_out = is_marked(&marks, numbering.values.len());
        numbering.number_op(scope, op, is_out)?;
    }
    Ok(numbering)
}

fn number_outs(alloc: Global, numbering: &Numbering, outs: &[Out]) -> Result<Vec<Out>, AllocError>
    ensures { IfOk result (λ done. done.items ≡ map (n.renamed_out (values_of numbering.now)) outs.now) }
{
    let mut done = Vec::new(alloc);
    for out in outs {
        let value = numbering.operand(out.value);
        done.push(Out {
            variable: out.variable,
            value,
        })?;
    }
    Ok(done)
}

fn number_cases(
    alloc: Global,
    numbering: &Numbering,
    cases: &[Operand],
) -> Result<Vec<Operand>, AllocError>
    ensures { IfOk result (λ done. done.items ≡ map (n.renamed (values_of numbering.now)) cases.now) }
{
    let mut done = Vec::new(alloc);
    for case in cases {
        done.push(numbering.operand(*case))?;
    }
    Ok(done)
}

fn number_exit(alloc: Global, numbering: &Numbering, exit: Exit) -> Result<Exit, AllocError>
    ensures { IfOk result (λ done. exit_of done ≡ n.renamed_exit (values_of numbering.now) (exit_of exit)) }
{
    match exit {
        Exit::Branch(test) => Ok(Exit::Branch(numbering.operand(test))),
        Exit::Choose(cases) => Ok(Exit::Choose(number_cases(alloc, numbering, cases.as_slice())?)),
        _ => Ok(exit),
    }
}

/// The block in which equal operations that are not guarded are one, and what is defined on constants is computed. Nothing else changes.
pub fn number_block(scope: Scope<'_>, block: BasicBlock) -> Result<BasicBlock, AllocError>
    ensures block { IfOk result (λ numbered. block_of numbered ≡ n.numbered_block (scope_of scope.entry) (block_of block)) }
    ensures settled { IfOk result (λ numbered. is_block_settled numbered ≡ true) }
{
    let BasicBlock {
        point,
        ops,
        outs,
        exit,
    } = block;
    let numbering = number_ops(scope, ops, outs.as_slice())?;
    let outs = number_outs(scope.alloc, &numbering, outs.as_slice())?;
    let exit = number_exit(scope.alloc, &numbering, exit)?;
    Ok(BasicBlock {
        point,
        ops: numbering.ops,
        outs,
        exit,
    })
}
