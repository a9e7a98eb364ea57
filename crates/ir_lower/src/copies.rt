//! In a loop that may be overlapped each variable that an iteration sets has an operation of its own for its value.
ghost use Rattle.std.specs.Prelude.{◌≡◌, ◌&&◌, ◌∷◌, [], not, IfOk, if◌then◌else◌, map};
ghost use Rattle.hls_base.specs.declared.number.VarId.{VarId};
ghost use Rattle.ir_core.specs.Bodies.{op_of};
ghost use Rattle.ir_core.specs.Trees.{sequence_of, shape_of, part_of, part_row, block_of};
ghost use Rattle.c_value.specs.Values as values;
ghost use Rattle.ir_core.specs.declared.body.OpKind.TheVariants as op;
ghost use Rattle.passes.specs.Lowering.Operations.{gives, added, plain};
ghost use Rattle.passes.specs.Lowering.Outs as settings;
ghost use Rattle.passes.specs.Lowering.Blocks as blocks;
ghost use Rattle.passes.specs.Lowering.Copies as spec;
ghost use Rattle.block_draft.specs.Drafts.{scope_of};
ghost use Rattle.ir_lower.specs.Copies.{is_in, with_if, fixed_of, copied_of};

use crate::sets::{held, is_in, outs_set, parts_set, shape_sets};
use c_value::kind::{INT, width};
use hls_base::number::{OpId, VarId};
use hls_base::refusal::impossible;
use ir_core::body::{Op, OpKind, Operand, Out, Source};
use ir_core::stamp::Untimed;
use ir_core::tree::{BasicBlock, Part, Sequence, Shape};
use pieces::expanded::Expanded;
use smallvec::SmallVec;
use std::alloc::{AllocError, Global};

/// What of a block comes from operations on constants alone: variables as it is entered, and its operations.
#[derive(Drop)]
struct Fixed {
    variables: Vec<VarId>,
    ops: Vec<bool>,
}

/// The operations of a block with copies, what it sets, and the operands that are variables' own.
#[derive(Drop)]
struct Copied {
    ops: Vec<Op<Untimed>>,
    outs: Vec<Out>,
    taken: Vec<Operand>,
}

/// A loop's body in which a variable whose value at its end is a constant, another variable's value, or that of operations on constants alone, gets a `Copy`. It stands in the block where the variable is set last; a variable that a fork sets last needs none.
pub fn with_copies(
    alloc: Global,
    expanded: &Expanded,
    body: Sequence,
) -> Result<Sequence, AllocError>
    ensures { IfOk result (λ body1. sequence_of body1 ≡ spec.copied (scope_of expanded.now) (sequence_of body)) }
{
    let Sequence { first, rest } = body;
    let none = Vec::new(alloc);
    let fixed = fixed_in(alloc, none, &first.ops)?;
    let known = fixed_behind(alloc, &rest, &fixed, &first.outs)?;
    let first = copied_block(alloc, expanded, &rest, &fixed, first)?;
    let rest = copied_parts(alloc, expanded, known, rest)?;
    Ok(Sequence { first, rest })
}

/// The parts behind a block, with the variables that are fixed there.
fn copied_parts(
    alloc: Global,
    expanded: &Expanded,
    known: Vec<VarId>,
    rest: Vec<Part>,
) -> Result<Vec<Part>, AllocError>
    ensures { IfOk result (λ parts. part_row (map part_of parts.items) ≡ spec.copied_parts (scope_of expanded.now) (is_in known.items) (part_row (map part_of rest.items))) }
{
    let mut left = rest;
    left.reverse();
    let mut known = known;
    let mut parts = Vec::new(alloc);
    'behind: while let Some(part) = left.pop() {
        let Part { shape, after } = part;
        let entered = fixed_behind_shape(alloc, &known, &shape)?;
        let fixed = fixed_in(alloc, entered, &after.ops)?;
        known = fixed_behind(alloc, &left, &fixed, &after.outs)?;
        let after = copied_block(alloc, expanded, &left, &fixed, after)?;
        parts.push(Part { shape, after })?;
    }
    Ok(parts)
}

fn add_if(variables: &mut Vec<VarId>, belongs: bool, variable: VarId) -> Result<(), AllocError>
    ensures { IfOk result (λ u. variables.new.items ≡ with_if belongs variable variables.old.items) }
{
    if belongs {
        variables.push(variable)?;
    }
    Ok(())
}

/// Behind a shape nothing is known of what it sets.
fn fixed_behind_shape(
    alloc: Global,
    known: &[VarId],
    shape: &Shape,
) -> Result<Vec<VarId>, AllocError>
    ensures { (variable : VarId) → IfOk result (λ now. is_in now.items variable ≡ spec.fixed_behind_shape (shape_of shape.now) (is_in known.now) variable) }
{
    let mut now = Vec::new(alloc);
    for variable in known {
        add_if(&mut now, !shape_sets(shape, *variable), *variable)?;
    }
    Ok(now)
}

/// The variables that a block with these outs does not set.
fn kept(alloc: Global, known: &[VarId], outs: &[Out]) -> Result<Vec<VarId>, AllocError>
    ensures { (variable : VarId) → IfOk result (λ now. is_in now.items variable ≡ (is_in known.now variable && not (spec.outs_set outs.now variable))) }
{
    let mut now = Vec::new(alloc);
    for variable in known {
        add_if(&mut now, !outs_set(outs, *variable), *variable)?;
    }
    Ok(now)
}

/// Whether what a variable holds behind a block is fixed, and set again later.
fn stays_fixed(later: &Vec<Part>, fixed: &Fixed, outs: &[Out], variable: VarId) -> bool
    ensures { result ≡ (spec.parts_set (part_row (map part_of later.now.items)) variable && spec.is_fixed (fixed_of fixed.now) (settings.held outs.now variable)) }
{
    parts_set(later, variable) && is_fixed(fixed, held(outs, variable))
}

/// Behind a block a variable that is set again later may hold what operations on constants give.
fn fixed_behind(
    alloc: Global,
    later: &Vec<Part>,
    fixed: &Fixed,
    outs: &[Out],
) -> Result<Vec<VarId>, AllocError>
    ensures { (variable : VarId) → IfOk result (λ now. is_in now.items variable ≡ (if spec.outs_set outs.now variable then spec.parts_set (part_row (map part_of later.now.items)) variable && spec.is_fixed (fixed_of fixed.now) (settings.held outs.now variable) else is_in fixed.now.variables.items variable)) }
{
    let mut now = kept(alloc, &fixed.variables, outs)?;
    for out in outs {
        let variable = out.variable;
        add_if(
            &mut now,
            stays_fixed(later, fixed, outs, variable),
            variable,
        )?;
    }
    Ok(now)
}

fn is_fixed(fixed: &Fixed, operand: Operand) -> bool
    ensures { result ≡ spec.is_fixed (fixed_of fixed.now) operand }
{
    match operand.value {
        Source::Constant(_) => true,
        Source::Variable(variable) => is_in(&fixed.variables, variable),
        Source::Result(OpId(id)) => {
            let index = id as usize;
            index < fixed.ops.len() && fixed.ops[index]
        }
    }
}

fn all_fixed(fixed: &Fixed, args: &[Operand]) -> bool
    ensures { result ≡ spec.all_fixed (fixed_of fixed.now) args.now }
{
    for arg in args {
        if !is_fixed(fixed, *arg) {
            return false;
        }
    }
    true
}

fn is_computed(kind: OpKind) -> bool
    ensures { result ≡ spec.is_computed kind }
{
    !matches!(kind, OpKind::Load | OpKind::Store | OpKind::Copy)
}

/// With these variables fixed as the block is entered.
fn fixed_in(alloc: Global, variables: Vec<VarId>, ops: &[Op<Untimed>]) -> Result<Fixed, AllocError>
    ensures { IfOk result (λ fixed. fixed_of fixed ≡ spec.with_ops (record { variables = is_in variables.items; ops = [] }) (map op_of ops.now)) }
{
    let mut fixed = Fixed {
        variables,
        ops: Vec::new(alloc),
    };
    for op in ops {
        let is = is_computed(op.kind) && all_fixed(&fixed, op.args.as_slice());
        fixed.ops.push(is)?;
    }
    Ok(fixed)
}

fn is_among(operand: Operand, operands: &[Operand]) -> bool
    ensures { result ≡ spec.is_among operand operands.now }
{
    for other in operands {
        if *other == operand {
            return true;
        }
    }
    false
}

/// Whether an operand is no result of an operation, or of one on constants alone, or of one that another variable has taken.
fn needs_copy(fixed: &Fixed, taken: &[Operand], value: Operand) -> bool
    ensures { result ≡ spec.needs_copy (fixed_of fixed.now) taken.now value value.value }
{
    match value.value {
        Source::Result(_) => is_fixed(fixed, value) || is_among(value, taken),
        Source::Constant(_) | Source::Variable(_) => true,
    }
}

fn variable_width(expanded: &Expanded, variable: VarId) -> u8
    ensures { result ≡ values.width (blocks.variable_type (scope_of expanded.now) variable) }
{
    let index = variable.0 as usize;
    if index < expanded.variables.len() {
        width(expanded.variables[index])
    } else {
        width(INT)
    }
}

fn add_copy(
    alloc: Global,
    bits: u8,
    ops: &mut Vec<Op<Untimed>>,
    value: Operand,
) -> Result<Operand, AllocError>
    ensures { IfOk result (λ x. gives (map op_of ops.new.items) x ≡ added (map op_of ops.old.items) (plain op.Copy bits (value ∷ []))) }
{
    let id = u32::try_from(ops.len()).map_err(|_| impossible())?;
    ops.push(Op {
        kind: OpKind::Copy,
        signed: false,
        bits,
        args: SmallVec::from_slice(alloc, &[value])?,
        array: None,
        guard: None,
        flag: None,
        stamp: Untimed,
    })?;
    Ok(Operand {
        value: Source::Result(OpId(id)),
        distance: 0,
    })
}

/// The variable's own operand: that which it is set to, or a copy.
fn own_operand(
    alloc: Global,
    expanded: &Expanded,
    fixed: &Fixed,
    copied: &mut Copied,
    out: Out,
) -> Result<Operand, AllocError>
    ensures own { IfOk result (λ x. gives (map op_of copied.new.ops.items) x ≡ spec.own_operand (scope_of expanded.now) (fixed_of fixed.now) (copied_of copied.old) out) }
    ensures outs { copied.new.outs ≡ copied.old.outs }
    ensures taken { copied.new.taken ≡ copied.old.taken }
{
    if needs_copy(fixed, &copied.taken, out.value) {
        let bits = variable_width(expanded, out.variable);
        add_copy(alloc, bits, &mut copied.ops, out.value)
    } else {
        Ok(out.value)
    }
}

/// Of two variables that hold one result the one that was set first keeps it; one that is set again later needs no operation of its own here.
fn add_out(
    alloc: Global,
    expanded: &Expanded,
    later: &Vec<Part>,
    fixed: &Fixed,
    copied: &mut Copied,
    out: Out,
) -> Result<(), AllocError>
    ensures { IfOk result (λ u. copied_of copied.new ≡ spec.copied_out (scope_of expanded.now) (part_row (map part_of later.now.items)) (fixed_of fixed.now) (copied_of copied.old) out) }
{
    if parts_set(later, out.variable) {
        copied.outs.push(out)?;
        return Ok(());
    }
    let value = own_operand(alloc, expanded, fixed, copied, out)?;
    copied.outs.push(Out {
        variable: out.variable,
        value,
    })?;
    copied.taken.push(value)?;
    Ok(())
}

/// What a block sets, with its copies behind its operations.
fn copied_outs(
    alloc: Global,
    expanded: &Expanded,
    later: &Vec<Part>,
    fixed: &Fixed,
    ops: Vec<Op<Untimed>>,
    outs: &Vec<Out>,
) -> Result<Copied, AllocError>
    ensures { IfOk result (λ copied. copied_of copied ≡ spec.copied_outs (scope_of expanded.now) (part_row (map part_of later.now.items)) (fixed_of fixed.now) (record { ops = map op_of ops.items; outs = []; taken = [] }) outs.now.items) }
{
    let mut copied = Copied {
        ops,
        outs: Vec::new(alloc),
        taken: Vec::new(alloc),
    };
    for out in outs {
        add_out(alloc, expanded, later, fixed, &mut copied, *out)?;
    }
    Ok(copied)
}

/// A block of the body with its copies, with what stands behind it.
fn copied_block(
    alloc: Global,
    expanded: &Expanded,
    later: &Vec<Part>,
    fixed: &Fixed,
    block: BasicBlock,
) -> Result<BasicBlock, AllocError>
    ensures { IfOk result (λ block1. block_of block1 ≡ spec.with_copied (block_of block) (spec.copied_outs (scope_of expanded.now) (part_row (map part_of later.now.items)) (fixed_of fixed.now) (record { ops = map op_of block.ops.items; outs = []; taken = [] }) block.outs.items)) }
{
    let BasicBlock {
        point,
        ops,
        outs,
        exit,
    } = block;
    let copied = copied_outs(alloc, expanded, later, fixed, ops, &outs)?;
    let Copied { ops, outs, .. } = copied;
    Ok(BasicBlock {
        point,
        ops,
        outs,
        exit,
    })
}
