//! What an operation does to memories, and when it has no meaning.
ghost use Rattle.std.specs.Prelude.{◌≡◌, ◌≤◌, ◌<◌, ℕ, List, map, take, length, get_or};
ghost use Rattle.ir_core.specs.Bodies as bodies;
ghost use Rattle.flat_programs.specs.Memory.Contents.{dims_in, words_in};
ghost use Rattle.flat_programs.specs.Machine.Held.{shapes, IsThere, found};

use crate::machine::operands::word_at;
use crate::memory::memories::Memories;
use hls_base::number::ArrayId;
use hls_base::place::Place;
use hls_base::refusal::UbRule;
use ir_core::body::{Op, OpKind, Operand, Source};
use ir_core::stamp::Untimed;
use ir_core::timing::result_bits;
use ir_core::value::{evaluate, is_defined};

/// The rule that was broken, and where.
#[derive(Clone, Copy)]
pub struct Broken {
    pub rule: UbRule,
    pub place: Place,
}

fn bits_of(widths: &[u8], ops: &[Op<Untimed>], operand: Operand, bits: u8) -> u8
    ensures { result ≡ bodies.operand_bits widths.now (map bodies.op_of ops.now) bits operand.value }
{
    match operand.value {
        Source::Constant(_) => bits,
        Source::Variable(variable) => {
            let index = variable.0 as usize;
            if index < widths.len() {
                widths[index]
            } else {
                bits
            }
        }
        Source::Result(op) => match ops.get(op.0 as usize) {
            Some(op) => result_bits(op),
            None => bits,
        },
    }
}

/// The width of the first argument, or that of the operation where there is none.
pub fn first_bits(widths: &[u8], ops: &[Op<Untimed>], op: &Op<Untimed>) -> u8
    ensures { result ≡
        bodies.first_bits widths.now (map bodies.op_of ops.now) (bodies.op_of op.now) op.now.args.items }
{
    match op.args.as_slice().first() {
        Some(operand) => bits_of(widths, ops, *operand, op.bits),
        None => op.bits,
    }
}

/// The subscripts of a store, which are all its arguments but the last.
fn subscripts(args: &[u64]) -> &[u64]
    ensures { result.now ≡ bodies.subscripts args.now }
{
    &args[..args.len().saturating_sub(1)]
}

/// The word that a store writes, which is its last argument.
fn stored(args: &[u64]) -> u64
    ensures { result ≡ bodies.stored args.now }
{
    word_at(args, args.len().saturating_sub(1))
}

/// The rule that an operation breaks where C gives it no value.
fn broken_rule(kind: OpKind, bits: u8, args: &[u64]) -> UbRule
    ensures { result ≡ bodies.broken_rule kind bits args.now }
{
    let right = word_at(args, 1);
    match kind {
        OpKind::Div | OpKind::Rem => {
            if right == 0 {
                UbRule::DivideByZero
            } else {
                UbRule::QuotientRange
            }
        }
        OpKind::Shl | OpKind::Shr => {
            if right < u64::from(bits) {
                UbRule::ShiftLeft
            } else {
                UbRule::ShiftCount
            }
        }
        _ => UbRule::Overflow,
    }
}

fn access_fault(memories: &Memories, array: Option<ArrayId>, subscripts: &[u64]) -> Option<UbRule>
    ensures { (widths : List ℕ) →
        result ≡ bodies.access_fault (shapes widths (dims_in memories.now)) array subscripts.now }
{
    match array {
        Some(array) => {
            if memories.is_in_range(array, subscripts) {
                None
            } else {
                Some(UbRule::Index)
            }
        }
        None => None,
    }
}

/// The rule that an operation breaks at these arguments.
fn fault(memories: &Memories, op: &Op<Untimed>, args: &[u64]) -> Option<UbRule>
    ensures { (widths : List ℕ) →
        result ≡ bodies.fault (shapes widths (dims_in memories.now)) (bodies.op_of op.now) args.now }
{
    match op.kind {
        OpKind::Load => access_fault(memories, op.array, args),
        OpKind::Store => access_fault(memories, op.array, subscripts(args)),
        _ => {
            if is_defined(op.kind, op.signed, op.bits, args) {
                None
            } else {
                Some(broken_rule(op.kind, op.bits, args))
            }
        }
    }
}

/// Refuses a flagged operation that is allowed and breaks a rule at these arguments.
pub fn check(
    memories: &Memories,
    op: &Op<Untimed>,
    allowed: bool,
    args: &[u64],
) -> Result<(), Broken>
    ensures { (widths : List ℕ) (p : bodies.Performed) →
        bodies.fault_if allowed op.now.flag
        (bodies.fault (shapes widths (dims_in memories.now)) (bodies.op_of op.now) args.now) p
        ≡ found result p }
{
    match op.flag {
        Some(place) if allowed => match fault(memories, op, args) {
            Some(rule) => Err(Broken { rule, place }),
            None => Ok(()),
        },
        _ => Ok(()),
    }
}

fn load(memories: &Memories, array: Option<ArrayId>, args: &[u64]) -> u64
    ensures { (widths : List ℕ) (variables : ℕ → ℕ) → result ≡
        bodies.loaded (shapes widths (dims_in memories.now)) array args.now
        (record { variables = variables; memories = words_in memories.now }) }
{
    match array {
        Some(array) => memories.load(array, args),
        None => 0,
    }
}

fn store(memories: &mut Memories, array: Option<ArrayId>, args: &[u64])
    ensures does { (widths : List ℕ) (variables : ℕ → ℕ) → IsThere array (dims_in memories.old) →
        bodies.with_stored (shapes widths (dims_in memories.old)) array args.now
        (record { variables = variables; memories = words_in memories.old })
        ≡ record { variables = variables; memories = words_in memories.new } }
    ensures dims { dims_in memories.new ≡ dims_in memories.old }
{
    if let Some(array) = array {
        memories.store(array, subscripts(args), stored(args));
    }
}

/// The result of an operation at these arguments, after what it does.
pub fn act(
    memories: &mut Memories,
    op: &Op<Untimed>,
    allowed: bool,
    from_bits: u8,
    args: &[u64],
) -> u64
    ensures does { (widths : List ℕ) (variables : ℕ → ℕ) →
        IsThere op.now.array (dims_in memories.old) →
        bodies.effect (shapes widths (dims_in memories.old)) (bodies.op_of op.now) op.now.kind allowed
        from_bits args.now (record { variables = variables; memories = words_in memories.old })
        ≡ bodies.performed result (record { variables = variables; memories = words_in memories.new }) }
    ensures dims { dims_in memories.new ≡ dims_in memories.old }
{
    match op.kind {
        OpKind::Load => {
            if allowed {
                load(memories, op.array, args)
            } else {
                0
            }
        }
        OpKind::Store => {
            if allowed {
                store(memories, op.array, args);
            }
            0
        }
        _ => evaluate(op.kind, op.signed, op.bits, from_bits, args),
    }
}
