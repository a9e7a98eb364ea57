//! Each operation's result as a wire.
ghost use Rattle.std.specs.Prelude.{◌≡◌, ℕ, not, nat_eq, int_le, IfOk, [], ◌∷◌, get_or};
ghost use Rattle.ir_core.specs.Timing.{result_bits};
ghost use Rattle.ir_core.specs.Value as spec;
ghost use Rattle.rtl_core.specs.ClockStep.{widths};
ghost use Rattle.rtl_core.specs.Valid.{HasBits, IsBetween};
ghost use Rattle.rtl_logic.specs.Making.{circuit, IsSound, Makes};
ghost use Rattle.rtl_logic.specs.Arguments.{missing, constant_bits, pair_of, IsTakenFrom, AreArguments};

use crate::logic::Logic;
use crate::numbers::{is_below, shifted_signed, widened};
use crate::select::constant;
use ir_core::body::{Op, OpKind, Operand, Pairing, Simple, Source};
use ir_core::timed::Timed;
use rtl_core::design::{Atom, Pair};
use std::alloc::AllocError;

/// The values of an operation's arguments.
#[derive(Clone, Copy)]
pub struct Arguments {
    pub first: Atom,
    pub second: Atom,
    pub third: Atom,
}

/// The argument with this number, 0 where there is none.
pub fn argument(op: &Op<Timed>, number: usize) -> Operand
    ensures { result ≡ get_or op.now.args.items number missing }
{
    let missing = Operand {
        value: Source::Constant(0),
        distance: 0,
    };
    op.args.as_slice().get(number).copied().unwrap_or(missing)
}

/// The widths that the arguments have where they are constants.
pub fn constant_widths(op: &Op<Timed>) -> (u8, u8, u8)
    ensures first { result.0 ≡ constant_bits op.now.kind op.now.bits 0 }
    ensures second { result.1 ≡ constant_bits op.now.kind op.now.bits 1 }
    ensures third { result.2 ≡ constant_bits op.now.kind op.now.bits 2 }
{
    match op.kind {
        OpKind::Select => (1, op.bits, op.bits),
        OpKind::Widen | OpKind::Narrow => (64, 1, 1),
        _ => (op.bits, op.bits, op.bits),
    }
}

fn simple_pair(simple: Simple) -> Pair
    ensures { result ≡ pair_of simple }
{
    match simple {
        Simple::Add => Pair::Add,
        Simple::Sub => Pair::Sub,
        Simple::And => Pair::And,
        Simple::Or => Pair::Or,
        Simple::Xor => Pair::Xor,
    }
}

/// The wire of a simple operator.
fn simple(
    logic: &mut Logic,
    kind: Simple,
    bits: u8,
    left: Atom,
    right: Atom,
) -> Result<Atom, AllocError>
    ensures { IsSound (circuit logic.old) → IsBetween 1 64 bits → HasBits (widths (circuit logic.old)) bits left → HasBits (widths (circuit logic.old)) bits right
        → IfOk result (λ a. Makes (circuit logic.old) (circuit logic.new) bits a (λ v x. x ≡ spec.simple kind bits (v left) (v right))) }
{
    logic.two(simple_pair(kind), bits, left, right)
}

/// The wires of two operators, of which the second takes what the first gives.
fn fused(logic: &mut Logic, pairing: Pairing, bits: u8, of: Arguments) -> Result<Atom, AllocError>
    ensures { IsSound (circuit logic.old) → IsBetween 1 64 bits
        → HasBits (widths (circuit logic.old)) bits of.first → HasBits (widths (circuit logic.old)) bits of.second → HasBits (widths (circuit logic.old)) bits of.third
        → IfOk result (λ a. Makes (circuit logic.old) (circuit logic.new) bits a (λ v x. x ≡ spec.fused pairing bits (v of.first) (v of.second) (v of.third))) }
{
    let inner = simple(logic, pairing.first, bits, of.first, of.second)?;
    if pairing.left {
        simple(logic, pairing.second, bits, inner, of.third)
    } else {
        simple(logic, pairing.second, bits, of.third, inner)
    }
}

/// Whether the values differ.
fn differs(logic: &mut Logic, left: Atom, right: Atom) -> Result<Atom, AllocError>
    ensures { (n : ℕ) → IsSound (circuit logic.old) → HasBits (widths (circuit logic.old)) n left → HasBits (widths (circuit logic.old)) n right
        → IfOk result (λ a. Makes (circuit logic.old) (circuit logic.new) 1 a (λ v x. x ≡ spec.truth (not (nat_eq (v left) (v right))))) }
{
    let same = logic.equal(left, right)?;
    logic.not(same)
}

/// Whether the left number is not above the right one.
fn is_at_most(
    logic: &mut Logic,
    signed: bool,
    bits: u8,
    left: Atom,
    right: Atom,
) -> Result<Atom, AllocError>
    ensures { IsSound (circuit logic.old) → IsBetween 1 64 bits → HasBits (widths (circuit logic.old)) bits left → HasBits (widths (circuit logic.old)) bits right
        → IfOk result (λ a. Makes (circuit logic.old) (circuit logic.new) 1 a (λ v x. x ≡ spec.truth (int_le (spec.number_of signed bits (v left)) (spec.number_of signed bits (v right))))) }
{
    let above = is_below(logic, signed, bits, right, left)?;
    logic.not(above)
}

/// Whether a value is not 0.
fn is_true(logic: &mut Logic, value: Atom) -> Result<Atom, AllocError>
    ensures { (n : ℕ) → IsSound (circuit logic.old) → IsBetween 1 64 n → HasBits (widths (circuit logic.old)) n value
        → IfOk result (λ a. Makes (circuit logic.old) (circuit logic.new) 1 a (λ v x. x ≡ spec.truth (not (nat_eq (v value) 0)))) }
{
    let bits = logic.width(value);
    differs(logic, value, constant(bits, 0))
}

/// A value moved to the right.
fn shifted_right(
    logic: &mut Logic,
    signed: bool,
    bits: u8,
    value: Atom,
    count: Atom,
) -> Result<Atom, AllocError>
    ensures { (n : ℕ) → IsSound (circuit logic.old) → IsBetween 1 64 bits → HasBits (widths (circuit logic.old)) bits value → HasBits (widths (circuit logic.old)) n count
        → IfOk result (λ a. Makes (circuit logic.old) (circuit logic.new) bits a (λ v x. x ≡ spec.shifted_right bits (spec.number_of signed bits (v value)) (v count))) }
{
    if signed {
        shifted_signed(logic, bits, value, count)
    } else {
        logic.two(Pair::Right, bits, value, count)
    }
}

/// The wire of an operation's result.
pub fn value_of(logic: &mut Logic, op: &Op<Timed>, of: Arguments) -> Result<Atom, AllocError>
    ensures { (from : ℕ) → IsSound (circuit logic.old) → IsBetween 1 64 op.now.bits → AreArguments (widths (circuit logic.old)) op.now.kind op.now.bits from of
        → IfOk result (λ a. Makes (circuit logic.old) (circuit logic.new) (result_bits op.now.kind op.now.bits) a
        (λ v x. x ≡ spec.value op.now.kind op.now.signed op.now.bits from (v of.first ∷ v of.second ∷ v of.third ∷ []))) }
{
    let bits = op.bits;
    let Arguments {
        first,
        second,
        third,
    } = of;
    match op.kind {
        OpKind::Add => simple(logic, Simple::Add, bits, first, second),
        OpKind::Sub => simple(logic, Simple::Sub, bits, first, second),
        OpKind::And => simple(logic, Simple::And, bits, first, second),
        OpKind::Or => simple(logic, Simple::Or, bits, first, second),
        OpKind::Xor => simple(logic, Simple::Xor, bits, first, second),
        OpKind::Fused(pairing) => fused(logic, pairing, bits, of),
        OpKind::Shl => logic.two(Pair::Left, bits, first, second),
        OpKind::Shr => shifted_right(logic, op.signed, bits, first, second),
        OpKind::Eq => logic.equal(first, second),
        OpKind::Ne => differs(logic, first, second),
        OpKind::Lt => is_below(logic, op.signed, bits, first, second),
        OpKind::Le => is_at_most(logic, op.signed, bits, first, second),
        OpKind::Not => logic.not(first),
        OpKind::Neg => logic.two(Pair::Sub, bits, constant(bits, 0), first),
        OpKind::Truth => is_true(logic, first),
        OpKind::Select => logic.pick(first, second, third),
        OpKind::Widen => widened(logic, op.signed, bits, first),
        OpKind::Narrow => logic.resized(first, bits),
        _ => Ok(first),
    }
}
