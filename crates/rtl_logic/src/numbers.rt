//! Signed numbers as wires.
ghost use Rattle.std.specs.Prelude.{◌≡◌, ◌-◌, ◌^◌, ◌==◌, ℕ, true, nat_le, int_lt, IfOk, if◌then◌else◌};
ghost use Rattle.rtl_core.specs.ClockStep.{bit_of, widths};
ghost use Rattle.rtl_core.specs.Valid.{HasBits, IsBetween};
ghost use Rattle.rtl_logic.specs.Making.{circuit, IsSound, Makes, Shows};
ghost use Rattle.ir_core.specs.Value.{number_of, pattern, shifted_right, truth};
ghost use Rattle.rtl_logic.specs.Arguments.{IsTakenFrom};

use crate::logic::Logic;
use crate::select::constant;
use rtl_core::design::{Atom, Pair};
use std::alloc::AllocError;

/// All ones where the bit is 1, else all zeros.
fn filled(logic: &mut Logic, bits: u8, test: Atom) -> Result<Atom, AllocError>
    ensures { IsSound (circuit logic.old) → IsBetween 1 128 bits → HasBits (widths (circuit logic.old)) 1 test
        → IfOk result (λ a. Makes (circuit logic.old) (circuit logic.new) bits a (λ v x. x ≡ (if v test == 1 then 2 ^ bits - 1 else 0))) }
{
    if bits == 1 {
        return Ok(test);
    }
    logic.pick(test, constant(bits, u128::MAX), constant(bits, 0))
}

/// The highest bit of a value.
fn top_bit(logic: &mut Logic, value: Atom) -> Result<Atom, AllocError>
    ensures { (n : ℕ) → IsSound (circuit logic.old) → IsBetween 1 128 n → HasBits (widths (circuit logic.old)) n value
        → IfOk result (λ a. Makes (circuit logic.old) (circuit logic.new) 1 a (λ v x. x ≡ bit_of (nat_le (2 ^ (n - 1)) (v value)))) }
{
    let top = logic.width(value).saturating_sub(1);
    logic.part(value, top, top)
}

/// The pattern, of so many bits, of the number that a value stands for.
pub fn widened(logic: &mut Logic, signed: bool, bits: u8, value: Atom) -> Result<Atom, AllocError>
    ensures { (n from : ℕ) → IsSound (circuit logic.old) → IsBetween 1 64 n → IsBetween 1 64 bits → HasBits (widths (circuit logic.old)) n value → IsTakenFrom bits n from
        → IfOk result (λ a. Makes (circuit logic.old) (circuit logic.new) bits a (λ v x. x ≡ pattern bits (number_of signed from (v value)))) }
{
    let width = logic.width(value);
    if !signed || width >= bits {
        return logic.resized(value, bits);
    }
    let sign = top_bit(logic, value)?;
    let high = filled(logic, bits - width, sign)?;
    logic.join(high, value)
}

/// A signed value moved to the right, which fills with its sign.
pub fn shifted_signed(
    logic: &mut Logic,
    bits: u8,
    value: Atom,
    count: Atom,
) -> Result<Atom, AllocError>
    ensures { (n : ℕ) → IsSound (circuit logic.old) → IsBetween 1 64 bits → HasBits (widths (circuit logic.old)) bits value → HasBits (widths (circuit logic.old)) n count
        → IfOk result (λ a. Makes (circuit logic.old) (circuit logic.new) bits a (λ v x. x ≡ shifted_right bits (number_of true bits (v value)) (v count))) }
{
    let sign = top_bit(logic, value)?;
    if let Atom::Constant { value: count, .. } = count {
        return shifted_by_constant(logic, bits, value, sign, count);
    }
    let mask = filled(logic, bits, sign)?;
    let turned = logic.two(Pair::Xor, bits, value, mask)?;
    let moved = logic.two(Pair::Right, bits, turned, count)?;
    logic.two(Pair::Xor, bits, moved, mask)
}

/// The same for a count that is known, from the value's sign.
fn shifted_by_constant(
    logic: &mut Logic,
    bits: u8,
    value: Atom,
    sign: Atom,
    count: u128,
) -> Result<Atom, AllocError>
    ensures { IsSound (circuit logic.old) → IsBetween 1 64 bits → HasBits (widths (circuit logic.old)) bits value
        → Shows (circuit logic.old) 1 sign (λ v x. x ≡ bit_of (nat_le (2 ^ (bits - 1)) (v value)))
        → IfOk result (λ a. Makes (circuit logic.old) (circuit logic.new) bits a (λ v x. x ≡ shifted_right bits (number_of true bits (v value)) count)) }
{
    if count == 0 {
        return Ok(value);
    }
    if count >= bits as u128 {
        return filled(logic, bits, sign);
    }
    let count = count as u8;
    let high = filled(logic, count, sign)?;
    let low = logic.part(value, bits.saturating_sub(1), count)?;
    logic.join(high, low)
}

/// The pattern whose highest bit alone is 1.
fn highest(bits: u8) -> Atom
    ensures { IsBetween 1 64 bits → result ≡ Atom.Constant bits (2 ^ (bits - 1)) }
{
    let top = bits.saturating_sub(1);
    let value = if top < 128 { 1u128 << top as u32 } else { 0 };
    constant(bits, value)
}

/// Whether the left number is below the right one.
pub fn is_below(
    logic: &mut Logic,
    signed: bool,
    bits: u8,
    left: Atom,
    right: Atom,
) -> Result<Atom, AllocError>
    ensures { IsSound (circuit logic.old) → IsBetween 1 64 bits → HasBits (widths (circuit logic.old)) bits left → HasBits (widths (circuit logic.old)) bits right
        → IfOk result (λ a. Makes (circuit logic.old) (circuit logic.new) 1 a (λ v x. x ≡ truth (int_lt (number_of signed bits (v left)) (number_of signed bits (v right))))) }
{
    if !signed {
        return logic.two(Pair::Below, 1, left, right);
    }
    let top = highest(bits);
    let left = logic.two(Pair::Xor, bits, left, top)?;
    let right = logic.two(Pair::Xor, bits, right, top)?;
    logic.two(Pair::Below, 1, left, right)
}
