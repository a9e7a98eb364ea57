//! A restoring divider: in the cycle of its start it takes the absolute values of its operands, and then one bit of the quotient in each cycle.
ghost use Rattle.std.specs.Prelude.{◌≡◌, ◌+◌, [], ◌++◌, IfOk, OnOk};
ghost use Rattle.rtl_units.specs.Fragments.{up};
ghost use Rattle.rtl_units.specs.Division as spec;

use crate::draft::{Draft, zero};
use rtl_core::design::{Atom, Net, Pair};
use std::alloc::AllocError;

/// The operands of a division, and whether they have signs.
#[derive(Clone, Copy, PartialEq, Eq)]
pub struct Division {
    pub bits: u8,
    pub signed: Atom,
    pub start: Atom,
    pub left: Atom,
    pub right: Atom,
}

/// What the divider takes in the cycle of its start.
#[derive(Clone, Copy, PartialEq, Eq)]
struct Taken {
    left: Atom,
    right: Atom,
    quotient_negative: Atom,
    remainder_negative: Atom,
}

/// The registers of a divider. `dividend` loses its bits at the top and takes those of the quotient at the bottom.
#[derive(Clone, Copy, PartialEq, Eq)]
struct State {
    steps: Atom,
    dividend: Atom,
    remainder: Atom,
    divisor: Atom,
    quotient_negative: Atom,
    remainder_negative: Atom,
}

/// The remainder with the next bit of the dividend, this less the divisor, and whether that leaves a borrow.
#[derive(Clone, Copy, PartialEq, Eq)]
struct Subtraction {
    trial: Atom,
    difference: Atom,
    borrow: Atom,
}

/// The values after one step.
#[derive(Clone, Copy, PartialEq, Eq)]
struct Step {
    dividend: Atom,
    remainder: Atom,
}

/// The quotient and the remainder. They stay as they are from the cycle after the last step on.
pub fn divider(draft: &mut Draft, division: Division) -> Result<(Atom, Atom), AllocError>
    requires no_regs { draft.old.regs.items ≡ [] }
    requires no_wires { draft.old.wires.items ≡ [] }
    ensures atoms { IfOk result (λ a. (a.0 ≡ spec.quotient_atom draft.old.first_reg draft.old.next_wire division) × (a.1 ≡ spec.remainder_atom draft.old.first_reg draft.old.next_wire division)) }
    ensures wires { OnOk result (draft.new.wires.items ≡ spec.divider_wires draft.old.first_reg draft.old.next_wire division) }
    ensures regs { OnOk result (draft.new.regs.items ≡ spec.divider_registers draft.old.next_wire division) }
{
    if is_zero(division.signed) {
        unsigned_divider(draft, division)
    } else {
        signed_divider(draft, division)
    }
}

fn unsigned_divider(draft: &mut Draft, division: Division) -> Result<(Atom, Atom), AllocError>
    requires no_regs { draft.old.regs.items ≡ [] }
    requires no_wires { draft.old.wires.items ≡ [] }
    ensures atoms { IfOk result (λ a. (a.0 ≡ Atom.Reg (draft.old.first_reg + 1)) × (a.1 ≡ Atom.Reg (draft.old.first_reg + 2))) }
    ensures wires { OnOk result (draft.new.wires.items ≡ spec.unsigned_wires draft.old.first_reg draft.old.next_wire division) }
    ensures regs { OnOk result (draft.new.regs.items ≡ spec.unsigned_registers draft.old.next_wire division) }
{
    let state = state_of(draft);
    let taken = Taken {
        left: division.left,
        right: division.right,
        quotient_negative: zero(1),
        remainder_negative: zero(1),
    };
    let step = take_step(draft, division.bits, state)?;
    set_work(draft, division, state, taken, step)?;
    draft.register(division.bits, division.start, division.right)?;
    Ok((state.dividend, state.remainder))
}

fn signed_divider(draft: &mut Draft, division: Division) -> Result<(Atom, Atom), AllocError>
    requires no_regs { draft.old.regs.items ≡ [] }
    requires no_wires { draft.old.wires.items ≡ [] }
    ensures atoms { IfOk result (λ a. (a.0 ≡ Atom.Wire (up 30 draft.old.next_wire)) × (a.1 ≡ Atom.Wire (up 32 draft.old.next_wire))) }
    ensures wires { OnOk result (draft.new.wires.items ≡ spec.signed_wires draft.old.first_reg draft.old.next_wire division) }
    ensures regs { OnOk result (draft.new.regs.items ≡ spec.signed_registers draft.old.next_wire division) }
{
    let state = state_of(draft);
    let taken = take(draft, division)?;
    let step = take_step(draft, division.bits, state)?;
    set_work(draft, division, state, taken, step)?;
    draft.register(division.bits, division.start, taken.right)?;
    draft.register(1, division.start, taken.quotient_negative)?;
    draft.register(1, division.start, taken.remainder_negative)?;
    let quotient = negated(
        draft,
        division.bits,
        state.quotient_negative,
        state.dividend,
    )?;
    let remainder = negated(
        draft,
        division.bits,
        state.remainder_negative,
        state.remainder,
    )?;
    Ok((quotient, remainder))
}

fn state_of(draft: &Draft) -> State
    ensures { result ≡ spec.state_at draft.now.first_reg }
{
    State {
        steps: draft.reg(0),
        dividend: draft.reg(1),
        remainder: draft.reg(2),
        divisor: draft.reg(3),
        quotient_negative: draft.reg(4),
        remainder_negative: draft.reg(5),
    }
}

fn is_zero(atom: Atom) -> bool
    ensures { result ≡ spec.is_unsigned atom }
{
    matches!(atom, Atom::Constant { value: 0, .. })
}

/// The value, or its negative where the test is 1.
fn negated(draft: &mut Draft, bits: u8, test: Atom, value: Atom) -> Result<Atom, AllocError>
    ensures value { IfOk result (λ v. v ≡ Atom.Wire (up 1 draft.old.next_wire)) }
    ensures wires { OnOk result (draft.new.wires.items ≡ draft.old.wires.items ++ spec.negated_wires draft.old.next_wire bits test value) }
    ensures next_wire { OnOk result (draft.new.next_wire ≡ up 2 draft.old.next_wire) }
    ensures regs { draft.new.regs.items ≡ draft.old.regs.items }
    ensures first_reg { draft.new.first_reg ≡ draft.old.first_reg }
{
    let negative = draft.wire(bits, Net::Two(Pair::Sub, zero(bits), value))?;
    draft.wire(bits, Net::Pick(test, negative, value))
}

/// Whether the operand counts as negative. It gets a wire of its own, since no part is taken of a constant.
fn sign(draft: &mut Draft, division: Division, operand: Atom) -> Result<Atom, AllocError>
    ensures value { IfOk result (λ v. v ≡ Atom.Wire (up 2 draft.old.next_wire)) }
    ensures wires { OnOk result (draft.new.wires.items ≡ draft.old.wires.items ++ spec.sign_wires draft.old.next_wire division.bits division.signed operand) }
    ensures next_wire { OnOk result (draft.new.next_wire ≡ up 3 draft.old.next_wire) }
    ensures regs { draft.new.regs.items ≡ draft.old.regs.items }
    ensures first_reg { draft.new.first_reg ≡ draft.old.first_reg }
{
    let of = draft.wire(division.bits, Net::Copy(operand))?;
    let high = division.bits.saturating_sub(1);
    let top = draft.wire(
        1,
        Net::Part {
            of,
            high,
            low: high,
        },
    )?;
    draft.wire(1, Net::Two(Pair::And, division.signed, top))
}

/// Whether the left and the right operand count as negative.
fn signs(draft: &mut Draft, division: Division) -> Result<(Atom, Atom), AllocError>
    ensures value { IfOk result (λ v. (v.0 ≡ Atom.Wire (up 2 draft.old.next_wire)) × (v.1 ≡ Atom.Wire (up 5 draft.old.next_wire))) }
    ensures wires { OnOk result (draft.new.wires.items ≡ draft.old.wires.items ++ spec.signs_wires draft.old.next_wire division) }
    ensures next_wire { OnOk result (draft.new.next_wire ≡ up 6 draft.old.next_wire) }
    ensures regs { draft.new.regs.items ≡ draft.old.regs.items }
    ensures first_reg { draft.new.first_reg ≡ draft.old.first_reg }
{
    let left = sign(draft, division, division.left)?;
    let right = sign(draft, division, division.right)?;
    Ok((left, right))
}

/// The absolute values of the operands.
fn absolute(
    draft: &mut Draft,
    division: Division,
    left_sign: Atom,
    right_sign: Atom,
) -> Result<(Atom, Atom), AllocError>
    ensures value { IfOk result (λ v. (v.0 ≡ Atom.Wire (up 1 draft.old.next_wire)) × (v.1 ≡ Atom.Wire (up 3 draft.old.next_wire))) }
    ensures wires { OnOk result (draft.new.wires.items ≡ draft.old.wires.items ++ spec.absolute_wires draft.old.next_wire division left_sign right_sign) }
    ensures next_wire { OnOk result (draft.new.next_wire ≡ up 4 draft.old.next_wire) }
    ensures regs { draft.new.regs.items ≡ draft.old.regs.items }
    ensures first_reg { draft.new.first_reg ≡ draft.old.first_reg }
{
    let left = negated(draft, division.bits, left_sign, division.left)?;
    let right = negated(draft, division.bits, right_sign, division.right)?;
    Ok((left, right))
}

fn take(draft: &mut Draft, division: Division) -> Result<Taken, AllocError>
    ensures value { IfOk result (λ v. v ≡ spec.taken_at draft.old.next_wire) }
    ensures wires { OnOk result (draft.new.wires.items ≡ draft.old.wires.items ++ spec.take_wires draft.old.next_wire division) }
    ensures next_wire { OnOk result (draft.new.next_wire ≡ up 11 draft.old.next_wire) }
    ensures regs { draft.new.regs.items ≡ draft.old.regs.items }
    ensures first_reg { draft.new.first_reg ≡ draft.old.first_reg }
{
    let (left_sign, right_sign) = signs(draft, division)?;
    let (left, right) = absolute(draft, division, left_sign, right_sign)?;
    let quotient_negative = draft.wire(1, Net::Two(Pair::Xor, left_sign, right_sign))?;
    Ok(Taken {
        left,
        right,
        quotient_negative,
        remainder_negative: left_sign,
    })
}

fn wider(bits: u8) -> u8
    ensures { result ≡ spec.wider bits }
{
    bits.saturating_add(1)
}

/// The remainder with the next bit of the dividend, this less the divisor, and whether that leaves a borrow.
fn subtract(draft: &mut Draft, bits: u8, state: State) -> Result<Subtraction, AllocError>
    ensures value { IfOk result (λ v. v ≡ spec.subtraction_at draft.old.next_wire) }
    ensures wires { OnOk result (draft.new.wires.items ≡ draft.old.wires.items ++ spec.subtract_wires draft.old.next_wire bits state) }
    ensures next_wire { OnOk result (draft.new.next_wire ≡ up 5 draft.old.next_wire) }
    ensures regs { draft.new.regs.items ≡ draft.old.regs.items }
    ensures first_reg { draft.new.first_reg ≡ draft.old.first_reg }
{
    let (wide, top) = (wider(bits), bits.saturating_sub(1));
    let next_bit = draft.wire(
        1,
        Net::Part {
            of: state.dividend,
            high: top,
            low: top,
        },
    )?;
    let trial = draft.wire(wide, Net::Join(state.remainder, next_bit))?;
    let divisor = draft.wire(wide, Net::Join(zero(1), state.divisor))?;
    let difference = draft.wire(wide, Net::Two(Pair::Sub, trial, divisor))?;
    let borrow = draft.wire(
        1,
        Net::Part {
            of: difference,
            high: bits,
            low: bits,
        },
    )?;
    Ok(Subtraction {
        trial,
        difference,
        borrow,
    })
}

/// The values after a step: the subtraction counts if it leaves no borrow, and the dividend takes a bit of the quotient.
fn choose(draft: &mut Draft, bits: u8, dividend: Atom, of: Subtraction) -> Result<Step, AllocError>
    ensures value { IfOk result (λ v. v ≡ spec.chosen_at draft.old.next_wire) }
    ensures wires { OnOk result (draft.new.wires.items ≡ draft.old.wires.items ++ spec.choose_wires draft.old.next_wire bits dividend of) }
    ensures next_wire { OnOk result (draft.new.next_wire ≡ up 6 draft.old.next_wire) }
    ensures regs { draft.new.regs.items ≡ draft.old.regs.items }
    ensures first_reg { draft.new.first_reg ≡ draft.old.first_reg }
{
    let top = bits.saturating_sub(1);
    let kept = draft.wire(
        bits,
        Net::Part {
            of: of.trial,
            high: top,
            low: 0,
        },
    )?;
    let reduced = draft.wire(
        bits,
        Net::Part {
            of: of.difference,
            high: top,
            low: 0,
        },
    )?;
    let quotient_bit = draft.wire(1, Net::Not(of.borrow))?;
    let rest = draft.wire(
        top,
        Net::Part {
            of: dividend,
            high: top.saturating_sub(1),
            low: 0,
        },
    )?;
    Ok(Step {
        dividend: draft.wire(bits, Net::Join(rest, quotient_bit))?,
        remainder: draft.wire(bits, Net::Pick(of.borrow, kept, reduced))?,
    })
}

/// One step of the division.
fn take_step(draft: &mut Draft, bits: u8, state: State) -> Result<Step, AllocError>
    ensures value { IfOk result (λ v. v ≡ spec.step_at draft.old.next_wire) }
    ensures wires { OnOk result (draft.new.wires.items ≡ draft.old.wires.items ++ spec.step_wires draft.old.next_wire bits state) }
    ensures next_wire { OnOk result (draft.new.next_wire ≡ up 11 draft.old.next_wire) }
    ensures regs { draft.new.regs.items ≡ draft.old.regs.items }
    ensures first_reg { draft.new.first_reg ≡ draft.old.first_reg }
{
    let subtraction = subtract(draft, bits, state)?;
    let step = choose(draft, bits, state.dividend, subtraction)?;
    Ok(step)
}

/// The bits of a number of steps.
fn step_bits(bits: u8) -> u8
    ensures { result ≡ spec.step_bits bits }
{
    if bits < 64 { 6 } else { 7 }
}

fn all_ones(width: u8) -> u128
    ensures { result ≡ spec.all_ones width }
{
    if width < 7 { 63 } else { 127 }
}

/// The registers that change with each step: how many steps are left, the dividend and the remainder.
fn set_work(
    draft: &mut Draft,
    division: Division,
    state: State,
    taken: Taken,
    step: Step,
) -> Result<(), AllocError>
    ensures wires { OnOk result (draft.new.wires.items ≡ draft.old.wires.items ++ spec.work_wires draft.old.next_wire division state taken step) }
    ensures next_wire { OnOk result (draft.new.next_wire ≡ up 7 draft.old.next_wire) }
    ensures regs { OnOk result (draft.new.regs.items ≡ draft.old.regs.items ++ spec.work_registers draft.old.next_wire division) }
    ensures first_reg { draft.new.first_reg ≡ draft.old.first_reg }
{
    let (bits, start) = (division.bits, division.start);
    let width = step_bits(bits);
    let ended = draft.wire(1, Net::Two(Pair::Equal, state.steps, zero(width)))?;
    let under_way = draft.wire(1, Net::Not(ended))?;
    let enable = draft.wire(1, Net::Two(Pair::Or, start, under_way))?;
    let minus_one = Atom::Constant {
        bits: width,
        value: all_ones(width),
    };
    let fewer = draft.wire(width, Net::Two(Pair::Add, state.steps, minus_one))?;
    let all = Atom::Constant {
        bits: width,
        value: bits as u128,
    };
    let steps = draft.wire(width, Net::Pick(start, all, fewer))?;
    let dividend = draft.wire(bits, Net::Pick(start, taken.left, step.dividend))?;
    let remainder = draft.wire(bits, Net::Pick(start, zero(bits), step.remainder))?;
    draft.register(width, enable, steps)?;
    draft.register(bits, enable, dividend)?;
    draft.register(bits, enable, remainder)
}
