//! What an operand may name, and its width.
ghost use Rattle.std.specs.Prelude.{◌≡◌};
ghost use Rattle.std.specs.List.{list_all};
ghost use Rattle.program_validity.specs.Operands as spec;

use crate::widths::{is_width, is_word};
use dep_graph::counter::maker;
use ir_core::body::{Op, Operand, Out, Source};
use ir_core::stamp::Stamp;
use ir_core::timing::result_bits;

/// Whether an operand is of the right iteration. The outs that a loop carries are gone through for each variable; they are few.
pub fn is_at(carried: &[Out], operand: Operand) -> bool
    ensures { result ≡ spec.is_at carried.now operand.value operand.distance }
{
    match operand.value {
        Source::Constant(_) => true,
        Source::Variable(variable) => {
            operand.distance == u32::from(maker(carried, variable).is_some())
        }
        Source::Result(_) => operand.distance == 0,
    }
}

/// The width of a variable or of a result.
pub fn width_of<S: Stamp>(widths: &[u8], before: &[Op<S>], source: Source) -> Option<u8>
    ensures { result ≡ spec.width_of widths.now before.now source }
{
    match source {
        Source::Variable(variable) if (variable.0 as usize) < widths.len() => {
            Some(widths[variable.0 as usize])
        }
        Source::Result(op) if (op.0 as usize) < before.len() => {
            Some(result_bits(&before[op.0 as usize]))
        }
        _ => None,
    }
}

pub fn is_exactly(bits: u8, width: Option<u8>) -> bool
    ensures { result ≡ spec.is_exactly bits width }
{
    match width {
        Some(width) => width == bits,
        None => false,
    }
}

pub fn is_narrower(bits: u8, width: Option<u8>) -> bool
    ensures { result ≡ spec.is_narrower bits width }
{
    match width {
        Some(width) => is_width(width) && width < bits,
        None => false,
    }
}

pub fn is_wider(bits: u8, width: Option<u8>) -> bool
    ensures { result ≡ spec.is_wider bits width }
{
    match width {
        Some(width) => bits < width,
        None => false,
    }
}

fn is_any_width(width: Option<u8>) -> bool
    ensures { result ≡ spec.is_any_width width }
{
    match width {
        Some(width) => is_width(width),
        None => false,
    }
}

fn has_bits<S: Stamp>(widths: &[u8], before: &[Op<S>], bits: u8, source: Source) -> bool
    ensures { result ≡ spec.has_bits widths.now before.now bits source }
{
    match source {
        Source::Constant(word) => is_word(bits, word),
        _ => is_exactly(bits, width_of(widths, before, source)),
    }
}

/// Whether an operand of this width may stand behind these operations.
pub fn is_operand<S: Stamp>(
    widths: &[u8],
    carried: &[Out],
    before: &[Op<S>],
    bits: u8,
    operand: Operand,
) -> bool
    ensures { result ≡ spec.is_operand widths.now carried.now before.now bits operand }
{
    has_bits(widths, before, bits, operand.value) && is_at(carried, operand)
}

pub fn is_operand_if<S: Stamp>(
    widths: &[u8],
    carried: &[Out],
    before: &[Op<S>],
    bits: u8,
    operand: Option<Operand>,
) -> bool
    ensures { result ≡ spec.is_operand_if widths.now carried.now before.now bits operand }
{
    match operand {
        Some(operand) => is_operand(widths, carried, before, bits, operand),
        None => true,
    }
}

fn is_subscript<S: Stamp>(
    widths: &[u8],
    carried: &[Out],
    before: &[Op<S>],
    operand: Operand,
) -> bool
    ensures { result ≡ spec.is_subscript widths.now carried.now before.now operand }
{
    match operand.value {
        Source::Constant(_) => true,
        source => is_any_width(width_of(widths, before, source)) && is_at(carried, operand),
    }
}

pub fn are_subscripts<S: Stamp>(
    widths: &[u8],
    carried: &[Out],
    before: &[Op<S>],
    operands: &[Operand],
) -> bool
    ensures { result ≡ list_all (spec.is_subscript widths.now carried.now before.now) operands.now }
{
    for operand in operands {
        if !is_subscript(widths, carried, before, *operand) {
            return false;
        }
    }
    true
}
