//! What makes operations equal, and what they are on constants.
ghost use Rattle.std.specs.Prelude.{◌≡◌, slice_get};
ghost use Rattle.ir_core.specs.Bodies.{op_of};
ghost use Rattle.passes.specs.Numbering.Constants.{word_in, is_computed};
ghost use Rattle.passes.specs.Numbering.Constants as spec;
ghost use Rattle.passes.specs.Numbering as numbering;

use ir_core::body::{Op, OpKind, Operand, Source};
use ir_core::stamp::Untimed;
use ir_core::value::{evaluate, is_defined};

/// What an operation makes of which operands. Operations other than loads and stores have at most three.
#[derive(Clone, Copy, PartialEq, Eq, Hash)]
pub struct Key {
    kind: OpKind,
    signed: bool,
    bits: u8,
    first: Option<Operand>,
    second: Option<Operand>,
    third: Option<Operand>,
}

fn operand_at(args: &[Operand], index: usize) -> Option<Operand>
    ensures { result ≡ slice_get args.now index }
{
    if index < args.len() {
        Some(args[index])
    } else {
        None
    }
}

impl Key {
    ghost use Rattle.std.specs.Prelude.{◌≡◌};
    ghost use Rattle.ir_core.specs.Bodies.{op_of};
    ghost use Rattle.value_number.specs.Views.{key_of};

    pub fn new(op: &Op<Untimed>) -> Key
        ensures { result ≡ key_of (op_of op.now) }
    {
        let args = op.args.as_slice();
        Key {
            kind: op.kind,
            signed: op.signed,
            bits: op.bits,
            first: operand_at(args, 0),
            second: operand_at(args, 1),
            third: operand_at(args, 2),
        }
    }
}

fn constant(operand: Option<Operand>) -> Option<u64>
    ensures { result ≡ word_in operand }
{
    match operand {
        Some(operand) => match operand.value {
            Source::Constant(word) => Some(word),
            _ => None,
        },
        None => Some(0),
    }
}

/// What the operation is computed to where its operands are constants and C gives it a value.
pub fn computed(op: &Op<Untimed>, from_bits: u8) -> Option<u64>
    ensures { result ≡ spec.computed (op_of op.now) from_bits }
{
    let args = op.args.as_slice();
    let x = constant(operand_at(args, 0))?;
    let y = constant(operand_at(args, 1))?;
    let z = constant(operand_at(args, 2))?;
    let words = [x, y, z];
    if is_computed(op.kind) && is_defined(op.kind, op.signed, op.bits, &words) {
        Some(evaluate(op.kind, op.signed, op.bits, from_bits, &words))
    } else {
        None
    }
}

/// Whether equal operations of the kind give equal values whatever stands between them.
pub fn is_common(kind: OpKind) -> bool
    ensures { result ≡ numbering.is_common kind }
{
    !matches!(kind, OpKind::Load | OpKind::Store)
}

/// Whether an operation of the kind may be computed where its operands are constants.
fn is_computed(kind: OpKind) -> bool
    ensures { result ≡ is_computed kind }
{
    !matches!(kind, OpKind::Copy | OpKind::Load | OpKind::Store)
}
