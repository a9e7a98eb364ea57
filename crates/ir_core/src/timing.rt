ghost use Rattle.std.specs.Prelude.{◌≡◌};
ghost use Rattle.ir_core.specs.Timing as spec;

use crate::body::{Op, OpKind};
use crate::cfg::Memory;
use crate::stamp::Stamp;
use hls_base::number::ArrayId;

/// The units that operations share: the multipliers and the dividers of a width in bits, and the ports of a memory.
#[derive(Clone, Copy, PartialEq, Eq, PartialOrd, Ord)]
pub enum UnitClass {
    Multiplier(u8),
    Divider(u8),
    Port(ArrayId),
}

/// The cycles from the start of an operation to the one in which its result is there, or, for a store, in which the word is changed.
pub fn latency(kind: OpKind, bits: u8) -> u32
    ensures { result ≡ spec.latency kind bits }
{
    match kind {
        OpKind::Mul | OpKind::Load => 2,
        OpKind::Div | OpKind::Rem => bits as u32 + 2,
        _ => 1,
    }
}

/// The cycles for which an operation holds its unit.
pub fn occupancy(kind: OpKind, bits: u8) -> u32
    ensures { result ≡ spec.occupancy kind bits }
{
    match kind {
        OpKind::Div | OpKind::Rem => bits as u32 + 2,
        _ => 1,
    }
}

/// The width of an operation's result in bits; 0 for a store.
pub fn result_bits<S: Stamp>(op: &Op<S>) -> u8
    ensures { result ≡ spec.result_bits op.now.kind op.now.bits }
{
    match op.kind {
        OpKind::Eq | OpKind::Ne | OpKind::Lt | OpKind::Le | OpKind::Truth => 1,
        OpKind::Store => 0,
        _ => op.bits,
    }
}

/// Whether the array is a table of constants, which has no ports.
pub fn is_table(memories: &[Memory], array: ArrayId) -> bool
    ensures { result ≡ spec.is_table memories.now array }
{
    let index = array.0 as usize;
    index < memories.len() && memories[index].table.is_some()
}

/// The unit of a class of its own for each array that has ports.
fn port(memories: &[Memory], array: Option<ArrayId>) -> Option<UnitClass>
    ensures { result ≡ spec.port memories.now array }
{
    match array {
        Some(array) if !is_table(memories, array) => Some(UnitClass::Port(array)),
        _ => None,
    }
}

/// The class of the units of which an operation takes one, if it shares any.
pub fn unit_class<S: Stamp>(op: &Op<S>, memories: &[Memory]) -> Option<UnitClass>
    ensures { result ≡ spec.unit_class op.now.kind op.now.bits op.now.array memories.now }
{
    match op.kind {
        OpKind::Mul => Some(UnitClass::Multiplier(op.bits)),
        OpKind::Div | OpKind::Rem => Some(UnitClass::Divider(op.bits)),
        OpKind::Load | OpKind::Store => port(memories, op.array),
        _ => None,
    }
}
