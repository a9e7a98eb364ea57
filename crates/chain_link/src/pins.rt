//! The pins of a linked circuit. Called by `link`.
ghost use Rattle.std.specs.Prelude.{◌≡◌, IfOk};
ghost use Rattle.rtl_core.specs.Interface.{pin};
ghost use Rattle.chain_box.specs.Agreement.{chain_inputs};
ghost use Rattle.chain_link.specs.Linking as spec;
ghost use Rattle.chain_link.specs.Bounds.{IsEarly};

use crate::numbers::{Queue, first_of, some_of};
use hls_base::text::Text;
use rtl_core::design::{Atom, OutPin, Pin};
use std::alloc::{AllocError, Global};

fn input(alloc: Global, name: &[u8], bits: u8) -> Result<Pin, AllocError>
    ensures { IfOk result (λ p. p ≡ pin name.now bits) }
{
    let name = Text::from_slice(alloc, name)?;
    Ok(Pin { name, bits })
}

/// The inputs; `bits` is the width of the items put in.
pub fn inputs_of(alloc: Global, bits: u8) -> Result<Vec<Pin>, AllocError>
    ensures { IfOk result (λ v. v.items ≡ chain_inputs bits) }
{
    let pins = vec![in alloc;
        input(alloc, b"reset", 1)?,
        input(alloc, b"in_valid", 1)?,
        input(alloc, b"in_data", bits)?,
        input(alloc, b"out_take", 1)?,
    ]?;
    Ok(pins)
}

fn output(alloc: Global, name: &[u8], bits: u8, from: Atom) -> Result<OutPin, AllocError>
    ensures { IfOk result (λ o. o ≡ spec.output_of name.now bits from) }
{
    let name = Text::from_slice(alloc, name)?;
    Ok(OutPin { name, bits, from })
}

/// The outputs; the last two show the last queue.
pub fn outputs_of(alloc: Global, queue: Queue) -> Result<Vec<OutPin>, AllocError>
    requires early { IsEarly queue }
    ensures { IfOk result (λ v. v.items ≡ spec.output_pins queue) }
{
    let pins = vec![in alloc;
        output(alloc, b"in_room", 1, Atom::Wire(5))?,
        output(alloc, b"out_valid", 1, some_of(queue))?,
        output(alloc, b"out_data", queue.bits, first_of(queue))?,
    ]?;
    Ok(pins)
}
