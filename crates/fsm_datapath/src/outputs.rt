//! The outputs of a circuit.
ghost use Rattle.std.specs.Prelude.{◌≡◌, ◌++◌, IfOk, OnOk};
ghost use Rattle.rtl_core.specs.FramePins.{result_bits};
ghost use Rattle.fsm_datapath.specs.Outputs.{shown_by, result_shown};

use hls_base::text::Text;
use rtl_core::design::{Atom, OutPin};
use rtl_core::pins::Shown;
use std::alloc::{AllocError, Global};

fn output(alloc: Global, name: &[u8], bits: u8, from: Atom) -> Result<OutPin, AllocError>
    ensures { IfOk result (λ o. o ≡ record { name = name.now; bits = bits; from = from }) }
{
    let name = Text::from_slice(alloc, name)?;
    Ok(OutPin { name, bits, from })
}

fn push_result(alloc: Global, all: &mut Vec<OutPin>, bits: u8, from: Atom) -> Result<(), AllocError>
    ensures { OnOk result (all.new.items ≡ all.old.items ++ result_shown (result_bits bits) from) }
{
    if bits > 0 {
        all.push(output(alloc, b"ret", bits, from)?)?;
    }
    Ok(())
}

/// The outputs of the module of a function whose result has so many bits, 0 for none.
pub fn outputs_showing(alloc: Global, bits: u8, shown: Shown) -> Result<Vec<OutPin>, AllocError>
    ensures { IfOk result (λ v. v.items ≡ shown_by bits shown) }
{
    let mut all = vec![in alloc;
        output(alloc, b"ready", 1, shown.ready)?,
        output(alloc, b"done", 1, shown.done)?,
        output(alloc, b"h_rdata", 64, shown.element)?,
    ]?;
    push_result(alloc, &mut all, bits, shown.result)?;
    Ok(all)
}
