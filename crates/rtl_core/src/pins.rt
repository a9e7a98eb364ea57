ghost use Rattle.std.specs.Prelude.{◌≡◌, IfOk, OnOk, codes, decimal, ◌++◌, map, slice_index};
ghost use Rattle.rtl_core.specs.Interface.{pin, argument_pins, input_pins, output_pins, result_pin, outer};
ghost use Rattle.rtl_core.specs.FramePins.{interface_of, module_name, scalar_bits, result_bits};

use crate::design::{Atom, OutPin, Pin};
use hls_base::number::VarId;
use hls_base::text::Text;
use ir_core::cfg::Frame;
use itoa::Buffer;
use std::alloc::{AllocError, Global};

/// `hls_` and the function's name.
pub fn name_of_module(alloc: Global, name: &[u8]) -> Result<Text, AllocError>
    ensures { IfOk result (λ t. t ≡ module_name name.now) }
{
    let mut bytes = Vec::from_slice(alloc, b"hls_")?;
    bytes.extend_from_slice(name)?;
    Ok(Text::new(bytes))
}

fn input(alloc: Global, name: &[u8], bits: u8) -> Result<Pin, AllocError>
    ensures { IfOk result (λ p. p ≡ pin name.now bits) }
{
    let name = Text::from_slice(alloc, name)?;
    Ok(Pin { name, bits })
}

fn argument(alloc: Global, number: u64, bits: u8) -> Result<Pin, AllocError>
    ensures { IfOk result (λ p. p ≡ pin (codes "arg_" ++ decimal number) bits) }
{
    let mut bytes = Vec::from_slice(alloc, b"arg_")?;
    bytes.extend_from_slice(Buffer::new().format(number).as_bytes())?;
    let name = Text::new(bytes);
    Ok(Pin { name, bits })
}

fn bits_of(variables: &[u8], variable: VarId) -> u8
    ensures { result ≡ slice_index variables.now variable.0 }
{
    let k = variable.0 as usize;
    if k < variables.len() { variables[k] } else { 0 }
}

fn push_arguments(
    alloc: Global,
    all: &mut Vec<Pin>,
    variables: &[u8],
    params: &[VarId],
) -> Result<(), AllocError>
    ensures { OnOk result (all.new.items ≡ all.old.items ++ argument_pins 0 (scalar_bits variables.now params.now)) }
{
    for k in 0..params.len() {
        let bits = bits_of(variables, params[k]);
        all.push(argument(alloc, k as u64, bits)?)?;
    }
    Ok(())
}

/// The inputs of the module: the controls, the host's, and one for each scalar parameter.
pub fn inputs_of(alloc: Global, frame: &Frame) -> Result<Vec<Pin>, AllocError>
    ensures { IfOk result (λ v. v.items ≡ input_pins (interface_of frame.now)) }
{
    let mut all = vec![in alloc;
        input(alloc, b"reset", 1)?,
        input(alloc, b"start", 1)?,
        input(alloc, b"h_en", 1)?,
        input(alloc, b"h_we", 1)?,
        input(alloc, b"h_sel", 5)?,
        input(alloc, b"h_addr", 16)?,
        input(alloc, b"h_wdata", 64)?,
    ]?;
    push_arguments(alloc, &mut all, &frame.variables, &frame.params)?;
    Ok(all)
}

/// What the outputs show; the last one only where the function is not void.
#[derive(Clone, Copy, PartialEq, Eq)]
pub struct Shown {
    pub ready: Atom,
    pub done: Atom,
    pub element: Atom,
    pub result: Atom,
}

fn output(alloc: Global, name: &[u8], bits: u8, from: Atom) -> Result<OutPin, AllocError>
    ensures { IfOk result (λ o. o ≡ record { name = name.now; bits = bits; from = from }) }
{
    let name = Text::from_slice(alloc, name)?;
    Ok(OutPin { name, bits, from })
}

fn push_result(alloc: Global, all: &mut Vec<OutPin>, bits: u8, from: Atom) -> Result<(), AllocError>
    ensures { OnOk result (map outer all.new.items ≡ map outer all.old.items ++ result_pin (result_bits bits)) }
{
    if bits > 0 {
        all.push(output(alloc, b"ret", bits, from)?)?;
    }
    Ok(())
}

/// The outputs of the module.
pub fn outputs_of(alloc: Global, frame: &Frame, shown: Shown) -> Result<Vec<OutPin>, AllocError>
    ensures { IfOk result (λ v. map outer v.items ≡ output_pins (interface_of frame.now)) }
{
    let mut all = vec![in alloc;
        output(alloc, b"ready", 1, shown.ready)?,
        output(alloc, b"done", 1, shown.done)?,
        output(alloc, b"h_rdata", 64, shown.element)?,
    ]?;
    push_result(alloc, &mut all, frame.ret, shown.result)?;
    Ok(all)
}
