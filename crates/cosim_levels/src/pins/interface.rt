//! The pins of a function's module.
ghost use Rattle.std.specs.Prelude.{◌≡◌, ◌↔◌, ◌++◌, ◌∷◌, [], IfOk, OnOk, IsTrue, codes, decimal, map};
ghost use Rattle.c_tree.specs.View.{param_of, function_of};
ghost use Rattle.rtl_core.specs.declared.design.Pin.{Pin};
ghost use Rattle.rtl_core.specs.Netlist.{netlist_of};
ghost use Rattle.rtl_core.specs.Interface.{pin, argument_pins, input_pins, output_pins, outer, HasPins};
ghost use Rattle.cosim_levels.specs.Pins.FunctionPins.{scalar_bits, array_shapes, interface_of, plain, shape_of};

use c_meaning::lengths::lengths;
use c_tree::function::{Function, Param};
use c_value::kind::width;
use hls_base::text::Text;
use itoa::Buffer;
use rtl_core::design::{Design, OutPin, Pin};
use std::alloc::{AllocError, Global};

/// What the host reaches of an array parameter: the bits of an element, and the lengths of the dimensions.
#[derive(Drop)]
pub struct HostArray {
    pub bits: u8,
    pub lengths: Vec<usize>,
}

/// The bits of the scalar parameters, the array parameters, and the bits of the result, if there is one.
#[derive(Drop)]
pub struct Interface {
    pub scalars: Vec<u8>,
    pub arrays: Vec<HostArray>,
    pub result: Option<u8>,
}

/// Adds the pins and arrays of these parameters.
fn add_params(
    alloc: Global,
    scalars: &mut Vec<u8>,
    arrays: &mut Vec<HostArray>,
    params: &[Param],
) -> Result<(), AllocError>
    ensures scalars { OnOk result (scalars.new.items ≡ scalars.old.items ++ scalar_bits (map param_of params.now)) }
    ensures arrays { OnOk result (map shape_of arrays.new.items ≡ map shape_of arrays.old.items ++ array_shapes (map param_of params.now)) }
{
    for param in params {
        let bits = width(param.object.kind);
        if param.object.lengths.is_empty() {
            scalars.push(bits)?;
        } else {
            let lengths = lengths(alloc, &param.object)?;
            arrays.push(HostArray { bits, lengths })?;
        }
    }
    Ok(())
}

/// The interface of a function.
pub fn interface_of(alloc: Global, function: &Function) -> Result<Interface, AllocError>
    ensures { IfOk result (λ i. plain i ≡ interface_of (function_of function.now)) }
{
    let result = match function.result {
        Some(kind) => Some(width(kind)),
        None => None,
    };
    let mut scalars = Vec::new(alloc);
    let mut arrays = Vec::new(alloc);
    add_params(alloc, &mut scalars, &mut arrays, &function.params)?;
    Ok(Interface {
        scalars,
        arrays,
        result,
    })
}

fn named(alloc: Global, name: &[u8], bits: u8) -> Result<Pin, AllocError>
    ensures { IfOk result (λ p. p ≡ pin name.now bits) }
{
    let name = Text::from_slice(alloc, name)?;
    Ok(Pin { name, bits })
}

fn argument(alloc: Global, number: u64, bits: u8) -> Result<Pin, AllocError>
    ensures { IfOk result (λ p. p ≡ pin (codes "arg_" ++ decimal number) bits) }
{
    let mut bytes = Vec::from_slice(alloc, b"arg_")?;
    bytes.extend_from_slice(Buffer::new().format(number).as_bytes())?;
    let name = Text::new(bytes);
    Ok(Pin { name, bits })
}

fn push_arguments(alloc: Global, all: &mut Vec<Pin>, scalars: &[u8]) -> Result<(), AllocError>
    ensures { OnOk result (all.new.items ≡ all.old.items ++ argument_pins 0 scalars.now) }
{
    for k in 0..scalars.len() {
        all.push(argument(alloc, k as u64, scalars[k])?)?;
    }
    Ok(())
}

fn inputs_of(alloc: Global, interface: &Interface) -> Result<Vec<Pin>, AllocError>
    ensures { IfOk result (λ v. v.items ≡ input_pins (plain interface.now)) }
{
    let mut all = vec![in alloc;
        named(alloc, b"reset", 1)?,
        named(alloc, b"start", 1)?,
        named(alloc, b"h_en", 1)?,
        named(alloc, b"h_we", 1)?,
        named(alloc, b"h_sel", 5)?,
        named(alloc, b"h_addr", 16)?,
        named(alloc, b"h_wdata", 64)?,
    ]?;
    push_arguments(alloc, &mut all, &interface.scalars)?;
    Ok(all)
}

fn outputs_of(alloc: Global, interface: &Interface) -> Result<Vec<Pin>, AllocError>
    ensures { IfOk result (λ v. v.items ≡ output_pins (plain interface.now)) }
{
    let mut all = vec![in alloc;
        named(alloc, b"ready", 1)?,
        named(alloc, b"done", 1)?,
        named(alloc, b"h_rdata", 64)?,
    ]?;
    if let Some(bits) = interface.result {
        all.push(named(alloc, b"ret", bits)?)?;
    }
    Ok(all)
}

fn is_pin(name: &Text, bits: u8, wanted: &Pin) -> bool
    ensures { IsTrue result ↔ (pin name.now bits ≡ wanted.now) }
{
    bits == wanted.bits && name.is_same(wanted.name.items())
}

fn have_inputs(inputs: &[Pin], wanted: &[Pin]) -> bool
    ensures { IsTrue result ↔ (inputs.now ≡ wanted.now) }
{
    if inputs.len() != wanted.len() {
        return false;
    }
    for k in 0..wanted.len() {
        let found = &inputs[k];
        if !is_pin(&found.name, found.bits, &wanted[k]) {
            return false;
        }
    }
    true
}

fn have_outputs(outputs: &[OutPin], wanted: &[Pin]) -> bool
    ensures { IsTrue result ↔ (map outer outputs.now ≡ wanted.now) }
{
    if outputs.len() != wanted.len() {
        return false;
    }
    for k in 0..wanted.len() {
        let found = &outputs[k];
        if !is_pin(&found.name, found.bits, &wanted[k]) {
            return false;
        }
    }
    true
}

/// Whether a circuit has exactly the pins of this interface.
pub fn has_pins(alloc: Global, design: &Design, interface: &Interface) -> Result<bool, AllocError>
    ensures { IfOk result (λ has. IsTrue has ↔ HasPins (netlist_of design.now) (plain interface.now)) }
{
    let inputs = inputs_of(alloc, interface)?;
    let outputs = outputs_of(alloc, interface)?;
    Ok(have_inputs(&design.inputs, &inputs) && have_outputs(&design.outputs, &outputs))
}
