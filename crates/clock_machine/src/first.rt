//! What the variables of a program hold as a run begins.
ghost use Rattle.std.specs.Prelude.{◌≡◌, ℕ, length, get_or, slice_set, IfOk};
ghost use Rattle.ir_core.specs.FirstContents as first;
ghost use Rattle.clock_machine.specs.Lines.Registers.{held};
ghost use Rattle.clock_machine.specs.Starts.{KeptThere, ParametersThere};

use crate::lines::words::set_word;
use hls_base::inputs::Inputs;
use hls_base::number::{Kept, VarId};
use ir_core::cfg::Frame;
use std::alloc::{AllocError, Global};

fn set_kept(variables: &mut [u64], kept: &[Kept])
    ensures { KeptThere kept.now (length variables.old) →
        held variables.new ≡ first.with_kept kept.now (held variables.old) }
{
    for one in kept {
        set_word(variables, one.variable.0 as usize, one.value);
    }
}

fn set_arguments(variables: &mut [u64], params: &[VarId], scalars: &[u64])
    ensures { ParametersThere params.now (length variables.old) →
        held variables.new ≡ first.with_arguments params.now scalars.now (held variables.old) }
{
    for (index, param) in params.iter().enumerate() {
        if index < scalars.len() {
            set_word(variables, param.0 as usize, scalars[index]);
        }
    }
}

fn set_first(variables: &mut [u64], frame: &Frame, scalars: &[u64])
    ensures { KeptThere frame.now.kept.items (length variables.old) →
        ParametersThere frame.now.params.items (length variables.old) →
        held variables.new ≡ first.with_arguments frame.now.params.items scalars.now
        (first.with_kept frame.now.kept.items (held variables.old)) }
{
    set_kept(variables, &frame.kept);
    set_arguments(variables, &frame.params, scalars);
}

/// The parameters have the arguments, the scalars that stay have their first values, and the others are 0.
pub fn first_variables(
    alloc: Global,
    frame: &Frame,
    inputs: &Inputs,
) -> Result<Vec<u64>, AllocError>
    ensures length { IfOk result (λ v. length v.items ≡ length frame.now.variables.items) }
    ensures held { IfOk result (λ v.
        KeptThere frame.now.kept.items (length frame.now.variables.items) →
        ParametersThere frame.now.params.items (length frame.now.variables.items) →
        held v.items ≡ first.first_variables frame.now inputs.now.scalars) }
{
    let mut variables = vec![in alloc; 0u64; frame.variables.len()]?;
    set_first(&mut variables, frame, inputs.scalars.items());
    Ok(variables)
}
