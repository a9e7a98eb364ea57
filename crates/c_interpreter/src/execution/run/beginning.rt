//! The beginning of a first run.
ghost use Rattle.std.specs.Prelude.{◌≡◌, [], IfOk};
ghost use Rattle.c_tree.specs.View.{program_of};
ghost use Rattle.c_meaning.specs.Run.{first_contents};

use crate::execution::run::{Run, begin, copied};
use c_machine::state::file_scope::first_contents;
use c_meaning::checks::Checked;
use c_meaning::file_scope::declarations;
use hls_base::inputs::Inputs;
use std::alloc::{AllocError, Global};

#[tactic(auto, using(crate::proofs::ExecutionLemmas::Runs::runs))]
/// Begins a run from the contents that the file-scope initialisers give.
pub fn start<'p>(
    alloc: Global,
    checked: &'p Checked,
    inputs: &Inputs,
) -> Result<Run<'p>, AllocError>
    ensures begun { IfOk result (λ r. r.begun ≡ record { program = checked.now.program; top = checked.now.top; kept = first_contents (program_of checked.now.program); scalars = inputs.now.scalars; arrays = inputs.now.arrays }) }
    ensures passed { IfOk result (λ r. r.passed ≡ 0) }
    ensures counts { IfOk result (λ r. r.counts ≡ []) }
{
    let declared = declarations(alloc, checked.program.items.as_slice())?;
    let kept = first_contents(alloc, declared.as_slice())?;
    let inputs = copied(alloc, inputs)?;
    let machine = begin(alloc, checked, declared.as_slice(), &kept, &inputs)?;
    Ok(Run {
        checked,
        declared,
        kept,
        inputs,
        machine,
    })
}
