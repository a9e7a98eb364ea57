//! `link`: checks the stages, and puts the linked circuit together.
ghost use Rattle.std.specs.Prelude.{◌≡◌, ◌≤◌, ◌<◌, ℕ, IfOk, OnOk, None, map, length, []};
ghost use Rattle.std.specs.List.{All};
ghost use Rattle.hls_base.specs.Refusals.{IfRefused};
ghost use Rattle.rtl_core.specs.Netlist.{netlist_of};
ghost use Rattle.rtl_core.specs.Valid.{IsBetween, IsValid};
ghost use Rattle.chain_link.specs.Queues.{HasLog};
ghost use Rattle.chain_link.specs.Linking as spec;
ghost use Rattle.chain_link.specs.Faults.{AreFew, AreStages, IsLinkFault};
ghost use Rattle.chain_link.specs.Laws.{IsLinked};

use crate::faults::fault;
use crate::linking::contents;
use crate::numbers::{argument_bits, entry};
use crate::pins::{inputs_of, outputs_of};
use hls_base::refusal::Fail;
use hls_base::text::Text;
use rtl_core::design::Design;
use std::alloc::{AllocError, Global};

/// The base-2 logarithm of the words in a queue's memory.
fn depth_log(depth: u16) -> u8
    requires { depth ≤ 1024 }
    ensures has { HasLog depth result }
    ensures few { result < 64 }
{
    match depth {
        0..=2 => 1,
        3..=4 => 2,
        5..=8 => 3,
        9..=16 => 4,
        17..=32 => 5,
        33..=64 => 6,
        65..=128 => 7,
        129..=256 => 8,
        257..=512 => 9,
        _ => 10,
    }
}

fn linked(alloc: Global, stages: &[Design], depth: u16) -> Result<Design, AllocError>
    requires some { 0 < length stages.now }
    requires none { All (λ (d : Design). d.mems.items ≡ []) stages.now }
    requires few { length stages.now ≤ 16 }
    requires valid { All (λ (d : Design). IsValid (netlist_of d)) stages.now }
    requires depth { depth ≤ 1024 }
    ensures { IfOk result (λ d. (log : ℕ) × HasLog depth log × (netlist_of d ≡ spec.linked depth log (map netlist_of stages.now))) }
{
    let bits = argument_bits(&stages[0]);
    let first = entry(depth, depth_log(depth), bits);
    let (content, queue) = contents(alloc, stages, first)?;
    Ok(Design {
        name: Text::from_slice(alloc, b"hls_chain")?,
        inputs: inputs_of(alloc, bits)?,
        outputs: outputs_of(alloc, queue)?,
        regs: content.regs,
        mems: content.mems,
        wires: content.wires,
    })
}

/// Links modules of functions with one scalar parameter and a result by queues of at most `depth` items. Rejected are, at 1:1, no stage or more than 16 stages (rule 82), and at K:1 the first stage K with other pins (rule 83), with a memory (rule 81), or whose parameter has another width than the result before it (rule 80).
pub fn link(alloc: Global, stages: &[Design], depth: u16) -> Result<Design, Fail>
    requires valid { All (λ (d : Design). IsValid (netlist_of d)) stages.now }
    requires depth { IsBetween 1 1024 depth }
    ensures linked { IfOk result (λ d. IsLinked (map netlist_of stages.now) depth (netlist_of d)) }
    ensures few { OnOk result (AreFew (map netlist_of stages.now)) }
    ensures accepted { OnOk result (AreStages None (map netlist_of stages.now)) }
    ensures refused { IfRefused result (λ r. IsLinkFault (map netlist_of stages.now) r) }
{
    if let Some(refusal) = fault(stages) {
        return Err(Fail::Refused(refusal));
    }
    let design = linked(alloc, stages, depth)?;
    Ok(design)
}
