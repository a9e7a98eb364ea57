//! Which variables are read, and the cases of which no two can hold.
ghost use Rattle.std.specs.Prelude.{◌≡◌, ◌<◌, ◌^◌, ℕ, IfOk, length, slice_get, Some};
ghost use Rattle.reg_binding.specs.Liveness.{IsSized};
ghost use Rattle.reg_binding.specs.Sets.{has};
ghost use Rattle.clock_ir.specs.Flows.{timed_body};
ghost use Rattle.datapath.specs.LeftOut.{is_read, all_differ};

use crate::savings::cases::{are_others, comparison};
use crate::savings::reads::{note_kept, note_nodes};
use hls_base::number::{NodeId, VarId};
use ir_core::body::{Body, Operand};
use ir_core::cfg::Cfg;
use ir_core::timed::Timed;
use reg_binding::live::Live;
use reg_binding::var_set::VarSet;
use std::alloc::{AllocError, Global};

/// Which of so many variables the set has.
fn members(alloc: Global, set: &VarSet, count: usize) -> Result<Vec<bool>, AllocError>
    requires { count < 2 ^ 32 }
    ensures { IfOk result (λ read. (v : ℕ) → v < count → slice_get read.items v ≡ Some (has set.now v)) }
{
    let mut read = Vec::new(alloc);
    for number in 0..count as u32 {
        read.push(set.contains(VarId(number)))?;
    }
    Ok(read)
}

/// Which variables some node reads, or stay for the next run.
pub fn variables_read(alloc: Global, cfg: &Cfg<Timed>, live: &Live) -> Result<Vec<bool>, AllocError>
    requires { length cfg.now.frame.variables.items < 2 ^ 32 }
    ensures { IsSized live.now → length cfg.now.frame.variables.items ≡ live.now.variables
        → IfOk result (λ read. (v : ℕ) → v < length cfg.now.frame.variables.items → slice_get read.items v ≡ Some (is_read cfg.now live.now v)) }
{
    let count = cfg.frame.variables.len();
    let mut set = VarSet::new(alloc, count)?;
    note_nodes(alloc, live, &mut set, &cfg.nodes)?;
    note_kept(&mut set, &cfg.frame.kept);
    members(alloc, &set, count)
}

/// Whether at most one of the cases holds: they compare one value with different constants.
pub fn are_exclusive(
    alloc: Global,
    body: &Body<Timed>,
    cases: &[(Operand, NodeId)],
) -> Result<bool, AllocError>
    ensures { (interval : ℕ) → IfOk result (λ r. r ≡ all_differ (timed_body interval body.now) cases.now) }
{
    let Some((first, rest)) = cases.split_first() else {
        return Ok(true);
    };
    let Some((operand, number)) = comparison(body, first.0) else {
        return Ok(false);
    };
    are_others(alloc, body, operand, number, rest)
}
