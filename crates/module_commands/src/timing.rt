//! `timing`: the longest path of a module.
ghost use Rattle.std.specs.Prelude.{◌≡◌, IfOk};
ghost use Rattle.hls_base.specs.Refusals.{IfRefused};
ghost use Rattle.verilog_read.specs.TextFaults.{IsFirstFault};
ghost use Rattle.module_commands.specs.Outcomes.{IsTiming, IsRead};

use crate::lines::path_line;
use crate::outcome::{Outcome, settled};
use hls_base::refusal::Fail;
use std::alloc::{AllocError, Global};
use timing_path::longest;
use verilog_read::read;

fn longest_path(alloc: Global, text: &[u8]) -> Result<Outcome, Fail>
    ensures done { IfOk result (IsTiming text.now) }
    ensures status { IfOk result (λ o. o.status ≡ 0) }
    ensures refused { IfRefused result (IsFirstFault text.now) }
    ensures complete { IfRefused result (λ r. IsRead text.now → ⊥) }
{
    let design = read(alloc, text)?;
    let path = longest(alloc, &design)?;
    Ok(Outcome {
        status: 0,
        line: path_line(alloc, &path)?,
        written: None,
    })
}

/// The longest path of the circuit of a module's text.
pub fn timing(alloc: Global, text: &[u8]) -> Result<Outcome, AllocError>
    ensures outcome { IfOk result (IsTiming text.now) }
    ensures complete { IsRead text.now → IfOk result (λ o. o.status ≡ 0) }
{
    settled(alloc, longest_path(alloc, text))
}
