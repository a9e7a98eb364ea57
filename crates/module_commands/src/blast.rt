//! `blast`: the and-inverter graph of a module, as a file.
ghost use Rattle.std.specs.Prelude.{◌≡◌, IfOk};
ghost use Rattle.hls_base.specs.Refusals.{IfRefused};
ghost use Rattle.module_commands.specs.Outcomes.{IsBlast, IsBlastRefusal, IsReadAndSmall};

use crate::lines::blasted_line;
use crate::outcome::{Outcome, settled};
use aig_blast::blast::blast as graph_of_circuit;
use aig_text::print::print;
use hls_base::refusal::Fail;
use std::alloc::{AllocError, Global};
use verilog_read::read;

fn graph_file(alloc: Global, text: &[u8]) -> Result<Outcome, Fail>
    ensures done { IfOk result (IsBlast text.now) }
    ensures status { IfOk result (λ o. o.status ≡ 0) }
    ensures refused { IfRefused result (IsBlastRefusal text.now) }
    ensures complete { IfRefused result (λ r. IsReadAndSmall text.now → ⊥) }
{
    let design = read(alloc, text)?;
    let graph = graph_of_circuit(alloc, &design)?;
    let written = print(alloc, &graph)?;
    Ok(Outcome {
        status: 0,
        line: blasted_line(alloc, &graph)?,
        written: Some(written),
    })
}

/// The and-inverter graph of the circuit of a module's text.
pub fn blast(alloc: Global, text: &[u8]) -> Result<Outcome, AllocError>
    ensures outcome { IfOk result (IsBlast text.now) }
    ensures complete { IsReadAndSmall text.now → IfOk result (λ o. o.status ≡ 0) }
{
    settled(alloc, graph_file(alloc, text))
}
