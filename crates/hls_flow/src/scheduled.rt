//! What an expanded program is compiled to.
ghost use Rattle.std.specs.Prelude.{IfOk};
ghost use Rattle.pieces.specs.Program.{expanded_of};
ghost use Rattle.rtl_core.specs.Netlist.{netlist_of};
ghost use Rattle.cycle_report.specs.PlainReport.{plain_of};
ghost use Rattle.compile_steps.specs.Reports.{KeepsSettings};
ghost use Rattle.promises.specs.Compilable.{BecomesCompilable};
ghost use Rattle.hls_flow.specs.Ending.{IsCompiledTo};
ghost use Rattle.hls_flow.specs.Made.{HasScheduledCircuit};

use hls_base::settings::Settings;
use pieces::expanded::Expanded;
use promises::compile::{Compiled, compile_expanded};
use std::alloc::{AllocError, Global};

/// The circuit and the report of an expanded program.
pub fn scheduled(
    alloc: Global,
    expanded: &Expanded,
    settings: &Settings,
) -> Result<Compiled, AllocError>
    requires { BecomesCompilable (expanded_of expanded.now) }
    ensures made { IfOk result (λ c. HasScheduledCircuit settings.now (expanded_of expanded.now) (plain_of c.report) (netlist_of c.design)) }
    ensures kept { IfOk result (λ c. KeepsSettings (plain_of c.report) settings.now) }
    ensures compiled { IfOk result (λ c. IsCompiledTo (expanded_of expanded.now) settings.now c.untimed c.timed) }
{
    let compiled = compile_expanded(alloc, expanded, settings)?;
    Ok(compiled)
}
