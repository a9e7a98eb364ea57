ghost use Rattle.std.specs.Prelude.{◌≡◌, IfOk};
ghost use Rattle.hls_base.specs.Refusals.{IfRefused};
ghost use Rattle.hls_base.specs.declared.refusal.Refusal.{Refusal};
ghost use Rattle.rtl_core.specs.Netlist.{netlist_of};
ghost use Rattle.rtl_core.specs.Valid.{IsValid};
ghost use Rattle.rtl_core.specs.ModuleText.{IsModuleText};
ghost use Rattle.verilog_print.specs.PrintableNames.{HasPrintableNames};
ghost use Rattle.cycle_report.specs.PlainReport.{plain_of};
ghost use Rattle.cycle_report.specs.ReportForm.{IsName, IsSettings, IsReport};
ghost use Rattle.hls_flow.specs.FirstFault.{IsFirstFault};
ghost use Rattle.hls_flow.specs.Synthesis.{AreInRange, IsSynthesis};

use crate::circuit_text::circuit_text;
use crate::report_text::report_text;
use crate::scheduled::scheduled;
use checked_source::read::read_checked;
use compile_steps::steps::expanded;
use hls_base::refusal::Fail;
use hls_base::settings::Settings;
use hls_base::text::Text;
use promises::compile::Compiled;
use std::alloc::{AllocError, Global};

/// The texts of a module and of its report.
#[derive(Drop)]
pub struct Made {
    pub module: Text,
    pub report: Text,
}

/// Compiles the top function of a source. Where its calls make it too large it is refused, at the function's name.
pub fn synth(alloc: Global, source: &[u8], settings: &Settings) -> Result<Made, Fail>
    requires { AreInRange settings.now }
    ensures made { IfOk result (λ m. IsSynthesis source.now settings.now m.module m.report) }
    ensures refused { IfRefused result (IsFirstFault source.now settings.now.top) }
    ensures once { IfRefused result (λ r. (q : Refusal) → IsFirstFault source.now settings.now.top q → q ≡ r) }
{
    let checked = read_checked(alloc, source, &settings.top)?;
    let expanded = expanded(alloc, &checked)?;
    let compiled = scheduled(alloc, &expanded, settings)?;
    let made = texts_of(alloc, &compiled)?;
    Ok(made)
}

/// The texts of what a program is compiled to.
fn texts_of(alloc: Global, compiled: &Compiled) -> Result<Made, AllocError>
    requires valid { IsValid (netlist_of compiled.now.design) }
    requires names { HasPrintableNames (netlist_of compiled.now.design) }
    requires settings { IsName compiled.now.report.settings.top → IsSettings compiled.now.report.settings }
    ensures circuit { IfOk result (λ m. IsModuleText m.module (netlist_of compiled.now.design)) }
    ensures report { IfOk result (λ m. IsReport m.report (plain_of compiled.now.report)) }
{
    let module = circuit_text(alloc, &compiled.design)?;
    let report = report_text(alloc, &compiled.report)?;
    Ok(Made { module, report })
}
