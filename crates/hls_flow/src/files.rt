//! The files of a comparison are read.
ghost use Rattle.std.specs.Prelude.{◌≡◌, ◌≤◌, length, IfOk, IsTrue};
ghost use Rattle.c_tree.specs.View.{function_of};
ghost use Rattle.c_meaning.specs.FittingInputs.{inputs_fit};
ghost use Rattle.rtl_core.specs.Netlist.{netlist_of};
ghost use Rattle.rtl_core.specs.ModuleText.{IsModuleText};
ghost use Rattle.verilog_syntax.specs.TextSyntax.{limit};
ghost use Rattle.verilog_read.specs.NamePlace.{IsNamePlace};
ghost use Rattle.cycle_report.specs.PlainReport.{plain_of};
ghost use Rattle.cosim_levels.specs.Pins.FunctionPins.{interface_of, plain};
ghost use Rattle.cosim_levels.specs.RunFile.{reading_of, inputs};
ghost use Rattle.cosim_levels.specs.Verdicts.{IfStopped};
ghost use Rattle.hls_flow.specs.Verdicts.{HasReport, HasModule, IsBadReport, IsBadModule, IsBadLine, AreFiles, IsStoppedAtFiles};
ghost use Rattle.hls_flow.specs.Comparing.{files_of};

use crate::verdict::CosimInputs;
use c_tree::function::Function;
use cosim_levels::fault::RunFault;
use cosim_levels::pins::interface::{Interface, has_pins, interface_of};
use cosim_levels::verdict::{Stop, Verdict};
use cycle_report::report::Report;
use hls_base::inputs::Inputs;
use hls_base::place::Place;
use hls_base::refusal::{Fail, Refusal};
use rtl_core::design::Design;
use std::alloc::{AllocError, Global};
use verilog_read::name_place;

/// The place of the name in a report, which stands in its second line behind `top`.
const REPORT_NAME: Place = Place {
    line: 2,
    column: 5,
    part: 0,
};

/// What was read of the files of a comparison.
#[derive(Drop)]
pub struct Read {
    pub interface: Interface,
    pub report: Report,
    pub design: Design,
    pub inputs: Inputs,
}

/// The report, which is one of the top function.
fn report_of(alloc: Global, given: &CosimInputs) -> Result<Report, Stop>
    ensures found { IfOk result (λ r. HasReport given.now (plain_of r)) }
    ensures refused { IfStopped result (IsBadReport given.now) }
{
    let report = match cycle_report::read::read(alloc, given.report.items()) {
        Ok(report) => report,
        Err(Fail::Refused(refusal)) => return Err(Stop::Answer(Verdict::ReportBad(refusal))),
        Err(Fail::Memory) => return Err(Stop::Memory),
    };
    if report.settings.top.is_same(given.top.items()) {
        Ok(report)
    } else {
        Err(Stop::Answer(Verdict::ReportBad(Refusal {
            rule: 61,
            place: REPORT_NAME,
        })))
    }
}

/// Where the name of a module stands whose text is that of a circuit.
fn name_in(alloc: Global, text: &[u8], design: &Design) -> Result<Place, AllocError>
    requires text { IsModuleText text.now (netlist_of design.now) }
    requires small { length text.now ≤ limit }
    ensures { IfOk result (λ p. IsNamePlace text.now p) }
{
    match name_place(alloc, text) {
        Ok(place) => Ok(place),
        Err(Fail::Refused(_)) => unreachable!(),
        Err(Fail::Memory) => Err(AllocError),
    }
}

/// The circuit, which has the pins of the top function.
fn design_of(alloc: Global, given: &CosimInputs, interface: &Interface) -> Result<Design, Stop>
    ensures found { IfOk result (λ d. HasModule given.now (plain interface.now) (netlist_of d)) }
    ensures refused { IfStopped result (IsBadModule given.now (plain interface.now)) }
{
    let text = given.module.items();
    let design = match verilog_read::read(alloc, text) {
        Ok(design) => design,
        Err(Fail::Refused(refusal)) => return Err(Stop::Answer(Verdict::ModuleBad(refusal))),
        Err(Fail::Memory) => return Err(Stop::Memory),
    };
    if has_pins(alloc, &design, interface)? {
        Ok(design)
    } else {
        let place = name_in(alloc, text, &design)?;
        Err(Stop::Answer(Verdict::ModuleBad(Refusal { rule: 57, place })))
    }
}

/// What the run file gives.
fn inputs_of(alloc: Global, given: &CosimInputs, function: &Function) -> Result<Inputs, Stop>
    ensures found { IfOk result (λ i. reading_of (function_of function.now).params given.now.run ≡ inputs i.scalars i.arrays) }
    ensures fit { IfOk result (λ i. IsTrue (inputs_fit (function_of function.now).params i.scalars i.arrays)) }
    ensures refused { IfStopped result (IsBadLine given.now (function_of function.now)) }
{
    match cosim_levels::read::read(alloc, &function.params, given.run.items()) {
        Ok(inputs) => Ok(inputs),
        Err(RunFault::Line(line)) => Err(Stop::Answer(Verdict::RunLine(line))),
        Err(RunFault::Memory) => Err(Stop::Memory),
    }
}

/// Reads the report, then the module, then the run file.
pub fn read_files(alloc: Global, given: &CosimInputs, function: &Function) -> Result<Read, Stop>
    ensures interface { IfOk result (λ r. plain r.interface ≡ interface_of (function_of function.now)) }
    ensures files { IfOk result (λ r. AreFiles given.now (function_of function.now) (files_of r)) }
    ensures fit { IfOk result (λ r. IsTrue (inputs_fit (function_of function.now).params r.inputs.scalars r.inputs.arrays)) }
    ensures scalars { IfOk result (λ r. length r.inputs.scalars ≡ length r.interface.scalars.items) }
    ensures refused { IfStopped result (IsStoppedAtFiles given.now (function_of function.now)) }
{
    let interface = interface_of(alloc, function)?;
    let report = report_of(alloc, given)?;
    let design = design_of(alloc, given, &interface)?;
    let inputs = inputs_of(alloc, given, function)?;
    Ok(Read {
        interface,
        report,
        design,
        inputs,
    })
}
