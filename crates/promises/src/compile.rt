ghost use Rattle.std.specs.Prelude.{◌≡◌, ◌≤◌, ◌↔◌, IsTrue, IfOk};
ghost use Rattle.std.specs.List.{All};
ghost use Rattle.pieces.specs.Program.{expanded_of};
ghost use Rattle.ir_lower.specs.Frames.{frame_view};
ghost use Rattle.rtl_core.specs.Netlist.{netlist_of};
ghost use Rattle.cycle_report.specs.PlainReport.{plain_of};
ghost use Rattle.report_rows.specs.Resources.{IsReportable};
ghost use Rattle.circuit_context.specs.Programs.{IsBuildable};
ghost use Rattle.compile_steps.specs.Flat.{passes_of, IsFlatOf};
ghost use Rattle.compile_steps.specs.Resets.{expanded_frame, reset_cycles};
ghost use Rattle.compile_steps.specs.Reports.{allowed_units, IsTimed, EachNodeCounts, IsReportOf, KeepsSettings};
ghost use Rattle.promises.specs.Circuits.{HasCircuit};
ghost use Rattle.promises.specs.Compilable.{BecomesCompilable};

use crate::settings::copy_settings;
use compile_steps::steps::{Schedule, flat_program, timed_program};
use cycle_report::report::{LoopRow, MemoryRow, Report};
use fsm_datapath::build::build;
use hls_base::refusal::impossible;
use hls_base::settings::{Settings, Units};
use ir_core::cfg::Cfg;
use ir_core::numbers::numbers_are_small;
use ir_core::stamp::Untimed;
use ir_core::timed::Timed;
use pieces::expanded::Expanded;
use reg_binding::assign::assign;
use reg_binding::live::live_variables;
use report_rows::costs::formula_of;
use report_rows::initial::initial_cycles;
use report_rows::resources::{Resources, is_reportable, resources_of};
use rtl_core::design::Design;
use std::alloc::{AllocError, Global};

/// A compiled program: its flat form, without times and with them, its circuit, and its report.
#[derive(Drop)]
pub struct Compiled {
    pub untimed: Cfg<Untimed>,
    pub timed: Cfg<Timed>,
    pub design: Design,
    pub report: Report,
}

/// The units that the settings allow.
fn units_of(settings: &Settings) -> Units
    ensures { result ≡ allowed_units settings.now }
{
    Units {
        mul: settings.mul,
        div: settings.div,
        ports: settings.ports,
    }
}

/// The circuit of a program with times.
fn circuit_of(alloc: Global, timed: &Cfg<Timed>) -> Result<Design, AllocError>
    requires { IsBuildable timed.now }
    ensures { IfOk result (λ d. HasCircuit timed.now (netlist_of d)) }
{
    numbers_are_small(timed);
    let live = live_variables(alloc, timed)?;
    let registers = assign(alloc, timed, &live)?;
    let design = build(alloc, timed, &registers, live)?;
    Ok(design)
}

/// What is said of a program with these times, these overlapped loops, and this circuit.
fn report_of(
    alloc: Global,
    timed: &Cfg<Timed>,
    loops: Vec<LoopRow>,
    design: &Design,
    settings: &Settings,
) -> Result<Report, AllocError>
    requires { IsReportable timed.now design.now }
    ensures report { IfOk result (λ r. IsReportOf (plain_of r) settings.now timed.now (netlist_of design.now)) }
    ensures loops { IfOk result (λ r. r.loops ≡ loops) }
{
    let Resources { units, memories } = resources_of(alloc, &timed.frame, design)?;
    Ok(Report {
        settings: copy_settings(alloc, settings)?,
        formula: formula_of(alloc, &timed.nodes)?,
        init: initial_cycles(&timed.frame),
        loops,
        mul32: units.mul32,
        mul64: units.mul64,
        div32: units.div32,
        div64: units.div64,
        memories,
        registers: design.regs.len() as u64,
    })
}

/// Whether all memories have at most so many ports.
fn have_ports(memories: &[MemoryRow], ports: u8) -> bool
    ensures { IsTrue result ↔ All (λ m. m.ports ≤ ports) memories.now }
{
    memories.iter().all(|memory| memory.ports <= ports)
}

/// Whether there are as few units as the settings allow, and where they are plain no overlapped loop. Operations are bound to no more units than that, and plain programs have no loop nodes.
fn keeps_settings(report: &Report, settings: &Settings) -> bool
    ensures { IsTrue result → KeepsSettings (plain_of report.now) settings.now }
{
    let mul = u32::from(settings.mul).max(1);
    let div = u32::from(settings.div).max(1);
    report.mul32 <= mul
        && report.mul64 <= mul
        && report.div32 <= div
        && report.div64 <= div
        && have_ports(&report.memories, settings.ports.max(1))
        && (!settings.plain || report.loops.is_empty())
}

/// Compiles an expanded program, whose flat programs are valid and can be given small times.
pub fn compile_expanded(
    alloc: Global,
    expanded: &Expanded,
    settings: &Settings,
) -> Result<Compiled, AllocError>
    requires { BecomesCompilable (expanded_of expanded.now) }
    ensures report { IfOk result (λ c. IsReportOf (plain_of c.report) settings.now c.timed (netlist_of c.design)) }
    ensures circuit { IfOk result (λ c. HasCircuit c.timed (netlist_of c.design)) }
    ensures timed { IfOk result (λ c. IsTimed (allowed_units settings.now) c.untimed c.timed (plain_of c.report).loops) }
    ensures kept { IfOk result (λ c. KeepsSettings (plain_of c.report) settings.now) }
    ensures longer { IfOk result (λ c. EachNodeCounts c.timed.nodes.items (plain_of c.report)) }
    ensures flat { IfOk result (λ c. IsFlatOf (expanded_of expanded.now) (passes_of settings.now) c.untimed) }
    ensures frame { IfOk result (λ c. frame_view c.timed.frame ≡ expanded_frame (expanded_of expanded.now)) }
    ensures init { IfOk result (λ c. (plain_of c.report).init ≡ reset_cycles (expanded_frame (expanded_of expanded.now))) }
{
    let units = units_of(settings);
    let untimed = flat_program(alloc, expanded, settings)?;
    let Schedule { timed, loops } = timed_program(alloc, &untimed, units)?;
    let design = circuit_of(alloc, &timed)?;
    if !is_reportable(&timed, &design) {
        return Err(impossible());
    }
    let report = report_of(alloc, &timed, loops, &design, settings)?;
    if !keeps_settings(&report, settings) {
        return Err(impossible());
    }
    Ok(Compiled {
        untimed,
        timed,
        design,
        report,
    })
}
