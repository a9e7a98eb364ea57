//! The steps from a program without faults to its flat form with times.
ghost use Rattle.std.specs.Prelude.{◌≡◌, ◌≤◌, IfOk, map};
ghost use Rattle.std.specs.List.{All};
ghost use Rattle.hls_base.specs.Refusals.{IfRefused};
ghost use Rattle.c_tree.specs.View.{program_of};
ghost use Rattle.c_elaborate.specs.Programs.{program_elaborated};
ghost use Rattle.pieces.specs.Program.{expanded_of};
ghost use Rattle.c_expand.specs.Expansion.{expansion, expanded_weight, IsOverweight};
ghost use Rattle.ir_lower.specs.Frames.{frame_view, frame_of};
ghost use Rattle.cycle_report.specs.PlainReport.{loop_of};
ghost use Rattle.report_rows.specs.ForwardNodes.{HasForwardBody};
ghost use Rattle.compile_steps.specs.Flat.{passes_of, IsFlatOf};
ghost use Rattle.compile_steps.specs.Runs.{IsWithoutFaults, RunsAsProgram};
ghost use Rattle.compile_steps.specs.Reports.{IsTimed};

use crate::frame::copy_frame;
use c_elaborate::elaborate::elaborate;
use c_expand::expand::expand;
use c_meaning::checks::Checked;
use cycle_report::report::LoopRow;
use hls_base::refusal::Fail;
use hls_base::settings::{Settings, Units};
use if_convert::convert::convert;
use ir_core::cfg::Cfg;
use ir_core::stamp::Untimed;
use ir_core::timed::Timed;
use ir_layout::layout::lay_out;
use ir_lower::lower::lower;
use op_chain::fuse::fuse;
use pieces::expanded::Expanded;
use report_rows::nodes::{TimedNodes, timed_nodes};
use std::alloc::{AllocError, Global};
use value_number::number::number;

/// The program with its calls expanded, which runs as the program does. It is refused where it is too large then.
pub fn expanded(alloc: Global, checked: &Checked) -> Result<Expanded, Fail>
    ensures made { IfOk result (λ e. expanded_of e ≡ expansion (program_elaborated (program_of checked.now.program) checked.now.top)) }
    ensures within { IfOk result (λ e. expanded_weight (program_elaborated (program_of checked.now.program) checked.now.top) ≤ 8192) }
    ensures refused { IfRefused result (λ r. IsOverweight (program_elaborated (program_of checked.now.program) checked.now.top) r) }
    ensures runs { IsWithoutFaults (program_of checked.now.program) checked.now.top → IfOk result (λ e. RunsAsProgram (program_of checked.now.program) checked.now.top (expanded_of e)) }
{
    let program = elaborate(alloc, checked)?;
    expand(alloc, &program)
}

/// The flat blocks of an expanded program. Loops whose iterations may overlap are nodes of their own, unless the settings are plain. Operators are fused as far as the period of the settings allows.
pub fn flat_program(
    alloc: Global,
    expanded: &Expanded,
    settings: &Settings,
) -> Result<Cfg<Untimed>, AllocError>
    ensures frame { IfOk result (λ cfg. frame_view cfg.frame ≡ frame_of expanded.now) }
    ensures flat { IfOk result (λ cfg. IsFlatOf (expanded_of expanded.now) (passes_of settings.now) cfg) }
{
    let tree = lower(alloc, expanded)?;
    let tree = number(alloc, tree)?;
    let tree = convert(alloc, tree, !settings.plain)?;
    let cfg = lay_out(alloc, tree)?;
    let cfg = fuse(alloc, cfg, settings.period)?;
    Ok(cfg)
}

/// A program with times, and what the report says of its overlapped loops.
#[derive(Drop)]
pub struct Schedule {
    pub timed: Cfg<Timed>,
    pub loops: Vec<LoopRow>,
}

/// Gives the operations of each block and loop their times.
pub fn timed_program(
    alloc: Global,
    untimed: &Cfg<Untimed>,
    units: Units,
) -> Result<Schedule, AllocError>
    requires { All HasForwardBody untimed.now.nodes.items }
    ensures { IfOk result (λ made. IsTimed units untimed.now made.timed (map loop_of made.loops.items)) }
{
    let TimedNodes { nodes, loops } = timed_nodes(
        alloc,
        &untimed.nodes,
        &untimed.frame.memories,
        units,
    )?;
    let timed = Cfg {
        frame: copy_frame(alloc, &untimed.frame)?,
        nodes,
        first: untimed.first,
    };
    Ok(Schedule { timed, loops })
}
