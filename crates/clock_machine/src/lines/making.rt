//! From a timed program to the form in which it is run.
ghost use Rattle.std.specs.Prelude.{◌≡◌, ◌<◌, ◌≤◌, ◌^◌, ◌==◌, ℕ, length, map, IfOk};
ghost use Rattle.clock_ir.specs.Flows as flows;
ghost use Rattle.clock_ir.specs.ClockRuns as runs;
ghost use Rattle.clock_machine.specs.Lines.Forms.{IsDeep, IsWorkOf, IsStageOf, IsProgramOf};
ghost use Rattle.clock_machine.specs.Lines.Reads.{CoversWay};
ghost use Rattle.clock_machine.specs.Lines.Regions.{IsOrderly, IsOrderlyNode, IsOrderlyProgram, body_of};

use crate::lines::agenda::Agenda;
use crate::lines::depths::{deeper_actions, deeper_assignments, deeper_if, deeper_way, lines_of};
use crate::lines::program::{Action, Exit, Pace, Program, Stage, Way, Work};
use crate::lines::reads::{Region, known, place};
use ir_core::cfg::{Block, Cfg, Loop, Node};
use ir_core::timed::Timed;
use std::alloc::{AllocError, Global};

fn starts_of(alloc: Global, actions: &[Action]) -> Result<Vec<u64>, AllocError>
    ensures { IfOk result (λ v. v.items ≡ map (λ (a : Action). a.start) actions.now) }
{
    let mut times = Vec::new(alloc);
    for action in actions {
        times.push(action.start)?;
    }
    Ok(times)
}

fn arrivals_of(alloc: Global, actions: &[Action]) -> Result<Vec<u64>, AllocError>
    ensures { IfOk result (λ v. v.items ≡ map (λ (a : Action). a.ready) actions.now) }
{
    let mut times = Vec::new(alloc);
    for action in actions {
        times.push(action.ready)?;
    }
    Ok(times)
}

/// The operations of a body, whose variables take their values at this time, so many iterations later, as control goes this way.
fn work_of(
    alloc: Global,
    region: &Region,
    time: u64,
    further: u32,
    way: &Way,
) -> Result<Work, AllocError>
    ensures work { IfOk result (λ w. IsOrderly region.now → time < 2 ^ 32 → further ≤ 1 →
        flows.known (body_of region.now) < 2 ^ 32 →
        IsWorkOf region.now.widths.now (body_of region.now) time further w) }
    ensures deep { IfOk result (λ w. (depth : ℕ) × ((size : ℕ) × (IsDeep depth size w × CoversWay depth way.now))) }
{
    let known = known(region.body);
    let actions = region.actions(alloc, known)?;
    let assignments = region.assignments(alloc, time, further)?;
    let test = region.operand_if(region.body.test, known);
    let depth = deeper_if(
        deeper_way(
            deeper_assignments(deeper_actions(0, &actions), &assignments),
            way,
        ),
        test,
    );
    let count = actions.len().saturating_add(actions.len());
    let lines = lines_of(alloc, count, depth.saturating_add(1))?;
    let starts = Agenda::new(alloc, &starts_of(alloc, &actions)?, region.interval)?;
    let arrivals = Agenda::new(alloc, &arrivals_of(alloc, &actions)?, region.interval)?;
    Ok(Work {
        actions,
        assignments,
        lines,
        starts,
        arrivals,
        pace: Pace {
            interval: region.interval,
            known,
            test,
        },
    })
}

fn block_of(alloc: Global, widths: &[u8], block: &Block<Timed>) -> Result<Stage, AllocError>
    ensures { IfOk result (λ s. IsOrderlyNode (Node.Plain block.now) →
        IsStageOf widths.now (runs.timed_node (Node.Plain block.now)) s) }
{
    let length = u64::from(block.length);
    let region = Region {
        widths,
        body: &block.body,
        interval: length,
    };
    let way = region.way(alloc, &block.end, length)?;
    let work = work_of(alloc, &region, length, 0, &way)?;
    Ok(Stage::Block { work, way })
}

fn loop_of(alloc: Global, widths: &[u8], looped: &Loop<Timed>) -> Result<Stage, AllocError>
    ensures { IfOk result (λ s. IsOrderlyNode (Node.Looped looped.now) →
        IsStageOf widths.now (runs.timed_node (Node.Looped looped.now)) s) }
{
    let exit = u64::from(looped.exit);
    let region = Region {
        widths,
        body: &looped.body,
        interval: u64::from(looped.ii),
    };
    let work = work_of(alloc, &region, exit, 1, &Way::Return(None))?;
    let gate = place(region.interval, work.pace.known, exit, 0);
    Ok(Stage::Loop {
        work,
        exit: Exit {
            exit,
            gate,
            next: looped.next,
        },
    })
}

fn stage_of(alloc: Global, widths: &[u8], node: &Node<Timed>) -> Result<Stage, AllocError>
    ensures { IfOk result (λ s. IsOrderlyNode node.now →
        IsStageOf widths.now (runs.timed_node node.now) s) }
{
    match node {
        Node::Plain(block) => block_of(alloc, widths, block),
        Node::Looped(looped) => loop_of(alloc, widths, looped),
    }
}

pub fn program_of(alloc: Global, cfg: &Cfg<Timed>) -> Result<Program, AllocError>
    ensures void { IfOk result (λ p. p.is_void ≡ (cfg.now.frame.ret == 0)) }
    ensures program { IfOk result (λ p. IsOrderlyProgram cfg.now → IsProgramOf (runs.timed_program cfg.now) p) }
{
    let mut stages = Vec::new(alloc);
    for node in &cfg.nodes {
        stages.push(stage_of(alloc, &cfg.frame.variables, node)?)?;
    }
    Ok(Program {
        stages,
        is_void: cfg.frame.ret == 0,
    })
}
