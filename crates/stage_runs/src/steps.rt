//! The steps that a run takes in the nodes of a program, by the points that it passes.
ghost use Rattle.std.specs.Prelude.{◌≡◌, ◌++◌, IfOk, OnOk};
ghost use Rattle.cycle_report.specs.FormulaValue.{cycles};
ghost use Rattle.stage_runs.specs.Stages.{node_costs, step_costs};

use cosim_levels::levels::cycles_of;
use cycle_report::report::{Cost, Formula};
use hls_base::point::{Point, PointKind, Tally};
use ir_core::cfg::Node;
use ir_core::stamp::Untimed;
use std::alloc::{AllocError, Global};

/// Adds what a node costs.
fn add_costs(alloc: Global, costs: &mut Vec<Cost>, node: &Node<Untimed>) -> Result<(), AllocError>
    ensures { OnOk result (costs.new.items ≡ costs.old.items ++ node_costs node.now) }
{
    match node {
        Node::Plain(block) => {
            let point = block.point.copy(alloc)?;
            let cost = block.body.ops.len() as u64 + 1;
            costs.push(Cost { point, cost })?;
        }
        Node::Looped(region) => {
            let point = region.point.copy(alloc)?;
            let end = Point {
                path: region.point.path.copy(alloc)?,
                at: region.point.at,
                kind: PointKind::End,
            };
            costs.push(Cost { point, cost: 1 })?;
            costs.push(Cost {
                point: end,
                cost: 1,
            })?;
        }
    }
    Ok(())
}

/// What all nodes cost.
fn step_costs(alloc: Global, nodes: &[Node<Untimed>]) -> Result<Vec<Cost>, AllocError>
    ensures { IfOk result (λ v. v.items ≡ step_costs nodes.now) }
{
    let mut costs = Vec::new(alloc);
    for node in nodes {
        add_costs(alloc, &mut costs, node)?;
    }
    Ok(costs)
}

/// The steps of a run of these nodes that passes each point so often.
pub fn tallied_steps(
    alloc: Global,
    nodes: &[Node<Untimed>],
    tally: &Tally,
) -> Result<u128, AllocError>
    ensures { IfOk result (λ n. n ≡ cycles 0 (step_costs nodes.now) tally.now) }
{
    let formula = Formula {
        base: 0,
        rows: step_costs(alloc, nodes)?,
    };
    cycles_of(&formula, tally)
}
