//! When the tests of loops become known.
ghost use Rattle.std.specs.Prelude.{◌<◌, ◌^◌, ◌≡◌, List, OnOk, Some, length, slice_get};
ghost use Rattle.rtl_logic.specs.Making.{circuit};
ghost use Rattle.clock_ir.specs.ClockRuns.{TimedNode};
ghost use Rattle.datapath.specs.Plans.{Plan};
ghost use Rattle.datapath.specs.Cycles.{Register, Gate};
ghost use Rattle.datapath.specs.CircuitWires.Carrying.{IsBegun};
ghost use Rattle.circuit_context.specs.Wanted.Logs.{Logs};
ghost use Rattle.circuit_context.specs.Wanted.Entries.{all_exits, exit_entries};
ghost use Rattle.circuit_context.specs.Contexts.{IsContext};
ghost use Rattle.circuit_control.specs.Gathered.{test_entries};

use crate::bits::{both, is_loop, node_with_number, register_bit, write};
use circuit_context::context::Context;
use circuit_context::tests::{is_tested, test_holds};
use circuit_context::wanted::log::Log;
use circuit_context::wanted::role::{Role, Target};
use hls_base::number::NodeId;
use rtl_logic::logic::Logic;
use rtl_logic::select::{Choice, constant};
use std::alloc::AllocError;

/// When the test of each loop becomes known, and whether it is true.
pub fn write_exits(of: &Context<'_>, logic: &mut Logic, log: &mut Log) -> Result<(), AllocError>
    ensures { (p : Plan) (names : List Register) → IsContext p names of.now → IsBegun p names (circuit logic.old)
        → OnOk result (Logs p names (circuit logic.old) (circuit logic.new) log.old.pushes.items log.new.pushes.items (all_exits p)) }
{
    for number in 0..of.cfg.nodes.len() {
        write_exit(of, logic, log, number)?;
    }
    Ok(())
}

/// The same of one node; a block has no test.
fn write_exit(
    of: &Context<'_>,
    logic: &mut Logic,
    log: &mut Log,
    number: usize,
) -> Result<(), AllocError>
    requires { number < length of.now.cfg.now.nodes.items }
    ensures { (p : Plan) (names : List Register) (n : TimedNode) → IsContext p names of.now → IsBegun p names (circuit logic.old) → slice_get p.program.nodes number ≡ Some n
        → OnOk result (Logs p names (circuit logic.old) (circuit logic.new) log.old.pushes.items log.new.pushes.items (exit_entries p (number, n))) }
{
    let looped = is_loop(of, number);
    if looped {
        let node = node_with_number(number);
        write_test(of, logic, log, node)
    } else {
        Ok(())
    }
}

fn write_test(
    of: &Context<'_>,
    logic: &mut Logic,
    log: &mut Log,
    node: NodeId,
) -> Result<(), AllocError>
    requires { node.0 < length of.now.cfg.now.nodes.items }
    ensures { (p : Plan) (names : List Register) → IsContext p names of.now → IsBegun p names (circuit logic.old)
        → OnOk result (Logs p names (circuit logic.old) (circuit logic.new) log.old.pushes.items log.new.pushes.items (test_entries p node.0)) }
{
    let when = is_tested(of, logic, node)?;
    log.push(Target::Tested, when, constant(1, 1))?;
    let running = register_bit(of, Role::Gate(0))?;
    let test = test_holds(of, logic, node)?;
    let value = both(logic, running, test)?;
    write(of, log, Role::Gate(0), Choice { when, value })
}
