//! Which time of a node has come.
ghost use Rattle.std.specs.Prelude.{◌≡◌, ◌<◌, ◌==◌, nat_lt, List, IfOk, length};
ghost use Rattle.rtl_logic.specs.Making.{circuit};
ghost use Rattle.datapath.specs.Plans.{Plan};
ghost use Rattle.datapath.specs.Cycles.{Register, Cycle, Time, Active};
ghost use Rattle.datapath.specs.Control as control;
ghost use Rattle.datapath.specs.Reading as reading;
ghost use Rattle.circuit_context.specs.Bank.Banks.{HasShortStart};
ghost use Rattle.datapath.specs.CircuitWires.Carrying.{IsRegister, IsBegun, MakesTelling};
ghost use Rattle.circuit_context.specs.Contexts.{IsContext, IsProgramOf};

use crate::context::{Context, Reading};
use crate::numbers::{constant_bit, holds_number};
use crate::wanted::role::Role;
use datapath::plan_sizes::sizes::{greatest_time, span};
use hls_base::number::NodeId;
use ir_core::cfg::Cfg;
use ir_core::timed::Timed;
use rtl_core::design::Atom;
use rtl_logic::logic::Logic;
use std::alloc::AllocError;

/// Whether some time of the program is above 0.
fn counts_times(cfg: &Cfg<Timed>) -> bool
    requires { HasShortStart cfg.now }
    ensures { (p : Plan) → IsProgramOf p cfg.now → result ≡ nat_lt 0 (control.greatest_time p) }
{
    greatest_time(cfg) > 0
}

impl<'a> Context<'a> {
    /// Whether the time within the node is this one.
    pub fn time_is(&self, logic: &mut Logic, time: u64) -> Result<Atom, AllocError>
        ensures { (p : Plan) (names : List Register) → IsContext p names self.now → IsBegun p names (circuit logic.old)
            → IfOk result (λ a. MakesTelling p names (circuit logic.old) (circuit logic.new) a (λ (c : Cycle). c.regs Time == time)) }
    {
        if counts_times(self.cfg) {
            let register = self.register(Role::Time)?;
            holds_number(logic, register, time)
        } else {
            Ok(constant_bit(time == 0))
        }
    }

    /// The register that is 1 while the node is under way.
    pub fn active(&self, node: NodeId) -> Result<Atom, AllocError>
        ensures { (p : Plan) (names : List Register) → IsContext p names self.now → IfOk result (λ a. IsRegister names a (Active node.0)) }
    {
        self.register(Role::Active(node))
    }

    /// The bit of the cycles with this time since a node's beginning; in a loop, of all cycles in which an iteration, if there is one, has this time.
    pub fn at(&self, logic: &mut Logic, at: Reading) -> Result<Atom, AllocError>
        requires { at.node.0 < length self.now.cfg.now.nodes.items }
        ensures { (p : Plan) (names : List Register) → IsContext p names self.now → IsBegun p names (circuit logic.old)
            → IfOk result (λ a. MakesTelling p names (circuit logic.old) (circuit logic.new) a (λ (c : Cycle). reading.at p c at.node.0 at.time)) }
    {
        let active = self.active(at.node)?;
        let cycles = span(self.node(at.node));
        if cycles <= 1 {
            return Ok(active);
        }
        let register = self.register(Role::Time)?;
        let time = holds_number(logic, register, at.time % cycles)?;
        logic.and(active, time)
    }

    /// The same, from the first iteration on.
    pub fn at_iteration(&self, logic: &mut Logic, at: Reading) -> Result<Atom, AllocError>
        requires { at.node.0 < length self.now.cfg.now.nodes.items }
        ensures { (p : Plan) (names : List Register) → IsContext p names self.now → IsBegun p names (circuit logic.old)
            → IfOk result (λ a. MakesTelling p names (circuit logic.old) (circuit logic.new) a (λ (c : Cycle). reading.at_iteration p c at.node.0 at.time)) }
    {
        let now = self.at(logic, at)?;
        let intervals = at.time / span(self.node(at.node));
        if intervals == 0 {
            return Ok(now);
        }
        let reached = self.register(Role::Passed(intervals))?;
        logic.and(now, reached)
    }
}
