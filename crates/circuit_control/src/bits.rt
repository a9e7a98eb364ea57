//! Bits that follow from others, and what registers take.
ghost use Rattle.std.specs.Prelude.{◌<◌, ◌≡◌, ◌&&◌, ◌||◌, ◌+◌, ◌%◌, ◌^◌, [], ◌∷◌, ℕ, Bool, true, not, List, IfOk, OnOk, Some, length, slice_get};
ghost use Rattle.rtl_core.specs.Netlist.{Netlist};
ghost use Rattle.rtl_core.specs.Valid.{IsBetween};
ghost use Rattle.rtl_logic.specs.Making.{circuit};
ghost use Rattle.rtl_logic.specs.Choosing.{where_};
ghost use Rattle.clock_ir.specs.ClockRuns.{TimedNode, timed_node};
ghost use Rattle.datapath.specs.Plans.{Plan};
ghost use Rattle.datapath.specs.Cycles.{Register, Cycle, holds};
ghost use Rattle.datapath.specs.Circuits.{width};
ghost use Rattle.datapath.specs.Control as control;
ghost use Rattle.datapath.specs.CircuitWires.Carrying.{IsBegun, Carries, Tells, MakesCarrying, MakesTelling};
ghost use Rattle.circuit_context.specs.Wanted.Roles.{named};
ghost use Rattle.circuit_context.specs.Wanted.Entries.{register_entry, always_entry, node_of};
ghost use Rattle.circuit_context.specs.Wanted.Logs.{Logs};
ghost use Rattle.circuit_context.specs.Contexts.{IsContext};

use circuit_context::context::Context;
use circuit_context::wanted::log::Log;
use circuit_context::wanted::role::{Role, Target};
use hls_base::number::NodeId;
use ir_core::cfg::Node;
use ir_core::timed::Timed;
use rtl_core::design::{Atom, Pair};
use rtl_logic::logic::Logic;
use rtl_logic::select::{Choice, constant};
use std::alloc::AllocError;

/// Whether both bits are 1.
pub fn both(logic: &mut Logic, left: Atom, right: Atom) -> Result<Atom, AllocError>
    ensures { (p : Plan) (names : List Register) (one other : Cycle → Bool) → IsBegun p names (circuit logic.old) → Tells p names (circuit logic.old) left one → Tells p names (circuit logic.old) right other
        → IfOk result (λ a. MakesTelling p names (circuit logic.old) (circuit logic.new) a (λ (c : Cycle). one c && other c)) }
{
    logic.and(left, right)
}

/// Whether one of the bits is 1.
pub fn either(logic: &mut Logic, left: Atom, right: Atom) -> Result<Atom, AllocError>
    ensures { (p : Plan) (names : List Register) (one other : Cycle → Bool) → IsBegun p names (circuit logic.old) → Tells p names (circuit logic.old) left one → Tells p names (circuit logic.old) right other
        → IfOk result (λ a. MakesTelling p names (circuit logic.old) (circuit logic.new) a (λ (c : Cycle). one c || other c)) }
{
    logic.or(left, right)
}

/// Whether the first bit is 1, and the second is not.
pub fn except(logic: &mut Logic, bit: Atom, other: Atom) -> Result<Atom, AllocError>
    ensures { (p : Plan) (names : List Register) (one against : Cycle → Bool) → IsBegun p names (circuit logic.old) → Tells p names (circuit logic.old) bit one → Tells p names (circuit logic.old) other against
        → IfOk result (λ a. MakesTelling p names (circuit logic.old) (circuit logic.new) a (λ (c : Cycle). one c && not (against c))) }
{
    let turned = logic.not(other)?;
    logic.and(bit, turned)
}

/// A counter's next value.
pub fn counted(logic: &mut Logic, counter: Atom, bits: u8) -> Result<Atom, AllocError>
    ensures { (p : Plan) (names : List Register) (value : Cycle → ℕ) → IsBegun p names (circuit logic.old) → IsBetween 1 64 bits → Carries p names (circuit logic.old) bits counter value
        → IfOk result (λ a. MakesCarrying p names (circuit logic.old) (circuit logic.new) bits a (λ (c : Cycle). (value c + 1) % 2 ^ bits)) }
{
    logic.two(Pair::Add, bits, counter, constant(bits, 1))
}

/// A register of the controller.
pub fn register(of: &Context<'_>, role: Role) -> Result<Atom, AllocError>
    ensures { (p : Plan) (names : List Register) (d : Netlist) → IsContext p names of.now → IsBegun p names d
        → IfOk result (λ a. Carries p names d (width p (named role)) a (λ (c : Cycle). c.regs (named role))) }
{
    of.bank.register(role)
}

/// A register of one bit.
pub fn register_bit(of: &Context<'_>, role: Role) -> Result<Atom, AllocError>
    ensures { (p : Plan) (names : List Register) (d : Netlist) → IsContext p names of.now → IsBegun p names d → width p (named role) ≡ 1
        → IfOk result (λ a. Tells p names d a (λ (c : Cycle). holds c (named role))) }
{
    of.bank.register(role)
}

/// Notes what the register takes, and when.
pub fn write(of: &Context<'_>, log: &mut Log, role: Role, choice: Choice) -> Result<(), AllocError>
    ensures { (p : Plan) (names : List Register) (d : Netlist) (wanted : Cycle → Bool) (value : Cycle → ℕ) → IsContext p names of.now → IsBegun p names d
        → Tells p names d choice.when wanted → Carries p names d (width p (named role)) choice.value value
        → OnOk result (Logs p names d d log.old.pushes.items log.new.pushes.items (register_entry role (λ (c : Cycle). where_ (wanted c) (value c)) ∷ [])) }
{
    let _register = of.bank.register(role)?;
    log.push(Target::Register(role), choice.when, choice.value)
}

/// Notes what the register takes in each cycle.
pub fn write_always(
    of: &Context<'_>,
    log: &mut Log,
    role: Role,
    value: Atom,
) -> Result<(), AllocError>
    ensures { (p : Plan) (names : List Register) (d : Netlist) (taken : Cycle → ℕ) → IsContext p names of.now → IsBegun p names d
        → Carries p names d (width p (named role)) value taken
        → OnOk result (Logs p names d d log.old.pushes.items log.new.pushes.items (always_entry role taken ∷ [])) }
{
    let when = constant(1, 1);
    write(of, log, role, Choice { when, value })
}

/// The node with this number.
pub fn node_with_number(number: usize) -> NodeId
    requires { number < 2 ^ 32 }
    ensures { result ≡ node_of number }
{
    NodeId(number as u32)
}

/// The node with this number, as it stands in the program.
pub fn node_at<'a>(of: &'a Context<'_>, number: usize) -> &'a Node<Timed>
    requires { number < length of.now.cfg.now.nodes.items }
    ensures { (p : Plan) (names : List Register) (n : TimedNode) → IsContext p names of.now → slice_get p.program.nodes number ≡ Some n
        → timed_node result.now ≡ n }
{
    &of.cfg.nodes[number]
}

fn is_looped(node: &Node<Timed>) -> bool
    ensures { result ≡ control.is_loop (Some (timed_node node.now)) }
{
    match node {
        Node::Plain(_) => false,
        Node::Looped(_) => true,
    }
}

/// Whether the node with this number is a loop.
pub fn is_loop(of: &Context<'_>, number: usize) -> bool
    requires { number < length of.now.cfg.now.nodes.items }
    ensures { (p : Plan) (names : List Register) (n : TimedNode) → IsContext p names of.now → slice_get p.program.nodes number ≡ Some n
        → result ≡ control.is_loop (Some n) }
{
    is_looped(node_at(of, number))
}
