//! Which registers a circuit has, in order.
ghost use Rattle.std.specs.Prelude.{◌≡◌, ◌<◌, ◌^◌, ◌∷◌, ℕ, [], length, map, flat_map, true, IfOk, OnOk, Some};
ghost use Rattle.std.specs.List.{enumerate_from, range_with_len};
ghost use Rattle.reg_binding.specs.declared.registers.Registers.{Registers};
ghost use Rattle.clock_ir.specs.ClockRuns.{timed_node};
ghost use Rattle.datapath.specs.Plans.{Plan, array_at, array_of, initial_cycles};
ghost use Rattle.datapath.specs.Circuits.{width};
ghost use Rattle.datapath.specs.Control as control;
ghost use Rattle.circuit_context.specs.Wanted.Roles.{named};
ghost use Rattle.circuit_context.specs.declared.wanted.role.Role.TheVariants as role;
ghost use Rattle.circuit_context.specs.Wanted.Entries.{all_roles, control_roles, loop_roles, node_roles, port_roles, roles_if, value_roles, variable_of, word_roles};
ghost use Rattle.circuit_context.specs.Bank.Banks.{IsPlanOf, ArePortCounts};
ghost use Rattle.circuit_context.specs.Bank.Slots.{Adds, slot};

use crate::bank::lines::Lines;
use crate::wanted::role::Role;
use datapath::plan_sizes::sizes::{
    bits_of, greatest_time, greatest_wait, host_memories, initial_cycles,
};
use hls_base::number::{ArrayId, NodeId, VarId};
use ir_core::cfg::{Cfg, Memory, Node};
use ir_core::timed::Timed;
use reg_binding::registers::Registers;
use std::alloc::{AllocError, Global};

/// A register that is to be: what it is for, and its bits.
#[derive(Clone, Copy, PartialEq, Eq)]
pub struct Slot {
    pub role: Role,
    pub bits: u8,
}

/// A number of 32 bits.
fn number_of(number: usize) -> u32
    requires { number < 2 ^ 32 }
    ensures { result ≡ number }
{
    number as u32
}

fn push(slots: &mut Vec<Slot>, role: Role, bits: u8) -> Result<(), AllocError>
    ensures { (p : Plan) → bits ≡ width p (named role) → OnOk result (Adds p slots.old.items slots.new.items (role ∷ [])) }
{
    slots.push(Slot { role, bits })?;
    Ok(())
}

fn push_if(slots: &mut Vec<Slot>, there: bool, role: Role, bits: u8) -> Result<(), AllocError>
    ensures { (p : Plan) → (there ≡ true → bits ≡ width p (named role)) → OnOk result (Adds p slots.old.items slots.new.items (roles_if there role)) }
{
    if there {
        push(slots, role, bits)?;
    }
    Ok(())
}

// ---- the controller

fn is_loop(node: &Node<Timed>) -> bool
    ensures { result ≡ control.is_loop (Some (timed_node node.now)) }
{
    match node {
        Node::Plain(_) => false,
        Node::Looped(_) => true,
    }
}

fn push_node(slots: &mut Vec<Slot>, number: usize, node: &Node<Timed>) -> Result<(), AllocError>
    requires { number < 2 ^ 32 }
    ensures { (p : Plan) → OnOk result (Adds p slots.old.items slots.new.items (node_roles (number, timed_node node.now))) }
{
    let id = NodeId(number_of(number));
    push(slots, Role::Active(id), 1)?;
    push_if(slots, is_loop(node), Role::Load(id), 1)
}

fn push_nodes(slots: &mut Vec<Slot>, nodes: &[Node<Timed>]) -> Result<(), AllocError>
    requires { length nodes.now < 2 ^ 32 }
    ensures { (p : Plan) → OnOk result (Adds p slots.old.items slots.new.items (flat_map node_roles (enumerate_from 0 (map timed_node nodes.now)))) }
{
    for (number, node) in nodes.iter().enumerate() {
        push_node(slots, number, node)?;
    }
    Ok(())
}

fn push_control(slots: &mut Vec<Slot>, cfg: &Cfg<Timed>) -> Result<(), AllocError>
    requires { length cfg.now.nodes.items < 2 ^ 32 }
    ensures { (p : Plan) (registers : Registers) → IsPlanOf p cfg.now registers → initial_cycles p < 2 ^ 64 → OnOk result (Adds p slots.old.items slots.new.items (control_roles p)) }
{
    push(slots, Role::Ready, 1)?;
    push(slots, Role::Done, 1)?;
    push_if(slots, initial_cycles(cfg) > 0, Role::Initial, 1)?;
    let bits = bits_of(greatest_time(cfg));
    push_if(slots, bits > 0, Role::Time, bits)?;
    push_nodes(slots, &cfg.nodes)
}

// ---- what the loops share

fn push_gates(slots: &mut Vec<Slot>, gates: u64) -> Result<(), AllocError>
    ensures { (p : Plan) → OnOk result (Adds p slots.old.items slots.new.items (map role.Gate (range_with_len 0 gates))) }
{
    for tests in 0..gates {
        push(slots, Role::Gate(tests), 1)?;
    }
    Ok(())
}

fn push_stages(slots: &mut Vec<Slot>, stages: u64) -> Result<(), AllocError>
    ensures { (p : Plan) → OnOk result (Adds p slots.old.items slots.new.items (map role.Passed (range_with_len 1 stages))) }
{
    for before in 0..stages {
        push(slots, Role::Passed(before + 1), 1)?;
    }
    Ok(())
}

fn push_loops(slots: &mut Vec<Slot>, cfg: &Cfg<Timed>, lines: Lines) -> Result<(), AllocError>
    ensures { (p : Plan) (registers : Registers) → IsPlanOf p cfg.now registers → OnOk result (Adds p slots.old.items slots.new.items (loop_roles p lines.gates lines.stages)) }
{
    push_gates(slots, lines.gates)?;
    push_stages(slots, lines.stages)?;
    let bits = bits_of(greatest_wait(cfg).saturating_sub(1));
    push_if(slots, bits > 0, Role::Waited, bits)
}

// ---- variables and results

fn push_variables(slots: &mut Vec<Slot>, widths: &[u8]) -> Result<(), AllocError>
    requires { length widths.now < 2 ^ 32 }
    ensures { (p : Plan) → p.program.shapes.widths ≡ widths.now → OnOk result (Adds p slots.old.items slots.new.items (map (λ (v : ℕ). role.Variable (variable_of v)) (range_with_len 0 (length widths.now)))) }
{
    for (number, bits) in widths.iter().enumerate() {
        push(slots, Role::Variable(VarId(number_of(number))), *bits)?;
    }
    Ok(())
}

fn push_values(slots: &mut Vec<Slot>, widths: &[u8]) -> Result<(), AllocError>
    ensures { (p : Plan) → p.widths ≡ widths.now → OnOk result (Adds p slots.old.items slots.new.items (map role.Value (range_with_len 0 (length widths.now)))) }
{
    for (number, bits) in widths.iter().enumerate() {
        push(slots, Role::Value(number as u64), *bits)?;
    }
    Ok(())
}

fn push_results(
    slots: &mut Vec<Slot>,
    cfg: &Cfg<Timed>,
    registers: &Registers,
) -> Result<(), AllocError>
    requires { length cfg.now.frame.variables.items < 2 ^ 32 }
    ensures { (p : Plan) → IsPlanOf p cfg.now registers.now → OnOk result (Adds p slots.old.items slots.new.items (value_roles p)) }
{
    push_variables(slots, &cfg.frame.variables)?;
    push_values(slots, &registers.widths)?;
    push_if(slots, cfg.frame.ret > 0, Role::Result, cfg.frame.ret)
}

// ---- ports

fn push_words(slots: &mut Vec<Slot>, array: ArrayId, ports: u32, bits: u8) -> Result<(), AllocError>
    ensures { (p : Plan) → bits ≡ (array_at p array.0).bits → OnOk result (Adds p slots.old.items slots.new.items (map (λ (n : ℕ). role.Word array n) (range_with_len 0 ports))) }
{
    for port in 0..ports {
        push(slots, Role::Word { array, port }, bits)?;
    }
    Ok(())
}

fn push_arrays(slots: &mut Vec<Slot>, memories: &[Memory], ports: &[u32]) -> Result<(), AllocError>
    requires few { length memories.now < 2 ^ 32 }
    requires ports { length ports.now ≡ length memories.now }
    ensures { (p : Plan) → map array_of memories.now ≡ p.arrays → ArePortCounts p ports.now → OnOk result (Adds p slots.old.items slots.new.items (flat_map (word_roles p) (range_with_len 0 (length p.arrays)))) }
{
    for (number, memory) in memories.iter().enumerate() {
        let array = ArrayId(number_of(number));
        push_words(slots, array, ports[number], memory.bits)?;
    }
    Ok(())
}

fn push_ports(slots: &mut Vec<Slot>, cfg: &Cfg<Timed>, ports: &[u32]) -> Result<(), AllocError>
    requires few { length cfg.now.frame.memories.items < 2 ^ 32 }
    requires ports { length ports.now ≡ length cfg.now.frame.memories.items }
    ensures { (p : Plan) (registers : Registers) → IsPlanOf p cfg.now registers → ArePortCounts p ports.now → OnOk result (Adds p slots.old.items slots.new.items (port_roles p)) }
{
    push_arrays(slots, &cfg.frame.memories, ports)?;
    let hosts = host_memories(cfg) as u64;
    push_if(
        slots,
        hosts > 1,
        Role::Named,
        bits_of(hosts.saturating_sub(1)),
    )
}

// ---- all

/// The registers of a program, but for those of shared units.
pub fn slots_of(
    alloc: Global,
    cfg: &Cfg<Timed>,
    registers: &Registers,
    ports: &[u32],
    lines: Lines,
) -> Result<Vec<Slot>, AllocError>
    requires nodes { length cfg.now.nodes.items < 2 ^ 32 }
    requires variables { length cfg.now.frame.variables.items < 2 ^ 32 }
    requires arrays { length cfg.now.frame.memories.items < 2 ^ 32 }
    requires ports { length ports.now ≡ length cfg.now.frame.memories.items }
    ensures { (p : Plan) → IsPlanOf p cfg.now registers.now → ArePortCounts p ports.now → initial_cycles p < 2 ^ 64
        → IfOk result (λ slots. slots.items ≡ map (slot p) (all_roles p lines.gates lines.stages)) }
{
    let mut slots = Vec::new(alloc);
    push_control(&mut slots, cfg)?;
    push_loops(&mut slots, cfg, lines)?;
    push_results(&mut slots, cfg, registers)?;
    push_ports(&mut slots, cfg, ports)?;
    Ok(slots)
}
