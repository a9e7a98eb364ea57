//! A program with times, and what was found for its circuit.
ghost use Rattle.std.specs.Prelude.{◌≤◌, length};
ghost use Rattle.ir_core.specs.Small.{HasFewParts};
ghost use Rattle.circuit_context.specs.Bank.Banks.{HasShortStart};
ghost use Rattle.circuit_context.specs.Programs.{IsBuildable, Buildable-prop};
ghost use Rattle.circuit_context.specs.Numbers.{HasPlaces};

use crate::bank::bank::Bank;
use crate::ports::PortNumbers;
use crate::wanted::role::Role;
use datapath::places::Places;
use hls_base::number::NodeId;
use ir_core::cfg::{Cfg, Node};
use ir_core::timed::Timed;
use reg_binding::live::Live;
use reg_binding::registers::Registers;
use rtl_core::design::Atom;
use std::alloc::{AllocError, Global};

/// The program and the registers for its results; the registers of the circuit; the places of results and the ports of accesses; which variables are read, and where which are live.
#[derive(Drop)]
pub struct Context<'a> {
    pub alloc: Global,
    pub cfg: &'a Cfg<Timed>,
    pub registers: &'a Registers,
    pub bank: Bank,
    pub places: Places,
    pub ports: PortNumbers,
    pub read: Vec<bool>,
    pub live: Live,
    ghost buildable: { IsBuildable cfg.now } by { Buildable-prop cfg.now },
    ghost few: { HasFewParts cfg.now },
    ghost start: { HasShortStart cfg.now },
    ghost told: { length cfg.now.frame.variables.items ≤ length read.items },
    ghost numbered: { HasPlaces cfg.now.nodes.items cfg.now.frame.memories.items ports },
}

/// A node, and the time in its block or iteration.
#[derive(Clone, Copy, PartialEq, Eq)]
pub struct Reading {
    pub node: NodeId,
    pub time: u64,
}

impl<'a> Context<'a> {
    ghost use Rattle.std.specs.Prelude.{◌≡◌, ◌<◌, List, IfOk, Some, length, slice_get};
    ghost use Rattle.reg_binding.specs.SmallTimes.{IsEarlyNode};
    ghost use Rattle.datapath.specs.Plans.{Plan};
    ghost use Rattle.datapath.specs.Cycles.{Register};
    ghost use Rattle.datapath.specs.CircuitWires.Carrying.{IsRegister};
    ghost use Rattle.circuit_context.specs.Wanted.Roles.{named};
    ghost use Rattle.circuit_context.specs.Contexts.{IsContext};

    /// The node with this number.
    pub fn node(&self, node: NodeId) -> &Node<Timed>
        requires { node.0 < length self.now.cfg.now.nodes.items }
        ensures stands { slice_get self.now.cfg.now.nodes.items node.0 ≡ Some result.now }
        ensures early { IsEarlyNode result.now }
    {
        &self.cfg.nodes[node.0 as usize]
    }

    /// The register for this.
    pub fn register(&self, role: Role) -> Result<Atom, AllocError>
        ensures { (p : Plan) (names : List Register) → IsContext p names self.now → IfOk result (λ a. IsRegister names a (named role)) }
    {
        self.bank.register(role)
    }
}
