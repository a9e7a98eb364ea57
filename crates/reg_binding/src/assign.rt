//! The registers of a whole program.
ghost use Rattle.std.specs.Prelude.{◌≡◌, ◌++◌, length, map, IfOk, OnOk};
ghost use Rattle.std.specs.List.{zip};
ghost use Rattle.std.specs.List.Sorted.{IsPermutation};
ghost use Rattle.reg_binding.specs.Sets.{has};
ghost use Rattle.reg_binding.specs.Liveness.{IsLiveness, flow_of};
ghost use Rattle.reg_binding.specs.Lives.{node_lives, node_period};
ghost use Rattle.reg_binding.specs.Sharing.{IsPeriod};
ghost use Rattle.reg_binding.specs.SmallTimes.{IsEarlyNode, HasSmallTimes};
ghost use Rattle.reg_binding.specs.Assigned as spec;

use crate::block_reads::block_lives;
use crate::life::Life;
use crate::live::Live;
use crate::loop_reads::{loop_lives, period};
use crate::registers::{Held, Registers};
use crate::share::share;
use crate::var_set::VarSet;
use hls_base::number::{NodeId, OpId};
use ir_core::cfg::{Cfg, Node};
use ir_core::timed::Timed;
use std::alloc::{AllocError, Global};

fn lives_of(alloc: Global, node: &Node<Timed>, behind: &VarSet) -> Result<Vec<Life>, AllocError>
    requires { IsEarlyNode node.now }
    ensures { IfOk result (λ lives. lives.items ≡ node_lives (has behind.now) node.now) }
{
    match node {
        Node::Plain(block) => block_lives(alloc, block, behind),
        Node::Looped(region) => loop_lives(alloc, region, behind),
    }
}

/// The lives of the values of a node, sorted by their widths and by the cycles from which they are there.
fn sorted_lives(alloc: Global, node: &Node<Timed>, behind: &VarSet) -> Result<Vec<Life>, AllocError>
    requires { IsEarlyNode node.now }
    ensures { IfOk result (λ lives. IsPermutation (node_lives (has behind.now) node.now) lives.items) }
{
    let mut lives = lives_of(alloc, node, behind)?;
    lives.sort()?;
    Ok(lives)
}

fn period_of(node: &Node<Timed>) -> Option<u32>
    ensures value { result ≡ node_period node.now }
    ensures period { IsPeriod result }
{
    match node {
        Node::Plain(_) => None,
        Node::Looped(region) => Some(period(region)),
    }
}

/// Adds which register holds which value of a node.
fn add_rows(
    node: NodeId,
    lives: &[Life],
    choices: &[usize],
    held: &mut Vec<Held>,
) -> Result<(), AllocError>
    requires { length choices.now ≡ length lives.now }
    ensures { OnOk result (held.new.items ≡ held.old.items ++ map (spec.row node.0) (zip lives.now choices.now)) }
{
    for number in 0..lives.len() {
        let life = &lives[number];
        held.push(Held {
            node,
            op: OpId(life.op),
            place: life.place,
            register: choices[number] as u64,
        })?;
    }
    Ok(())
}

/// Gives registers to the values of a node, which need not be more than there are.
fn assign_node(
    alloc: Global,
    id: NodeId,
    node: &Node<Timed>,
    behind: &VarSet,
    registers: &mut Registers,
) -> Result<(), AllocError>
    requires { IsEarlyNode node.now }
    ensures { OnOk result (spec.AddsRows id.0 (node_lives (has behind.now) node.now) (node_period node.now) registers.old registers.new) }
{
    let lives = sorted_lives(alloc, node, behind)?;
    let choices = share(alloc, &lives, period_of(node), &mut registers.widths)?;
    add_rows(id, &lives, &choices, &mut registers.held)?;
    Ok(())
}

/// Gives each value that is read a register of its width in each place of its chain, in which no other value of its node is there in the same cycle. The registers of one node serve the others too. `live` has the live variables of the program.
pub fn assign(alloc: Global, cfg: &Cfg<Timed>, live: &Live) -> Result<Registers, AllocError>
    requires small { HasSmallTimes cfg.now }
    requires live { IsLiveness (flow_of cfg.now) live.now }
    ensures { IfOk result (λ registers. spec.IsAssignment cfg.now live.now registers) }
{
    let mut registers = Registers {
        widths: Vec::new(alloc),
        held: Vec::new(alloc),
    };
    for number in 0..cfg.nodes.len() {
        let id = NodeId(number as u32);
        let node = &cfg.nodes[number];
        let behind = live.behind(alloc, node)?;
        assign_node(alloc, id, node, &behind, &mut registers)?;
    }
    Ok(registers)
}
