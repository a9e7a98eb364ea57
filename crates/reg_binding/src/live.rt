ghost use Rattle.std.specs.Prelude.{◌≡◌, ◌<◌, ◌≤◌, ◌&&◌, ◌==◌, ℕ, Bool, true, false, map, length, slice_get, Some, IfOk, OnOk};
ghost use Rattle.std.specs.List.{list_any};
ghost use Rattle.reg_binding.specs.declared.var_set.VarSet.{VarSet};
ghost use Rattle.reg_binding.specs.Sets.{has, has_in, Gains, Loses};
ghost use Rattle.reg_binding.specs.Liveness as spec;

use crate::reads::{next_of, outs_of, reads_of, returns};
use crate::var_set::VarSet;
use hls_base::number::{Kept, NodeId, VarId};
use ir_core::body::{Operand, Out, Source};
use ir_core::cfg::{Cfg, Node};
use ir_core::stamp::Stamp;
use std::alloc::{AllocError, Global};

/// The variables that are live as each node of a program is entered: on some way from there they are read before they are set. A variable that only goes into one that is not live is not read thereby.
#[derive(Drop)]
pub struct Live {
    variables: usize,
    entered: Vec<VarSet>,
    /// What stays for the next run.
    kept: VarSet,
}

fn insert_all(set: &mut VarSet, variables: &[VarId])
    ensures { Gains set.old set.new (λ n. spec.is_among n variables.now) }
{
    for variable in variables {
        set.insert(*variable);
    }
}

fn insert_kept(set: &mut VarSet, all: &[Kept])
    ensures { Gains set.old set.new (λ n. list_any (λ k. k.variable.0 == n) all.now) }
{
    for kept in all {
        set.insert(kept.variable);
    }
}

fn remove_outs(set: &mut VarSet, outs: &[Out])
    ensures { Loses set.old set.new (spec.is_set outs.now) }
{
    for out in outs {
        set.remove(out.variable);
    }
}

fn note(set: &mut VarSet, operand: Operand)
    ensures { Gains set.old set.new (λ n. spec.is_among n (spec.operand_reads operand)) }
{
    if let Source::Variable(variable) = operand.value {
        set.insert(variable);
    }
}

fn add_out(set: &mut VarSet, out: &Out, behind: &VarSet)
    ensures { Gains set.old set.new (λ n. spec.goes_by (has behind.now) n out.now) }
{
    if behind.contains(out.variable) {
        note(set, out.value);
    }
}

/// Adds what goes into variables that are live behind.
fn add_outs(set: &mut VarSet, outs: &[Out], behind: &VarSet)
    ensures { Gains set.old set.new (λ n. list_any (spec.goes_by (has behind.now) n) outs.now) }
{
    for out in outs {
        add_out(set, out, behind);
    }
}

/// What is live as a node is entered, from what is live behind it.
fn entered<S: Stamp>(
    alloc: Global,
    variables: usize,
    node: &Node<S>,
    behind: &VarSet,
) -> Result<VarSet, AllocError>
    requires { behind.now.variables ≡ variables }
    ensures count { IfOk result (λ set. set.variables ≡ variables) }
    ensures members { IfOk result (λ set. (n : ℕ) → n < variables → has set n ≡ spec.is_entered (spec.summary_of node.now) (has behind.now) n) }
{
    let mut set = VarSet::new(alloc, variables)?;
    set.add_all(behind);
    let outs = outs_of(node);
    remove_outs(&mut set, outs);
    add_outs(&mut set, outs, behind);
    insert_all(&mut set, &reads_of(alloc, node)?);
    Ok(set)
}

/// So many sets without members.
fn empty_sets(alloc: Global, count: usize, variables: usize) -> Result<Vec<VarSet>, AllocError>
    ensures count { IfOk result (λ sets. length sets.items ≡ count) }
    ensures empty { IfOk result (λ sets. (i : ℕ) (set : VarSet) → slice_get sets.items i ≡ Some set → (set.variables ≡ variables) × ((n : ℕ) → n < variables → has set n ≡ false)) }
{
    let mut sets = Vec::with_capacity(alloc, count)?;
    for _number in 0..count {
        sets.push(VarSet::new(alloc, variables)?)?;
    }
    Ok(sets)
}

impl Live {
    /// No variable is live anywhere.
    fn start<S: Stamp>(alloc: Global, cfg: &Cfg<S>) -> Result<Live, AllocError>
        ensures { IfOk result (λ live. spec.Holds (spec.flow_of cfg.now) live) }
    {
        let variables = cfg.frame.variables.len();
        let entered = empty_sets(alloc, cfg.nodes.len(), variables)?;
        let mut kept = VarSet::new(alloc, variables)?;
        insert_kept(&mut kept, &cfg.frame.kept);
        Ok(Live {
            variables,
            entered,
            kept,
        })
    }

    fn add_node(&self, set: &mut VarSet, node: NodeId)
        ensures { spec.IsSized self.now → set.old.variables ≡ self.now.variables → Gains set.old set.new (spec.entered_at self.now node.0) }
    {
        if let Some(entered) = self.entered.get(node.0 as usize) {
            set.add_all(entered);
        }
    }

    fn add_nodes(&self, set: &mut VarSet, nodes: &[NodeId])
        ensures { spec.IsSized self.now → set.old.variables ≡ self.now.variables → Gains set.old set.new (λ n. list_any (λ next. spec.entered_at self.now next.0 n) nodes.now) }
    {
        for node in nodes {
            self.add_node(set, *node);
        }
    }

    /// What is live behind a node: in a node to which it leads, or behind a return for the next run.
    pub fn behind<S: Stamp>(&self, alloc: Global, node: &Node<S>) -> Result<VarSet, AllocError>
        ensures count { IfOk result (λ set. spec.IsSized self.now → set.variables ≡ self.now.variables) }
        ensures members { IfOk result (λ set. spec.IsSized self.now → (n : ℕ) → has set n ≡ spec.is_behind self.now (spec.summary_of node.now) n) }
    {
        let mut set = VarSet::new(alloc, self.variables)?;
        self.add_nodes(&mut set, &next_of(alloc, node)?);
        if returns(node) {
            set.add_all(&self.kept);
        }
        Ok(set)
    }

    /// Adds what is live as a node is entered by what is live behind it, and tells whether that is more than before.
    fn update<S: Stamp>(
        &mut self,
        alloc: Global,
        cfg: &Cfg<S>,
        number: usize,
    ) -> Result<bool, AllocError>
        requires holds { spec.Holds (spec.flow_of cfg.now) self.old }
        requires number { number < length cfg.now.nodes.items }
        ensures holds { OnOk result (spec.Holds (spec.flow_of cfg.now) self.new) }
        ensures same { IfOk result (λ more. more ≡ false → spec.HasSame self.new self.old) }
        ensures fewer { IfOk result (λ more. more ≡ true → spec.not_live self.new < spec.not_live self.old) }
        ensures closed { IfOk result (λ more. more ≡ false → spec.IsClosedAt (spec.flow_of cfg.now) self.old number) }
    {
        let node = &cfg.nodes[number];
        let behind = self.behind(alloc, node)?;
        let set = entered(alloc, self.variables, node, &behind)?;
        let more = self.entered[number].add_all(&set);
        Ok(more)
    }

    /// Goes through all nodes once, the last one first, and tells whether more was found.
    fn pass<S: Stamp>(&mut self, alloc: Global, cfg: &Cfg<S>) -> Result<bool, AllocError>
        requires { spec.Holds (spec.flow_of cfg.now) self.old }
        ensures holds { OnOk result (spec.Holds (spec.flow_of cfg.now) self.new) }
        ensures fewer { IfOk result (λ more. more ≡ true → spec.not_live self.new < spec.not_live self.old) }
        ensures closed { IfOk result (λ more. more ≡ false → (i : ℕ) → i < length cfg.now.nodes.items → spec.IsClosedAt (spec.flow_of cfg.now) self.new i) }
    {
        let count = cfg.nodes.len();
        let mut more = false;
        for back in 0..count {
            if self.update(alloc, cfg, count - 1 - back)? {
                more = true;
            }
        }
        Ok(more)
    }
}

/// The variables that are live in a program. Loops in one another take a pass over the program each.
pub fn live_variables<S: Stamp>(alloc: Global, cfg: &Cfg<S>) -> Result<Live, AllocError>
    ensures { IfOk result (λ live. spec.IsLiveness (spec.flow_of cfg.now) live) }
{
    let mut live = Live::start(alloc, cfg)?;
    'passes: loop {
        if !live.pass(alloc, cfg)? {
            return Ok(live);
        }
    }
}
