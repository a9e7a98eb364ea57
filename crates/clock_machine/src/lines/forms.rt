//! From the operations of a timed body to the form in which they are run.
ghost use Rattle.std.specs.Prelude.{◌≡◌, ◌<◌, ◌≤◌, ◌+◌, ◌-◌, ◌/◌, ◌^◌, ℕ, Option, length, map, get_or, None, IfOk};
ghost use Rattle.clock_ir.specs.Flows as flows;
ghost use Rattle.clock_machine.specs.Lines.Forms.{IsActionOf, AreActionsOf, assignment_of, case_of, IsWayOf};
ghost use Rattle.clock_machine.specs.Lines.Reads.{entry_if, entry_in, read_at, read_of};
ghost use Rattle.clock_machine.specs.Lines.Regions.{IsOrderly, body_of};

use crate::lines::program::{Action, Assignment, Case, Read, Way};
use crate::lines::reads::{Region, place, ready_by};
use hls_base::number::NodeId;
use ir_core::body::{Op, Operand, Out, Source};
use ir_core::cfg::End;
use ir_core::timed::Timed;
use ir_core::timing::latency;
use std::alloc::{AllocError, Global};

fn set_entry(entries: &mut [Option<usize>], out: Out)
    ensures { (k : ℕ) → k < length entries.old → get_or entries.new k None
        ≡ entry_if (flows.is_result k out.value.value) out.variable.0 (get_or entries.old k None) }
{
    if let Source::Result(op) = out.value.value {
        let index = op.0 as usize;
        if index < entries.len() {
            entries[index] = Some(out.variable.0 as usize);
        }
    }
}

/// For each operation the variable with whose value its line begins, which is that of the first out that names it.
fn entries_of(alloc: Global, outs: &[Out], count: usize) -> Result<Vec<Option<usize>>, AllocError>
    ensures count { IfOk result (λ v. length v.items ≡ count) }
    ensures entries { IfOk result (λ v. (k : ℕ) → k < count → get_or v.items k None ≡ entry_in outs.now k) }
{
    let mut entries = vec![in alloc; None; count]?;
    for done in 0..outs.len() {
        set_entry(&mut entries, outs[outs.len() - 1 - done]);
    }
    Ok(entries)
}

fn entry_at(entries: &[Option<usize>], index: usize) -> Option<usize>
    ensures { result ≡ get_or entries.now index None }
{
    if index < entries.len() {
        entries[index]
    } else {
        None
    }
}

/// How many values of an operation are made while one is under way.
fn wait_of(op: &Op<Timed>, interval: u64) -> usize
    ensures { 0 < interval →
        result ≡ (flows.latency (flows.timed_op op.now) - 1) / interval }
{
    u64::from(latency(op.kind, op.bits))
        .saturating_sub(1)
        .checked_div(interval)
        .unwrap_or(0) as usize
}

impl Region<'_> {
    fn reads(&self, alloc: Global, operands: &[Operand], time: u64) -> Result<Vec<Read>, AllocError>
        ensures { IfOk result (λ v. IsOrderly self.now → time < 2 ^ 32 →
            v.items ≡ map (read_of (body_of self.now) time) operands.now) }
    {
        let mut reads = Vec::new(alloc);
        for operand in operands {
            reads.push(self.operand(*operand, time))?;
        }
        Ok(reads)
    }

    fn action(
        &self,
        alloc: Global,
        op: &Op<Timed>,
        known: u64,
        entry: Option<usize>,
    ) -> Result<Action, AllocError>
        ensures { IfOk result (λ a. (k : ℕ) → IsOrderly self.now → op.now.stamp.start < 2 ^ 32 →
            known ≡ flows.known (body_of self.now) → entry ≡ entry_in self.now.body.now.outs.items k →
            IsActionOf self.now.widths.now (body_of self.now) k (flows.timed_op op.now) a) }
    {
        let start = op.stamp.start;
        Ok(Action {
            kind: op.kind,
            signed: op.signed,
            bits: op.bits,
            from_bits: self.first_bits(op),
            args: self.reads(alloc, op.args.as_slice(), start)?,
            array: op.array,
            guard: self.operand_if(op.guard, start),
            start,
            ready: ready_by(op),
            gate: place(self.interval, known, start, 0),
            wait: wait_of(op, self.interval),
            entry,
        })
    }

    /// The operations in order.
    pub fn actions(&self, alloc: Global, known: u64) -> Result<Vec<Action>, AllocError>
        ensures count { IfOk result (λ v. length v.items ≡ length self.now.body.now.ops.items) }
        ensures actions { IfOk result (λ v. IsOrderly self.now → known ≡ flows.known (body_of self.now) →
            AreActionsOf self.now.widths.now (body_of self.now) v.items) }
    {
        let ops = &self.body.ops;
        let entries = entries_of(alloc, &self.body.outs, ops.len())?;
        let mut actions = Vec::new(alloc);
        for (number, op) in ops.iter().enumerate() {
            actions.push(self.action(alloc, op, known, entry_at(&entries, number))?)?;
        }
        Ok(actions)
    }

    /// Where an operand is read so many iterations later.
    fn later(&self, operand: Operand, further: u32, time: u64) -> Read
        ensures { IsOrderly self.now → time < 2 ^ 32 → further ≤ 1 →
            result ≡ read_at (body_of self.now) time (operand.distance + further) operand.value }
    {
        let distance = u64::from(operand.distance).saturating_add(u64::from(further));
        self.read(operand.value, distance, time)
    }

    /// What each variable takes at this time, so many iterations later.
    pub fn assignments(
        &self,
        alloc: Global,
        time: u64,
        further: u32,
    ) -> Result<Vec<Assignment>, AllocError>
        ensures { IfOk result (λ v. IsOrderly self.now → time < 2 ^ 32 → further ≤ 1 →
            v.items ≡ map (assignment_of (body_of self.now) time further) self.now.body.now.outs.items) }
    {
        let mut assignments = Vec::new(alloc);
        for out in &self.body.outs {
            assignments.push(Assignment {
                variable: out.variable.0 as usize,
                value: self.later(out.value, further, time),
            })?;
        }
        Ok(assignments)
    }

    fn case(&self, test: Operand, to: NodeId, time: u64) -> Case
        ensures { IsOrderly self.now → time < 2 ^ 32 → result ≡ case_of (body_of self.now) time (test, to) }
    {
        Case {
            test: self.operand(test, time),
            to,
        }
    }

    fn cases(
        &self,
        alloc: Global,
        cases: &[(Operand, NodeId)],
        time: u64,
    ) -> Result<Vec<Case>, AllocError>
        ensures { IfOk result (λ v. IsOrderly self.now → time < 2 ^ 32 →
            v.items ≡ map (case_of (body_of self.now) time) cases.now) }
    {
        let mut list = Vec::new(alloc);
        for (test, to) in cases {
            list.push(self.case(*test, *to, time))?;
        }
        Ok(list)
    }

    /// Where control goes at this time.
    pub fn way(&self, alloc: Global, end: &End, time: u64) -> Result<Way, AllocError>
        ensures { IfOk result (λ w. IsOrderly self.now → time < 2 ^ 32 →
            IsWayOf (body_of self.now) time end.now w) }
    {
        match end {
            End::Jump(to) => Ok(Way::Choose {
                cases: Vec::new(alloc),
                other: *to,
            }),
            End::Branch { test, yes, no } => {
                let mut cases = Vec::new(alloc);
                cases.push(self.case(*test, *yes, time))?;
                Ok(Way::Choose { cases, other: *no })
            }
            End::Choose { cases, other } => Ok(Way::Choose {
                cases: self.cases(alloc, cases, time)?,
                other: *other,
            }),
            End::Return(value) => Ok(Way::Return(self.operand_if(*value, time))),
        }
    }
}
