//! The arms of a switch: at which pieces they begin, which of them the labels name, and their blocks while they grow.
ghost use Rattle.std.specs.Prelude.{◌≡◌, ◌<◌, ℕ, ◌==◌, ◌||◌, ◌&&◌, ◌++◌, nat_lt, suc, false, List, length, get_or, IfOk, if◌then◌else◌, map};
ghost use Rattle.ir_core.specs.Trees.{ArmTrees, arm_row, sequence_of, part_of, part_row};
ghost use Rattle.passes.specs.Lowering as spec;
ghost use Rattle.ir_lower.specs.Arms.{begins_arm, arms_until};
ghost use Rattle.ir_lower.specs.Lines.{first_parts, later_arms};

use crate::line::Line;
use hls_base::point::Point;
use hls_base::refusal::impossible;
use ir_core::tree::{Part, Sequence};
use pieces::piece::Label;
use std::alloc::{AllocError, Global};

/// Marks the piece that a label names, if it is there.
fn mark(named: &mut Vec<bool>, target: u32)
    ensures marks { (i : ℕ) → get_or named.new.items i false ≡ (get_or named.old.items i false || (nat_lt i (length named.old.items) && target == i)) }
    ensures count { length named.new.items ≡ length named.old.items }
{
    let index = target as usize;
    if index < named.len() {
        named[index] = true;
    }
}

/// For each of so many pieces whether an arm begins at it.
pub fn arm_begins(alloc: Global, labels: &[Label], pieces: usize) -> Result<Vec<bool>, AllocError>
    ensures { (i : ℕ) → IfOk result (λ named. get_or named.items i false ≡ begins_arm labels.now pieces i) }
{
    let mut named = vec![in alloc; false; pieces]?;
    for label in labels {
        mark(&mut named, label.target);
    }
    Ok(named)
}

/// Whether an arm begins at the piece with this index.
pub fn begins(named: &Vec<bool>, index: usize) -> bool
    ensures { result ≡ get_or named.now.items index false }
{
    index < named.len() && named[index]
}

/// One more where an arm begins.
fn counted(count: u32, begins: bool) -> Result<u32, AllocError>
    ensures { IfOk result (λ n. n ≡ (if begins then suc count else count)) }
{
    if begins {
        count.checked_add(1).ok_or(impossible())
    } else {
        Ok(count)
    }
}

/// For each of so many pieces how many arms begin before it.
fn arm_counts(alloc: Global, labels: &[Label], pieces: usize) -> Result<Vec<u32>, AllocError>
    ensures { (i : ℕ) → IfOk result (λ counts. get_or counts.items i 0 ≡ arms_until labels.now pieces i) }
{
    let named = arm_begins(alloc, labels, pieces)?;
    let mut counts = Vec::new(alloc);
    let mut count = 0u32;
    for i in 0..pieces {
        counts.push(count)?;
        count = counted(count, begins(&named, i))?;
    }
    Ok(counts)
}

/// The number of the arm that begins at the label's piece.
fn arm_number(counts: &Vec<u32>, label: Label) -> u32
    ensures { result ≡ get_or counts.now.items label.target 0 }
{
    let index = label.target as usize;
    if index < counts.len() {
        counts[index]
    } else {
        0
    }
}

/// Adds the arm of a label with a value.
fn add_target(targets: &mut Vec<u32>, value: Option<u64>, arm: u32) -> Result<(), AllocError>
    ensures { (rest : List ℕ) → IfOk result (λ u. targets.new.items ++ rest ≡ targets.old.items ++ spec.with_target value arm rest) }
{
    match value {
        Some(_) => {
            targets.push(arm)?;
            Ok(())
        }
        None => Ok(()),
    }
}

/// The arm of each label with a value.
pub fn targets(alloc: Global, labels: &[Label], pieces: usize) -> Result<Vec<u32>, AllocError>
    ensures { IfOk result (λ targets. targets.items ≡ spec.targets labels.now pieces labels.now) }
{
    let counts = arm_counts(alloc, labels, pieces)?;
    let mut targets = Vec::new(alloc);
    for label in labels {
        add_target(&mut targets, label.value, arm_number(&counts, *label))?;
    }
    Ok(targets)
}

/// The arm of the label without a value.
pub fn other_target(
    alloc: Global,
    labels: &[Label],
    pieces: usize,
) -> Result<Option<u32>, AllocError>
    ensures { IfOk result (λ arm. arm ≡ spec.other labels.now pieces labels.now) }
{
    let counts = arm_counts(alloc, labels, pieces)?;
    for label in labels {
        if label.value.is_none() {
            return Ok(Some(arm_number(&counts, *label)));
        }
    }
    Ok(None)
}

/// The arms of a switch while they grow: those that are closed, behind what stands before the first one, and the one that is open.
#[derive(Drop)]
pub struct Arms {
    pub closed: Vec<Sequence>,
    pub line: Box<Line>,
}

/// The parts that stand before the first arm of a switch and are never reached, and the arms.
#[derive(Drop)]
pub struct Blocks {
    pub dead: Vec<Part>,
    pub arms: Vec<Sequence>,
}

impl Arms {
    ghost use Rattle.std.specs.Prelude.{◌≡◌, IfOk, if◌then◌else◌, map};
    ghost use Rattle.ir_core.specs.Trees.{break_, ArmTrees, no_arm, more_arms, sequence_of, part_of, part_row, arm_row};
    ghost use Rattle.passes.specs.Lowering.Blocks.{begun};
    ghost use Rattle.passes.specs.Lowering.{Rest, last};
    ghost use Rattle.ir_lower.specs.Lines.{ended_arms, first_parts, later_arms};

    /// What stands before the first arm begins.
    pub fn new(alloc: Global, point: &Point) -> Result<Arms, AllocError>
        ensures { (rest : Rest) (more : ArmTrees) → IfOk result (λ arms. ended_arms arms rest more ≡ more_arms (rest (record (begun point.now) { exit = break_ })) more) }
    {
        Ok(Arms {
            closed: Vec::new(alloc),
            line: Line::dead(alloc, point)?,
        })
    }

    /// Where an arm begins, the one that was open is closed.
    #[inline(never)]
    pub fn begin(self, alloc: Global, begins: bool, point: &Point) -> Result<Arms, AllocError>
        ensures { (rest : Rest) (more : ArmTrees) → IfOk result (λ arms. ended_arms arms rest more ≡ (if begins then ended_arms self last (more_arms (rest (begun point.now)) more) else ended_arms self rest more)) }
    {
        if !begins {
            return Ok(self);
        }
        let Arms { mut closed, line } = self;
        let arm = Line::finish(alloc, line)?;
        closed.push(Box::into_inner(arm))?;
        Ok(Arms {
            closed,
            line: Line::new(alloc, point)?,
        })
    }

    /// The last arm is closed.
    #[inline(never)]
    pub fn finish(self, alloc: Global) -> Result<Blocks, AllocError>
        ensures dead { IfOk result (λ blocks. part_row (map part_of blocks.dead.items) ≡ first_parts (ended_arms self last no_arm)) }
        ensures arms { IfOk result (λ blocks. arm_row (map sequence_of blocks.arms.items) ≡ later_arms (ended_arms self last no_arm)) }
    {
        let Arms { mut closed, line } = self;
        let arm = Line::finish(alloc, line)?;
        closed.push(Box::into_inner(arm))?;
        Ok(split_first(closed))
    }
}

/// The parts of the first sequence, and the sequences behind it.
fn split_first(sequences: Vec<Sequence>) -> Blocks
    requires { 0 < length sequences.items }
    ensures dead { part_row (map part_of result.dead.items) ≡ first_parts (arm_row (map sequence_of sequences.items)) }
    ensures arms { arm_row (map sequence_of result.arms.items) ≡ later_arms (arm_row (map sequence_of sequences.items)) }
{
    let mut arms = sequences;
    let Sequence {
        first: _first,
        rest: dead,
    } = arms.remove(0);
    Blocks { dead, arms }
}
