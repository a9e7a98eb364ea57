//! What is found of an expression, and how an operator joins what is found of its operands.
ghost use Rattle.std.specs.Prelude.{◌≡◌, ◌++◌, IfOk};
ghost use Rattle.c_meaning.specs.Checks.Faults as order;
ghost use Rattle.c_meaning.specs.Checks.Faults.{least};
ghost use Rattle.c_meaning.specs.Checks.Conflicts.{operand_conflicts};
ghost use Rattle.c_types.specs.Chains as spec;

use c_names::conflicts::accesses::Accesses;
use c_names::conflicts::conflicts::{between, conflict_inside, operand_conflict};
use c_names::declarations::faults::lesser;
use c_tree::operator::Binary;
use hls_base::refusal::Refusal;
use std::alloc::{AllocError, Global};

/// What was found of an expression: its least fault, and its accesses.
#[derive(Drop)]
pub struct Judged {
    pub fault: Option<Refusal>,
    pub accesses: Accesses,
}

/// What was found of a target that is changed, before the value is known: the fault of its use, the conflicts between its subscripts and of the change with them, the least fault inside them, the change itself, and the accesses of the subscripts.
#[derive(Drop)]
pub struct Changed {
    pub used: Option<Refusal>,
    pub conflict: Option<Refusal>,
    pub inside: Option<Refusal>,
    pub fault: Option<Refusal>,
    pub own: Accesses,
    pub subscripts: Accesses,
}

/// An operator, and what was found of all that it joins to the operand at its left, or to the value that it assigns.
#[derive(Drop)]
pub enum Step {
    Binary { op: Binary, right: Judged },
    Comma { right: Judged },
    Assign(Changed),
}

/// What was found of two parts, one after the other.
#[inline(never)]
fn both(alloc: Global, left: Judged, right: Judged) -> Result<Judged, AllocError>
    ensures fault { IfOk result (λ j. j.fault ≡ order.lesser left.fault right.fault) }
    ensures accesses { IfOk result (λ j. j.accesses ≡ left.accesses ++ right.accesses) }
{
    let accesses = left.accesses.followed_by(alloc, right.accesses)?;
    let fault = lesser(left.fault, right.fault);
    Ok(Judged { fault, accesses })
}

/// One of two values, by a test.
#[inline(never)]
pub fn chosen(alloc: Global, test: Judged, yes: Judged, no: Judged) -> Result<Judged, AllocError>
    ensures fault { IfOk result (λ j. j.fault ≡ order.lesser test.fault (order.lesser yes.fault no.fault)) }
    ensures accesses { IfOk result (λ j. j.accesses ≡ test.accesses ++ (yes.accesses ++ no.accesses)) }
{
    let arms = both(alloc, yes, no)?;
    let all = both(alloc, test, arms)?;
    Ok(all)
}

/// The target that is changed to a value with these accesses.
pub fn assigned(alloc: Global, target: Changed, valued: &Accesses) -> Result<Judged, AllocError>
    ensures fault { IfOk result (λ j. j.fault ≡ spec.changed_fault target valued.now) }
    ensures accesses { IfOk result (λ j. j.accesses ≡ target.own ++ target.subscripts) }
{
    let apart = between(&target.subscripts, valued);
    let beside = conflict_inside(&target.own, valued);
    let inner = lesser(target.inside, lesser(beside, target.fault));
    let fault = lesser(target.used, lesser(target.conflict, lesser(apart, inner)));
    let accesses = target.own.followed_by(alloc, target.subscripts)?;
    Ok(Judged { fault, accesses })
}

/// The operator with both its operands.
fn operated(alloc: Global, op: Binary, left: Judged, right: Judged) -> Result<Judged, AllocError>
    ensures fault { IfOk result (λ j. j.fault ≡ order.lesser (least (operand_conflicts op left.accesses right.accesses)) (order.lesser left.fault right.fault)) }
    ensures accesses { IfOk result (λ j. j.accesses ≡ left.accesses ++ right.accesses) }
{
    let conflict = operand_conflict(op, &left.accesses, &right.accesses);
    let inner = both(alloc, left, right)?;
    Ok(Judged {
        fault: lesser(conflict, inner.fault),
        accesses: inner.accesses,
    })
}

/// The assignment with its value.
fn assignment(alloc: Global, target: Changed, value: Judged) -> Result<Judged, AllocError>
    ensures fault { IfOk result (λ j. j.fault ≡ order.lesser (spec.changed_fault target value.accesses) value.fault) }
    ensures accesses { IfOk result (λ j. j.accesses ≡ (target.own ++ target.subscripts) ++ value.accesses) }
{
    let target = assigned(alloc, target, &value.accesses)?;
    let all = both(alloc, target, value)?;
    Ok(all)
}

/// One step outwards from the part that the operator goes on with.
fn stepped(alloc: Global, step: Step, part: Judged) -> Result<Judged, AllocError>
    ensures { IfOk result (λ j. spec.found j.fault j.accesses ≡ spec.step step (spec.found part.fault part.accesses)) }
{
    match step {
        Step::Binary { op, right } => operated(alloc, op, part, right),
        Step::Comma { right } => both(alloc, part, right),
        Step::Assign(target) => assignment(alloc, target, part),
    }
}

/// The whole expression, from its innermost part and the steps outwards from it, of which the last comes first.
pub fn joined(alloc: Global, part: Judged, steps: Vec<Step>) -> Result<Judged, AllocError>
    ensures { IfOk result (λ j. spec.found j.fault j.accesses ≡ spec.steps steps.items (spec.found part.fault part.accesses)) }
{
    let mut steps = steps;
    let mut whole = part;
    while let Some(step) = steps.pop() {
        whole = stepped(alloc, step, whole)?;
    }
    Ok(whole)
}
