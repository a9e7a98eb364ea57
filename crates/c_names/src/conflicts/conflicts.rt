//! Changes in conflict.
ghost use Rattle.std.specs.Prelude.{◌≡◌, ◌++◌, Bool, [], ◌∷◌, if◌then◌else◌};
ghost use Rattle.std.specs.List.{list_any};
ghost use Rattle.c_meaning.specs.Checks.Faults.{least};
ghost use Rattle.c_meaning.specs.Checks.Conflicts.{read, name_of, names_it, changes};
ghost use Rattle.c_meaning.specs.Checks.Conflicts as spec;

use crate::conflicts::accesses::{Access, Accesses, own_fault};
use crate::declarations::faults::lesser;
use c_tree::operator::Binary;
use hls_base::refusal::Refusal;

/// The fault of an access, if it is a change and others are of its name.
fn clash(access: &Access, others: &Accesses) -> Option<Refusal>
    ensures { result ≡ least (spec.clash access.now others.now) }
{
    if others.is_named(&access.name) {
        own_fault(access)
    } else {
        None
    }
}

fn clash_with_changes(access: &Access, others: &Accesses) -> Option<Refusal>
    ensures { result ≡ least (spec.clash access.now (changes others.now)) }
{
    if others.change_fault(&access.name).is_some() {
        own_fault(access)
    } else {
        None
    }
}

/// The least change in conflict between these accesses and the others, in time by these alone.
fn between_each(these: &Accesses, others: &Accesses) -> Option<Refusal>
    ensures { result ≡ least (spec.between these.now others.now) }
{
    let mut worst = None;
    for i in 0..these.len() {
        let access = these.at(i);
        let changed = others.change_fault(&access.name);
        worst = lesser(worst, lesser(clash(access, others), changed));
    }
    worst
}

/// The least change in conflict between two parts without an order.
#[tactic(auto, using(crate::proofs::ConflictsLemmas::Conflicting::between_turned))]
pub fn between(these: &Accesses, those: &Accesses) -> Option<Refusal>
    ensures { result ≡ least (spec.between these.now those.now) }
{
    if these.len() <= those.len() {
        between_each(these, those)
    } else {
        between_each(those, these)
    }
}

/// The least change in conflict between the operands of an operator.
pub fn operand_conflict(op: Binary, left: &Accesses, right: &Accesses) -> Option<Refusal>
    ensures { result ≡ least (spec.operand_conflicts op left.now right.now) }
{
    match op {
        Binary::LogAnd | Binary::LogOr => None,
        _ => between(left, right),
    }
}

/// The least change in conflict between an access and the changes inside it.
pub fn conflict_inside(own: &Accesses, inner: &Accesses) -> Option<Refusal>
    ensures { result ≡ least (spec.conflicts_inside own.now inner.now) }
{
    let mut worst = None;
    for i in 0..own.len() {
        let access = own.at(i);
        let changed = inner.change_fault(&access.name);
        worst = lesser(worst, lesser(clash_with_changes(access, inner), changed));
    }
    worst
}
