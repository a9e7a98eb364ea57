//! Cases that compare one value with different numbers.
ghost use Rattle.std.specs.Prelude.{◌≡◌, ◌++◌, ◌∷◌, [], ℕ, true, map, IfOk};
ghost use Rattle.clock_ir.specs.Flows.{timed_body};
ghost use Rattle.circuit_control.specs.Savings.Cases as spec;
ghost use Rattle.datapath.specs.LeftOut as savings;

use hls_base::number::NodeId;
use indexmap::IndexSet;
use ir_core::body::{Body, Op, OpKind, Operand, Source};
use ir_core::timed::Timed;
use std::alloc::{AllocError, Global};

fn with_number(operand: Operand, other: Source) -> Option<(Operand, u64)>
    ensures { result ≡ savings.with_number operand other }
{
    match other {
        Source::Constant(number) => Some((operand, number)),
        Source::Variable(_) | Source::Result(_) => None,
    }
}

fn arguments_compared(args: &[Operand]) -> Option<(Operand, u64)>
    ensures { result ≡ savings.arguments_compared args.now }
{
    match args {
        [left, right] => with_number(*left, right.value),
        _ => None,
    }
}

fn compared_by(op: &Op<Timed>) -> Option<(Operand, u64)>
    ensures { result ≡ savings.compared_by op.now.kind op.now.args.items }
{
    match op.kind {
        OpKind::Eq => arguments_compared(op.args.as_slice()),
        _ => None,
    }
}

/// What the test of a case compares with a number, and the number.
pub fn comparison(body: &Body<Timed>, test: Operand) -> Option<(Operand, u64)>
    ensures { (interval : ℕ) → result ≡ savings.compared_in (timed_body interval body.now) test.value }
{
    let Source::Result(op) = test.value else {
        return None;
    };
    let index = op.0 as usize;
    if index >= body.ops.len() {
        return None;
    }
    compared_by(&body.ops[index])
}

/// Whether a test compares this operand with a number that is not among these. Then it comes to them.
fn is_other(
    body: &Body<Timed>,
    test: Operand,
    operand: Operand,
    numbers: &mut IndexSet<u64>,
) -> Result<bool, AllocError>
    ensures other { (interval : ℕ) → IfOk result (λ r. r ≡ spec.is_other operand numbers.old.keys (savings.compared_in (timed_body interval body.now) test.value)) }
    ensures more { (interval : ℕ) → IfOk result (λ r. r ≡ true → numbers.new.keys ≡ numbers.old.keys ++ spec.number_in (savings.compared_in (timed_body interval body.now) test.value)) }
{
    let Some((value, number)) = comparison(body, test) else {
        return Ok(false);
    };
    if operand != value {
        return Ok(false);
    }
    let is_new = numbers.insert(number)?;
    Ok(is_new)
}

/// Whether the cases compare this operand with numbers, all different and none this one.
pub fn are_others(
    alloc: Global,
    body: &Body<Timed>,
    operand: Operand,
    number: u64,
    cases: &[(Operand, NodeId)],
) -> Result<bool, AllocError>
    ensures { (interval : ℕ) → IfOk result (λ r. r ≡ spec.all_others operand (number ∷ []) (map (savings.compared (timed_body interval body.now)) cases.now)) }
{
    let mut numbers = IndexSet::new(alloc);
    numbers.insert(number)?;
    for case in cases {
        if !is_other(body, case.0, operand, &mut numbers)? {
            return Ok(false);
        }
    }
    Ok(true)
}
