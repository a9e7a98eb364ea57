ghost use Rattle.std.specs.Prelude.{IfOk};
ghost use Rattle.unit_binding.specs.Copies.{IsTimedCopy, IsTimedBody, IsEndCopy};

use ir_core::body::{Body, Op, Operand, Out};
use ir_core::cfg::End;
use ir_core::stamp::Untimed;
use ir_core::timed::Timed;
use smallvec::SmallVec;
use std::alloc::{AllocError, Global};

/// Another owner of an operation, which starts at the given time.
fn timed_op(alloc: Global, op: &Op<Untimed>, stamp: Timed) -> Result<Op<Timed>, AllocError>
    ensures { IfOk result (IsTimedCopy op.now stamp.start stamp.bound) }
{
    let args: SmallVec<Operand, 4, Global> = SmallVec::from_slice(alloc, &op.args)?;
    Ok(Op {
        kind: op.kind,
        signed: op.signed,
        bits: op.bits,
        args,
        array: op.array,
        guard: op.guard,
        flag: op.flag,
        stamp,
    })
}

/// The operations of a body, each with its time and the number of its unit. The time of operation k is that of node k + 1.
pub fn timed_body(
    alloc: Global,
    body: &Body<Untimed>,
    times: &[u64],
    unit_of: &[u32],
) -> Result<Body<Timed>, AllocError>
    ensures { IfOk result (IsTimedBody times.now unit_of.now body.now) }
{
    let mut ops: Vec<Op<Timed>> = Vec::with_capacity(alloc, body.ops.len())?;
    for (number, op) in body.ops.iter().enumerate() {
        let start = if number + 1 < times.len() {
            times[number + 1]
        } else {
            0
        };
        let bound = if number < unit_of.len() {
            unit_of[number]
        } else {
            0
        };
        ops.push(timed_op(alloc, op, Timed { start, bound })?)?;
    }
    let outs: Vec<Out> = Vec::from_slice(alloc, &body.outs)?;
    Ok(Body {
        ops,
        outs,
        test: body.test,
    })
}

/// Another owner of the end of a block.
pub fn end_copy(alloc: Global, end: &End) -> Result<End, AllocError>
    ensures { IfOk result (IsEndCopy end.now) }
{
    match end {
        End::Jump(next) => Ok(End::Jump(*next)),
        End::Branch { test, yes, no } => Ok(End::Branch {
            test: *test,
            yes: *yes,
            no: *no,
        }),
        End::Choose { cases, other } => Ok(End::Choose {
            cases: Vec::from_slice(alloc, cases)?,
            other: *other,
        }),
        End::Return(value) => Ok(End::Return(*value)),
    }
}
