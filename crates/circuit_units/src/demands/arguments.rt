//! The arguments of operations, as wires.
ghost use Rattle.std.specs.Prelude.{◌≡◌, List, IfOk, IsTrue, get_or, slice_get};
ghost use Rattle.ir_core.specs.declared.body.OpKind.TheVariants as o;
ghost use Rattle.rtl_logic.specs.Making.{circuit};
ghost use Rattle.ir_core.specs.Bodies.{op_of, first_bits, bits_in};
ghost use Rattle.datapath.specs.Plans.{Plan};
ghost use Rattle.datapath.specs.Cycles.{Register};
ghost use Rattle.datapath.specs.CircuitWires.Carrying.{IsBegun};
ghost use Rattle.rtl_logic.specs.Arguments.{IsTakenFrom};
ghost use Rattle.circuit_context.specs.Contexts.{IsContext};
ghost use Rattle.circuit_units.specs.Demands.Placing.{trees, argument_of, CarriesWord, IsFirst, AreRead, IsOfProgram};

use crate::demands::started::Started;
use circuit_context::context::Context;
use hls_base::refusal::impossible;
use ir_core::body::{Op, OpKind, Source};
use ir_core::timed::Timed;
use ir_core::timing::result_bits;
use rtl_core::design::Atom;
use rtl_logic::logic::Logic;
use rtl_logic::operations::{Arguments, argument, constant_widths};
use std::alloc::AllocError;

/// The width of a variable, or so many bits where there is none.
fn variable_bits(variables: &[u8], number: u32, bits: u8) -> u8
    ensures { result ≡ get_or variables.now number bits }
{
    let k = number as usize;
    if k < variables.len() {
        variables[k]
    } else {
        bits
    }
}

/// The width of a result, or so many bits where there is none.
fn bits_of_result(ops: &[Op<Timed>], number: u32, bits: u8) -> u8
    ensures { result ≡ bits_in (slice_get (trees ops.now) number) bits }
{
    let k = number as usize;
    if k < ops.len() {
        result_bits(&ops[k])
    } else {
        bits
    }
}

/// The width of what the first argument names.
fn first_width(variables: &[u8], it: &Started<'_>) -> u8
    ensures { result ≡ first_bits variables.now (trees it.now.ops.now) (op_of it.now.op.now) it.now.op.now.args.items }
{
    let bits = it.op.bits;
    match argument(it.op, 0).value {
        Source::Constant(_) => bits,
        Source::Variable(variable) => variable_bits(variables, variable.0, bits),
        Source::Result(op) => bits_of_result(it.ops, op.0, bits),
    }
}

/// The first argument of an operation that takes one of any width.
fn argument_of_any_width(
    of: &Context<'_>,
    logic: &Logic,
    it: &Started<'_>,
) -> Result<Atom, AllocError>
    requires { IsOfProgram of.now it.now }
    ensures { (p : Plan) (names : List Register) → IsContext p names of.now → IsBegun p names (circuit logic.now)
        → IfOk result (λ a. CarriesWord p names (circuit logic.now) a (argument_of p it.now 0)) }
{
    let atom = of.operand_of_any_width(logic, it.at, argument(it.op, 0), 64)?;
    let width = logic.width(atom);
    if 1 <= width && width <= 64 {
        Ok(atom)
    } else {
        Err(impossible())
    }
}

/// Whether so many bits may stand for a number of `from` bits where the low ones count.
fn is_taken_from(bits: u8, width: u8, from: u8) -> bool
    ensures { IsTrue result → IsTakenFrom bits width from }
{
    width == from || (bits <= width && bits <= from)
}

/// The argument of an operation that widens it.
fn widened_argument(of: &Context<'_>, logic: &Logic, it: &Started<'_>) -> Result<Atom, AllocError>
    requires { IsOfProgram of.now it.now }
    ensures { (p : Plan) (names : List Register) → IsContext p names of.now → IsBegun p names (circuit logic.now) → it.now.op.now.kind ≡ o.Widen
        → IfOk result (IsFirst p names (circuit logic.now) it.now) }
{
    let atom = argument_of_any_width(of, logic, it)?;
    let from = first_width(&of.cfg.frame.variables, it);
    if is_taken_from(it.op.bits, logic.width(atom), from) {
        Ok(atom)
    } else {
        Err(impossible())
    }
}

/// The first argument of an operation.
fn first_argument(of: &Context<'_>, logic: &Logic, it: &Started<'_>) -> Result<Atom, AllocError>
    requires { IsOfProgram of.now it.now }
    ensures { (p : Plan) (names : List Register) → IsContext p names of.now → IsBegun p names (circuit logic.now)
        → IfOk result (IsFirst p names (circuit logic.now) it.now) }
{
    match it.op.kind {
        OpKind::Widen => widened_argument(of, logic, it),
        OpKind::Narrow => argument_of_any_width(of, logic, it),
        _ => of.operand(logic, it.at, argument(it.op, 0), constant_widths(it.op).0),
    }
}

/// The values of an operation's first arguments in the cycle in which it starts.
pub fn arguments(of: &Context<'_>, logic: &Logic, it: &Started<'_>) -> Result<Arguments, AllocError>
    requires { IsOfProgram of.now it.now }
    ensures { (p : Plan) (names : List Register) → IsContext p names of.now → IsBegun p names (circuit logic.now)
        → IfOk result (AreRead p names (circuit logic.now) it.now) }
{
    let (_, second, third) = constant_widths(it.op);
    Ok(Arguments {
        first: first_argument(of, logic, it)?,
        second: of.operand(logic, it.at, argument(it.op, 1), second)?,
        third: of.operand(logic, it.at, argument(it.op, 2), third)?,
    })
}
