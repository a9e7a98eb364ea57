//! Calls, which are replaced by what the called function does.
ghost use Rattle.std.specs.Prelude.{◌≡◌, ◌∷◌, ◌++◌, IfOk, map, [], drop, slice_get, Some, true};
ghost use Rattle.std.specs.Option.{option_map};
ghost use Rattle.hls_base.specs.Refusals.{IfRefused};
ghost use Rattle.pieces.specs.Resolved.Core.{argument_row};
ghost use Rattle.pieces.specs.Resolved.CoreView.{core_argument_of, core_function_of, core_object_of};
ghost use Rattle.pieces.specs.View.{pure_of, piece_of};
ghost use Rattle.piece_making.specs.Calls.{call_of, point_in};
ghost use Rattle.piece_making.specs.Stocks.{IsMade, IsTooHeavy, state_of, stock};
ghost use Rattle.c_expand.specs.Callees.{callee_of, call_at, given_of};
ghost use Rattle.c_expand.specs.Expressions.{argument, arguments, called};
ghost use Rattle.c_expand.specs.Expansion.{run_through, end_of, homes_for, parameter, parameters, locals, value_of, opened};

use crate::emitting::mark;
use crate::expressions::expression;
use crate::held::{Held, save, set};
use crate::here::{Here, deeper, one_more_open};
use crate::statements::block;
use c_token::ctype::CType;
use hls_base::number::{ArrayId, VarId};
use hls_base::place::{Path, Place};
use hls_base::point::{Point, PointKind};
use hls_base::refusal::{Fail, impossible};
use piece_making::effects::{Effects, effects_of_arguments};
use piece_making::frame::{Context, Frame, Home};
use piece_making::leaving::any_leaves;
use piece_making::objects::local;
use piece_making::work::Work;
use pieces::piece::{CallId, Piece};
use pieces::pure_expr::Pure;
use pieces::resolved::expression::Argument;
use pieces::resolved::program::{CoreFunction, CoreObject, CoreProgram};
use std::alloc::{AllocError, Global};

/// What is given for a parameter: a value, or an array of the caller.
#[derive(Drop)]
pub enum Given {
    Value(Held),
    Array(ArrayId),
}

/// A call: its arguments are evaluated, then its parameters are set, and then it is run through. The variable of its result stands for it.
#[inline(never)]
#[cycle(expansion)]
pub fn called(
    here: Here,
    work: &mut Work,
    function: u32,
    args: &[Argument],
    at: Place,
) -> Result<Option<Held>, Fail>
    ensures made { IfOk result (λ v. IsMade (stock work.old) (stock work.new) (option_map pure_of v) (called (callee_of here.entry) (call_at here.entry) function (argument_row (map core_argument_of args.now)) at (state_of (stock work.old)))) }
    ensures refused { IfRefused result (λ r. IsTooHeavy (stock work.old) r (called (callee_of here.entry) (call_at here.entry) function (argument_row (map core_argument_of args.now)) at (state_of (stock work.old)))) }
{
    let depth = deeper(here.depth)?;
    let here = Here { depth, ..here };
    let given = arguments(here, work, args)?;
    let calls = one_more_open(here.calls)?;
    let function = function_at(here.frame.context.core, function)?;
    opened(Here { calls, ..here }, work, function, given, at)
}

/// The function with this number. There is one.
pub fn function_at(program: &CoreProgram, number: u32) -> Result<&CoreFunction, AllocError>
    ensures { IfOk result (λ f. slice_get (map core_function_of program.now.functions.items) number ≡ Some (core_function_of f.now)) }
{
    program.functions.get(number as usize).ok_or(impossible())
}

/// A call of this function from here, in which so many calls may be opened.
#[inline(never)]
#[cycle(expansion)]
fn opened(
    here: Here,
    work: &mut Work,
    function: &CoreFunction,
    given: Vec<Given>,
    at: Place,
) -> Result<Option<Held>, Fail>
    ensures made { IfOk result (λ v. IsMade (stock work.old) (stock work.new) (option_map pure_of v) (opened (callee_of here.entry) (core_function_of function.now) (map given_of given.items) (call_at here.entry) at (state_of (stock work.old)))) }
    ensures refused { IfRefused result (λ r. IsTooHeavy (stock work.old) r (opened (callee_of here.entry) (core_function_of function.now) (map given_of given.items) (call_at here.entry) at (state_of (stock work.old)))) }
{
    let Here {
        frame,
        calls,
        depth,
    } = here;
    let depth = deeper(depth)?;
    let context = frame.context;
    let homes = homes(context, work, function, given)?;
    let path = path_behind(context.alloc, &frame.path, at)?;
    let call = work.next_call()?;
    let result = work.fresh_result(function.result)?;
    let callee = Frame {
        context,
        function,
        homes,
        path,
        call,
        result,
    };
    run_through(
        Here {
            frame: &callee,
            calls,
            depth,
        },
        work,
    )?;
    Ok(value_of(context.alloc, result, function.result)?)
}

/// The variable of a call's result.
#[inline(never)]
fn value_of(
    alloc: Global,
    variable: Option<VarId>,
    kind: Option<CType>,
) -> Result<Option<Held>, AllocError>
    ensures { IfOk result (λ v. option_map pure_of v ≡ value_of variable kind) }
{
    match (variable, kind) {
        (Some(own), Some(kind)) => Ok(Some(Held::new(alloc, Pure::Variable(own, kind))?)),
        _ => Ok(None),
    }
}

/// The body of a function, between its points.
#[inline(never)]
#[cycle(expansion)]
pub fn run_through(here: Here, work: &mut Work) -> Result<(), Fail>
    ensures made { IfOk result (λ v. IsMade (stock work.old) (stock work.new) v (run_through (callee_of here.entry) (call_at here.entry) (core_function_of here.entry.frame.now.function.now) (state_of (stock work.old)))) }
    ensures refused { IfRefused result (λ r. IsTooHeavy (stock work.old) r (run_through (callee_of here.entry) (call_at here.entry) (core_function_of here.entry.frame.now.function.now) (state_of (stock work.old)))) }
{
    let depth = deeper(here.depth)?;
    let here = Here { depth, ..here };
    let frame = here.frame;
    let at = frame.function.at;
    let body = frame.function.body.as_slice();
    mark(frame, work, PointKind::Begin, at)?;
    block(here, work, body, true)?;
    let point = frame.point(PointKind::End, at)?;
    let leaves = any_leaves(body, true);
    let end = end_of(leaves, frame.call, point);
    work.emit(end)
}

/// The End of a call, which a return in it may leave to.
fn end_of(leaves: bool, call: CallId, end: Point) -> Piece
    ensures { piece_of result ≡ end_of leaves call end }
{
    if leaves {
        Piece::Land(call, end)
    } else {
        Piece::Mark(end)
    }
}

/// The arguments of a call, from left to right. What each of them reads is saved where a later one has effects.
#[inline(never)]
#[cycle(expansion)]
fn arguments(here: Here, work: &mut Work, args: &[Argument]) -> Result<Vec<Given>, Fail>
    ensures made { IfOk result (λ v. IsMade (stock work.old) (stock work.new) (map given_of v.items) (arguments (callee_of here.entry) (call_at here.entry) (argument_row (map core_argument_of args.now)) [] (state_of (stock work.old)))) }
    ensures refused { IfRefused result (λ r. IsTooHeavy (stock work.old) r (arguments (callee_of here.entry) (call_at here.entry) (argument_row (map core_argument_of args.now)) [] (state_of (stock work.old)))) }
{
    let depth = deeper(here.depth)?;
    let here = Here { depth, ..here };
    let mut all = Vec::new(here.frame.context.alloc);
    for (i, arg) in args.iter().enumerate() {
        let later = effects_of_arguments(&args[i + 1..]);
        let given = argument(here, work, arg, later)?;
        all.push(given)?;
    }
    Ok(all)
}

/// An argument behind which the evaluation has these effects.
#[cycle(expansion)]
fn argument(here: Here, work: &mut Work, arg: &Argument, later: Effects) -> Result<Given, Fail>
    ensures made { IfOk result (λ v. IsMade (stock work.old) (stock work.new) (given_of v) (argument (callee_of here.entry) (call_at here.entry) (core_argument_of arg.now) later (state_of (stock work.old)))) }
    ensures refused { IfRefused result (λ r. IsTooHeavy (stock work.old) r (argument (callee_of here.entry) (call_at here.entry) (core_argument_of arg.now) later (state_of (stock work.old)))) }
{
    let depth = deeper(here.depth)?;
    let here = Here { depth, ..here };
    match arg {
        Argument::Array(cell) => Ok(Given::Array(here.frame.array(work, *cell)?)),
        Argument::Value(e) => {
            let value = expression(here, work, e)?;
            let kept = save(here.frame.context, work, value, later)?;
            Ok(Given::Value(kept))
        }
    }
}

/// What stands for the objects of a call: its parameters, and then the local objects.
fn homes(
    context: &Context,
    work: &mut Work,
    function: &CoreFunction,
    given: Vec<Given>,
) -> Result<Vec<Home>, Fail>
    ensures made { IfOk result (λ v. IsMade (stock work.old) (stock work.new) v.items (homes_for (core_function_of function.now) (map given_of given.items) (state_of (stock work.old)))) }
    ensures refused { IfRefused result (λ r. IsTooHeavy (stock work.old) r (homes_for (core_function_of function.now) (map given_of given.items) (state_of (stock work.old)))) }
{
    let objects = function.objects.as_slice();
    let mut homes = parameters(context.alloc, work, objects, given)?;
    add_locals(work, function, &mut homes)?;
    Ok(homes)
}

/// What stands for the parameters, which are the first of these objects.
fn parameters(
    alloc: Global,
    work: &mut Work,
    objects: &[CoreObject],
    given: Vec<Given>,
) -> Result<Vec<Home>, Fail>
    ensures made { IfOk result (λ v. IsMade (stock work.old) (stock work.new) v.items (parameters (map core_object_of objects.now) (map given_of given.items) [] (state_of (stock work.old)))) }
    ensures refused { IfRefused result (λ r. IsTooHeavy (stock work.old) r (parameters (map core_object_of objects.now) (map given_of given.items) [] (state_of (stock work.old)))) }
{
    let mut homes = Vec::with_capacity(alloc, objects.len())?;
    for one in given {
        let count = homes.len();
        let object = object_at(objects, count)?;
        let home = parameter(work, object, one)?;
        homes.push(home)?;
    }
    Ok(homes)
}

/// The object with this number. There is one.
fn object_at(objects: &[CoreObject], number: usize) -> Result<&CoreObject, AllocError>
    ensures { IfOk result (λ o. slice_get (map core_object_of objects.now) number ≡ Some (core_object_of o.now)) }
{
    objects.get(number).ok_or(impossible())
}

/// A variable of its own for a scalar parameter, which is set, and the caller's array for an array parameter.
fn parameter(work: &mut Work, object: &CoreObject, given: Given) -> Result<Home, Fail>
    ensures made { IfOk result (λ v. IsMade (stock work.old) (stock work.new) v (parameter (core_object_of object.now) (given_of given) (state_of (stock work.old)))) }
    ensures refused { IfRefused result (λ r. IsTooHeavy (stock work.old) r (parameter (core_object_of object.now) (given_of given) (state_of (stock work.old)))) }
{
    match given {
        Given::Array(array) => Ok(Home::Array(array)),
        Given::Value(value) => {
            let own = work.fresh(object.kind)?;
            set(work, own, value)?;
            Ok(Home::Variable(own))
        }
    }
}

/// What stands for the objects of a call behind its parameters.
pub fn add_locals(
    work: &mut Work,
    function: &CoreFunction,
    homes: &mut Vec<Home>,
) -> Result<(), AllocError>
    ensures { IfOk result (λ v. IsMade (stock work.old) (stock work.new) homes.new.items (locals (drop function.now.params (map core_object_of function.now.objects.items)) homes.old.items (state_of (stock work.old)))) }
{
    for object in locals_of(function) {
        let home = local(work, object)?;
        homes.push(home)?;
    }
    Ok(())
}

/// The objects of a function that are no parameters.
fn locals_of(function: &CoreFunction) -> &[CoreObject]
    ensures { map core_object_of result.now ≡ drop function.now.params (map core_object_of function.now.objects.items) }
{
    let objects = function.objects.as_slice();
    let params = function.params as usize;
    if params <= objects.len() {
        &objects[params..]
    } else {
        &[]
    }
}

fn path_behind(alloc: Global, path: &Path, at: Place) -> Result<Path, AllocError>
    ensures { IfOk result (λ p. p ≡ path.now ++ at ∷ []) }
{
    let mut places = Vec::from_slice(alloc, path.items())?;
    places.push(at)?;
    Ok(Path::new(places))
}
