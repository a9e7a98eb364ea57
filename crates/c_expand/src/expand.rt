//! The expansion of a program.
ghost use Rattle.std.specs.Prelude.{◌≡◌, ◌≤◌, IfOk, map, [], take};
ghost use Rattle.hls_base.specs.Refusals.{IfRefused};
ghost use Rattle.pieces.specs.Resolved.CoreView.{core_object_of, file_object_of, core_function_of, core_program_of};
ghost use Rattle.pieces.specs.Program.{expanded_of};
ghost use Rattle.piece_making.specs.Stocks.{IsMade, IsTooHeavy, state_of, stock};
ghost use Rattle.c_expand.specs.Expansion.{IsOverweight, expansion, expanded_weight, kept_scalars, kept_scalar, is_kept, file_homes, file_home, kept_behind, top_parameters, top_parameter, variables_of, top_call, top_run};
ghost use Rattle.c_expand.specs.Callees.{functions_of};
ghost use Rattle.c_expand.specs.Outlines.{outline_of};

use crate::calls::{add_locals, function_at, run_through};
use crate::here::Here;
use hls_base::number::{Kept, VarId};
use hls_base::place::Path;
use hls_base::refusal::{Fail, impossible};
use piece_making::frame::{Context, Frame, Home};
use piece_making::objects::{file_array, first_value, host_array};
use piece_making::work::Work;
use pieces::expanded::Expanded;
use pieces::resolved::program::{CoreFunction, CoreObject, CoreProgram, FileObject};
use std::alloc::{AllocError, Global};

/// The pieces of a program. It is refused where they weigh too much.
pub fn expand(alloc: Global, program: &CoreProgram) -> Result<Expanded, Fail>
    ensures made { IfOk result (λ e. expanded_of e ≡ expansion (core_program_of program.now)) }
    ensures within { IfOk result (λ e. expanded_weight (core_program_of program.now) ≤ 8192) }
    ensures refused { IfRefused result (λ r. IsOverweight (core_program_of program.now) r) }
{
    let top = function_at(program, program.top)?;
    let mut work = Work::new(alloc, top.at);
    let outline = run(alloc, &mut work, program, top)?;
    let (pieces, variables, arrays) = work.finished();
    let name = top.name.copy(alloc)?;
    let Outline {
        kept,
        params,
        result,
    } = outline;
    Ok(Expanded {
        pieces,
        variables,
        arrays,
        params,
        kept,
        ret: top.result,
        result,
        name,
    })
}

/// What the expanded program has beside its pieces: the scalars of file scope, the parameters, and the variable of the result.
#[derive(Drop)]
pub struct Outline {
    kept: Vec<Kept>,
    params: Vec<VarId>,
    result: Option<VarId>,
}

/// The call of the top function, behind the objects of file scope.
fn run(
    alloc: Global,
    work: &mut Work,
    program: &CoreProgram,
    top: &CoreFunction,
) -> Result<Outline, Fail>
    ensures made { IfOk result (λ v. IsMade (stock work.old) (stock work.new) (outline_of v) (top_run (core_program_of program.now) (core_function_of top.now) (state_of (stock work.old)))) }
    ensures refused { IfRefused result (λ r. IsTooHeavy (stock work.old) r (top_run (core_program_of program.now) (core_function_of top.now) (state_of (stock work.old)))) }
{
    let kept = kept_scalars(alloc, work, &program.file)?;
    let file_variables = work.variable_count()?;
    let params = parameters(alloc, work, top)?;
    let variables = variables_of(alloc, &params)?;
    let file = file_homes(alloc, work, &program.file, &kept)?;
    let mut homes = params;
    add_locals(work, top, &mut homes)?;
    let context = Context {
        alloc,
        core: program,
        file,
        file_variables,
    };
    let result = top_call(&context, work, top, homes)?;
    Ok(Outline {
        kept,
        params: variables,
        result,
    })
}

/// The call of the top function, for whose objects these stand. Answers the variable of its result.
fn top_call(
    context: &Context,
    work: &mut Work,
    top: &CoreFunction,
    homes: Vec<Home>,
) -> Result<Option<VarId>, Fail>
    ensures made { IfOk result (λ v. IsMade (stock work.old) (stock work.new) v (top_call (functions_of context.now) (core_function_of top.now) context.now.file.items context.now.file_variables homes.items (state_of (stock work.old)))) }
    ensures refused { IfRefused result (λ r. IsTooHeavy (stock work.old) r (top_call (functions_of context.now) (core_function_of top.now) context.now.file.items context.now.file_variables homes.items (state_of (stock work.old)))) }
{
    let call = work.next_call()?;
    let result = work.fresh_result(top.result)?;
    let frame = Frame {
        context,
        function: top,
        homes,
        path: Path::new(Vec::new(context.alloc)),
        call,
        result,
    };
    let calls = context.core.functions.len();
    let here = Here {
        frame: &frame,
        calls,
        depth: u32::MAX,
    };
    run_through(here, work)?;
    Ok(result)
}

/// Variables for the scalars of file scope that are not const.
fn kept_scalars(alloc: Global, work: &mut Work, file: &[FileObject]) -> Result<Vec<Kept>, Fail>
    ensures made { IfOk result (λ v. IsMade (stock work.old) (stock work.new) v.items (kept_scalars (map file_object_of file.now) [] (state_of (stock work.old)))) }
    ensures refused { IfRefused result (λ r. IsTooHeavy (stock work.old) r (kept_scalars (map file_object_of file.now) [] (state_of (stock work.old)))) }
{
    let mut kept = Vec::new(alloc);
    for one in file {
        if is_kept(one) {
            let scalar = kept_scalar(work, one)?;
            kept.push(scalar)?;
        }
    }
    Ok(kept)
}

/// The variable of a scalar of file scope that is not const, and its first value.
fn kept_scalar(work: &mut Work, file: &FileObject) -> Result<Kept, Fail>
    ensures made { IfOk result (λ v. IsMade (stock work.old) (stock work.new) v (kept_scalar (file_object_of file.now) (state_of (stock work.old)))) }
    ensures refused { IfRefused result (λ r. IsTooHeavy (stock work.old) r (kept_scalar (file_object_of file.now) (state_of (stock work.old)))) }
{
    work.charge(1)?;
    let variable = work.fresh(file.object.kind)?;
    let value = first_value(&file.first)?;
    Ok(Kept { variable, value })
}

/// Whether an object of file scope is a scalar that is not const.
fn is_kept(file: &FileObject) -> bool
    ensures { result ≡ is_kept (file_object_of file.now) }
{
    file.object.lengths.is_empty() && !file.object.constant
}

/// What stands for the objects of file scope.
fn file_homes(
    alloc: Global,
    work: &mut Work,
    file: &[FileObject],
    kept: &[Kept],
) -> Result<Vec<Home>, Fail>
    ensures made { IfOk result (λ v. IsMade (stock work.old) (stock work.new) v.items (file_homes (map file_object_of file.now) kept.now [] (state_of (stock work.old)))) }
    ensures refused { IfRefused result (λ r. IsTooHeavy (stock work.old) r (file_homes (map file_object_of file.now) kept.now [] (state_of (stock work.old)))) }
{
    let mut homes = Vec::with_capacity(alloc, file.len())?;
    let mut kept = kept;
    for object in file {
        let home = file_home(alloc, work, object, kept)?;
        homes.push(home)?;
        kept = kept_behind(object, kept);
    }
    Ok(homes)
}

/// What stands for an object of file scope: the first of these variables for a scalar that is not const.
fn file_home(alloc: Global, work: &mut Work, file: &FileObject, kept: &[Kept]) -> Result<Home, Fail>
    ensures made { IfOk result (λ v. IsMade (stock work.old) (stock work.new) v (file_home (file_object_of file.now) kept.now (state_of (stock work.old)))) }
    ensures refused { IfRefused result (λ r. IsTooHeavy (stock work.old) r (file_home (file_object_of file.now) kept.now (state_of (stock work.old)))) }
{
    if !file.object.lengths.is_empty() {
        return file_array(alloc, work, file);
    }
    if file.object.constant {
        return Ok(Home::Constant(first_value(&file.first)?));
    }
    let first = kept.first().ok_or(impossible())?;
    Ok(Home::Variable(first.variable))
}

/// The variables of the objects behind this one.
fn kept_behind<'k>(file: &FileObject, kept: &'k [Kept]) -> &'k [Kept]
    ensures { result.now ≡ kept_behind (file_object_of file.now) kept.now }
{
    if is_kept(file) && !kept.is_empty() {
        &kept[1..]
    } else {
        kept
    }
}

/// What stands for the parameters of the top function.
fn parameters(alloc: Global, work: &mut Work, top: &CoreFunction) -> Result<Vec<Home>, AllocError>
    ensures { IfOk result (λ v. IsMade (stock work.old) (stock work.new) v.items (top_parameters (take top.now.params (map core_object_of top.now.objects.items)) [] (state_of (stock work.old)))) }
{
    let mut homes = Vec::with_capacity(alloc, top.objects.len())?;
    for object in params_of(top) {
        let home = parameter(alloc, work, object)?;
        homes.push(home)?;
    }
    Ok(homes)
}

/// The objects of a function that are its parameters.
#[tactic(auto, using(crate::proofs::Homes::taken_objects))]
fn params_of(function: &CoreFunction) -> &[CoreObject]
    ensures { map core_object_of result.now ≡ take function.now.params (map core_object_of function.now.objects.items) }
{
    let objects = function.objects.as_slice();
    let params = function.params as usize;
    if params <= objects.len() {
        &objects[..params]
    } else {
        objects
    }
}

/// A variable, or an array that the host reaches.
fn parameter(alloc: Global, work: &mut Work, object: &CoreObject) -> Result<Home, AllocError>
    ensures { IfOk result (λ h. IsMade (stock work.old) (stock work.new) h (top_parameter (core_object_of object.now) (state_of (stock work.old)))) }
{
    if object.lengths.is_empty() {
        Ok(Home::Variable(work.fresh(object.kind)?))
    } else {
        host_array(alloc, work, object)
    }
}

/// The variables among these.
fn variables_of(alloc: Global, homes: &[Home]) -> Result<Vec<VarId>, AllocError>
    ensures { IfOk result (λ v. v.items ≡ variables_of homes.now) }
{
    let mut variables = Vec::new(alloc);
    for home in homes {
        if let Home::Variable(variable) = home {
            variables.push(*variable)?;
        }
    }
    Ok(variables)
}
