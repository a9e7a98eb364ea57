//! Runs of the top function.
ghost use Rattle.std.specs.Prelude.{◌≡◌, Some, IfOk};
ghost use Rattle.c_tree.specs.View.{function_of, program_of};
ghost use Rattle.c_meaning.specs.Declarations.{objects_of};
ghost use Rattle.c_moves.specs.Machines.{configuration_of};
ghost use Rattle.c_interpreter.specs.Execution.Runs.{top_function, is_begun, outcome_by, at_end, left_or};
ghost use Rattle.c_meaning.specs.Run.{contents_of};

mod beginning;

use crate::execution::outcome::final_of;
pub use crate::execution::run::beginning::start;
use crate::passing::run;
use c_machine::state::file_scope::{FileContents, contents, file_names};
use c_machine::state::inputs::{started_objects, top_arguments};
use c_machine::waiting::frame::Control;
use c_meaning::checks::Checked;
use c_meaning::outcome::Outcome;
use c_moves::machine::Machine;
use c_tree::function::Function;
use c_tree::object::Object as Declared;
use c_tree::program::Item;
use hls_base::inputs::Inputs;
use std::alloc::{AllocError, Global};
use std::marker::Model;

/// A run of a program's top function.
#[derive(Drop)]
pub struct Run<'p> {
    checked: &'p Checked,
    declared: Vec<&'p Declared>,
    kept: FileContents,
    inputs: Inputs,
    machine: Machine<'p>,
}

impl<'p> Model for Run<'p> {
    ghost use Rattle.c_interpreter.specs.Execution.Progress.{Progress};
    ghost use Rattle.c_tree.specs.contracts.expression.Expr as expression;
    ghost use Rattle.c_tree.specs.contracts.object.Init as init;
    ghost use Rattle.c_tree.specs.contracts.statement.Stmt as statement;
    ghost use Rattle.std.specs.Coded.{codes};

    ghost Value = { Progress };

    ghost coded = { Prim.hlevel (codes, expression.the_row.coded, init.the_row.coded, statement.the_row.coded) };

    ghost use Rattle.c_interpreter.specs.Execution.RunViews.{progress_of, IsUnderWay};

    ghost view = { progress_of };

    ghost invariant = { IsUnderWay };
}

#[tactic(auto, using(crate::proofs::ExecutionLemmas::Runs::runs))]
/// The top function of a program.
fn top_function(checked: &Checked) -> &Function
    ensures { top_function (program_of checked.now.program) checked.now.top ≡ Some (function_of result.now) }
{
    let items = checked.program.items.as_slice();
    let top = checked.top as usize;
    if top < items.len() {
        if let Item::Function(f) = &items[top] {
            return f;
        }
    }
    unreachable!()
}

#[tactic(auto, using(crate::proofs::ExecutionLemmas::Runs::runs))]
/// A machine before its first point, from these contents of file scope.
fn begin<'p>(
    alloc: Global,
    checked: &'p Checked,
    declared: &[&'p Declared],
    kept: &FileContents,
    inputs: &Inputs,
) -> Result<Machine<'p>, AllocError>
    ensures { IfOk result (λ m. is_begun (program_of checked.now.program).items (top_function (program_of checked.now.program) checked.now.top) (objects_of declared.now) kept.now inputs.now.scalars inputs.now.arrays (configuration_of m)) }
{
    let f = top_function(checked);
    let names = file_names(alloc, declared)?;
    let arrays = inputs.arrays.items();
    let objects = started_objects(alloc, declared, kept, &f.params, arrays)?;
    let next = declared.len();
    let given = top_arguments(alloc, &f.params, inputs.scalars.items(), next)?;
    let items = checked.program.items.as_slice();
    Machine::start(alloc, items, f, names, objects, given.as_slice())
}

/// What the objects of file scope hold where the run has ended.
fn contents_at_end(
    alloc: Global,
    declared: &[&Declared],
    machine: &Machine,
) -> Result<Option<FileContents>, AllocError>
    ensures { IfOk result (λ o. o ≡ at_end (configuration_of machine.now).control (contents_of (objects_of declared.now) (configuration_of machine.now).objects)) }
{
    match machine.control {
        Control::Ended(_) => {
            let left = contents(alloc, declared, machine.objects.as_slice())?;
            Ok(Some(left))
        }
        Control::Going(..) | Control::Undefined(..) | Control::Stuck => Ok(None),
    }
}

fn left_or<'a>(ended: &'a Option<FileContents>, begun: &'a FileContents) -> &'a FileContents
    ensures { result.now ≡ left_or ended.now begun.now }
{
    match ended {
        Some(contents) => contents,
        None => begun,
    }
}

/// Takes the contents in where there are some.
fn keep(ended: Option<FileContents>, kept: &mut FileContents)
    ensures { kept.new ≡ left_or ended kept.old }
{
    if let Some(contents) = ended {
        *kept = contents;
    }
}

/// Another owner of the same inputs.
fn copied(alloc: Global, inputs: &Inputs) -> Result<Inputs, AllocError>
    ensures { IfOk result (λ i. i ≡ inputs.now) }
{
    let scalars = inputs.scalars.copy(alloc)?;
    let arrays = inputs.arrays.copy(alloc)?;
    Ok(Inputs { scalars, arrays })
}

#[tactic(auto, using(crate::proofs::ExecutionLemmas::Runs::runs))]
/// What a machine tells as it stands.
fn outcome(
    alloc: Global,
    checked: &Checked,
    declared: &[&Declared],
    machine: &Machine,
) -> Result<Outcome, AllocError>
    ensures { IfOk result (λ o. o ≡ outcome_by (objects_of declared.now) (top_function (program_of checked.now.program) checked.now.top) (configuration_of machine.now) (configuration_of machine.now).control) }
{
    match machine.control {
        Control::Ended(number) => {
            let kind = top_function(checked).result;
            let objects = machine.objects.as_slice();
            let ended = final_of(alloc, kind, number, objects, declared.len(), &machine.meter)?;
            Ok(Outcome::Ended(ended))
        }
        Control::Undefined(rule, at) => Ok(Outcome::Undefined(rule, at)),
        Control::Going(..) | Control::Stuck => Ok(Outcome::Running),
    }
}

impl<'p> Run<'p> {
    ghost use Rattle.std.specs.Prelude.{◌≡◌, ◌+◌, ◌<◌, ◌≤◌, ◌^◌, [], IfOk, OnOk, OnErr};
    ghost use Rattle.c_meaning.specs.Points.{tally_of};
    ghost use Rattle.c_interpreter.specs.Execution.Progress.{answer_within, points_within, outcome_of, left_behind, RunsFor};

    #[tactic(auto, using(crate::proofs::ExecutionLemmas::Runs::runs))]
    /// Passes at most so many points more. After `Ended` or `Undefined` the same answer comes again; after want of memory the run stands behind some of its points, and goes on from there.
    pub fn go(&mut self, alloc: Global, points: u64) -> Result<Outcome, AllocError>
        requires { self.old.passed + points < 2 ^ 64 }
        ensures answer { IfOk result (λ o. o ≡ outcome_of (answer_within self.old.begun (self.old.passed + points))) }
        ensures counts { OnOk result (self.new.counts ≡ tally_of (points_within self.old.begun (self.old.passed + points))) }
        ensures left { OnOk result (self.new.left ≡ left_behind (answer_within self.old.begun (self.old.passed + points)) self.old.begun.kept) }
        ensures begun { self.new.begun ≡ self.old.begun }
        ensures passed { self.old.passed ≤ self.new.passed }
        ensures within { self.new.passed ≤ self.old.passed + points }
        ensures running { IfOk result (λ o. RunsFor o self.new.passed (self.old.passed + points)) }
    {
        self.machine.meter.allow(points);
        run(&mut self.machine, alloc)?;
        outcome(alloc, self.checked, self.declared.as_slice(), &self.machine)
    }

    #[tactic(auto, using(crate::proofs::ExecutionLemmas::Runs::runs))]
    /// Begins a new run: after `Ended` from the file-scope contents that the last run left, else from those that it began with. After want of memory the run stands as before.
    pub fn again(&mut self, alloc: Global, inputs: &Inputs) -> Result<(), AllocError>
        ensures begun { OnOk result (self.new.begun ≡ record self.old.begun { kept = self.old.left; scalars = inputs.now.scalars; arrays = inputs.now.arrays }) }
        ensures passed { OnOk result (self.new.passed ≡ 0) }
        ensures counts { OnOk result (self.new.counts ≡ []) }
        ensures unchanged { OnErr result (self.new ≡ self.old) }
    {
        let declared = self.declared.as_slice();
        let ended = contents_at_end(alloc, declared, &self.machine)?;
        let kept = left_or(&ended, &self.kept);
        let inputs = copied(alloc, inputs)?;
        let machine = begin(alloc, self.checked, declared, kept, &inputs)?;
        keep(ended, &mut self.kept);
        self.inputs = inputs;
        self.machine = machine;
        Ok(())
    }
}
