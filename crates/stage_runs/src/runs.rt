//! The runs of the stages of a source, and its run in C.
ghost use Rattle.std.specs.Prelude.{◌≡◌, [], Some, IfOk, map, slice_get};
ghost use Rattle.std.specs.Option.{IfSome};
ghost use Rattle.c_tree.specs.Tree as tree;
ghost use Rattle.c_tree.specs.View.{program_of, item_of, function_of};
ghost use Rattle.c_meaning.specs.Checks.Programs.{program_faults, top_name};
ghost use Rattle.c_meaning.specs.Run.{c_run, first_contents};
ghost use Rattle.checked_source.specs.Sources.{IsTheProgramOf};
ghost use Rattle.checked_source.specs.SourceFaults.{IsSourceFault};
ghost use Rattle.c_elaborate.specs.Programs.{program_elaborated};
ghost use Rattle.c_expand.specs.Expansion.{expansion, IsOverweight};
ghost use Rattle.pieces.specs.Program.{expanded_of};
ghost use Rattle.cosim_levels.specs.RunFile.{reading_of, inputs};
ghost use Rattle.cosim_levels.specs.Levels.{EndsWith};
ghost use Rattle.stage_runs.specs.Whole.{HasWholeStages};
ghost use Rattle.stage_runs.specs.Agreement.{IfRefusal, IsRefusedAs, IsStageRun, AreStageRuns, AreRunsOf, all_names};

use crate::laws::sources_have_whole_stages;
use crate::running::run_stage;
use crate::stage::{Stage, StageFault, StageInputs, StageName, StageRuns};
use crate::trees::flat_stage;
use c_meaning::checks::Checked;
use c_meaning::outcome::Final;
use c_tree::function::Function;
use c_tree::program::Item;
use checked_source::read::read_checked;
use compile_steps::steps::expanded;
use cosim_levels::fault::RunFault;
use cosim_levels::levels::c_level;
use cosim_levels::read::read;
use cosim_levels::verdict::Stop;
use hls_base::inputs::Inputs;
use hls_base::refusal::Fail;
use pieces::expanded::Expanded;
use std::alloc::{AllocError, Global};

/// What the stages of a program are run with, and what its run in C ended with.
#[derive(Drop)]
struct Given {
    plain: bool,
    inputs: Inputs,
    ended: Final,
}

/// The run of one stage.
fn stage_run(
    alloc: Global,
    expanded: &Expanded,
    given: &Given,
    name: StageName,
) -> Result<Stage, AllocError>
    ensures run { IfOk result (λ s. HasWholeStages (expanded_of expanded.now) → IsStageRun (expanded_of expanded.now) given.now.plain given.now.inputs given.now.ended s) }
    ensures name { IfOk result (λ s. s.name ≡ name) }
{
    let cfg = flat_stage(alloc, expanded, given.plain, name)?;
    let stage = run_stage(alloc, name, &cfg, &given.inputs, &given.ended)?;
    Ok(stage)
}

/// The runs of all stages.
fn all_stages(alloc: Global, expanded: &Expanded, given: &Given) -> Result<Vec<Stage>, AllocError>
    ensures names { IfOk result (λ v. map (λ s. s.name) v.items ≡ all_names) }
    ensures runs { IfOk result (λ v. HasWholeStages (expanded_of expanded.now) → AreStageRuns (expanded_of expanded.now) given.now.plain given.now.inputs given.now.ended v.items) }
{
    let lowered = stage_run(alloc, expanded, given, StageName::Lowered)?;
    let numbered = stage_run(alloc, expanded, given, StageName::Numbered)?;
    let converted = stage_run(alloc, expanded, given, StageName::Converted)?;
    Ok(vec![in alloc; lowered, numbered, converted]?)
}

/// The function that is the item with this index, if there is one.
fn function_at(items: &[Item], index: usize) -> Option<&Function>
    ensures { IfSome result (λ f. slice_get (map item_of items.now) index ≡ Some (tree.function (function_of f.now))) }
{
    if index < items.len() {
        if let Item::Function(function) = &items[index] {
            return Some(function);
        }
    }
    None
}

/// The program that the source is.
fn checked_of(alloc: Global, given: &StageInputs) -> Result<Checked, StageFault>
    ensures found { IfOk result (λ c. IsTheProgramOf given.now.source (program_of c.program)) }
    ensures top { IfOk result (λ c. top_name (program_of c.program) c.top ≡ Some given.now.top) }
    ensures faultless { IfOk result (λ c. program_faults (program_of c.program) given.now.top ≡ []) }
    ensures refused { IfRefusal result (IsSourceFault given.now.source given.now.top) }
{
    match read_checked(alloc, given.source.items(), &given.top) {
        Ok(checked) => Ok(checked),
        Err(Fail::Refused(refusal)) => Err(StageFault::Refused(refusal)),
        Err(Fail::Memory) => Err(StageFault::Memory),
    }
}

/// The program with its calls expanded.
fn expanded_program(alloc: Global, checked: &Checked) -> Result<Expanded, StageFault>
    ensures made { IfOk result (λ e. expanded_of e ≡ expansion (program_elaborated (program_of checked.now.program) checked.now.top)) }
    ensures refused { IfRefusal result (IsOverweight (program_elaborated (program_of checked.now.program) checked.now.top)) }
{
    match expanded(alloc, checked) {
        Ok(expanded) => Ok(expanded),
        Err(Fail::Refused(refusal)) => Err(StageFault::Refused(refusal)),
        Err(Fail::Memory) => Err(StageFault::Memory),
    }
}

/// What the run file gives to the top function.
fn inputs_of(alloc: Global, function: &Function, run: &[u8]) -> Result<Inputs, StageFault>
    ensures read { IfOk result (λ i. reading_of (function_of function.now).params run.now ≡ inputs i.scalars i.arrays) }
    ensures refused { IfRefusal result (λ _. ⊥) }
{
    match read(alloc, &function.params, run) {
        Ok(inputs) => Ok(inputs),
        Err(RunFault::Line(line)) => Err(StageFault::Line(line)),
        Err(RunFault::Memory) => Err(StageFault::Memory),
    }
}

/// What the run in C ends with, of so many points at most.
fn ended_in_c(
    alloc: Global,
    checked: &Checked,
    inputs: &Inputs,
    points: u64,
) -> Result<Final, StageFault>
    ensures ended { IfOk result (EndsWith (c_run (program_of checked.now.program) checked.now.top (first_contents (program_of checked.now.program)) inputs.now.scalars inputs.now.arrays points)) }
    ensures refused { IfRefusal result (λ _. ⊥) }
{
    match c_level(alloc, checked, inputs, points) {
        Ok(ended) => Ok(ended),
        Err(Stop::Answer(_)) => Err(StageFault::Unended),
        Err(Stop::Memory) => Err(StageFault::Memory),
    }
}

/// Runs a program in C, and then each of its stages with the same inputs.
pub fn stage_runs(alloc: Global, given: &StageInputs) -> Result<StageRuns, StageFault>
    ensures runs { IfOk result (AreRunsOf given.now) }
    ensures refused { IfRefusal result (IsRefusedAs given.now.source given.now.top) }
{
    let checked = checked_of(alloc, given)?;
    let expanded = expanded_program(alloc, &checked)?;
    let Some(function) = function_at(&checked.program.items, checked.top as usize) else {
        return Err(StageFault::Memory);
    };
    let inputs = inputs_of(alloc, function, given.run.items())?;
    let ended = ended_in_c(alloc, &checked, &inputs, given.points)?;
    let given = Given {
        plain: given.plain,
        inputs,
        ended,
    };
    let stages = all_stages(alloc, &expanded, &given)?;
    sources_have_whole_stages();
    Ok(StageRuns {
        ended: given.ended,
        stages,
    })
}
