//! What a run file gives to the parameters of a function.
ghost use Rattle.std.specs.Prelude.{◌≡◌, ◌≤◌, ◌<◌, map, length, replicate, slice_index_or, None, IsTrue, IfOk, IfErr, OnOk};
ghost use Rattle.c_tree.specs.View.{param_of};
ghost use Rattle.c_meaning.specs.Run.{is_array_parameter};
ghost use Rattle.c_meaning.specs.FittingInputs.{inputs_fit};
ghost use Rattle.cosim_levels.specs.Rows.{IsInside};
ghost use Rattle.cosim_levels.specs.RunFile.{is_taken, behind_row, inputs_from, inputs, reading_of, rows_of, rows_reading, IsCause, AreTaken, Reading, with_first, with_front};

use crate::fault::RunFault;
use crate::line::first_line;
use crate::row::{Row, row_of};
use c_tree::function::Param;
use hls_base::inputs::Inputs;
use hls_base::words::{Arrays, Words};
use std::alloc::{AllocError, Global};

/// The most bytes that a run file may have.
const LARGEST_FILE: usize = 16_777_216;

/// What each parameter was given by the lines, and how many lines there are.
#[derive(Drop)]
struct Taken {
    given: Vec<Option<Words>>,
    count: u32,
}

/// Nothing for each of so many parameters.
fn nothing_given(alloc: Global, count: usize) -> Result<Vec<Option<Words>>, AllocError>
    ensures { IfOk result (λ v. v.items ≡ replicate count None) }
{
    let mut given = Vec::with_capacity(alloc, count)?;
    for _ in 0..count {
        given.push(None)?;
    }
    Ok(given)
}

/// Takes what a row gives. False where it is refused, and nothing changes.
fn take_row(given: &mut Vec<Option<Words>>, row: Row) -> bool
    requires inside { IsInside (length given.old.items) row }
    ensures taken { result ≡ is_taken given.old.items row }
    ensures given { given.new.items ≡ behind_row given.old.items row }
{
    match row {
        Row::Nothing => true,
        Row::Refused => false,
        Row::Gives { parameter, words } => {
            if given[parameter].is_some() {
                false
            } else {
                given[parameter] = Some(words);
                true
            }
        }
    }
}

/// Takes all lines.
fn taken_lines(alloc: Global, params: &[Param], bytes: &[u8]) -> Result<Taken, RunFault>
    requires { length bytes.now ≤ 16777216 }
    ensures taken { IfOk result (λ t. AreTaken (length params.now) (rows_of (map param_of params.now) bytes.now) t.given.items t.count) }
    ensures refused { IfErr result (λ e. IsCause (rows_reading (map param_of params.now) (rows_of (map param_of params.now) bytes.now)) e) }
{
    let mut given = nothing_given(alloc, params.len())?;
    let mut count: u32 = 0;
    let mut rest = bytes;
    while let Some((line, behind)) = first_line(rest) {
        count += 1;
        let row = row_of(alloc, params, line)?;
        if !take_row(&mut given, row) {
            return Err(RunFault::Line(count));
        }
        rest = behind;
    }
    Ok(Taken { given, count })
}

#[tactic(auto, using(crate::proofs::Taking::fronts))]
/// Adds what is given to a parameter behind what others were given.
fn add_words(
    alloc: Global,
    scalars: &mut Vec<u64>,
    arrays: &mut Vec<Words>,
    param: &Param,
    words: &Words,
) -> Result<(), AllocError>
    ensures { OnOk result ((r : Reading) → with_front scalars.old.items arrays.old.items (with_first (is_array_parameter (param_of param.now)) words.now r) ≡ with_front scalars.new.items arrays.new.items r) }
{
    if param.object.lengths.is_empty() {
        scalars.extend_from_slice(words.items())
    } else {
        arrays.push(words.copy(alloc)?)?;
        Ok(())
    }
}

/// What was given to all parameters, if this is the line behind the last.
fn inputs_of(
    alloc: Global,
    params: &[Param],
    given: &[Option<Words>],
    line: u32,
) -> Result<Inputs, RunFault>
    requires { length given.now ≡ length params.now }
    ensures inputs { IfOk result (λ i. inputs_from line (λ k. slice_index_or given.now k None) 0 (map param_of params.now) ≡ inputs i.scalars i.arrays) }
    ensures refused { IfErr result (λ e. IsCause (inputs_from line (λ k. slice_index_or given.now k None) 0 (map param_of params.now)) e) }
{
    let mut scalars = Vec::new(alloc);
    let mut arrays = Vec::new(alloc);
    for k in 0..params.len() {
        let param = &params[k];
        let Some(words) = &given[k] else {
            return Err(RunFault::Line(line));
        };
        add_words(alloc, &mut scalars, &mut arrays, param, words)?;
    }
    Ok(Inputs {
        scalars: Words::new(scalars),
        arrays: Arrays::new(arrays),
    })
}

/// What the run file gives to these parameters.
pub fn read(alloc: Global, params: &[Param], bytes: &[u8]) -> Result<Inputs, RunFault>
    ensures inputs { IfOk result (λ i. reading_of (map param_of params.now) bytes.now ≡ inputs i.scalars i.arrays) }
    ensures fit { IfOk result (λ i. IsTrue (inputs_fit (map param_of params.now) i.scalars i.arrays)) }
    ensures refused { IfErr result (λ e. IsCause (reading_of (map param_of params.now) bytes.now) e) }
{
    if bytes.len() > LARGEST_FILE {
        return Err(RunFault::Line(1));
    }
    let taken = taken_lines(alloc, params, bytes)?;
    inputs_of(alloc, params, &taken.given, taken.count + 1)
}
