//! Where the runs of the stages differ from the run in C.
ghost use Rattle.std.specs.Prelude.{◌≡◌, ◌↔◌, true, IsTrue, None};
ghost use Rattle.std.specs.List.{All};
ghost use Rattle.stage_runs.specs.Agreement.{Agrees};

use crate::stage::{PointCount, Stage, StageName, StageRuns};
use c_meaning::outcome::Final;
use hls_base::words::Words;
use ir_core::machine::Halt;

fn is_same(words: &Words, others: &Words) -> bool
    ensures { IsTrue result ↔ (words.now ≡ others.now) }
{
    words.items() == others.items()
}

/// Whether all elements are the same.
fn are_same(arrays: &[Words], others: &[Words]) -> bool
    ensures { result ≡ true → arrays.now ≡ others.now }
{
    if arrays.len() != others.len() {
        return false;
    }
    for k in 0..arrays.len() {
        if !is_same(&arrays[k], &others[k]) {
            return false;
        }
    }
    true
}

/// Whether a run passed a point as often as the run in C.
pub fn is_counted_alike(point: &PointCount) -> bool
    ensures { result ≡ true → point.now.count ≡ point.now.in_c }
{
    point.count == point.in_c
}

fn are_counted_alike(points: &[PointCount]) -> bool
    ensures { result ≡ true → All (λ p. p.count ≡ p.in_c) points.now }
{
    for point in points {
        if !is_counted_alike(point) {
            return false;
        }
    }
    true
}

/// Whether the program of a stage is valid and ended as the run in C did.
fn agrees(ended: &Final, stage: &Stage) -> bool
    ensures { result ≡ true → Agrees ended.now stage.now }
{
    stage.valid
        && stage.halt == Halt::Ended
        && stage.ret == ended.ret
        && u128::from(stage.steps) == stage.tallied
        && are_counted_alike(stage.points.as_slice())
        && are_same(stage.arrays.items(), ended.arrays.items())
}

/// The first stage that did not end so.
fn first_among(ended: &Final, stages: &[Stage]) -> Option<StageName>
    ensures { result ≡ None → All (Agrees ended.now) stages.now }
{
    for stage in stages {
        if !agrees(ended, stage) {
            return Some(stage.name);
        }
    }
    None
}

/// The first stage that did not end as the run in C did.
pub fn first_difference(runs: &StageRuns) -> Option<StageName>
    ensures { result ≡ None → All (Agrees runs.now.ended) runs.now.stages.items }
{
    first_among(&runs.ended, runs.stages.as_slice())
}
