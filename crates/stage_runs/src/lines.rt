//! The lines that tell of the stages of a program.
ghost use Rattle.std.specs.Prelude.{◌≡◌, IfOk};
ghost use Rattle.std.specs.List.{All};
ghost use Rattle.stage_runs.specs.Agreement.{Agrees};

use crate::comparison::{first_difference, is_counted_alike};
use crate::stage::{PointCount, Stage, StageFault, StageName, StageRuns};
use cycle_report::print::kind_text;
use hls_base::place::Place;
use hls_base::words::Words;
use std::alloc::{AllocError, Global};

/// How many elements of an array are shown.
const SHOWN: usize = 4;

fn stage_word(name: StageName) -> &'static str {
    match name {
        StageName::Lowered => "lowered",
        StageName::Numbered => "numbered",
        StageName::Converted => "converted",
    }
}

/// Adds the first elements of an array, and two points where it has more.
fn push_words(alloc: Global, lines: &mut Vec<u8>, words: &[u64]) -> Result<(), AllocError> {
    for word in &words[..words.len().min(SHOWN)] {
        lines.extend_from_slice(format!(in alloc; " {word}")?.as_bytes())?;
    }
    if words.len() > SHOWN {
        lines.extend_from_slice(b" ..")?;
    }
    Ok(())
}

fn push_arrays(alloc: Global, lines: &mut Vec<u8>, arrays: &[Words]) -> Result<(), AllocError> {
    for words in arrays {
        lines.extend_from_slice(b" array")?;
        push_words(alloc, lines, words.items())?;
    }
    Ok(())
}

fn result_word(alloc: Global, ret: Option<u64>) -> Result<String, AllocError> {
    match ret {
        Some(word) => format!(in alloc; "{word}"),
        None => format!(in alloc; "-"),
    }
}

/// Adds the line of a stage: its name, its steps, its result, and the first elements of its arrays; and a line for each point that differs.
fn push_stage(alloc: Global, lines: &mut Vec<u8>, stage: &Stage) -> Result<(), AllocError> {
    let name = stage_word(stage.name);
    let steps = stage.steps;
    let ret = result_word(alloc, stage.ret)?;
    let line = format!(in alloc; "{name} steps {steps} ret {ret}")?;
    lines.extend_from_slice(line.as_bytes())?;
    push_arrays(alloc, lines, stage.arrays.items())?;
    if !stage.valid {
        lines.extend_from_slice(b" not valid")?;
    }
    lines.push(b'\n')?;
    push_points(alloc, lines, stage.points.as_slice())
}

/// Adds the places of a path, or `-` where it has none.
fn push_path(alloc: Global, lines: &mut Vec<u8>, path: &[Place]) -> Result<(), AllocError> {
    if path.is_empty() {
        lines.push(b'-')?;
    }
    for (index, place) in path.iter().enumerate() {
        let comma = if index == 0 { "" } else { "," };
        lines.extend_from_slice(format!(in alloc; "{comma}{place}")?.as_bytes())?;
    }
    Ok(())
}

/// Adds the line of a point: its kind, its place and path, and its two counts.
fn push_point(alloc: Global, lines: &mut Vec<u8>, point: &PointCount) -> Result<(), AllocError> {
    lines.extend_from_slice(b"point ")?;
    lines.extend_from_slice(kind_text(point.point.kind))?;
    let at = point.point.at;
    lines.extend_from_slice(format!(in alloc; " {at} ")?.as_bytes())?;
    push_path(alloc, lines, point.point.path.items())?;
    let count = point.count;
    let in_c = point.in_c;
    lines.extend_from_slice(format!(in alloc; " passed {count} in c {in_c}\n")?.as_bytes())?;
    Ok(())
}

/// Adds the lines of the points that were not passed as often as in C.
fn push_points(
    alloc: Global,
    lines: &mut Vec<u8>,
    points: &[PointCount],
) -> Result<(), AllocError> {
    for point in points {
        if !is_counted_alike(point) {
            push_point(alloc, lines, point)?;
        }
    }
    Ok(())
}

fn push_stages(alloc: Global, lines: &mut Vec<u8>, stages: &[Stage]) -> Result<(), AllocError> {
    for stage in stages {
        push_stage(alloc, lines, stage)?;
    }
    Ok(())
}

/// The status of a comparison, and its lines.
#[derive(Drop)]
pub struct Answer {
    pub status: u8,
    pub lines: Vec<u8>,
}

/// Tells of each stage, and whether they agree with the run in C.
pub fn told(alloc: Global, runs: &StageRuns) -> Result<Answer, AllocError>
    ensures { IfOk result (λ a. a.status ≡ 0 → All (Agrees runs.now.ended) runs.now.stages.items) }
{
    let mut lines = Vec::new(alloc);
    push_stages(alloc, &mut lines, runs.stages.as_slice())?;
    match first_difference(runs) {
        None => {
            lines.extend_from_slice(b"agree\n")?;
            Ok(Answer { status: 0, lines })
        }
        Some(name) => {
            let name = stage_word(name);
            lines.extend_from_slice(format!(in alloc; "differ {name}\n")?.as_bytes())?;
            Ok(Answer { status: 5, lines })
        }
    }
}

/// Tells why nothing was compared.
pub fn told_fault(alloc: Global, fault: StageFault) -> Result<Answer, AllocError>
    ensures { IfOk result (λ a. a.status ≡ 0 → ⊥) }
{
    match fault {
        StageFault::Refused(refusal) => {
            let rule = refusal.rule;
            let place = refusal.place;
            let line = format!(in alloc; "rule {rule} at {place}\n")?;
            Ok(Answer {
                status: 1,
                lines: line.into_bytes(),
            })
        }
        StageFault::Line(line) => Ok(Answer {
            status: 7,
            lines: format!(in alloc; "run line {line}\n")?.into_bytes(),
        }),
        StageFault::Unended => Ok(Answer {
            status: 6,
            lines: Vec::from_slice(alloc, b"no end in c\n")?,
        }),
        StageFault::Memory => Err(AllocError),
    }
}
