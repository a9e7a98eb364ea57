//! How long the lines and buffers of a machine are to be.
ghost use Rattle.std.specs.Prelude.{◌≡◌, ℕ, slice_get, Some};
ghost use Rattle.clock_machine.specs.declared.lines.program.Stage.{Stage};
ghost use Rattle.clock_machine.specs.Lines.Stages.{work_in};
ghost use Rattle.clock_machine.specs.Sizes.{HasArgs, FitsWork, IsNoMoreThan};

use crate::lines::program::{Action, Program, Work, work_of};
use crate::lines::registers::extent;

/// The greatest sizes of the lines and buffers.
#[derive(Clone, Copy)]
pub struct Sizes {
    pub words: usize,
    pub lines: usize,
    pub args: usize,
    pub fresh: usize,
}

fn most_args(actions: &[Action]) -> usize
    ensures { HasArgs actions.now result }
{
    let mut most = 0usize;
    for action in actions {
        most = most.max(action.args.len());
    }
    most
}

/// Sizes that are no less, and enough for one body more.
fn with_work(sizes: Sizes, work: &Work) -> Sizes
    ensures grows { IsNoMoreThan sizes result }
    ensures fits { FitsWork result work.now }
{
    let most = work.actions.len().max(work.assignments.len());
    Sizes {
        words: sizes.words.max(extent(&work.lines)),
        lines: sizes.lines.max(work.lines.len()),
        args: sizes.args.max(most_args(&work.actions)),
        fresh: sizes.fresh.max(most),
    }
}

/// Sizes that are enough for all bodies of a program.
pub fn sizes_of(program: &Program) -> Sizes
    ensures { (i : ℕ) (it : Stage) → slice_get program.now.stages.items i ≡ Some it →
        FitsWork result (work_in it) }
{
    let mut sizes = Sizes {
        words: 0,
        lines: 0,
        args: 0,
        fresh: 0,
    };
    for stage in &program.stages {
        sizes = with_work(sizes, work_of(stage));
    }
    sizes
}
