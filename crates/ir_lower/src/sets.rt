//! Which variables blocks set, and what they hold.
ghost use Rattle.std.specs.Prelude.{◌≡◌, ◌||◌, map};
ghost use Rattle.std.specs.Option.{option_map};
ghost use Rattle.ir_core.specs.Trees.{sequence_of, shape_of, part_of, part_row, side_of};
ghost use Rattle.passes.specs.Lowering.Copies as spec;
ghost use Rattle.passes.specs.Lowering.Outs as settings;
ghost use Rattle.ir_lower.specs.Copies.{is_in, part_sets};

use block_draft::operations::entry_value;
use hls_base::number::VarId;
use ir_core::body::{Operand, Out};
use ir_core::tree::{Part, Sequence, Shape};

/// Whether a variable is one of these.
pub fn is_in(variables: &[VarId], variable: VarId) -> bool
    ensures { result ≡ is_in variables.now variable }
{
    for other in variables {
        if *other == variable {
            return true;
        }
    }
    false
}

/// Whether a block with these outs sets a variable.
pub fn outs_set(outs: &[Out], variable: VarId) -> bool
    ensures { result ≡ spec.outs_set outs.now variable }
{
    for out in outs {
        if out.variable == variable {
            return true;
        }
    }
    false
}

/// What a variable holds behind a block with these outs.
pub fn held(outs: &[Out], variable: VarId) -> Operand
    ensures { result ≡ settings.held outs.now variable }
{
    for out in outs {
        if out.variable == variable {
            return out.value;
        }
    }
    entry_value(variable)
}

/// Whether parts set a variable.
#[cycle(sets)]
pub fn parts_set(parts: &Vec<Part>, variable: VarId) -> bool
    ensures { result ≡ spec.parts_set (part_row (map part_of parts.now.items)) variable }
{
    for part in parts {
        if part_sets(part, variable) {
            return true;
        }
    }
    false
}

#[cycle(sets)]
fn part_sets(part: &Part, variable: VarId) -> bool
    ensures { result ≡ part_sets (part_of part.now) variable }
{
    shape_sets(&part.shape, variable) || outs_set(&part.after.outs, variable)
}

/// A fork sets what its branches set; other shapes stand in no loop that may be overlapped.
#[cycle(sets)]
pub fn shape_sets(shape: &Shape, variable: VarId) -> bool
    ensures { result ≡ spec.shape_sets (shape_of shape.now) variable }
{
    match shape {
        Shape::Fork { yes, no, .. } => side_sets(yes, variable) || side_sets(no, variable),
        _ => false,
    }
}

#[cycle(sets)]
fn side_sets(side: &Option<Sequence>, variable: VarId) -> bool
    ensures { result ≡ spec.side_sets (side_of (option_map sequence_of side.now)) variable }
{
    match side {
        Some(blocks) => sequence_sets(blocks, variable),
        None => false,
    }
}

#[cycle(sets)]
fn sequence_sets(blocks: &Sequence, variable: VarId) -> bool
    ensures { result ≡ spec.sequence_sets (sequence_of blocks.now) variable }
{
    outs_set(&blocks.first.outs, variable) || parts_set(&blocks.rest, variable)
}
