//! The flat programs of the stages. A pass consumes its tree, so each stage lowers anew.
ghost use Rattle.std.specs.Prelude.{IfOk};
ghost use Rattle.pieces.specs.Program.{expanded_of};
ghost use Rattle.stage_runs.specs.declared.stage.StageName.TheVariants as name;
ghost use Rattle.stage_runs.specs.Stages.{IsTreeOf, IsStageOf};

use crate::stage::StageName;
use if_convert::convert::convert;
use ir_core::cfg::Cfg;
use ir_core::stamp::Untimed;
use ir_core::tree::BlockTree;
use ir_layout::layout::lay_out;
use ir_lower::lower::lower;
use pieces::expanded::Expanded;
use std::alloc::{AllocError, Global};
use value_number::number::number;

/// The tree that the pieces are lowered to.
fn lowered(alloc: Global, expanded: &Expanded, plain: bool) -> Result<BlockTree, AllocError>
    ensures { IfOk result (IsTreeOf (expanded_of expanded.now) plain name.Lowered) }
{
    let tree = lower(alloc, expanded)?;
    Ok(tree)
}

/// The same with equal operations as one.
fn numbered(alloc: Global, expanded: &Expanded, plain: bool) -> Result<BlockTree, AllocError>
    ensures { IfOk result (IsTreeOf (expanded_of expanded.now) plain name.Numbered) }
{
    let tree = lowered(alloc, expanded, plain)?;
    let tree = number(alloc, tree)?;
    Ok(tree)
}

/// The same with forks and loops converted.
fn converted(alloc: Global, expanded: &Expanded, plain: bool) -> Result<BlockTree, AllocError>
    ensures { IfOk result (IsTreeOf (expanded_of expanded.now) plain name.Converted) }
{
    let tree = numbered(alloc, expanded, plain)?;
    let tree = convert(alloc, tree, !plain)?;
    Ok(tree)
}

/// The tree of a stage.
fn tree_of(
    alloc: Global,
    expanded: &Expanded,
    plain: bool,
    name: StageName,
) -> Result<BlockTree, AllocError>
    ensures { IfOk result (IsTreeOf (expanded_of expanded.now) plain name) }
{
    match name {
        StageName::Lowered => lowered(alloc, expanded, plain),
        StageName::Numbered => numbered(alloc, expanded, plain),
        StageName::Converted => converted(alloc, expanded, plain),
    }
}

/// The flat program of a stage.
pub fn flat_stage(
    alloc: Global,
    expanded: &Expanded,
    plain: bool,
    name: StageName,
) -> Result<Cfg<Untimed>, AllocError>
    ensures { IfOk result (IsStageOf (expanded_of expanded.now) plain name) }
{
    let tree = tree_of(alloc, expanded, plain, name)?;
    let cfg = lay_out(alloc, tree)?;
    Ok(cfg)
}
