//! How long the buffers of a state are, and what its variables hold at first.
ghost use Rattle.std.specs.Prelude.{◌≡◌, ◌≤◌, ◌<◌, ℕ, length, slice_get, Some, IfOk};
ghost use Rattle.ir_core.specs.declared.body.Body.{Body};
ghost use Rattle.ir_core.specs.declared.cfg.Node.{Node};
ghost use Rattle.ir_core.specs.declared.stamp.Untimed.{Untimed};
ghost use Rattle.ir_core.specs.FirstContents as first;
ghost use Rattle.flat_programs.specs.Machine.Held.{held};
ghost use Rattle.flat_programs.specs.Machine.Sizes.{FitsSizes, HasArgs, body_in, KeptThere, ParametersThere};

use crate::machine::operands::set_word;
use hls_base::inputs::Inputs;
use hls_base::number::{Kept, VarId};
use ir_core::body::{Body, Op};
use ir_core::cfg::{Frame, Node};
use ir_core::stamp::Untimed;
use std::alloc::{AllocError, Global};

/// The greatest number of operations of one body, of variables that one body sets, and of arguments of one operation.
#[derive(Clone, Copy)]
pub struct Sizes {
    pub results: usize,
    pub fresh: usize,
    pub args: usize,
}

fn most_args(ops: &[Op<Untimed>]) -> usize
    ensures { HasArgs ops.now result }
{
    let mut most = 0usize;
    for op in ops {
        most = most.max(op.args.len());
    }
    most
}

fn grown(sizes: Sizes, body: &Body<Untimed>) -> Sizes
    ensures keeps { (b : Body Untimed) → FitsSizes sizes b → FitsSizes result b }
    ensures fits { FitsSizes result body.now }
{
    Sizes {
        results: sizes.results.max(body.ops.len()),
        fresh: sizes.fresh.max(body.outs.len()),
        args: sizes.args.max(most_args(&body.ops)),
    }
}

fn body_of(node: &Node<Untimed>) -> &Body<Untimed>
    ensures { result.now ≡ body_in node.now }
{
    match node {
        Node::Plain(block) => &block.body,
        Node::Looped(region) => &region.body,
    }
}

pub fn sizes_of(nodes: &[Node<Untimed>]) -> Sizes
    ensures { (i : ℕ) (it : Node Untimed) → slice_get nodes.now i ≡ Some it → FitsSizes result (body_in it) }
{
    let mut sizes = Sizes {
        results: 0,
        fresh: 0,
        args: 0,
    };
    for node in nodes {
        sizes = grown(sizes, body_of(node));
    }
    sizes
}

fn set_kept(variables: &mut [u64], kept: &[Kept])
    ensures { KeptThere kept.now (length variables.old) →
        held variables.new ≡ first.with_kept kept.now (held variables.old) }
{
    for one in kept {
        set_word(variables, one.variable.0 as usize, one.value);
    }
}

fn set_arguments(variables: &mut [u64], params: &[VarId], scalars: &[u64])
    ensures { ParametersThere params.now (length variables.old) →
        held variables.new ≡ first.with_arguments params.now scalars.now (held variables.old) }
{
    for (index, param) in params.iter().enumerate() {
        if index < scalars.len() {
            set_word(variables, param.0 as usize, scalars[index]);
        }
    }
}

fn set_first(variables: &mut [u64], frame: &Frame, scalars: &[u64])
    ensures { KeptThere frame.now.kept.items (length variables.old) →
        ParametersThere frame.now.params.items (length variables.old) →
        held variables.new ≡ first.with_arguments frame.now.params.items scalars.now
        (first.with_kept frame.now.kept.items (held variables.old)) }
{
    set_kept(variables, &frame.kept);
    set_arguments(variables, &frame.params, scalars);
}

/// The variables as a run begins.
pub fn first_variables(
    alloc: Global,
    frame: &Frame,
    inputs: &Inputs,
) -> Result<Vec<u64>, AllocError>
    ensures length { IfOk result (λ v. length v.items ≡ length frame.now.variables.items) }
    ensures held { IfOk result (λ v.
        KeptThere frame.now.kept.items (length frame.now.variables.items) →
        ParametersThere frame.now.params.items (length frame.now.variables.items) →
        held v.items ≡ first.first_variables frame.now inputs.now.scalars) }
{
    let mut variables = vec![in alloc; 0u64; frame.variables.len()]?;
    set_first(&mut variables, frame, inputs.scalars.items());
    Ok(variables)
}
