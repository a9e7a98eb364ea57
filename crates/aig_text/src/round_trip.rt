//! That printing a graph and reading its text gives the same graph.

ghost use Rattle.std.specs.Prelude.{◌≡◌, IfOk};
ghost use Rattle.hls_base.specs.Refusals.{IfRefused};
ghost use Rattle.aig_graph.specs.Graphs.{IsValid, graph_of};

use crate::print::print;
use crate::read::read;
use aig_graph::aig::Aig;
use hls_base::refusal::Fail;
use std::alloc::Global;

/// Another owner of the same graph, by way of its text.
pub fn round_trip(alloc: Global, graph: &Aig) -> Result<Aig, Fail>
    requires { IsValid (graph_of graph.now) }
    ensures same { IfOk result (λ g. graph_of g ≡ graph_of graph.now) }
    ensures read { IfRefused result (λ _. ⊥) }
{
    let text = print(alloc, graph)?;
    read(alloc, text.items())
}
