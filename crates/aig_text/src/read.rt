//! Reads a graph from its text.

ghost use Rattle.std.specs.Prelude.{IfOk, ◌≡◌, ◌<◌, ◌^◌, length};
ghost use Rattle.hls_base.specs.Refusals.{IfRefused};
ghost use Rattle.hls_base.specs.TextPlaces.{place_after, text_start};
ghost use Rattle.aig_graph.specs.Graphs.{AndGraph, graph_of};
ghost use Rattle.aig_text.specs.TextForm.{IsText, IsRefusedAs, capped_place};
ghost use Rattle.aig_text.specs.Forms as forms;
ghost use Rattle.aig_text.specs.Reading.{ReadsAs, ReadsSome};
ghost use Rattle.aig_text.specs.Views.{ShowsHead, ReadsWhole};

use crate::cursor::{Cursor, Stop};
use crate::places::capped_place_after;
use crate::rows::{gates, inputs, latches, outputs};
use crate::tail::tail;
use aig_graph::aig::Aig;
use hls_base::refusal::{Fail, Refusal};
use std::alloc::Global;

/// The most variables that a graph may have.
const VARIABLE_LIMIT: u32 = 2_147_483_647;

/// The counts of a header. That of the outputs is `u64::MAX` where it is not below it.
#[derive(Drop)]
struct Counts {
    inputs: u32,
    latches: u32,
    outputs: u64,
    gates: u32,
}

/// The graph of which the bytes are a text, or rule 71 at the first byte at which no text continues. Symbols and comments are dropped.
pub fn read(alloc: Global, bytes: &[u8]) -> Result<Aig, Fail>
    ensures read { IfOk result (λ g. IsText bytes.now (graph_of g)) }
    ensures only { IfOk result (λ g. (other : AndGraph) → IsText bytes.now other → other ≡ graph_of g) }
    ensures refused { IfRefused result (IsRefusedAs bytes.now) }
    ensures never { IfRefused result (λ _. (other : AndGraph) → IsText bytes.now other → ⊥) }
{
    let mut cursor = Cursor::new(bytes);
    match whole(alloc, &mut cursor) {
        Ok(graph) => Ok(graph),
        Err(Stop::Refused) => {
            let (front, _) = bytes.split_at(bytes.len() - cursor.left().len());
            Err(refusal(front))
        }
        Err(Stop::Memory) => Err(Fail::Memory),
    }
}

/// The refusal at the byte behind these.
fn refusal(front: &[u8]) -> Fail
    ensures { result ≡ Fail.Refused (record { rule = 71; place = capped_place (place_after text_start front.now) }) }
{
    Fail::Refused(Refusal {
        rule: 71,
        place: capped_place_after(front),
    })
}

/// Takes a graph and what stands behind it.
fn whole(alloc: Global, cursor: &mut Cursor) -> Result<Aig, Stop>
    requires { length cursor.old < 2 ^ 64 }
    ensures { ReadsWhole result cursor.old cursor.new }
{
    let graph = graph(alloc, cursor)?;
    tail(cursor)?;
    Ok(graph)
}

fn graph(alloc: Global, cursor: &mut Cursor) -> Result<Aig, Stop>
    requires { length cursor.old < 2 ^ 64 }
    ensures { ReadsAs forms.graph graph_of result cursor.old cursor.new }
{
    let head = header(cursor)?;
    let before_gates = head.inputs + head.latches;
    let high = 2 * (before_gates + head.gates) + 1;
    inputs(cursor, head.inputs)?;
    let latches = latches(alloc, cursor, head.inputs + 1, head.latches, high)?;
    let outputs = outputs(alloc, cursor, head.outputs, high)?;
    let ands = gates(alloc, cursor, before_gates + 1, head.gates)?;
    Ok(Aig {
        inputs: head.inputs,
        latches,
        outputs,
        ands,
    })
}

fn header(cursor: &mut Cursor) -> Result<Counts, Stop>
    ensures { ReadsSome forms.head ShowsHead result cursor.old cursor.new }
{
    cursor.word(b"aag ")?;
    let variables = cursor.number(VARIABLE_LIMIT, b' ')?;
    let inputs = cursor.number(variables, b' ')?;
    let latches = cursor.number(variables - inputs, b' ')?;
    let outputs = cursor.any_number(b' ')?;
    let gates = variables - inputs - latches;
    cursor.exactly(gates, b'\n')?;
    Ok(Counts {
        inputs,
        latches,
        outputs,
        gates,
    })
}
