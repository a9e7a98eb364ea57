//! The lines of the commands on modules.
ghost use Rattle.std.specs.Prelude.{◌≡◌, ◌++◌, codes, IfOk, OnOk};
ghost use Rattle.std.specs.String.{string_bytes};
ghost use Rattle.std.specs.Fmt.{decimal};
ghost use Rattle.aig_graph.specs.Graphs.{graph_of};
ghost use Rattle.module_commands.specs.Lines as line;

use aig_graph::aig::Aig;
use hls_base::refusal::Refusal;
use hls_base::text::Text;
use std::alloc::{AllocError, Global};
use timing_path::LongPath;

fn text_of(line: String) -> Text
    ensures { result ≡ string_bytes line }
{
    Text::new(line.into_bytes())
}

/// A blank and the number.
fn number_word(alloc: Global, number: u64) -> Result<String, AllocError>
    ensures { IfOk result (λ s. string_bytes s ≡ codes " " ++ decimal number) }
{
    format!(in alloc; " {number}")
}

fn push_wires(alloc: Global, out: &mut Vec<u8>, wires: &[u64]) -> Result<(), AllocError>
    ensures { OnOk result (out.new.items ≡ out.old.items ++ line.wire_numbers wires.now) }
{
    for wire in wires {
        out.extend_from_slice(number_word(alloc, *wire)?.as_bytes())?;
    }
    Ok(())
}

/// Says how long the longest path of a module is, and which wires are on it.
pub fn path_line(alloc: Global, path: &LongPath) -> Result<Text, AllocError>
    ensures { IfOk result (λ t. t ≡ line.path_line path.now.delay path.now.wires.items) }
{
    let delay = path.delay;
    let mut line = format!(in alloc; "delay {delay} path")?.into_bytes();
    push_wires(alloc, &mut line, path.wires.as_slice())?;
    line.push(b'\n')?;
    Ok(Text::new(line))
}

/// Says how many input bits and latches the graph of a module has.
pub fn blasted_line(alloc: Global, graph: &Aig) -> Result<Text, AllocError>
    ensures { IfOk result (λ t. t ≡ line.blasted_line (graph_of graph.now)) }
{
    let inputs = graph.inputs;
    let latches = graph.latches.len();
    let line = format!(in alloc; "blasted inputs {inputs} latches {latches}\n")?;
    Ok(text_of(line))
}

/// Says how many stages were linked.
pub fn linked_line(alloc: Global, count: usize) -> Result<Text, AllocError>
    ensures { IfOk result (λ t. t ≡ line.linked_line count) }
{
    Ok(text_of(format!(in alloc; "linked {count} stages\n")?))
}

/// Says which rule a module breaks, and where.
pub fn module_refusal_line(alloc: Global, refusal: Refusal) -> Result<Text, AllocError>
    ensures { IfOk result (λ t. t ≡ line.module_refusal_line refusal) }
{
    let rule = refusal.rule;
    let place = refusal.place;
    Ok(text_of(format!(in alloc; "module rule {rule} at {place}\n")?))
}
