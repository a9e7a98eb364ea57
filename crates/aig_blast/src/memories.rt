//! What the words of memories hold after an edge.
ghost use Rattle.std.specs.Prelude.{◌≡◌, ◌<◌, ℕ, List, IfOk, length};
ghost use Rattle.aig_graph.specs.Making.{gates_of};
ghost use Rattle.rtl_core.specs.Netlist.{netlist_of};
ghost use Rattle.rtl_core.specs.ClockStep.{seen, clocked_memories};
ghost use Rattle.rtl_core.specs.Valid.{IsValid};
ghost use Rattle.aig_blast.specs.Encoding.{memory_bits};
ghost use Rattle.aig_blast.specs.Literals.{literals_of, joined, state_shown, pins_shown, memories_shown, IsBlasted, Shows};
ghost use Rattle.aig_blast.specs.Ports.{IsWriteOf, CanWrite, WritesAll};

use crate::literals::{Literals, atom_word};
use aig_graph::builder::Builder;
use aig_graph::memory::{Write, written};
use aig_graph::word::Word;
use rtl_core::design::{Design, Port};
use std::alloc::{AllocError, Global};

/// The write of a port.
fn port_write(alloc: Global, literals: &Literals, port: Port) -> Result<Write, AllocError>
    requires { length (literals_of literals.now port.enable) ≡ 1 }
    ensures { IfOk result (IsWriteOf literals.now port) }
{
    let enable = atom_word(alloc, literals, port.enable)?;
    let address = atom_word(alloc, literals, port.addr)?;
    let value = atom_word(alloc, literals, port.value)?;
    Ok(Write {
        enable: enable[0],
        address,
        value,
    })
}

/// The words of a memory after the writes of its ports, of which a later one wins.
pub fn bank_after(
    alloc: Global,
    graph: &mut Builder,
    literals: &Literals,
    ports: &[Port],
    words: &[Word],
) -> Result<Vec<Word>, AllocError>
    requires { (n : ℕ) × (depth : ℕ) × CanWrite (gates_of graph.old) literals.now ports.now words.now n depth }
    ensures { (n : ℕ) → (depth : ℕ) → CanWrite (gates_of graph.old) literals.now ports.now words.now n depth
        → IfOk result (λ lss. WritesAll (gates_of graph.old) (gates_of graph.new) literals.now ports.now words.now n lss.items) }
{
    let first = port_write(alloc, literals, ports[0])?;
    let mut after = written(alloc, graph, words, &first)?;
    for i in 1..ports.len() {
        let write = port_write(alloc, literals, ports[i])?;
        after = written(alloc, graph, after.as_slice(), &write)?;
    }
    Ok(after)
}

/// The literals of all words, one word after another.
pub fn join_words(alloc: Global, words: &[Word]) -> Result<Vec<u32>, AllocError>
    ensures { IfOk result (λ ls. ls.items ≡ joined words.now) }
{
    let mut literals = Vec::new(alloc);
    for word in words {
        literals.extend_from_slice(word.literals())?;
    }
    Ok(literals)
}

/// The next literals of the bits of the words of memories.
pub fn memory_latches(
    alloc: Global,
    graph: &mut Builder,
    literals: &Literals,
    design: &Design,
) -> Result<Vec<u32>, AllocError>
    requires valid { IsValid (netlist_of design.now) }
    requires blasted { IsBlasted (netlist_of design.now) (netlist_of design.now).wires (gates_of graph.old) literals.now }
    ensures { let d = netlist_of design.now in let t = literals.now in IfOk result (λ ls. Shows (gates_of graph.old) (gates_of graph.new) ls.items
        (λ w. memory_bits d.mems (clocked_memories (seen d (state_shown t w) (pins_shown t w)) d.mems (memories_shown t w)))) }
{
    let mut latches = Vec::new(alloc);
    for k in 0..design.mems.len() {
        let ports = design.mems[k].ports.as_slice();
        let words = literals.mems[k].words();
        let after = bank_after(alloc, graph, literals, ports, words)?;
        let bits = join_words(alloc, after.as_slice())?;
        latches.extend_from_slice(bits.as_slice())?;
    }
    Ok(latches)
}
