//! The words of a memory after an edge.
ghost use Rattle.std.specs.Prelude.{◌≡◌, ◌<◌, ◌≤◌, ◌^◌, ◌==◌, ◌&&◌, if◌then◌else◌, ℕ, List, Bool, IfOk, length};
ghost use Rattle.std.specs.List.{All};
ghost use Rattle.aig_graph.specs.Graphs.{literal};
ghost use Rattle.aig_graph.specs.Making.{gates_of, IsSound, IsLiteral};
ghost use Rattle.aig_graph.specs.Words.{HasLength, AreWords, Computes, worded, Writes, IsWrite};

use crate::builder::Builder;
use crate::compare::equal;
use crate::constant::constant;
use crate::select::pick_word;
use crate::word::Word;
use std::alloc::{AllocError, Global};

/// A port: where the enable holds, the word at the address takes the value.
#[derive(Drop)]
pub struct Write {
    pub enable: u32,
    pub address: Vec<u32>,
    pub value: Vec<u32>,
}

/// What the word of this number holds after the edge.
fn written_word(
    alloc: Global,
    graph: &mut Builder,
    word: &[u32],
    write: &Write,
    number: usize,
) -> Result<Vec<u32>, AllocError>
    requires same { length write.now.value.items ≡ length word.now }
    requires sound { IsSound (gates_of graph.old) }
    requires word { All (IsLiteral (gates_of graph.old)) word.now }
    requires write { IsWrite (gates_of graph.old) write.now }
    requires small { number < 2 ^ length write.now.address.items }
    ensures { IfOk result (λ ls. Computes (gates_of graph.old) (gates_of graph.new) ls.items (length word.now)
        (λ w. if literal w write.now.enable && (worded w write.now.address.items == number) then worded w write.now.value.items else worded w word.now)) }
{
    let address = write.address.as_slice();
    let here = constant(alloc, address.len(), number as u128)?;
    let named = equal(graph, address, here.as_slice())?;
    let test = graph.and(write.enable, named)?;
    let picked = pick_word(alloc, graph, test, write.value.as_slice(), word)?;
    Ok(picked)
}

/// The words of a memory after a write through one port.
pub fn written(
    alloc: Global,
    graph: &mut Builder,
    words: &[Word],
    write: &Write,
) -> Result<Vec<Word>, AllocError>
    requires sound { IsSound (gates_of graph.old) }
    requires words { AreWords (gates_of graph.old) (length write.now.value.items) words.now }
    requires write { IsWrite (gates_of graph.old) write.now }
    requires count { length words.now ≤ 2 ^ length write.now.address.items }
    ensures { IfOk result (λ lss. Writes (gates_of graph.old) (gates_of graph.new) words.now write.now (length words.now) lss.items) }
{
    let mut after = Vec::with_capacity(alloc, words.len())?;
    for k in 0..words.len() {
        let word = written_word(alloc, graph, words[k].literals(), write, k)?;
        after.push(Word::new(word))?;
    }
    Ok(after)
}
