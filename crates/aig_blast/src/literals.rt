//! The literals of the words of a circuit.
ghost use Rattle.std.specs.Prelude.{◌≡◌, IfOk};
ghost use Rattle.aig_graph.specs.Words.{word_at};
ghost use Rattle.aig_blast.specs.Literals.{literals_of};

use aig_graph::constant::constant;
use aig_graph::word::Word;
use rtl_core::design::Atom;
use std::alloc::{AllocError, Global};
use std::marker::Model;

/// The words of a memory.
#[derive(Drop)]
pub struct Bank {
    words: Vec<Word>,
}

impl Model for Bank {
    ghost use Rattle.std.specs.Prelude.{List, ℕ};

    ghost Value = { List (List ℕ) };

    ghost view = { λ b. b.words.items };
}

impl Bank {
    pub fn new(words: Vec<Word>) -> Bank
        ensures { result ≡ words.items }
    {
        Bank { words }
    }

    pub fn words(&self) -> &[Word]
        ensures { result.now ≡ self.now }
    {
        self.words.as_slice()
    }
}

/// The literals of inputs, registers, memory words and wires.
#[derive(Drop)]
pub struct Literals {
    pub inputs: Vec<Word>,
    pub regs: Vec<Word>,
    pub mems: Vec<Bank>,
    pub wires: Vec<Word>,
}

/// The word of this number.
fn word_at(alloc: Global, words: &[Word], number: u64) -> Result<Vec<u32>, AllocError>
    ensures { IfOk result (λ ls. ls.items ≡ word_at words.now number) }
{
    let k = number as usize;
    if k < words.len() {
        Vec::from_slice(alloc, words[k].literals())
    } else {
        Ok(Vec::new(alloc))
    }
}

/// The literals of an atom.
pub fn atom_word(alloc: Global, literals: &Literals, atom: Atom) -> Result<Vec<u32>, AllocError>
    ensures { IfOk result (λ ls. ls.items ≡ literals_of literals.now atom) }
{
    match atom {
        Atom::Constant { bits, value } => constant(alloc, usize::from(bits), value),
        Atom::Input(k) => word_at(alloc, literals.inputs.as_slice(), k),
        Atom::Reg(k) => word_at(alloc, literals.regs.as_slice(), k),
        Atom::Wire(k) => word_at(alloc, literals.wires.as_slice(), k),
    }
}
