//! A word of literals as an element of lists.
ghost use Rattle.std.specs.Prelude.{◌≡◌};

use std::marker::Model;

/// The literals of a word, lowest bit first.
#[derive(Drop)]
pub struct Word {
    literals: Vec<u32>,
}

impl Model for Word {
    ghost use Rattle.std.specs.Prelude.{List, ℕ};

    ghost Value = { List ℕ };

    ghost view = { λ w. w.literals.items };
}

impl Word {
    pub fn new(literals: Vec<u32>) -> Word
        ensures { result ≡ literals.items }
    {
        Word { literals }
    }

    pub fn literals(&self) -> &[u32]
        ensures { result.now ≡ self.now }
    {
        self.literals.as_slice()
    }
}
