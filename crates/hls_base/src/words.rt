ghost use Rattle.std.specs.Prelude.{◌≡◌, IfOk};

use std::alloc::{AllocError, Global};
use std::marker::Model;

/// A list of numbers, as bit patterns of values or numbers of nodes.
#[derive(Drop)]
pub struct Words {
    words: Vec<u64>,
}

impl Model for Words {
    ghost use Rattle.std.specs.Prelude.{List, ℕ};

    ghost Value = { List ℕ };

    ghost view = { λ w. w.words.items };
}

impl Words {
    pub fn new(items: Vec<u64>) -> Words
        ensures { result ≡ items.items }
    {
        Words { words: items }
    }

    pub fn items(&self) -> &[u64]
        ensures { result.now ≡ self.now }
    {
        self.words.as_slice()
    }

    /// Another owner of the same numbers.
    pub fn copy(&self, alloc: Global) -> Result<Words, AllocError>
        ensures { IfOk result (λ w. w ≡ self.now) }
    {
        let words = Vec::from_slice(alloc, self.items())?;
        Ok(Words { words })
    }
}

/// The elements of several arrays, each row by row.
#[derive(Drop)]
pub struct Arrays {
    arrays: Vec<Words>,
}

impl Model for Arrays {
    ghost use Rattle.std.specs.Prelude.{List, ℕ};

    ghost Value = { List (List ℕ) };

    ghost view = { λ a. a.arrays.items };
}

impl Arrays {
    pub fn new(items: Vec<Words>) -> Arrays
        ensures { result ≡ items.items }
    {
        Arrays { arrays: items }
    }

    pub fn items(&self) -> &[Words]
        ensures { result.now ≡ self.now }
    {
        self.arrays.as_slice()
    }

    /// Another owner of the same elements.
    pub fn copy(&self, alloc: Global) -> Result<Arrays, AllocError>
        ensures { IfOk result (λ a. a ≡ self.now) }
    {
        let rows = self.items();
        let mut arrays = Vec::with_capacity(alloc, rows.len())?;
        for row in rows {
            arrays.push(row.copy(alloc)?)?;
        }
        Ok(Arrays { arrays })
    }
}
