ghost use Rattle.std.specs.Prelude.{◌≡◌, ◌<◌, ◌^◌, ◌%◌, length, slice_set, IfOk};
ghost use Rattle.verilog_cycle.specs.Simulation.{words_modulo};

use std::marker::Model;

/// The words of a memory.
#[derive(Drop)]
pub struct Contents {
    words: Vec<u64>,
}

impl Model for Contents {
    ghost use Rattle.std.specs.Prelude.{List, ℕ};

    ghost Value = { List ℕ };

    ghost view = { λ c. c.words.items };
}

impl Contents {
    pub fn new(words: Vec<u64>) -> Contents
        ensures { result ≡ words.items }
    {
        Contents { words }
    }

    pub fn words(&self) -> &[u64]
        ensures { result.now ≡ self.now }
    {
        self.words.as_slice()
    }

    pub fn write(&mut self, address: usize, word: u64)
        requires { address < length self.old }
        ensures { self.new ≡ slice_set self.old address word }
    {
        self.words[address] = word;
    }
}
