ghost use Rattle.std.specs.Prelude.{◌≤◌, ◌*◌, length};

use crate::bits::{add_bits, clear_bit, empty_words, has_bit, set_bit};
use hls_base::number::VarId;
use std::alloc::{AllocError, Global};

/// A set of the variables of a program.
#[derive(Drop)]
pub struct VarSet {
    variables: usize,
    /// A bit for each variable, and maybe more.
    words: Vec<u64>,
    ghost room: { variables ≤ 64 * length words.items },
}

impl VarSet {
    ghost use Rattle.std.specs.Prelude.{◌≡◌, ◌==◌, ◌<◌, ℕ, Bool, true, false, IfOk, ◌↔◌};
    ghost use Rattle.reg_binding.specs.Sets.{has, free_bits, Gains, Loses};

    /// The empty set of a program with so many variables.
    pub fn new(alloc: Global, variables: usize) -> Result<VarSet, AllocError>
        ensures count { IfOk result (λ set. set.variables ≡ variables) }
        ensures members { IfOk result (λ set. (n : ℕ) → n < variables → has set n ≡ false) }
    {
        Ok(VarSet {
            variables,
            words: empty_words(alloc, variables / 64 + 1)?,
        })
    }

    pub fn contains(&self, variable: VarId) -> bool
        ensures { result ≡ has self.now variable.0 }
    {
        (variable.0 as usize) < self.variables && has_bit(&self.words, variable.0)
    }

    pub fn insert(&mut self, variable: VarId)
        ensures { Gains self.old self.new (λ n. variable.0 == n) }
    {
        set_bit(&mut self.words, variable.0);
    }

    pub fn remove(&mut self, variable: VarId)
        ensures { Loses self.old self.new (λ n. variable.0 == n) }
    {
        clear_bit(&mut self.words, variable.0);
    }

    /// Adds what another set of the same program has, and tells whether that is more than before.
    pub fn add_all(&mut self, other: &VarSet) -> bool
        ensures gains { self.old.variables ≡ other.now.variables → Gains self.old self.new (has other.now) }
        ensures same { result ≡ false → self.new ≡ self.old }
        ensures fewer { result ≡ true → free_bits self.new.words.items < free_bits self.old.words.items }
    {
        add_bits(&mut self.words, &other.words)
    }
}
