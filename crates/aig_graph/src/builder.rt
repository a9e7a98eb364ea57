//! Gates while a graph is made. Equal gates are made once, and gates of constants are folded.
ghost use Rattle.std.specs.Prelude.{◌≡◌, ◌<◌, ◌≤◌, ◌*◌, ◌==◌, ℕ, List, Bool, true, false, not, ◌&&◌, ◌||◌, IfOk, if◌then◌else◌};
ghost use Rattle.aig_graph.specs.Graphs.{literal};
ghost use Rattle.aig_graph.specs.Making.{gates_of, no_gates, IsSound, IsLiteral, Makes, is_xor, is_picked};

use crate::aig::Gate;
use indexmap::IndexSet;
use std::alloc::{AllocError, Global};

/// Gates over so many given variables, which have the numbers from 1 on.
#[derive(Drop)]
pub struct Builder {
    given: u32,
    gates: IndexSet<Gate>,
}

/// The greatest number of a variable.
const LAST: u64 = 2_147_483_647;

/// The negation of a literal.
pub fn not(of: u32) -> u32
    ensures value { (w : List Bool) → literal w result ≡ not (literal w of) }
    ensures within { (n : ℕ) → of < 2 * n → result < 2 * n }
{
    if of.is_multiple_of(2) { of + 1 } else { of - 1 }
}

impl Builder {
    /// No gates.
    pub fn new(alloc: Global, given: u32) -> Builder
        ensures { gates_of result ≡ no_gates given }
    {
        Builder {
            given,
            gates: IndexSet::new(alloc),
        }
    }

    /// The gates in order.
    pub fn ands(&self, alloc: Global) -> Result<Vec<Gate>, AllocError>
        ensures { IfOk result (λ ands. ands.items ≡ (gates_of self.now).ands) }
    {
        Vec::from_slice(alloc, self.gates.as_slice())
    }

    /// The literal of a gate that is not constant.
    fn gate(&mut self, left: u32, right: u32) -> Result<u32, AllocError>
        ensures { IsSound (gates_of self.old) → IsLiteral (gates_of self.old) left → IsLiteral (gates_of self.old) right
            → IfOk result (λ l. Makes (gates_of self.old) (gates_of self.new) l (λ w x. x ≡ (literal w left && literal w right))) }
    {
        if u64::from(self.given) + self.gates.len() as u64 >= LAST {
            return Err(AllocError);
        }
        let (index, _) = self.gates.insert_full(Gate { left, right })?;
        Ok(2 * (self.given + 1 + index as u32))
    }

    /// Both.
    pub fn and(&mut self, left: u32, right: u32) -> Result<u32, AllocError>
        ensures { IsSound (gates_of self.old) → IsLiteral (gates_of self.old) left → IsLiteral (gates_of self.old) right
            → IfOk result (λ l. Makes (gates_of self.old) (gates_of self.new) l (λ w x. x ≡ (literal w left && literal w right))) }
    {
        if left == 0 || right == 1 || left == right {
            return Ok(left);
        }
        if right == 0 || left == 1 {
            return Ok(right);
        }
        self.gate(left, right)
    }

    /// At least one of them.
    pub fn or(&mut self, left: u32, right: u32) -> Result<u32, AllocError>
        ensures { IsSound (gates_of self.old) → IsLiteral (gates_of self.old) left → IsLiteral (gates_of self.old) right
            → IfOk result (λ l. Makes (gates_of self.old) (gates_of self.new) l (λ w x. x ≡ (literal w left || literal w right))) }
    {
        let neither = self.and(not(left), not(right))?;
        Ok(not(neither))
    }

    /// Exactly one of them.
    pub fn xor(&mut self, left: u32, right: u32) -> Result<u32, AllocError>
        ensures { IsSound (gates_of self.old) → IsLiteral (gates_of self.old) left → IsLiteral (gates_of self.old) right
            → IfOk result (λ l. Makes (gates_of self.old) (gates_of self.new) l (λ w x. x ≡ is_xor (literal w left) (literal w right))) }
    {
        let both = self.and(left, right)?;
        let any = self.or(left, right)?;
        let one = self.and(any, not(both))?;
        Ok(one)
    }

    /// The first where the test holds, else the second.
    pub fn pick(&mut self, test: u32, first: u32, second: u32) -> Result<u32, AllocError>
        ensures { IsSound (gates_of self.old) → IsLiteral (gates_of self.old) test → IsLiteral (gates_of self.old) first → IsLiteral (gates_of self.old) second
            → IfOk result (λ l. Makes (gates_of self.old) (gates_of self.new) l (λ w x. x ≡ is_picked (literal w test) (literal w first) (literal w second))) }
    {
        let yes = self.and(test, first)?;
        let no = self.and(not(test), second)?;
        let picked = self.or(yes, no)?;
        Ok(picked)
    }
}
