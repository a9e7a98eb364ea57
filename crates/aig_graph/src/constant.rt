//! Words that need no gates.
ghost use Rattle.std.specs.Prelude.{◌≡◌, IfOk, length};
ghost use Rattle.aig_graph.specs.Words.{constant_word, IsNegation};

use crate::builder::not;
use std::alloc::{AllocError, Global};

/// The lowest bits of a number.
pub fn constant(alloc: Global, bits: usize, value: u128) -> Result<Vec<u32>, AllocError>
    ensures { IfOk result (λ ls. ls.items ≡ constant_word bits value) }
{
    let mut word = Vec::with_capacity(alloc, bits)?;
    let mut rest = value;
    for _i in 0..bits {
        word.push((rest % 2) as u32)?;
        rest /= 2;
    }
    Ok(word)
}

/// Each bit inverted.
pub fn negated(alloc: Global, xs: &[u32]) -> Result<Vec<u32>, AllocError>
    ensures { IfOk result (λ ls. IsNegation xs.now (length xs.now) ls.items) }
{
    let mut word = Vec::with_capacity(alloc, xs.len())?;
    for x in xs {
        word.push(not(*x))?;
    }
    Ok(word)
}
