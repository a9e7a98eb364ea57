//! A table as a balanced tree of selections by the bits of the address, in which equal subtrees are one.
ghost use Rattle.std.specs.Prelude.{◌≡◌};

use crate::draft::Draft;
use rtl_core::design::{Atom, Net};
use std::alloc::{AllocError, Global};
use std::collections::BTreeMap;

/// A subtree: one word, or the wire of a selection.
#[derive(Clone, Copy, PartialEq, Eq, PartialOrd, Ord)]
enum Subtree {
    Word(u64),
    Wire(u64),
}

/// The table's words, of so many bits, and its address.
#[derive(Clone, Copy)]
pub struct TableOf<'a> {
    pub bits: u8,
    pub words: &'a [u64],
    pub addr: Atom,
}

fn subtree_atom(bits: u8, subtree: Subtree) -> Atom {
    match subtree {
        Subtree::Word(word) => Atom::Constant {
            bits,
            value: word as u128,
        },
        Subtree::Wire(wire) => Atom::Wire(wire),
    }
}

/// The bit of the address with this number, 0 where the address has no such bit.
fn address_bit(draft: &mut Draft, addr: Atom, number: u8) -> Result<Atom, AllocError>
    ensures regs { draft.new.regs.items ≡ draft.old.regs.items }
{
    match addr {
        Atom::Constant { value, .. } => Ok(Atom::Constant {
            bits: 1,
            value: if number < 128 {
                (value >> number as u32) & 1
            } else {
                0
            },
        }),
        of => draft.wire(
            1,
            Net::Part {
                of,
                high: number,
                low: number,
            },
        ),
    }
}

/// The subtrees of one level, from pairs of those below it.
fn level_above(
    alloc: Global,
    draft: &mut Draft,
    bits: u8,
    test: Atom,
    below: &[Subtree],
) -> Result<Vec<Subtree>, AllocError>
    ensures regs { draft.new.regs.items ≡ draft.old.regs.items }
{
    let mut made: BTreeMap<(Subtree, Subtree), Subtree> = BTreeMap::new(alloc);
    let mut above = Vec::with_capacity(alloc, below.len() / 2)?;
    for k in 0..below.len() / 2 {
        let pair = (below[2 * k], below[2 * k + 1]);
        above.push(selection(draft, bits, test, &mut made, pair)?)?;
    }
    Ok(above)
}

/// The selection between a pair of subtrees, made once for each pair.
fn selection(
    draft: &mut Draft,
    bits: u8,
    test: Atom,
    made: &mut BTreeMap<(Subtree, Subtree), Subtree>,
    pair: (Subtree, Subtree),
) -> Result<Subtree, AllocError>
    ensures regs { draft.new.regs.items ≡ draft.old.regs.items }
{
    let (low, high) = pair;
    if low == high {
        return Ok(low);
    }
    if let Some(same) = made.get(&pair) {
        return Ok(*same);
    }
    let net = Net::Pick(test, subtree_atom(bits, high), subtree_atom(bits, low));
    let made_now = match draft.wire(bits, net)? {
        Atom::Wire(wire) => Subtree::Wire(wire),
        _ => low,
    };
    made.insert(pair, made_now)?;
    Ok(made_now)
}

fn leaves(alloc: Global, words: &[u64]) -> Result<Vec<Subtree>, AllocError> {
    let mut all = Vec::with_capacity(alloc, words.len())?;
    for word in words {
        all.push(Subtree::Word(*word))?;
    }
    Ok(all)
}

/// Whether all subtrees are one.
fn is_uniform(level: &[Subtree]) -> bool {
    match level.first() {
        Some(first) => {
            for subtree in level {
                if *subtree != *first {
                    return false;
                }
            }
            true
        }
        None => true,
    }
}

/// The word of a table at its address. An address has at most 16 bits.
pub fn table(alloc: Global, draft: &mut Draft, of: TableOf<'_>) -> Result<Atom, AllocError>
    ensures regs { draft.new.regs.items ≡ draft.old.regs.items }
{
    let mut level = leaves(alloc, of.words)?;
    for number in 0..16u8 {
        if !is_uniform(&level) {
            let test = address_bit(draft, of.addr, number)?;
            level = level_above(alloc, draft, of.bits, test, &level)?;
        }
    }
    let word = match level.first() {
        Some(subtree) => subtree_atom(of.bits, *subtree),
        None => crate::draft::zero(of.bits),
    };
    Ok(word)
}
