//! Numbers of programs with times, which are as small as their types.
ghost use Rattle.std.specs.Prelude.{◌^◌, ◌<◌};
ghost use Rattle.ir_core.specs.Small.{IsSmallNode, HasSmallNumbers};

use crate::cfg::{Cfg, Node};
use crate::timed::Timed;

/// A number of 32 bits.
fn word(n: u32)
    ensures small { n < 2 ^ 32 }
{}

/// The length of a block, or the interval and the exit of a loop.
fn node_numbers(node: &Node<Timed>)
    ensures small { IsSmallNode node.now }
{
    match node {
        Node::Plain(block) => word(block.length),
        Node::Looped(region) => {
            word(region.ii);
            word(region.exit);
        }
    }
}

/// As many as there may be of something.
fn size(n: usize)
    ensures small { n < 2 ^ 64 }
{}

/// Lengths, intervals and exits are below 2^32, and there are fewer than 2^64 arrays.
pub fn numbers_are_small(cfg: &Cfg<Timed>)
    ensures small { HasSmallNumbers cfg.now }
{
    size(cfg.frame.memories.len());
    for node in &cfg.nodes {
        node_numbers(node);
    }
}
