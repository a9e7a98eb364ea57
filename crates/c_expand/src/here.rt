//! Where in a call the expansion is.
ghost use Rattle.std.specs.Prelude.{◌≡◌, ◌+◌, IfOk};

use hls_base::refusal::impossible;
use piece_making::frame::Frame;
use std::alloc::AllocError;

/// A call, how many calls may be opened within it, and how much deeper than here the expansion may go.
#[derive(Clone, Copy)]
pub struct Here<'f> {
    pub frame: &'f Frame<'f>,
    pub calls: usize,
    pub depth: u32,
}

/// One less. A program does not nest as deep as that there is no more.
pub fn deeper(depth: u32) -> Result<u32, AllocError>
    ensures { IfOk result (λ d. d + 1 ≡ depth) }
{
    depth.checked_sub(1).ok_or(impossible())
}

/// How many calls may be opened in one that is opened here. A program without recursion opens no more than it has functions.
pub fn one_more_open(calls: usize) -> Result<usize, AllocError>
    ensures { IfOk result (λ n. n + 1 ≡ calls) }
{
    calls.checked_sub(1).ok_or(impossible())
}
