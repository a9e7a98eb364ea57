ghost use Rattle.std.specs.Prelude.{IfOk, ◌≡◌, true};
ghost use Rattle.c_syntax.specs.Steps.{Steps, close, is_close};

use crate::sorts::sort::Sort;
use crate::steps::goal::{Spot, Stack, Take};
use std::alloc::AllocError;

/// A token of this sort, and outside it the expression had so many operators.
pub fn close(
    stack: &mut Stack,
    spot: Spot,
    depth: u8,
    count: u16,
    wanted: Sort,
    sort: Sort,
) -> Result<Option<Take>, AllocError>
    requires { is_close wanted ≡ true }
    ensures { IfOk result (λ taken. Steps taken stack.old stack.new (close spot depth count wanted sort)) }
{
    if sort != wanted {
        return Ok(None);
    }
    spot.with_count(count).take(stack, depth, &[])
}
