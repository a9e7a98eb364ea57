ghost use Rattle.std.specs.Prelude.{◌≡◌, IfOk};
ghost use Rattle.c_syntax.specs.Steps.{all_optional};
ghost use Rattle.c_syntax.specs.Steps.Advances.{Advances};

use crate::sorts::sort::Sort;
use crate::steps::goal::{Spot, Stack, Take};
use crate::steps::step::step;
use std::alloc::AllocError;

/// What happens at a token: it is taken, or no program goes on with it, and so many constructs are open there.
pub enum Advance {
    Taken(Take),
    Stopped { open: u8 },
}

/// Goes on to the goal that takes the token.
pub fn take_token(stack: &mut Stack, spot: Spot, sort: Sort) -> Result<Advance, AllocError>
    ensures { IfOk result (λ advance. Advances advance stack.old stack.new spot sort) }
{
    while let Some(goal) = stack.pop() {
        if let Some(take) = step(stack, spot, goal, sort)? {
            return Ok(Advance::Taken(take));
        }
        if !goal.is_optional() {
            let open = goal.open_before();
            return Ok(Advance::Stopped { open });
        }
    }
    Ok(Advance::Stopped { open: 0 })
}

/// Whether nothing more need be taken.
pub fn is_complete(mut stack: Stack) -> bool
    ensures { result ≡ all_optional stack }
{
    while let Some(goal) = stack.pop() {
        if !goal.is_optional() {
            return false;
        }
    }
    true
}
