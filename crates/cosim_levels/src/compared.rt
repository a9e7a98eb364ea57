//! The verdicts on two runs that ended.
ghost use Rattle.std.specs.Prelude.{◌≡◌, IfOk};
ghost use Rattle.c_tree.specs.View.{function_of};
ghost use Rattle.cosim_levels.specs.Verdicts.{verdict_of, agree, differ};
ghost use Rattle.cosim_levels.specs.Comparison as compare;

use crate::shown::{result_number, shown_arrays};
use crate::verdict::{Difference, Verdict};
use c_meaning::outcome::Final;
use c_tree::function::Function;
use std::alloc::{AllocError, Global};

pub fn differing(difference: Difference) -> Verdict
    ensures { verdict_of result ≡ differ difference }
{
    let Difference {
        item,
        expected,
        found,
    } = difference;
    Verdict::Differ {
        item,
        expected,
        found,
    }
}

/// The verdict where both runs come to the result and the elements of the run in C, after so many cycles, and the clocked machine takes so many steps.
pub fn agreeing(
    alloc: Global,
    function: &Function,
    ended: &Final,
    cycles: u128,
    clock: u128,
) -> Result<Verdict, AllocError>
    ensures { IfOk result (λ v. verdict_of v ≡ agree (compare.result_number function.now.result ended.now.ret) (compare.shown_arrays (compare.array_parameters (function_of function.now)) ended.now.arrays) cycles clock) }
{
    Ok(Verdict::Agree {
        ret: result_number(function.result, ended.ret),
        arrays: shown_arrays(alloc, &function.params, ended.arrays.items())?,
        cycles,
        clock,
    })
}
