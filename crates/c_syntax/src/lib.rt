//! The first token of a token list that no program of C has there, or that is beyond the limits.
#![tactic(auto)]

mod depths;
pub mod sorts;
pub mod steps;

ghost use Rattle.std.specs.Prelude.{◌≡◌, IfOk};
ghost use Rattle.hls_base.specs.Refusals.{IfRefused};
ghost use Rattle.c_tree.specs.Tree.{ProgramTree};
ghost use Rattle.c_tree.specs.Terminals.{terminals};
ghost use Rattle.c_tree.specs.Refusal.{IsFaultOf, IsProgram, FaultsOnce, refusal};
ghost use Rattle.c_syntax.specs.Sorts.{sort_of, rule_of_sort};
ghost use Rattle.c_syntax.specs.Faults.{rule_at_stop};

use crate::depths::{Depths, NESTING_LIMIT};
use crate::sorts::sort::{Sort, sort_of};
use crate::steps::advance::{Advance, is_complete, take_token};
use crate::steps::goal::{Spot, Stack};
use c_token::token::Token;
use hls_base::place::Place;
use hls_base::refusal::{Fail, Refusal};
use std::alloc::Global;

/// The rule of a token that no program has there.
fn rule_of(sort: Sort) -> u8
    ensures { result ≡ rule_of_sort sort }
{
    match sort {
        Sort::Unsupported => 20,
        Sort::Equal | Sort::Assignment | Sort::Bump => 23,
        _ => 6,
    }
}

/// The fault at a token with which no program goes on, where so many constructs are open.
fn stop_at(token: &Token, sort: Sort, open_before: u8) -> Refusal
    requires { sort ≡ sort_of token.now.kind }
    ensures { result ≡ refusal (rule_at_stop open_before token.now.kind) token.now.place }
{
    let rule = if NESTING_LIMIT < open_before {
        32
    } else {
        rule_of(sort)
    };
    Refusal {
        rule,
        place: token.place,
    }
}

/// Whether the tokens are a program within the limits. If not, its fault: the first token that no program has there (rule 20, 23 or 6), or that is too deep or an operator too many (rule 32).
#[tactic(auto, using(c_tree::proofs::FaultOnce::faults_once))]
pub fn find_fault(alloc: Global, tokens: &[Token], end: Place) -> Result<(), Fail>
    ensures accepted { IfOk result (λ _. (program : ProgramTree) × IsProgram (terminals tokens.now) end program) }
    ensures refused { IfRefused result (IsFaultOf (terminals tokens.now) end) }

    // what holds of the relations that these clauses speak of
    ensures once { FaultsOnce (terminals tokens.now) end }
{
    let mut stack = Stack::new(alloc)?;
    let mut depths = Depths::new(alloc);
    let mut count = 0;
    for (index, token) in tokens.iter().enumerate() {
        let sort = sort_of(&token.kind);
        let spot = Spot { index, count };
        match take_token(&mut stack, spot, sort)? {
            Advance::Taken(take) => {
                depths.push(take)?;
                count = take.count;
            }
            Advance::Stopped { open } => {
                if let Some(place) = depths.place_beyond(tokens) {
                    return Err(Fail::Refused(Refusal { rule: 32, place }));
                }
                return Err(Fail::Refused(stop_at(token, sort, open)));
            }
        }
    }
    if let Some(place) = depths.place_beyond(tokens) {
        return Err(Fail::Refused(Refusal { rule: 32, place }));
    }
    if is_complete(stack) {
        Ok(())
    } else {
        Err(Fail::Refused(Refusal {
            rule: 6,
            place: end,
        }))
    }
}
