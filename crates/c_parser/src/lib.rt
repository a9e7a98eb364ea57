//! The syntax tree of a list of tokens.
#![tactic(auto)]

mod action;
mod chain;
pub mod cursor;
mod expression;
mod function;
mod object;
mod statement;

ghost use Rattle.std.specs.Prelude.{◌≡◌, IfOk};
ghost use Rattle.hls_base.specs.Refusals.{IfRefused};
ghost use Rattle.c_tree.specs.Terminals.{terminals};
ghost use Rattle.c_tree.specs.Tree.{ProgramTree};
ghost use Rattle.c_tree.specs.View.{program_of};
ghost use Rattle.c_tree.specs.Grammar.{DerivesProgram};
ghost use Rattle.c_tree.specs.Refusal.{IsFaultOf, IsProgram, FaultsOnce};

use crate::function::build;
use c_syntax::find_fault;
use c_token::token::Token;
use c_tree::program::Program;
use hls_base::place::Place;
use hls_base::refusal::Fail;
use std::alloc::Global;

/// The program that the tokens of a source with this end are, or their first fault: under rule 6, 20 or 23 the first token that no program has there, or under rule 32 the first that is beyond a limit of nesting or of operators.
#[tactic(auto, using(c_tree::proofs::FaultOnce::faults_once))]
pub fn parse(alloc: Global, tokens: &[Token], end: Place) -> Result<Program, Fail>
    ensures derived { IfOk result (λ p. IsProgram (terminals tokens.now) end (program_of p)) }
    ensures only { IfOk result (λ p. (other : ProgramTree) → DerivesProgram (terminals tokens.now) end other → other ≡ program_of p) }
    ensures refused { IfRefused result (IsFaultOf (terminals tokens.now) end) }

    // what holds of the relations that these clauses speak of
    ensures once { FaultsOnce (terminals tokens.now) end }
{
    // What has no fault nests at most 64 deep, so that the builder may recurse.
    find_fault(alloc, tokens, end)?;
    match build(alloc, tokens, end)? {
        Some(program) => Ok(program),
        None => unreachable!(),
    }
}
