//! What the tokens of a source become by its directives, and by the words that stand for tokens.
#![tactic(auto)]

ghost use Rattle.std.specs.Prelude.{List, length, ◌≤◌, IfOk};
ghost use Rattle.c_token.specs.Replacement.{Table, Becomes, FirstReplacementFault, StandsForOne, ReplacesOnce, token_limit};
ghost use Rattle.c_token.specs.declared.token.Token.{Token};
ghost use Rattle.hls_base.specs.Refusals.{IfRefused};

mod directive;
mod expansion;
mod macros;
mod output;
mod reader;
mod tokens;
mod words;

use crate::reader::Reader;
use c_token::token::Token;
use hls_base::refusal::Fail;
use std::alloc::Global;

/// The tokens of a source once its directives are obeyed and its words replaced (C11 6.10.3), or its first fault: rule 5, 31 or 38.
/// Directives give no tokens. The k-th token that a word is replaced by has the word's line and column and the part k.
/// The time grows with the tokens that are read and put out and the words that are replaced, and a count stops as soon as it passes its limit.
pub fn replace(alloc: Global, tokens: &[Token]) -> Result<Vec<Token>, Fail>
    ensures becomes { IfOk result (λ replaced. Becomes tokens.now replaced.items) }
    ensures within { IfOk result (λ replaced. length replaced.items ≤ token_limit) }
    ensures refused { IfRefused result (λ refusal. FirstReplacementFault tokens.now refusal) }

    // what holds of the relations that these clauses speak of
    ensures once { ReplacesOnce tokens.now }
    ensures rows { (table : Table) (row : List Token) → StandsForOne table row }
{
    let mut reader = Reader::new(alloc);
    let mut left = tokens;
    while !left.is_empty() {
        left = reader.take_part(alloc, left)?;
    }
    Ok(reader.into_tokens())
}
