//! The syntax tree of a module's text.
#![tactic(auto)]

ghost use Rattle.std.specs.Prelude.{◌≡◌, ◌≤◌, List, ℕ, length, IfOk};
ghost use Rattle.hls_base.specs.declared.refusal.Refusal.{Refusal};
ghost use Rattle.hls_base.specs.Refusals.{IfRefused};
ghost use Rattle.verilog_syntax.specs.PlacedSyntax.{PlacedModule};
ghost use Rattle.verilog_syntax.specs.ModuleViews.{module_view};
ghost use Rattle.verilog_syntax.specs.TextSyntax.{limit, Says, IsSyntaxFault, refusal_behind, failure_of};

pub mod characters;
mod form;
mod lexer;
pub mod module;
pub mod number;
mod parser;
mod token;

use crate::lexer::{Lexed, lex};
use crate::module::Module;
use crate::parser::{Stop, parse};
use hls_base::place::TEXT_START;
use hls_base::refusal::{Fail, Refusal};
use std::alloc::Global;

/// The most bytes that a module's text may have.
const TEXT_LIMIT: usize = 67_108_864;

/// Where the tokens are refused that go on with no token behind so many.
fn refusal_behind(lexed: &Lexed, seen: usize) -> Refusal
    ensures { result ≡ refusal_behind lexed.now.tokens.items lexed.now.end seen }
{
    if seen < lexed.tokens.len() {
        Refusal {
            rule: 51,
            place: lexed.tokens[seen].place,
        }
    } else {
        lexed.end
    }
}

/// Why the tokens are no module.
fn failure_of(lexed: &Lexed, stop: Stop) -> Fail
    ensures { result ≡ failure_of lexed.now.tokens.items lexed.now.end stop }
{
    match stop {
        Stop::Behind(seen) => Fail::Refused(refusal_behind(lexed, seen)),
        Stop::Memory => Fail::Memory,
    }
}

/// What a module's text says, or the fault of its length or its tokens. Names and widths are not looked at.
pub fn read_syntax<'a>(alloc: Global, bytes: &'a [u8]) -> Result<Module<'a>, Fail>
    ensures within { IfOk result (λ m. length bytes.now ≤ limit) }
    ensures says { IfOk result (λ m. Says bytes.now (module_view m)) }
    ensures only { IfOk result (λ m. (q : PlacedModule) → Says bytes.now q → q ≡ module_view m) }
    ensures refused { IfRefused result (λ r. IsSyntaxFault bytes.now r) }
    ensures once { IfRefused result (λ r. (q : Refusal) → IsSyntaxFault bytes.now q → q ≡ r) }
{
    if bytes.len() > TEXT_LIMIT {
        return Err(Fail::Refused(Refusal {
            rule: 56,
            place: TEXT_START,
        }));
    }
    let lexed = lex(alloc, bytes)?;
    match parse(alloc, &lexed.tokens) {
        Ok(module) if lexed.end.rule == 51 => Ok(module),
        Ok(_) => Err(Fail::Refused(lexed.end)),
        Err(stop) => Err(failure_of(&lexed, stop)),
    }
}
