ghost use Rattle.std.specs.Prelude.{◌≡◌, List, [], ◌≤◌, length, IfOk, Some};
ghost use Rattle.hls_base.specs.declared.refusal.Refusal.{Refusal};
ghost use Rattle.hls_base.specs.Refusals.{IfRefused};
ghost use Rattle.c_tree.specs.Tree.{ProgramTree};
ghost use Rattle.c_tree.specs.View.{program_of};
ghost use Rattle.c_meaning.specs.Checks.Programs.{program_faults, top_name};
ghost use Rattle.checked_source.specs.Sources.{IsProgramOf, IsTheProgramOf};
ghost use Rattle.checked_source.specs.SourceFaults.{IsFaultBefore, IsSourceFault};

use c_lexer::{end_of, lex};
use c_macro::replace;
use c_meaning::checks::Checked;
use c_parser::parse;
use c_tree::program::Program;
use c_types::program::check;
use hls_base::refusal::Fail;
use hls_base::text::Text;
use std::alloc::Global;

/// The program that the source is, without faults, and the index of its top function.
pub fn read_checked(alloc: Global, source: &[u8], top: &Text) -> Result<Checked, Fail>
    ensures found { IfOk result (λ c. IsTheProgramOf source.now (program_of c.program)) }
    ensures top { IfOk result (λ c. top_name (program_of c.program) c.top ≡ Some top.now) }
    ensures faultless { IfOk result (λ c. program_faults (program_of c.program) top.now ≡ []) }
    ensures refused { IfRefused result (IsSourceFault source.now top.now) }
    ensures once { IfRefused result (λ r. (q : Refusal) → IsSourceFault source.now top.now q → q ≡ r) }
{
    let program = read_program(alloc, source)?;
    check(alloc, program, top)
}

/// The program that the source is.
pub fn read_program(alloc: Global, source: &[u8]) -> Result<Program, Fail>
    ensures found { IfOk result (λ p. IsProgramOf source.now (program_of p)) }
    ensures only { IfOk result (λ p. (other : ProgramTree) → IsProgramOf source.now other → other ≡ program_of p) }
    ensures items { IfOk result (λ p. length p.items.items ≤ 16384) }
    ensures refused { IfRefused result (IsFaultBefore source.now) }
{
    let tokens = lex(alloc, source)?;
    let replaced = replace(alloc, tokens.as_slice())?;
    parse(alloc, replaced.as_slice(), end_of(source))
}
