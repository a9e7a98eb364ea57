//! A program as a text of C.
ghost use Rattle.std.specs.Prelude.{◌≡◌, IfOk};
ghost use Rattle.c_tree.specs.View.{program_of};
ghost use Rattle.c_tree.specs.ProgramText.{HasTokens, IsTextOf};
ghost use Rattle.c_tree.specs.RowText.{row_text};
ghost use Rattle.c_tree.specs.StatementRows.{program_row};

mod behind;
mod expression;
mod item;
mod kind;
mod object;
pub mod row;
mod statement;
mod text;

use crate::print::item::push_program;
use crate::print::text::push_text;
use crate::program::Program;
use hls_base::text::Text;
use std::alloc::{AllocError, Global};

/// A text of the program, one statement on a line, with parentheses only where they are needed. It needs no `#include`, as types are written in words.
pub fn print(alloc: Global, program: &Program) -> Result<Text, AllocError>
    requires { HasTokens (program_of program.now) }
    ensures { IfOk result (λ text. IsTextOf text (program_of program.now)) }
{
    written(alloc, program)
}

fn written(alloc: Global, program: &Program) -> Result<Text, AllocError>
    ensures { IfOk result (λ text. text ≡ row_text (program_row (program_of program.now))) }
{
    let mut row = Vec::new(alloc);
    push_program(alloc, &mut row, program)?;
    let mut out = Vec::new(alloc);
    push_text(&mut out, row.as_slice())?;
    Ok(Text::new(out))
}
