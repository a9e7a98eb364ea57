ghost use Rattle.std.specs.Prelude.{◌≡◌, ◌∷◌, [], ◌++◌, OnOk};
ghost use Rattle.c_tree.specs.Rows.{sign, word};
ghost use Rattle.c_tree.specs.declared.print.row.Written.TheVariants as w;

use c_token::punct::Punct;
use c_token::token::TokenKind;
use hls_base::text::Text;
use std::alloc::{AllocError, Global};

/// A piece of a printed program: white space or a token. `Line` begins a line that is indented by so many steps.
#[derive(Drop)]
pub enum Written {
    Space,
    Line(u64),
    Token(TokenKind),
}

pub fn push_sign(row: &mut Vec<Written>, punct: Punct) -> Result<(), AllocError>
    ensures { OnOk result (row.new.items ≡ row.old.items ++ sign punct ∷ []) }
{
    row.push(Written::Token(TokenKind::Punct(punct)))?;
    Ok(())
}

pub fn push_word(alloc: Global, row: &mut Vec<Written>, text: &[u8]) -> Result<(), AllocError>
    ensures { OnOk result (row.new.items ≡ row.old.items ++ word text.now ∷ []) }
{
    let text = Text::from_slice(alloc, text)?;
    row.push(Written::Token(TokenKind::Word(text)))?;
    Ok(())
}

/// Appends a comma and a space.
pub fn push_comma(row: &mut Vec<Written>) -> Result<(), AllocError>
    ensures { OnOk result (row.new.items ≡ row.old.items ++ sign Punct.Comma ∷ w.Space ∷ []) }
{
    push_sign(row, Punct::Comma)?;
    row.push(Written::Space)?;
    Ok(())
}
