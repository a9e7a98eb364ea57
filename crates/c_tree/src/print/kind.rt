ghost use Rattle.std.specs.Prelude.{◌≡◌, ◌++◌, OnOk};
ghost use Rattle.c_tree.specs.Rows as rows;

use crate::print::row::{Written, push_word};
use c_token::ctype::CType;
use std::alloc::{AllocError, Global};

fn width_word(bits: u8) -> &'static [u8]
    ensures { result.now ≡ rows.width_word bits }
{
    match bits {
        8 => b"char",
        16 => b"short",
        32 => b"int",
        _ => b"long",
    }
}

/// Appends a type in words.
pub fn push_kind(
    alloc: Global,
    row: &mut Vec<Written>,
    constant: bool,
    kind: CType,
) -> Result<(), AllocError>
    ensures { OnOk result (row.new.items ≡ row.old.items ++ rows.kind_row constant kind) }
{
    if constant {
        push_word(alloc, row, b"const")?;
        row.push(Written::Space)?;
    }
    push_type(alloc, row, kind)
}

pub fn push_type(alloc: Global, row: &mut Vec<Written>, kind: CType) -> Result<(), AllocError>
    ensures { OnOk result (row.new.items ≡ row.old.items ++ rows.words_row (rows.type_words kind)) }
{
    match kind {
        CType::Bool => push_word(alloc, row, b"_Bool"),
        CType::Int { signed, bits } => {
            if !signed {
                push_word(alloc, row, b"unsigned")?;
                row.push(Written::Space)?;
            } else if bits == 8 {
                push_word(alloc, row, b"signed")?;
                row.push(Written::Space)?;
            }
            push_word(alloc, row, width_word(bits))
        }
    }
}
