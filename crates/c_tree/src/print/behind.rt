ghost use Rattle.std.specs.Prelude.{◌≡◌, ◌++◌, OnOk};
ghost use Rattle.c_tree.specs.Behind.{opening, closing};

use crate::expression::Expr;
use crate::operator::Binary;
use crate::print::row::{Written, push_sign};
use c_token::punct::Punct;
use std::alloc::AllocError;

/// What stands behind an operand: `)`, or an operator with its right operand.
#[derive(Drop)]
pub enum Behind<'a> {
    Closing,
    Operator(Binary, &'a Expr),
    Comma(&'a Expr),
}

/// Opens parentheses around an operand that is not tight, and notes that they close behind it.
pub fn push_opening(
    row: &mut Vec<Written>,
    behind: &mut Vec<Behind<'_>>,
    tight: bool,
) -> Result<(), AllocError>
    ensures row { OnOk result (row.new.items ≡ row.old.items ++ opening tight) }
    ensures behind { OnOk result (behind.new.items ≡ behind.old.items ++ closing tight) }
{
    if !tight {
        push_sign(row, Punct::LeftParen)?;
        behind.push(Behind::Closing)?;
    }
    Ok(())
}
