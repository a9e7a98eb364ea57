//! Which sign is which operator.
ghost use Rattle.std.specs.Prelude.{◌≡◌};
ghost use Rattle.c_tree.specs.Terminals.{prefix_of, operator_of, assignment_of, bump_of};
ghost use Rattle.c_tree.specs.Grammar.{level_of};
ghost use Rattle.c_parser.specs.Cursor.Tokens.{joiner_of, joiner_level};

use crate::cursor::joiner::Joiner;
use c_token::punct::Punct;
use c_tree::operator::{Binary, Unary};

pub fn prefix_of(punct: Punct) -> Option<Unary>
    ensures { result ≡ prefix_of punct }
{
    match punct {
        Punct::Plus => Some(Unary::Plus),
        Punct::Minus => Some(Unary::Minus),
        Punct::Tilde => Some(Unary::Not),
        Punct::Bang => Some(Unary::LogNot),
        _ => None,
    }
}

fn operator_of(punct: Punct) -> Option<Binary>
    ensures { result ≡ operator_of punct }
{
    match punct {
        Punct::Star => Some(Binary::Mul),
        Punct::Slash => Some(Binary::Div),
        Punct::Percent => Some(Binary::Rem),
        Punct::Plus => Some(Binary::Add),
        Punct::Minus => Some(Binary::Sub),
        Punct::ShiftLeft => Some(Binary::Shl),
        Punct::ShiftRight => Some(Binary::Shr),
        Punct::Less => Some(Binary::Lt),
        Punct::Greater => Some(Binary::Gt),
        Punct::LessEqual => Some(Binary::Le),
        Punct::GreaterEqual => Some(Binary::Ge),
        Punct::EqualEqual => Some(Binary::Eq),
        Punct::BangEqual => Some(Binary::Ne),
        Punct::Amp => Some(Binary::And),
        Punct::Caret => Some(Binary::Xor),
        Punct::Bar => Some(Binary::Or),
        Punct::AmpAmp => Some(Binary::LogAnd),
        Punct::BarBar => Some(Binary::LogOr),
        _ => None,
    }
}

fn level_of(op: Binary) -> u8
    ensures { result ≡ level_of op }
{
    match op {
        Binary::Mul | Binary::Div | Binary::Rem => 3,
        Binary::Add | Binary::Sub => 4,
        Binary::Shl | Binary::Shr => 5,
        Binary::Lt | Binary::Gt | Binary::Le | Binary::Ge => 6,
        Binary::Eq | Binary::Ne => 7,
        Binary::And => 8,
        Binary::Xor => 9,
        Binary::Or => 10,
        Binary::LogAnd => 11,
        Binary::LogOr => 12,
    }
}

pub fn joiner_of(punct: Punct) -> Option<Joiner>
    ensures { result ≡ joiner_of punct }
{
    if punct == Punct::Comma {
        return Some(Joiner::Comma);
    }
    operator_of(punct).map(Joiner::Binary)
}

pub fn joiner_level(joiner: Joiner) -> u8
    ensures { result ≡ joiner_level joiner }
{
    match joiner {
        Joiner::Binary(op) => level_of(op),
        Joiner::Comma => 15,
    }
}

pub fn assignment_of(punct: Punct) -> Option<Option<Binary>>
    ensures { result ≡ assignment_of punct }
{
    match punct {
        Punct::Equal => Some(None),
        Punct::StarEqual => Some(Some(Binary::Mul)),
        Punct::SlashEqual => Some(Some(Binary::Div)),
        Punct::PercentEqual => Some(Some(Binary::Rem)),
        Punct::PlusEqual => Some(Some(Binary::Add)),
        Punct::MinusEqual => Some(Some(Binary::Sub)),
        Punct::ShiftLeftEqual => Some(Some(Binary::Shl)),
        Punct::ShiftRightEqual => Some(Some(Binary::Shr)),
        Punct::AmpEqual => Some(Some(Binary::And)),
        Punct::CaretEqual => Some(Some(Binary::Xor)),
        Punct::BarEqual => Some(Some(Binary::Or)),
        _ => None,
    }
}

/// Whether the sign is `++`, or `--`.
pub fn bump_of(punct: Punct) -> Option<bool>
    ensures { result ≡ bump_of punct }
{
    match punct {
        Punct::PlusPlus => Some(true),
        Punct::MinusMinus => Some(false),
        _ => None,
    }
}
