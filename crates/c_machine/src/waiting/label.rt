//! The labels of a switch.
ghost use Rattle.std.specs.Prelude.{◌≡◌};
ghost use Rattle.std.specs.Option.{option_map};
ghost use Rattle.c_tree.specs.View.{tree_of, stmt_of, stmts_of};
ghost use Rattle.c_meaning.specs.Statement.{is_label, is_default, has_label, any_label, target_label};
ghost use Rattle.c_machine.specs.Waiting.Labels.{wanted_by};

use c_token::ctype::CType;
use c_tree::expression::Expr;
use c_tree::statement::Stmt;
use c_value::constant::{Constant, constant_value};
use c_value::convert::convert;

/// The label to which a switch jumps: the default, or the case of this number in the type of the controlling expression.
#[derive(Clone, Copy, PartialEq, Eq)]
pub struct Wanted {
    pub kind: CType,
    pub number: i128,
    pub default: bool,
}

fn is_label(wanted: Wanted, value: &Option<Expr>) -> bool
    ensures { result ≡ is_label wanted.kind wanted.number (option_map tree_of value.now) }
{
    let Some(e) = value else { return false };
    match constant_value(e) {
        Constant::Number { number, .. } => convert(wanted.kind, number) == wanted.number,
        _ => false,
    }
}

fn is_default(value: &Option<Expr>) -> bool
    ensures { result ≡ is_default (option_map tree_of value.now) }
{
    match value {
        None => true,
        Some(_) => false,
    }
}

pub fn is_wanted(wanted: Wanted, value: &Option<Expr>) -> bool
    ensures { result ≡ wanted_by wanted (option_map tree_of value.now) }
{
    if wanted.default {
        is_default(value)
    } else {
        is_label(wanted, value)
    }
}

/// Whether a statement has the label in front.
pub fn has_label(wanted: Wanted, stmt: &Stmt) -> bool
    ensures { result ≡ has_label (wanted_by wanted) (stmt_of stmt.now) }
{
    match stmt {
        Stmt::Case { value, body, .. } => is_wanted(wanted, value) || has_label(wanted, body),
        _ => false,
    }
}

#[tactic(auto, using(crate::proofs::WaitingLemmas::Labelling::labelling))]
fn any_label(wanted: Wanted, body: &[Stmt]) -> bool
    ensures { result ≡ any_label (wanted_by wanted) (stmts_of body.now) }
{
    for stmt in body {
        if has_label(wanted, stmt) {
            return true;
        }
    }
    false
}

/// The label to which a switch jumps.
pub fn target_label(kind: CType, number: i128, body: &[Stmt]) -> Wanted
    ensures { wanted_by result ≡ target_label kind number (stmts_of body.now) }
{
    let case = Wanted {
        kind,
        number,
        default: false,
    };
    Wanted {
        kind,
        number,
        default: !any_label(case, body),
    }
}
