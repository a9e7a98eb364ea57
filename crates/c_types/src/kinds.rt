//! The types of expressions.
ghost use Rattle.std.specs.Prelude.{◌≡◌};
ghost use Rattle.c_tree.specs.View.{tree_of};
ghost use Rattle.c_meaning.specs.Checks.Names.{sense_of};
ghost use Rattle.c_meaning.specs.Checks.Names as spec;

use c_names::declarations::names::{Scopes, Sense};
use c_token::ctype::CType;
use c_tree::expression::Expr;
use c_value::chain::{chain_length, part_at};
use c_value::kind::{INT, common};
use c_value::operate::{binary_kind, unary_kind};
use hls_base::text::Text;

/// The type of an object by its name; int where it is none.
fn object_kind(names: &Scopes, name: &Text) -> CType
    ensures { result ≡ spec.object_kind (sense_of name.now names.now) }
{
    match names.find(name) {
        Some(Sense::Object(shape)) => shape.kind,
        _ => INT,
    }
}

/// The type of what a function gives; int where it gives nothing or is none.
fn result_kind(names: &Scopes, name: &Text) -> CType
    ensures { result ≡ spec.result_kind (sense_of name.now names.now) }
{
    match names.find(name) {
        Some(
            Sense::Function {
                result: Some(kind),
                ..
            },
        ) => *kind,
        _ => INT,
    }
}

/// The type of an expression, by its own variant.
#[cycle(kinds)]
fn kind_of_part(names: &Scopes, e: &Expr) -> CType
    ensures { result ≡ spec.kind_of names.now (tree_of e.now) }
{
    match e {
        Expr::Number { kind, .. } => *kind,
        Expr::Name { name, .. } => object_kind(names, name),
        Expr::Index { array, .. } => object_kind(names, array),
        Expr::Call { callee, .. } => result_kind(names, callee),
        Expr::Unary { op, arg, .. } => unary_kind(*op, kind_of(names, arg)),
        Expr::Binary {
            op,
            left,
            right,
            ..
        } => binary_kind(*op, kind_of(names, left), kind_of(names, right)),
        Expr::Choice { yes, no, .. } => common(kind_of(names, yes), kind_of(names, no)),
        Expr::Cast { to, .. } => *to,
        Expr::Assign { target, .. } => object_kind(names, &target.name),
        Expr::Bump { target, .. } => object_kind(names, &target.name),
        Expr::Comma { right, .. } => kind_of(names, right),
    }
}

/// The type of an expression, C11 6.5; int where a fault leaves it open. Operators in a row are gone through from the innermost outwards.
#[cycle(kinds)]
pub fn kind_of(names: &Scopes, e: &Expr) -> CType
    ensures { result ≡ spec.kind_of names.now (tree_of e.now) }
{
    let mut depth = chain_length(e);
    let mut kind = kind_of_part(names, part_at(e, depth));
    'outwards: while depth > 0 {
        depth -= 1;
        if let Expr::Binary { op, right, .. } = part_at(e, depth) {
            kind = binary_kind(*op, kind, kind_of(names, right));
        }
    }
    kind
}
