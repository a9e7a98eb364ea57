//! The types of expressions.
ghost use Rattle.std.specs.Prelude.{◌≡◌};
ghost use Rattle.pieces.specs.Resolved.CoreView.{core_of};
ghost use Rattle.c_elaborate.specs.Expressions.{kind_of as spec_kind_of};

use c_token::ctype::CType;
use c_value::kind::INT;
use pieces::resolved::expression::CoreExpr;

/// The type of an expression; int of a void call.
pub fn kind_of(e: &CoreExpr) -> CType
    ensures { result ≡ spec_kind_of (core_of e.now) }
{
    let mut part = e;
    'comma: loop {
        match part {
            CoreExpr::Number { kind, .. }
            | CoreExpr::Scalar { kind, .. }
            | CoreExpr::Element { kind, .. }
            | CoreExpr::Unary { kind, .. }
            | CoreExpr::Binary { kind, .. }
            | CoreExpr::Choice { kind, .. } => return *kind,
            CoreExpr::Call { kind, .. } => return kind.unwrap_or(INT),
            CoreExpr::Cast { to, .. } => return *to,
            CoreExpr::Assign { target, .. } | CoreExpr::Bump { target, .. } => return target.kind,
            CoreExpr::Comma { right, .. } => part = right,
        }
    }
}
