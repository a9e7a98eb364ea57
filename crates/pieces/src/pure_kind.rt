//! The type of an expression's value.
ghost use Rattle.std.specs.Prelude.{◌≡◌};
ghost use Rattle.pieces.specs.View.{pure_of};
ghost use Rattle.pieces.specs.Kind.{kind};

use crate::pure_expr::Pure;
use c_token::ctype::CType;

/// The type of an expression's value.
pub fn kind_of(pure: &Pure) -> CType
    ensures { result ≡ kind (pure_of pure.now) }
{
    match pure {
        Pure::Number { kind, .. }
        | Pure::Variable(_, kind)
        | Pure::Element { kind, .. }
        | Pure::Unary { kind, .. }
        | Pure::Binary { kind, .. }
        | Pure::Choice { kind, .. } => *kind,
        Pure::Cast { to, .. } => *to,
    }
}
