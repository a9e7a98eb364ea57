//! The types of chains of operators.
ghost use Rattle.std.specs.Prelude.{◌≡◌};
ghost use Rattle.c_machine.specs.Waiting.Chains.{around};

use c_token::ctype::CType;
use c_tree::operator::Binary;
use c_value::operate::binary_kind;

/// An operator of a chain, with the type of its right operand.
#[derive(Clone, Copy)]
pub struct Operator {
    pub op: Binary,
    pub right: CType,
}

/// The type of a chain around an operand of this type.
pub fn around(operators: Vec<Operator>, kind: CType) -> CType
    ensures { result ≡ around operators.items kind }
{
    let mut operators = operators;
    let mut whole = kind;
    while let Some(operator) = operators.pop() {
        whole = binary_kind(operator.op, whole, operator.right);
    }
    whole
}
