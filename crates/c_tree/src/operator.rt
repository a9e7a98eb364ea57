/// An operator before its operand, C11 6.5.3.3. `Not` is `~` and `LogNot` is `!`.
#[derive(Clone, Copy, PartialEq, Eq)]
pub enum Unary {
    Plus,
    Minus,
    Not,
    LogNot,
}

/// An operator between two operands, C11 6.5.5 to 6.5.14. `And`, `Xor` and `Or` work bit by bit.
#[derive(Clone, Copy, PartialEq, Eq)]
pub enum Binary {
    Mul,
    Div,
    Rem,
    Add,
    Sub,
    Shl,
    Shr,
    Lt,
    Gt,
    Le,
    Ge,
    Eq,
    Ne,
    And,
    Xor,
    Or,
    LogAnd,
    LogOr,
}
