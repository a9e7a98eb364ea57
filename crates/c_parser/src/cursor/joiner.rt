use c_tree::operator::Binary;

/// What groups operands to the left: a binary operator, or the comma.
#[derive(Clone, Copy, PartialEq, Eq)]
pub enum Joiner {
    Binary(Binary),
    Comma,
}
