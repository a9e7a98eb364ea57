/// A word of a type, C11 6.7.2.
#[derive(Clone, Copy, PartialEq, Eq)]
pub enum Specifier {
    Void,
    Bool,
    Char,
    Short,
    Int,
    Long,
    Signed,
    Unsigned,
}
