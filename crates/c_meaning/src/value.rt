//! Values, and how parts of a run end.
use c_token::ctype::CType;
use hls_base::place::Place;
use hls_base::refusal::UbRule;

/// A value: a type and a number of it.
#[derive(Clone, Copy, PartialEq, Eq)]
pub struct Value {
    pub kind: CType,
    pub number: i128,
}

/// What is given for a parameter: a number, or an array by its object (C11 6.5.2.2, 6.7.6.3 paragraph 7).
#[derive(Clone, Copy, PartialEq, Eq)]
pub enum Argument {
    Number(i128),
    Array(usize),
}

/// How a statement ends: control goes on behind it, or a jump leaves it (C11 6.8.6). A return carries its number, and whether it is in a tail position: the last statement of a function's body, the last of a block in a tail position, or a branch of an `if` in one.
#[derive(Clone, Copy, PartialEq, Eq)]
pub enum Completion {
    Normal,
    Broke,
    Continued,
    Returned { number: Option<i128>, tail: bool },
}

/// What comes after an iteration: another one, or the loop is over, or a return leaves it.
#[derive(Clone, Copy, PartialEq, Eq)]
pub enum Round {
    Again,
    Over,
    Out(Option<i128>),
}

/// Behaviour that is undefined, by a rule and at a place.
#[derive(Clone, Copy, PartialEq, Eq)]
pub struct Undefined {
    pub rule: UbRule,
    pub at: Place,
}
