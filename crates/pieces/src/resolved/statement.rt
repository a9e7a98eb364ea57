use crate::resolved::expression::CoreExpr;
use hls_base::place::Place;

/// A statement. Its place is its keyword.
#[cycle(statement)]
#[derive(Drop)]
pub enum CoreStmt {
    /// When it is entered, the objects that are declared directly in it become unwritten.
    Block {
        objects: Vec<u32>,
        body: Vec<CoreStmt>,
    },
    /// The declaration of the function's object with this number is reached.
    Declare {
        object: u32,
        init: CoreInit,
    },
    /// Actions one after another. None is the empty statement.
    Act(Vec<CoreAction>),
    If {
        test: CoreExpr,
        yes: Box<CoreStmt>,
        no: Option<CoreElse>,
        at: Place,
    },
    Switch {
        test: CoreExpr,
        /// The objects that are declared directly in its block.
        objects: Vec<u32>,
        body: Vec<CoreStmt>,
        at: Place,
    },
    /// A label of a switch: the bit pattern of its value in the promoted type of the switch, or none for `default`.
    Case {
        value: Option<u64>,
        body: Box<CoreStmt>,
        at: Place,
    },
    While {
        test: CoreExpr,
        body: Box<CoreStmt>,
        at: Place,
    },
    Do {
        body: Box<CoreStmt>,
        test: CoreExpr,
        at: Place,
    },
    For {
        /// The objects that its head declares.
        objects: Vec<u32>,
        init: Vec<CoreStmt>,
        test: Option<CoreExpr>,
        step: Vec<CoreAction>,
        body: Box<CoreStmt>,
        at: Place,
    },
    Break,
    Continue,
    Return(Option<CoreExpr>),
}

/// The second branch of an `if`, at its `else`.
#[cycle(statement)]
#[derive(Drop)]
pub struct CoreElse {
    pub at: Place,
    pub body: Box<CoreStmt>,
}

/// An expression whose value is not used: an assignment, `++` or `--` as it stands, or any other expression, in parentheses too.
#[derive(Drop)]
pub enum CoreAction {
    Change(CoreExpr),
    Value(CoreExpr),
}

/// What a declaration writes.
#[derive(Drop)]
pub enum CoreInit {
    /// Nothing: the object is unwritten.
    Unwritten,
    /// The value of a scalar.
    Scalar(CoreExpr),
    /// The elements of an array, row by row; none stands for a missing item, which is 0.
    Elements(Vec<Option<CoreExpr>>),
}
