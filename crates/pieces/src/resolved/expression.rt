use c_token::ctype::CType;
use c_tree::operator::{Binary, Unary};
use hls_base::place::Place;

/// Whose object a cell is: the file's, or that of the call that runs.
#[derive(Clone, Copy, PartialEq, Eq)]
pub enum Scope {
    File,
    Call,
}

/// An object by its number: among those of file scope, or among those of the function, whose parameters come first.
#[derive(Clone, Copy, PartialEq, Eq)]
pub struct Cell {
    pub scope: Scope,
    pub number: u32,
}

/// An expression with its type. `kind` is the type of its value, after the conversions that C makes of an operator's operands. Its place is that of its operator, name, or `(` of a cast.
#[cycle(expression)]
#[derive(Drop)]
pub enum CoreExpr {
    Number {
        value: u64,
        kind: CType,
    },
    Scalar {
        cell: Cell,
        kind: CType,
        at: Place,
    },
    Element {
        array: Cell,
        subscripts: Vec<CoreExpr>,
        kind: CType,
        at: Place,
    },
    /// A call of the function with this number. Without a type it is void.
    Call {
        function: u32,
        args: Vec<Argument>,
        kind: Option<CType>,
        at: Place,
    },
    Unary {
        op: Unary,
        arg: Box<CoreExpr>,
        kind: CType,
        at: Place,
    },
    Binary {
        op: Binary,
        left: Box<CoreExpr>,
        right: Box<CoreExpr>,
        kind: CType,
        at: Place,
    },
    Choice {
        test: Box<CoreExpr>,
        yes: Box<CoreExpr>,
        no: Box<CoreExpr>,
        kind: CType,
        at: Place,
        colon: Place,
    },
    Cast {
        to: CType,
        arg: Box<CoreExpr>,
    },
    /// `target = value`, or with an operator as in `target += value`.
    Assign {
        target: CoreTarget,
        op: Option<Binary>,
        value: Box<CoreExpr>,
        at: Place,
    },
    /// `++` or `--`, behind the target where `post` holds.
    Bump {
        target: CoreTarget,
        up: bool,
        post: bool,
        at: Place,
    },
    /// Its left operand may be a void call.
    Comma {
        left: Box<CoreExpr>,
        right: Box<CoreExpr>,
    },
}

/// An argument of a call: a value for a scalar parameter, or the array that an array parameter stands for.
#[cycle(expression)]
#[derive(Drop)]
pub enum Argument {
    Value(CoreExpr),
    Array(Cell),
}

/// What is assigned: a scalar, or an element where there are subscripts.
#[cycle(expression)]
#[derive(Drop)]
pub struct CoreTarget {
    pub cell: Cell,
    pub subscripts: Vec<CoreExpr>,
    pub kind: CType,
    pub at: Place,
}
