use c_token::ctype::CType;
use c_tree::operator::{Binary, Unary};
use hls_base::number::{ArrayId, VarId};
use hls_base::place::Place;

/// An expression without calls and changes. `kind` is the type of its value.
#[derive(Drop)]
pub enum Pure {
    Number {
        value: u64,
        kind: CType,
    },
    Variable(VarId, CType),
    Element {
        array: ArrayId,
        subscripts: Vec<Pure>,
        kind: CType,
        at: Place,
    },
    Unary {
        op: Unary,
        arg: Box<Pure>,
        kind: CType,
        at: Place,
    },
    Binary {
        op: Binary,
        left: Box<Pure>,
        right: Box<Pure>,
        kind: CType,
        at: Place,
    },
    Choice {
        test: Box<Pure>,
        yes: Box<Pure>,
        no: Box<Pure>,
        kind: CType,
    },
    Cast {
        to: CType,
        arg: Box<Pure>,
    },
}
