use crate::piece::Piece;
use c_token::ctype::CType;
use hls_base::number::{Kept, VarId};
use hls_base::text::Text;
use hls_base::words::Words;

/// An array of an expanded program. A table has its words, row by row; an array of file scope that is not const has its first contents as `initial`. The arrays that the host reaches, the array parameters of the top function, are `host`.
#[derive(Drop)]
pub struct ArrayInfo {
    pub name: Text,
    pub kind: CType,
    pub dims: Vec<u32>,
    pub table: Option<Words>,
    pub initial: Option<Words>,
    pub host: bool,
}

/// A program whose calls are expanded. The type of each variable stands in `variables`; `params` are those of the top function's scalar parameters in order, and `result` is that of its result. The arrays of the host come first, then those of file scope, then local ones. `kept` names the scalars of file scope that are not const, with their first values.
#[derive(Drop)]
pub struct Expanded {
    pub pieces: Vec<Piece>,
    pub variables: Vec<CType>,
    pub arrays: Vec<ArrayInfo>,
    pub params: Vec<VarId>,
    pub kept: Vec<Kept>,
    pub ret: Option<CType>,
    pub result: Option<VarId>,
    pub name: Text,
}
