use crate::object::Object;
use crate::statement::Stmt;
use c_token::ctype::CType;
use hls_base::place::Place;
use hls_base::text::Text;

/// A parameter. One without a name has an empty name, and the place of the first token of its type.
#[derive(Drop)]
pub struct Param {
    pub object: Object,
    pub named: bool,
}

/// A function: a declaration, or a definition with its body. A result of `None` is `void`. Its place is its name.
#[derive(Drop)]
pub struct Function {
    pub name: Text,
    pub at: Place,
    pub result: Option<CType>,
    pub params: Vec<Param>,
    pub body: Option<Vec<Stmt>>,
}
