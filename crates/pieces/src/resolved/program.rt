use crate::resolved::statement::CoreStmt;
use c_token::ctype::CType;
use hls_base::place::Place;
use hls_base::text::Text;
use hls_base::words::Words;

/// An object: a scalar without lengths, or an array with the length of each dimension. The name is the declared one.
#[derive(Drop)]
pub struct CoreObject {
    pub name: Text,
    pub kind: CType,
    pub lengths: Vec<u32>,
    pub constant: bool,
}

/// An object of file scope, with the bit patterns of its first elements, row by row; a scalar has one.
#[derive(Drop)]
pub struct FileObject {
    pub object: CoreObject,
    pub first: Words,
}

/// A function with a body. Its first `params` objects are its parameters, in order. The body is that of a block that is entered with the parameters written: `objects` of its own become unwritten.
#[derive(Drop)]
pub struct CoreFunction {
    pub name: Text,
    pub at: Place,
    pub result: Option<CType>,
    pub params: u32,
    pub objects: Vec<CoreObject>,
    pub outermost: Vec<u32>,
    pub body: Vec<CoreStmt>,
}

/// A program. Functions without a body are not there; each call names a function of this list.
#[derive(Drop)]
pub struct CoreProgram {
    pub file: Vec<FileObject>,
    pub functions: Vec<CoreFunction>,
    pub top: u32,
}
