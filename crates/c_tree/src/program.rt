use crate::function::Function;
use crate::object::Object;
use hls_base::place::Place;

/// What stands at file scope, C11 6.9.
#[derive(Drop)]
pub enum Item {
    Function(Function),
    Objects(Vec<Object>),
}

/// A program. Its end is the place just after the last byte of the source.
#[derive(Drop)]
pub struct Program {
    pub items: Vec<Item>,
    pub end: Place,
}
