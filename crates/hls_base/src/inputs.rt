use crate::words::{Arrays, Words};

/// What a run begins with: the scalar arguments, and the elements of the array arguments. A value v of a type of w bits stands as v modulo 2^w.
#[derive(Drop)]
pub struct Inputs {
    pub scalars: Words,
    pub arrays: Arrays,
}
