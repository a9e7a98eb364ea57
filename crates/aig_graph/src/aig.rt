//! And-inverter graphs as data.

/// The and of two literals.
#[derive(Clone, Copy, Debug, PartialEq, Eq, Hash)]
pub struct Gate {
    pub left: u32,
    pub right: u32,
}

/// An and-inverter graph. Its variables are numbered from 1: inputs, then latches, then gates. Literal 2v is variable v and 2v + 1 its negation; 0 is false and 1 is true. `latches` has the next literal of each latch.
#[derive(Debug, Drop)]
pub struct Aig {
    pub inputs: u32,
    pub latches: Vec<u32>,
    pub outputs: Vec<u32>,
    pub ands: Vec<Gate>,
}
