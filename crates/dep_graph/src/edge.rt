/// Why one operation waits for another: it reads its result, both access one array, it is a store behind the test, both share a unit, the test must be known within the interval, or no operation starts before the iteration.
#[derive(Clone, Copy, PartialEq, Eq)]
pub enum Why {
    Data,
    Memory,
    Control,
    Unit,
    Known,
    Start,
}

/// `to` starts at least `latency` cycles after `from` of the iteration `distance` before. Node 0 is the beginning of the iteration, and node k + 1 is operation k.
#[derive(Clone, Copy, PartialEq, Eq)]
pub struct Edge {
    pub from: u32,
    pub to: u32,
    pub latency: u32,
    pub distance: u32,
    pub why: Why,
}
