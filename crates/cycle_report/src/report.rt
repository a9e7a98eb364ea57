use hls_base::point::Point;
use hls_base::settings::Settings;
use hls_base::text::Text;
use std::alloc::Global;

/// What each passing of a point costs, in cycles.
#[derive(Drop)]
pub struct Cost {
    pub point: Point,
    pub cost: u64,
}

/// The number of cycles of a run: the base, and the cost of each point as often as the run passes it.
#[derive(Drop)]
pub struct Formula {
    pub base: u64,
    pub rows: Vec<Cost>,
}

/// A loop whose iterations overlap: one begins each `ii` cycles, and the exit takes `exit` more. The cycle is why a smaller interval is impossible, and is empty at interval 1.
#[derive(Drop)]
pub struct LoopRow {
    pub point: Point,
    pub ii: u32,
    pub exit: u32,
    pub cycle: Vec<Edge4>,
}

/// That one node waits for another, `latency` cycles and `distance` iterations.
#[derive(Clone, Copy, PartialEq, Eq)]
pub struct Edge4 {
    pub from: u32,
    pub to: u32,
    pub latency: u32,
    pub distance: u32,
}

/// A memory of the circuit, under the name that the program declares.
#[derive(Drop)]
pub struct MemoryRow {
    pub name: Text,
    pub bits: u8,
    pub depth: u32,
    pub ports: u8,
}

/// What `init` counts is the cycles of the initial sequence after reset. The units are counted for each width.
#[derive(Drop)]
pub struct Report {
    pub settings: Settings,
    pub formula: Formula,
    pub init: u32,
    pub loops: Vec<LoopRow>,
    pub mul32: u32,
    pub mul64: u32,
    pub div32: u32,
    pub div64: u32,
    pub memories: Vec<MemoryRow>,
    pub registers: u64,
}
