//! How many registers the loops share.
use datapath::plan_sizes::sizes::{at_least_one, available};
use ir_core::body::Op;
use ir_core::cfg::{Cfg, Loop, Node};
use ir_core::timed::Timed;
use reg_binding::registers::{Held, Registers};

/// How many gates and how many stages there are.
#[derive(Clone, Copy, PartialEq, Eq)]
pub struct Lines {
    pub gates: u64,
    pub stages: u64,
}

/// The time of the last start.
fn last_start(ops: &[Op<Timed>]) -> u64 {
    let mut last = 0;
    for op in ops {
        last = op.stamp.start.max(last);
    }
    last
}

/// The time from which all results are there.
fn last_result(ops: &[Op<Timed>]) -> u64 {
    let mut last = 0;
    for op in ops {
        last = available(op).max(last);
    }
    last
}

/// The greatest place in which a register holds a result.
fn greatest_place(held: &[Held]) -> u64 {
    let mut greatest = 0;
    for row in held {
        greatest = (row.place as u64).max(greatest);
    }
    greatest
}

/// What a loop makes use of, but for results that are held longer.
fn lines_of(region: &Loop<Timed>) -> Lines {
    let interval = at_least_one(region.ii as u64);
    Lines {
        gates: (last_start(&region.body.ops) / interval).saturating_add(1),
        stages: (last_result(&region.body.ops) / interval).saturating_add(1),
    }
}

/// Enough for each loop of a program; none where there is no loop.
pub fn lines_for(cfg: &Cfg<Timed>, registers: &Registers) -> Lines {
    let places = greatest_place(&registers.held);
    let mut all = Lines {
        gates: 0,
        stages: 0,
    };
    for node in &cfg.nodes {
        if let Node::Looped(region) = node {
            let own = lines_of(region);
            all = Lines {
                gates: own.gates.max(all.gates),
                stages: own.stages.saturating_add(places).max(all.stages),
            };
        }
    }
    all
}
