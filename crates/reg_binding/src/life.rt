//! When values are there, and when they are read for the last time.
ghost use Rattle.std.specs.Prelude.{◌≡◌, ◌+◌, ◌<◌, ◌≤◌};
ghost use Rattle.reg_binding.specs.Lives as spec;
ghost use Rattle.reg_binding.specs.SmallTimes.{IsEarlyOp};

use ir_core::body::Op;
use ir_core::timed::Timed;
use ir_core::timing::latency;

/// The cycle from which the result of an operation is there, which is not the first one.
pub fn ready(op: &Op<Timed>) -> u64
    requires { IsEarlyOp op.now }
    ensures value { result ≡ spec.ready op.now }
    ensures later { 0 < result }
    ensures soon { result ≤ op.now.stamp.start + 66 }
{
    op.stamp.start + u64::from(latency(op.kind, op.bits))
}

/// That the result of an operation is read at a time.
#[derive(Clone, Copy)]
pub struct Read {
    pub op: u32,
    pub time: u64,
}

/// The cycles in which one place of an operation's chain holds a value that is still to be read: `length` cycles from `start` on, in a loop again in each later iteration. Where a variable takes the result over, the value that it has as the loop is entered is there before cycle `entry`. The first cycle of all these is `first`.
#[derive(Clone, Copy, PartialEq, Eq, PartialOrd, Ord)]
pub struct Life {
    pub width: u8,
    pub first: u64,
    pub op: u32,
    pub place: u32,
    pub start: u64,
    pub length: u64,
    pub entry: u64,
}
