//! How long after the last interval a loop is left.
ghost use Rattle.std.specs.Prelude.{◌≡◌, ◌+◌, ◌-◌, ◌<◌, ◌≤◌, ◌^◌, ℕ, slice_index};
ghost use Rattle.std.specs.List.{All};
ghost use Rattle.modulo_loop.specs.Lowest as spec;

use crate::rules::latency_of;
use dep_graph::access::is_store;
use dep_graph::counter::result_of;
use dep_graph::edges::test_maker;
use hls_base::number::OpId;
use ir_core::body::{Body, Op, Out};
use ir_core::stamp::Untimed;

fn time_of(times: &[u64], op: usize) -> u64
    requires early { All (λ t. t ≤ 2 ^ 32 - 2 ^ 25) times.now }
    ensures value { result ≡ slice_index times.now (op + 1) }
    ensures early { result ≤ 2 ^ 32 - 2 ^ 25 }
{
    if op < times.len() && op + 1 < times.len() {
        times[op + 1]
    } else {
        0
    }
}

/// The time at which the result of an operation is there.
fn ready(ops: &[Op<Untimed>], times: &[u64], op: OpId) -> u64
    requires early { All (λ t. t ≤ 2 ^ 32 - 2 ^ 25) times.now }
    ensures value { result ≡ spec.ready ops.now times.now op }
    ensures small { result < 2 ^ 32 }
{
    time_of(times, op.0 as usize) + u64::from(latency_of(ops, op))
}

/// The time at which the test is known.
fn known_at(ops: &[Op<Untimed>], times: &[u64], test: Option<OpId>) -> u64
    requires early { All (λ t. t ≤ 2 ^ 32 - 2 ^ 25) times.now }
    ensures value { result ≡ spec.known_at ops.now times.now test }
    ensures small { result < 2 ^ 32 }
{
    match test {
        Some(op) => ready(ops, times, op),
        None => 0,
    }
}

/// The least exit by which all stores have changed their words.
fn stores_done(ops: &[Op<Untimed>], times: &[u64], ii: u32) -> u64
    requires early { All (λ t. t ≤ 2 ^ 32 - 2 ^ 25) times.now }
    ensures done { spec.StoresAreDone ops.now times.now ii result }
    ensures least { (exit : ℕ) → spec.StoresAreDone ops.now times.now ii exit → result ≤ exit }
    ensures small { result < 2 ^ 32 }
{
    let mut exit = 0;
    for (number, op) in ops.iter().enumerate() {
        if is_store(op.kind) {
            let done = time_of(times, number) + 1;
            exit = done.saturating_sub(u64::from(ii)).max(exit);
        }
    }
    exit
}

/// The least exit by which a value is there.
fn out_ready(ops: &[Op<Untimed>], times: &[u64], ii: u32, made: Option<OpId>) -> u64
    requires early { All (λ t. t ≤ 2 ^ 32 - 2 ^ 25) times.now }
    ensures enough { spec.IsReadyBy (result + ii) ops.now times.now made }
    ensures least { (exit : ℕ) → spec.IsReadyBy (exit + ii) ops.now times.now made → result ≤ exit }
    ensures small { result < 2 ^ 32 }
{
    match made {
        Some(op) => ready(ops, times, op).saturating_sub(u64::from(ii)),
        None => 0,
    }
}

/// The least exit by which the values that the loop hands on are there.
fn outs_ready(ops: &[Op<Untimed>], outs: &[Out], times: &[u64], ii: u32) -> u64
    requires early { All (λ t. t ≤ 2 ^ 32 - 2 ^ 25) times.now }
    ensures ready { spec.OutsAreReady ops.now outs.now times.now ii result }
    ensures least { (exit : ℕ) → spec.OutsAreReady ops.now outs.now times.now ii exit → result ≤ exit }
    ensures small { result < 2 ^ 32 }
{
    let mut exit = 0;
    for out in outs {
        exit = out_ready(ops, times, ii, result_of(out.value.value)).max(exit);
    }
    exit
}

/// The least time, counted from the beginning of the iteration whose test fails, at which the loop may be left.
pub fn least_exit(body: &Body<Untimed>, times: &[u64], ii: u32) -> u64
    requires early { All (λ t. t ≤ 2 ^ 32 - 2 ^ 25) times.now }
    ensures enough { spec.CanLeave body.now times.now ii result }
    ensures least { (exit : ℕ) → spec.CanLeave body.now times.now ii exit → result ≤ exit }
    ensures small { result < 2 ^ 32 }
{
    let stores = stores_done(&body.ops, times, ii);
    let outs = outs_ready(&body.ops, &body.outs, times, ii);
    known_at(&body.ops, times, test_maker(body.test))
        .max(stores)
        .max(outs)
}
