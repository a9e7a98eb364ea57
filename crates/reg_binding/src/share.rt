//! Giving each value the first register that is free for its whole life.
ghost use Rattle.std.specs.Prelude.{◌≡◌, ◌+◌, ◌*◌, ◌<◌, ◌≤◌, ◌↔◌, ◌++◌, ℕ, List, Some, None, IsTrue, OnOk, IfOk, length, slice_index, slice_index_or, replicate, true, false};
ghost use Rattle.reg_binding.specs.Sharing as spec;
ghost use Rattle.reg_binding.specs.Pools as pools;

use crate::life::Life;
use crate::pool::Pool;
use std::alloc::{AllocError, Global};

/// How long after a time, which comes again each period, another one comes that does too.
fn cycles_behind(time: u64, other: u64, period: u64) -> u64
    requires { 0 < period }
    ensures less { result < period }
    ensures behind { (n m : ℕ) × (time + n * period ≡ other + m * period + result) }
{
    let ahead = time % period;
    let back = other % period;
    if ahead < back {
        period - back + ahead
    } else {
        ahead - back
    }
}

/// Whether iterations of two values of a loop are there in one cycle.
fn iterations_meet(one: &Life, other: &Life, period: u64) -> bool
    requires { 0 < period }
    ensures { IsTrue result ↔ ((time : ℕ) × spec.IsInIteration period one.now time × spec.IsInIteration period other.now time) }
{
    if one.length == 0 || other.length == 0 {
        return false;
    }
    let behind = cycles_behind(one.start, other.start, period);
    let ahead = cycles_behind(other.start, one.start, period);
    behind < other.length || ahead < one.length
}

/// Whether a value of a loop is there in some cycle before this one.
fn is_there_before(life: &Life, time: u64, period: u64) -> bool
    ensures { IsTrue result ↔ ((t : ℕ) × (t < time) × spec.IsThere (Some period) life.now t) }
{
    0 < life.entry.min(time) || (0 < life.length && life.start < time)
}

/// Whether two values of a loop are there in one cycle.
fn meet_in_loop(one: &Life, other: &Life, period: u64) -> bool
    requires { 0 < period }
    ensures { IsTrue result ↔ spec.Meet (Some period) one.now other.now }
{
    is_there_before(one, other.entry, period)
        || is_there_before(other, one.entry, period)
        || iterations_meet(one, other, period)
}

/// Whether two values of a block are there in one cycle.
fn meet_in_block(one: &Life, other: &Life) -> bool
    ensures { IsTrue result ↔ spec.Meet None one.now other.now }
{
    let time = one.start.max(other.start);
    time - one.start < one.length && time - other.start < other.length
}

/// Whether two values of a node are there in one cycle.
fn meet(one: &Life, other: &Life, period: Option<u32>) -> bool
    requires { spec.IsPeriod period }
    ensures { IsTrue result ↔ spec.Meet period one.now other.now }
{
    match period {
        Some(period) => meet_in_loop(one, other, u64::from(period)),
        None => meet_in_block(one, other),
    }
}

/// Marks the registers of the values so far that are there together with another one.
fn mark_taken(
    lives: &[Life],
    choices: &[usize],
    life: &Life,
    period: Option<u32>,
    taken: &mut [bool],
)
    requires period { spec.IsPeriod period }
    requires none { taken.old ≡ replicate (length taken.old) false }
    requires few { length choices.now ≤ length lives.now }
    requires inside { (i : ℕ) → i < length choices.now → slice_index choices.now i < length taken.old }
    ensures count { length taken.new ≡ length taken.old }
    ensures all { (i : ℕ) → i < length choices.now → spec.Meet period (spec.life_at lives.now i) life.now → slice_index_or taken.new (slice_index choices.now i) false ≡ true }
    ensures only { (k : ℕ) → slice_index_or taken.new k false ≡ true → (i : ℕ) × (i < length choices.now) × (slice_index choices.now i ≡ k) × spec.Meet period (spec.life_at lives.now i) life.now }
{
    for (number, register) in choices.iter().enumerate() {
        if meet(&lives[number], life, period) {
            taken[*register] = true;
        }
    }
}

/// The first register of a width that is not taken, or, if there is none, their number.
fn first_free(widths: &[u8], taken: &[bool], width: u8) -> usize
    requires { length taken.now ≡ length widths.now }
    ensures most { result ≤ length widths.now }
    ensures fits { result < length widths.now → slice_index widths.now result ≡ width }
    ensures free { result < length widths.now → slice_index_or taken.now result false ≡ false }
    ensures lowest { (k : ℕ) → k < result → slice_index widths.now k ≡ width → slice_index_or taken.now k false ≡ true }
{
    for number in 0..widths.len() {
        if widths[number] == width && !taken[number] {
            return number;
        }
    }
    widths.len()
}

/// The first register of its width in which a value meets none of those before it, or, if there is none, the number of registers.
fn choose(
    alloc: Global,
    lives: &[Life],
    choices: &[usize],
    life: &Life,
    period: Option<u32>,
    widths: &[u8],
) -> Result<usize, AllocError>
    requires period { spec.IsPeriod period }
    requires few { length choices.now ≤ length lives.now }
    requires inside { (i : ℕ) → i < length choices.now → slice_index choices.now i < length widths.now }
    ensures most { IfOk result (λ r. r ≤ length widths.now) }
    ensures fits { IfOk result (λ r. r < length widths.now → slice_index widths.now r ≡ life.now.width) }
    ensures apart { IfOk result (λ r. (i : ℕ) → i < length choices.now → slice_index choices.now i ≡ r → spec.Meet period (spec.life_at lives.now i) life.now → ⊥) }
    ensures lowest { IfOk result (λ r. (k : ℕ) → k < r → slice_index widths.now k ≡ life.now.width → (i : ℕ) × (i < length choices.now) × (slice_index choices.now i ≡ k) × spec.Meet period (spec.life_at lives.now i) life.now) }
{
    let mut taken = vec![in alloc; false; widths.len()]?;
    mark_taken(lives, choices, life, period, &mut taken);
    Ok(first_free(widths, &taken, life.width))
}

/// Gives registers to the values of a node, each of which is compared with all before it.
fn share_by_comparing(
    alloc: Global,
    lives: &[Life],
    period: Option<u32>,
    widths: &mut Vec<u8>,
) -> Result<Vec<usize>, AllocError>
    requires { spec.IsPeriod period }
    ensures shared { IfOk result (λ choices. spec.IsShared period lives.now (length lives.now) widths.new.items choices.items) }
    ensures grown { OnOk result ((more : List ℕ) × (widths.new.items ≡ widths.old.items ++ more)) }
    ensures used { IfOk result (λ choices. (r : ℕ) → length widths.old.items ≤ r → r < length widths.new.items → (i : ℕ) × (i < length lives.now) × (slice_index choices.items i ≡ r)) }
{
    let mut choices = Vec::with_capacity(alloc, lives.len())?;
    for life in lives {
        let register = choose(alloc, lives, &choices, life, period, widths)?;
        if register >= widths.len() {
            widths.push(life.width)?;
        }
        choices.push(register)?;
    }
    Ok(choices)
}

/// Whether a value is of less width than another one, or of the same and there from no later cycle on.
fn precedes(one: &Life, other: &Life) -> bool
    ensures { IsTrue result ↔ pools.Precedes one.now other.now }
{
    one.width < other.width || (one.width == other.width && one.start <= other.start)
}

fn is_lasting(life: &Life) -> bool
    ensures { IsTrue result ↔ pools.IsLasting life.now }
{
    0 < life.length && life.start.checked_add(life.length).is_some()
}

/// Whether the values stand in the order of their widths, and of their first cycles where these are equal.
fn are_in_order(lives: &[Life]) -> bool
    ensures yes { result ≡ true → pools.AreInOrder lives.now (length lives.now) }
    ensures no { result ≡ false → pools.AreInOrder lives.now (length lives.now) → ⊥ }
{
    for number in 0..lives.len() {
        if !is_lasting(&lives[number]) {
            return false;
        }
        if 0 < number && !precedes(&lives[number - 1], &lives[number]) {
            return false;
        }
    }
    true
}

/// Gives registers to the values of a block that stand in order. Each is looked at once, and the first free register is kept at hand.
fn share_in_order(
    alloc: Global,
    lives: &[Life],
    widths: &mut Vec<u8>,
) -> Result<Vec<usize>, AllocError>
    requires { pools.AreInOrder lives.now (length lives.now) }
    ensures shared { IfOk result (λ choices. spec.IsShared None lives.now (length lives.now) widths.new.items choices.items) }
    ensures grown { OnOk result ((more : List ℕ) × (widths.new.items ≡ widths.old.items ++ more)) }
    ensures used { IfOk result (λ choices. (r : ℕ) → length widths.old.items ≤ r → r < length widths.new.items → (i : ℕ) × (i < length lives.now) × (slice_index choices.items i ≡ r)) }
{
    let mut choices = Vec::with_capacity(alloc, lives.len())?;
    let mut pool = Pool::new(alloc, 0);
    for life in lives {
        pool = pool.turned(alloc, life.width);
        choices.push(pool.take(life, widths)?)?;
    }
    Ok(choices)
}

/// Gives registers to the values of a node, and makes more registers where they are too few. The answer has the register of each value.
pub(crate) fn share(
    alloc: Global,
    lives: &[Life],
    period: Option<u32>,
    widths: &mut Vec<u8>,
) -> Result<Vec<usize>, AllocError>
    requires { spec.IsPeriod period }
    ensures shared { IfOk result (λ choices. spec.IsShared period lives.now (length lives.now) widths.new.items choices.items) }
    ensures grown { OnOk result ((more : List ℕ) × (widths.new.items ≡ widths.old.items ++ more)) }
    ensures used { IfOk result (λ choices. (r : ℕ) → length widths.old.items ≤ r → r < length widths.new.items → (i : ℕ) × (i < length lives.now) × (slice_index choices.items i ≡ r)) }
{
    match period {
        None if are_in_order(lives) => share_in_order(alloc, lives, widths),
        _ => share_by_comparing(alloc, lives, period, widths),
    }
}
