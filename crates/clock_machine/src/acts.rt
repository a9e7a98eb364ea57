//! What an operation that starts in a cycle does to memories.
ghost use Rattle.std.specs.Prelude.{◌≡◌, ◌≤◌, ◌<◌, ℕ, List, map, take, length, get_or};
ghost use Rattle.ir_core.specs.Bodies as bodies;
ghost use Rattle.flat_programs.specs.Memory.Contents.{dims_in, words_in};
ghost use Rattle.clock_machine.specs.Acts.{shapes, op_in, IsThere, ReadsAreWithin, ReadIsWithinIf, allows, is_open, guard_holds};
ghost use Rattle.clock_machine.specs.Lines.Registers.{word_read};

use crate::lines::program::{Action, Line, Read};
use crate::lines::registers::Registers;
use crate::lines::words::{set_word, word_at};
use flat_programs::memory::memories::Memories;
use hls_base::number::ArrayId;
use ir_core::body::OpKind;
use ir_core::value::evaluate;

/// Puts what is read at the front of a buffer.
pub fn read_all(registers: &Registers, lines: &[Line], reads: &[Read], into: &mut [u64])
    ensures { length reads.now ≤ length into.old → ReadsAreWithin registers.now lines.now reads.now →
        take (length reads.now) into.new ≡ map (word_read registers.now lines.now) reads.now }
{
    for (index, read) in reads.iter().enumerate() {
        set_word(into, index, registers.read(lines, *read));
    }
}

/// Whether an operation's iteration runs, where so many of the last ones were found not to run. Only of a store does it matter.
fn is_open_for(failed: u64, action: &Action) -> bool
    ensures { result ≡ is_open failed action.now }
{
    match action.kind {
        OpKind::Store => action.gate >= failed,
        _ => true,
    }
}

pub fn does_guard_hold(registers: &Registers, lines: &[Line], guard: Option<Read>) -> bool
    ensures { ReadIsWithinIf registers.now lines.now guard → result ≡ guard_holds registers.now lines.now guard }
{
    match guard {
        Some(guard) => registers.read(lines, guard) != 0,
        None => true,
    }
}

/// Whether the guard of an operation lets it act, and for a store also its iteration's gate.
pub fn is_allowed(registers: &Registers, lines: &[Line], failed: u64, action: &Action) -> bool
    ensures { ReadIsWithinIf registers.now lines.now action.now.guard →
        result ≡ allows registers.now lines.now failed action.now }
{
    is_open_for(failed, action) && does_guard_hold(registers, lines, action.guard)
}

/// The subscripts of a store, which are all its arguments but the last.
fn subscripts(args: &[u64]) -> &[u64]
    ensures { result.now ≡ bodies.subscripts args.now }
{
    &args[..args.len().saturating_sub(1)]
}

/// The word that a store writes, which is its last argument.
fn stored(args: &[u64]) -> u64
    ensures { result ≡ bodies.stored args.now }
{
    word_at(args, args.len().saturating_sub(1))
}

fn load(memories: &Memories, array: Option<ArrayId>, args: &[u64]) -> u64
    ensures { (widths : List ℕ) (variables : ℕ → ℕ) → result ≡
        bodies.loaded (shapes widths (dims_in memories.now)) array args.now
        (record { variables = variables; memories = words_in memories.now }) }
{
    match array {
        Some(array) => memories.load(array, args),
        None => 0,
    }
}

fn store(memories: &mut Memories, array: Option<ArrayId>, args: &[u64])
    ensures does { (widths : List ℕ) (variables : ℕ → ℕ) → IsThere array (dims_in memories.old) →
        bodies.with_stored (shapes widths (dims_in memories.old)) array args.now
        (record { variables = variables; memories = words_in memories.old })
        ≡ record { variables = variables; memories = words_in memories.new } }
    ensures dims { dims_in memories.new ≡ dims_in memories.old }
{
    if let Some(array) = array {
        memories.store(array, subscripts(args), stored(args));
    }
}

/// What an operation gives at these arguments; a store gives 0.
pub fn given(memories: &Memories, action: &Action, allowed: bool, args: &[u64]) -> u64
    ensures { (widths : List ℕ) (variables : ℕ → ℕ) → result ≡
        (bodies.effect (shapes widths (dims_in memories.now)) (op_in action.now) action.now.kind allowed
        action.now.from_bits args.now (record { variables = variables; memories = words_in memories.now })).result }
{
    match action.kind {
        OpKind::Load => {
            if allowed {
                load(memories, action.array, args)
            } else {
                0
            }
        }
        OpKind::Store => 0,
        _ => evaluate(
            action.kind,
            action.signed,
            action.bits,
            action.from_bits,
            args,
        ),
    }
}

/// What an operation gives at these arguments, after what it does.
pub fn perform(memories: &mut Memories, action: &Action, allowed: bool, args: &[u64]) -> u64
    ensures does { (widths : List ℕ) (variables : ℕ → ℕ) →
        IsThere action.now.array (dims_in memories.old) →
        bodies.effect (shapes widths (dims_in memories.old)) (op_in action.now) action.now.kind allowed
        action.now.from_bits args.now (record { variables = variables; memories = words_in memories.old })
        ≡ bodies.performed result (record { variables = variables; memories = words_in memories.new }) }
    ensures dims { dims_in memories.new ≡ dims_in memories.old }
{
    match action.kind {
        OpKind::Load => {
            if allowed {
                load(memories, action.array, args)
            } else {
                0
            }
        }
        OpKind::Store => {
            if allowed {
                store(memories, action.array, args);
            }
            0
        }
        _ => evaluate(
            action.kind,
            action.signed,
            action.bits,
            action.from_bits,
            args,
        ),
    }
}
