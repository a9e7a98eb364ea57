//! The time within a node or the initial sequence, which begins again at 0 behind each.
ghost use Rattle.std.specs.Prelude.{◌≡◌, ◌<◌, ◌≤◌, ◌^◌, ◌∷◌, [], List, IfOk, OnOk, Some, length, slice_get};
ghost use Rattle.std.specs.List.{All, flat_map};
ghost use Rattle.std.specs.List.Sorted.{IsPermutation};
ghost use Rattle.rtl_core.specs.ClockStep.{widths};
ghost use Rattle.rtl_core.specs.Netlist.{Netlist};
ghost use Rattle.rtl_core.specs.Valid.{HasBits, IsBetween};
ghost use Rattle.rtl_logic.specs.Making.{circuit};
ghost use Rattle.clock_ir.specs.ClockRuns.{TimedNode};
ghost use Rattle.datapath.specs.Plans as plans;
ghost use Rattle.datapath.specs.Plans.{Plan};
ghost use Rattle.datapath.specs.Cycles.{Register, Cycle};
ghost use Rattle.datapath.specs.Control as control;
ghost use Rattle.datapath.specs.CircuitWires.Carrying.{IsBegun, MakesCarrying, MakesTelling};
ghost use Rattle.circuit_context.specs.Wanted.Logs.{Logs};
ghost use Rattle.circuit_context.specs.Wanted.Entries.{time_entries};
ghost use Rattle.circuit_context.specs.Contexts.{IsContext};
ghost use Rattle.circuit_control.specs.Spans.{members, MakesSpans, MakesGoing, GroupsFit, initial_goes};

use crate::bits::{
    counted, except, is_loop, node_at, node_with_number, register, register_bit, write_always,
};
use circuit_context::context::Context;
use circuit_context::tests::leaves;
use circuit_context::wanted::log::Log;
use circuit_context::wanted::role::Role;
use datapath::plan_sizes::pins::RESET;
use datapath::plan_sizes::sizes::{bits_of, greatest_time, initial_cycles, span};
use rtl_core::design::Atom;
use rtl_logic::logic::Logic;
use rtl_logic::select::constant;
use std::alloc::{AllocError, Global};
use std::collections::BTreeMap;

/// The bit of the cycles in which a node, or the initial sequence, is under way, and the cycles after which its time begins again.
#[derive(Clone, Copy)]
struct Spanned {
    span: u64,
    active: Atom,
}

/// The bits of all that begin again after so many cycles.
#[derive(Drop)]
struct SpanGroup {
    span: u64,
    active: Vec<Atom>,
}

/// The cycles of the initial sequence.
pub fn initial_length(of: &Context<'_>) -> u64
    ensures { (p : Plan) (names : List Register) → IsContext p names of.now → result ≡ plans.initial_cycles p }
{
    initial_cycles(of.cfg)
}

/// The bits of the time.
fn time_bits(of: &Context<'_>) -> u8
    ensures { (p : Plan) (names : List Register) → IsContext p names of.now → (result ≡ control.time_bits p) × (result ≤ 64) }
{
    bits_of(greatest_time(of.cfg))
}

/// The time is counted while a node, or the initial sequence, goes on.
pub fn write_time(of: &Context<'_>, logic: &mut Logic, log: &mut Log) -> Result<(), AllocError>
    ensures { (p : Plan) (names : List Register) → IsContext p names of.now → IsBegun p names (circuit logic.old)
        → OnOk result (Logs p names (circuit logic.old) (circuit logic.new) log.old.pushes.items log.new.pushes.items (time_entries p)) }
{
    let bits = time_bits(of);
    if bits == 0 {
        return Ok(());
    }
    let next = next_time(of, logic, bits)?;
    write_always(of, log, Role::Time, next)
}

fn next_time(of: &Context<'_>, logic: &mut Logic, bits: u8) -> Result<Atom, AllocError>
    ensures { (p : Plan) (names : List Register) → IsContext p names of.now → IsBegun p names (circuit logic.old) → IsBetween 1 64 bits → bits ≡ control.time_bits p
        → IfOk result (λ a. MakesCarrying p names (circuit logic.old) (circuit logic.new) bits a (control.next_time p)) }
{
    let going = goes_on(of, logic)?;
    let counts = except(logic, going, RESET)?;
    let time = register(of, Role::Time)?;
    let later = counted(logic, time, bits)?;
    logic.pick(counts, later, constant(bits, 0))
}

/// The bit of a cycle behind which the time goes on.
fn goes_on(of: &Context<'_>, logic: &mut Logic) -> Result<Atom, AllocError>
    ensures { (p : Plan) (names : List Register) → IsContext p names of.now → IsBegun p names (circuit logic.old)
        → IfOk result (λ a. MakesTelling p names (circuit logic.old) (circuit logic.new) a (control.goes_on p)) }
{
    let all = all_spans(of, logic)?;
    let groups = by_span(of.alloc, &all)?;
    let bits = going_groups(of, logic, &groups)?;
    logic.any(of.alloc, &bits)
}

// ---- the bits of nodes and of the initial sequence

fn all_spans(of: &Context<'_>, logic: &mut Logic) -> Result<Vec<Spanned>, AllocError>
    ensures { (p : Plan) (names : List Register) → IsContext p names of.now → IsBegun p names (circuit logic.old)
        → IfOk result (λ all. MakesSpans p names (circuit logic.old) (circuit logic.new) all.items (control.goes_on p)) }
{
    let mut all = initial_span(of)?;
    for number in 0..of.cfg.nodes.len() {
        all.push(node_span(of, logic, number)?)?;
    }
    Ok(all)
}

/// The initial sequence, if there is one.
fn initial_span(of: &Context<'_>) -> Result<Vec<Spanned>, AllocError>
    ensures { (p : Plan) (names : List Register) (d : Netlist) → IsContext p names of.now → IsBegun p names d
        → IfOk result (λ all. MakesSpans p names d d all.items (initial_goes p)) }
{
    let mut all = Vec::new(of.alloc);
    let span = initial_length(of);
    if span == 0 {
        return Ok(all);
    }
    let active = register_bit(of, Role::Initial)?;
    all.push(Spanned { span, active })?;
    Ok(all)
}

/// A node, which in its last cycle goes on only where it is a block.
fn node_span(of: &Context<'_>, logic: &mut Logic, number: usize) -> Result<Spanned, AllocError>
    requires { number < length of.now.cfg.now.nodes.items }
    ensures { (p : Plan) (names : List Register) (n : TimedNode) → IsContext p names of.now → IsBegun p names (circuit logic.old) → slice_get p.program.nodes number ≡ Some n
        → IfOk result (λ s. (s.span ≡ plans.span p number) × MakesTelling p names (circuit logic.old) (circuit logic.new) s.active (λ (c : Cycle). control.stays_as p c number n)) }
{
    let span = span_at(of, number);
    let active = stays(of, logic, number)?;
    Ok(Spanned { span, active })
}

fn span_at(of: &Context<'_>, number: usize) -> u64
    requires { number < length of.now.cfg.now.nodes.items }
    ensures { (p : Plan) (names : List Register) (n : TimedNode) → IsContext p names of.now → slice_get p.program.nodes number ≡ Some n → result ≡ plans.span p number }
{
    span(node_at(of, number))
}

fn stays(of: &Context<'_>, logic: &mut Logic, number: usize) -> Result<Atom, AllocError>
    requires { number < length of.now.cfg.now.nodes.items }
    ensures { (p : Plan) (names : List Register) (n : TimedNode) → IsContext p names of.now → IsBegun p names (circuit logic.old) → slice_get p.program.nodes number ≡ Some n
        → IfOk result (λ a. MakesTelling p names (circuit logic.old) (circuit logic.new) a (λ (c : Cycle). control.stays_as p c number n)) }
{
    let node = node_with_number(number);
    let active = register_bit(of, Role::Active(node))?;
    let looped = is_loop(of, number);
    if looped {
        let leave = leaves(of, logic, node)?;
        except(logic, active, leave)
    } else {
        Ok(active)
    }
}

// ---- the same by their spans

/// Adds a bit to the group at a place, if this has its span, or else as a group of its own. Gives the place of its group.
fn join_group(
    alloc: Global,
    groups: &mut Vec<SpanGroup>,
    place: usize,
    one: Spanned,
) -> Result<usize, AllocError>
    ensures { OnOk result (IsPermutation (one ∷ flat_map members groups.old.items) (flat_map members groups.new.items)) }
{
    if place < groups.len() && groups[place].span == one.span {
        groups[place].active.push(one.active)?;
        return Ok(place);
    }
    let active = vec![in alloc; one.active]?;
    let span = one.span;
    groups.push(SpanGroup { span, active })?;
    Ok(groups.len() - 1)
}

fn by_span(alloc: Global, all: &[Spanned]) -> Result<Vec<SpanGroup>, AllocError>
    ensures { IfOk result (λ groups. IsPermutation all.now (flat_map members groups.items)) }
{
    let mut places: BTreeMap<u64, usize> = BTreeMap::new(alloc);
    let mut groups: Vec<SpanGroup> = Vec::new(alloc);
    for one in all {
        let known = places.get(&one.span).copied().unwrap_or(groups.len());
        let place = join_group(alloc, &mut groups, known, *one)?;
        places.insert(one.span, place)?;
    }
    Ok(groups)
}

/// For each group the bit of the cycles in which one of its bits is 1, but for the last one of the span.
fn going_groups(
    of: &Context<'_>,
    logic: &mut Logic,
    groups: &[SpanGroup],
) -> Result<Vec<Atom>, AllocError>
    ensures { (p : Plan) (names : List Register) → IsContext p names of.now → IsBegun p names (circuit logic.old) → GroupsFit (circuit logic.old) groups.now
        → IfOk result (λ bits. MakesGoing p names (circuit logic.old) (circuit logic.new) bits.items groups.now) }
{
    let mut bits = Vec::with_capacity(of.alloc, groups.len())?;
    for group in groups {
        bits.push(going_group(of, logic, group)?)?;
    }
    Ok(bits)
}

fn going_group(of: &Context<'_>, logic: &mut Logic, group: &SpanGroup) -> Result<Atom, AllocError>
    ensures { (p : Plan) (names : List Register) → IsContext p names of.now → IsBegun p names (circuit logic.old) → All (HasBits (widths (circuit logic.old)) 1) group.now.active.items
        → IfOk result (λ a. MakesGoing p names (circuit logic.old) (circuit logic.new) (a ∷ []) (group.now ∷ [])) }
{
    if group.span <= 1 {
        return Ok(constant(1, 0));
    }
    let active = logic.any(of.alloc, &group.active)?;
    let last = of.time_is(logic, group.span - 1)?;
    let before = logic.not(last)?;
    logic.and(active, before)
}
