//! Functions that come back to themselves by calls.
ghost use Rattle.std.specs.Prelude.{◌≡◌, ◌≤◌, ◌<◌, ◌+◌, ◌++◌, ◌==◌, ◌&&◌, ℕ, List, [], false, nat_le, length, slice_index_or, OnOk, IfOk};
ghost use Rattle.std.specs.Vec.{vec_len};
ghost use Rattle.c_meaning.specs.Checks.Faults.{least};
ghost use Rattle.c_meaning.specs.Checks.Recursion.{number_of, body_of, call_links, links, reaches, stands_first, round_faults, recursion_faults};
ghost use Rattle.c_calls.specs.Linked.{AreWithin, AreBelow, Marks, sources, HasSources, RowsAreBelow, is_among, calls_one, Spreads};

use crate::called::{Called, Caller};
use c_names::declarations::faults::{fault_if, lesser};
use c_names::declarations::names::is_same_name;
use hls_base::refusal::Refusal;
use hls_base::text::Text;
use std::alloc::{AllocError, Global};

/// The number of the first item of a function. One without an item has the number behind them.
fn number(callers: &[Caller], name: &Text) -> usize
    ensures value { result ≡ number_of callers.now name.now }
    ensures bound { result ≤ length callers.now }
{
    for (i, caller) in callers.iter().enumerate() {
        if is_same_name(name, &caller.name) {
            return i;
        }
    }
    callers.len()
}

/// The number of the item with a function's body. One without a body has the number behind them.
fn body_number(callers: &[Caller], name: &Text) -> usize
    ensures { result ≡ body_of callers.now name.now }
{
    for (i, caller) in callers.iter().enumerate() {
        if caller.has_body && is_same_name(name, &caller.name) {
            return i;
        }
    }
    callers.len()
}

/// Whether both functions have bodies, and that of f stands at or before that of g.
fn stands_first(callers: &[Caller], f: &Text, g: &Text) -> bool
    ensures { result ≡ stands_first callers.now f.now g.now }
{
    let called = body_number(callers, f);
    let calling = body_number(callers, g);
    called <= calling && calling < callers.len()
}

/// Adds who is called by the function with this number.
fn add_links(
    callers: &[Caller],
    from: usize,
    calls: &[Called],
    linked: &mut Vec<(usize, usize)>,
) -> Result<(), AllocError>
    ensures { OnOk result (linked.new.items ≡ linked.old.items ++ call_links callers.now from calls.now) }
{
    for call in calls {
        linked.push((from, number(callers, &call.name)))?;
    }
    Ok(())
}

/// Who calls whom, by their numbers.
fn links_of(alloc: Global, callers: &[Caller]) -> Result<Vec<(usize, usize)>, AllocError>
    ensures { IfOk result (λ v. v.items ≡ links callers.now callers.now) }
{
    let mut linked = Vec::new(alloc);
    for caller in callers {
        let from = number(callers, &caller.name);
        add_links(callers, from, &caller.calls, &mut linked)?;
    }
    Ok(linked)
}

/// The functions that call the one with this number.
fn sources_of(
    alloc: Global,
    linked: &[(usize, usize)],
    callee: usize,
) -> Result<Vec<usize>, AllocError>
    ensures { IfOk result (λ v. v.items ≡ sources linked.now callee) }
{
    let mut found = Vec::new(alloc);
    for link in linked {
        if callee == link.1 {
            found.push(link.0)?;
        }
    }
    Ok(found)
}

/// Who calls each function.
fn all_sources(
    alloc: Global,
    linked: &[(usize, usize)],
    size: usize,
) -> Result<Vec<Vec<usize>>, AllocError>
    ensures { IfOk result (λ v. HasSources linked.now size v.items) }
{
    let mut rows = Vec::new(alloc);
    for callee in 0..size {
        rows.push(sources_of(alloc, linked, callee)?)?;
    }
    Ok(rows)
}

/// Marks these functions, and notes those that were not marked before.
fn mark(these: &[usize], marks: &mut [bool], noted: &mut Vec<usize>) -> Result<(), AllocError>
    requires { AreBelow (length marks.old) these.now }
    ensures { OnOk result (Spreads (λ f. is_among f these.now) marks.old noted.old.items marks.new noted.new.items) }
{
    for number in these {
        if !marks[*number] {
            marks[*number] = true;
            noted.push(*number)?;
        }
    }
    Ok(())
}

/// Marks the functions that call one of the front, and notes those that were not marked before.
fn spread(
    rows: &[Vec<usize>],
    front: &[usize],
    marks: &mut [bool],
    noted: &mut Vec<usize>,
) -> Result<(), AllocError>
    requires long { length rows.now ≡ length marks.old }
    requires rows { RowsAreBelow (length marks.old) rows.now }
    requires front { AreBelow (length marks.old) front.now }
    ensures { OnOk result (Spreads (λ f. calls_one rows.now f front.now) marks.old noted.old.items marks.new noted.new.items) }
{
    for number in front {
        mark(&rows[*number], marks, noted)?;
    }
    Ok(())
}

/// The marks, and the functions that were marked last.
#[derive(Drop)]
struct Wave {
    marks: Vec<bool>,
    front: Vec<usize>,
}

/// The functions that come to the target by one call more.
fn one_more(alloc: Global, rows: &[Vec<usize>], wave: Wave) -> Result<Wave, AllocError>
    requires long { length rows.now ≡ length wave.marks.items }
    requires rows { RowsAreBelow (length wave.marks.items) rows.now }
    requires front { AreBelow (length wave.marks.items) wave.front.items }
    ensures { IfOk result (λ w. Spreads (λ f. calls_one rows.now f wave.front.items) wave.marks.items [] w.marks.items w.front.items) }
{
    let mut marks = wave.marks;
    let mut front = Vec::new(alloc);
    spread(rows, &wave.front, &mut marks, &mut front)?;
    Ok(Wave { marks, front })
}

/// The target alone.
fn alone(alloc: Global, size: usize, target: usize) -> Result<Vec<bool>, AllocError>
    requires { target < size }
    ensures len { IfOk result (λ v. vec_len v ≡ size) }
    ensures value { IfOk result (λ v. (f : ℕ) → f < size → slice_index_or v.items f false ≡ (f == target)) }
{
    let mut marks = vec![in alloc; false; size]?;
    marks[target] = true;
    Ok(marks)
}

/// The functions that come to the target by at most so many calls.
fn reaching(
    alloc: Global,
    rows: &[Vec<usize>],
    rounds: usize,
    target: usize,
) -> Result<Vec<bool>, AllocError>
    requires rows { RowsAreBelow (length rows.now) rows.now }
    requires target { target < length rows.now }
    ensures { IfOk result (λ v. (links : List (ℕ × ℕ)) → AreWithin (length rows.now) links → HasSources links (length rows.now) rows.now → Marks links (length rows.now) rounds target v.items) }
{
    let marks = alone(alloc, rows.len(), target)?;
    let front = vec![in alloc; target]?;
    let mut wave = Wave { marks, front };
    let mut round = 0;
    while round < rounds && !wave.front.is_empty() {
        wave = one_more(alloc, rows, wave)?;
        round += 1;
    }
    Ok(wave.marks)
}

/// Whether a call of f in g leads round. The functions that come to g are marked.
fn leads_round(callers: &[Caller], marks: &[bool], f: &Text, g: &Text) -> bool
    requires { Marks (links callers.now callers.now) (length callers.now + 1) (length callers.now) (number_of callers.now g.now) marks.now }
    ensures { result ≡ (stands_first callers.now f.now g.now && reaches (links callers.now callers.now) (length callers.now) (number_of callers.now f.now) (number_of callers.now g.now)) }
{
    let callee = number(callers, f);
    stands_first(callers, f, g) && marks[callee]
}

/// The least of these calls in function g that leads round.
fn round_fault(callers: &[Caller], marks: &[bool], g: &Text, calls: &[Called]) -> Option<Refusal>
    requires { Marks (links callers.now callers.now) (length callers.now + 1) (length callers.now) (number_of callers.now g.now) marks.now }
    ensures { result ≡ least (round_faults callers.now g.now calls.now) }
{
    let mut worst = None;
    for call in calls {
        let round = leads_round(callers, marks, &call.name, g);
        worst = lesser(worst, fault_if(round, 18, call.at));
    }
    worst
}

/// The least call that leads round. It takes time by the items, times the items and the calls.
pub fn recursion_fault(alloc: Global, callers: &[Caller]) -> Result<Option<Refusal>, AllocError>
    ensures { IfOk result (λ r. r ≡ least (recursion_faults callers.now callers.now)) }
{
    let linked = links_of(alloc, callers)?;
    let rows = all_sources(alloc, &linked, callers.len() + 1)?;
    let mut worst = None;
    for caller in callers {
        let target = number(callers, &caller.name);
        let marks = reaching(alloc, &rows, callers.len(), target)?;
        worst = lesser(
            worst,
            round_fault(callers, &marks, &caller.name, &caller.calls),
        );
    }
    Ok(worst)
}
