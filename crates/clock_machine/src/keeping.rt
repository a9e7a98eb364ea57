//! What goes into lines in a cycle.
ghost use Rattle.std.specs.Prelude.{◌≡◌, ◌+◌, ◌<◌, ◌≤◌, ℕ, length, get_or, slice_get, Some, None};
ghost use Rattle.ir_core.specs.Bodies.{Shapes};
ghost use Rattle.clock_ir.specs.Flows.{TimedBody, Flow, first_flow};
ghost use Rattle.clock_machine.specs.declared.lines.program.Action.{Action};
ghost use Rattle.clock_machine.specs.Lines.Registers.{HasPushed, LineIsWithin, SameSizes, held, value_in};
ghost use Rattle.clock_machine.specs.Lines.Showing.{Shows};
ghost use Rattle.clock_machine.specs.Keeping.{IsForm, IsMoment, IsNextMoment, HasGiven, ShowsGiven, ShowsReady};
ghost use Rattle.clock_machine.specs.Standing.{HasWords, IsWholeBody};

use crate::lines::program::{Read, Work};
use crate::lines::registers::Registers;
use crate::lines::words::word_at;

/// The line of an operation begins with what a variable holds, if there is one whose next value it makes.
fn begin_one(registers: &mut Registers, work: &Work, number: usize)
    ensures rests { (a : Action) → slice_get work.now.actions.items number ≡ Some a → a.entry ≡ None →
        registers.new ≡ registers.old }
    ensures pushes { (a : Action) (v : ℕ) → slice_get work.now.actions.items number ≡ Some a → a.entry ≡ Some v →
        HasPushed registers.old registers.new work.now.lines.items number (held registers.old.variables.items v) }
    ensures variables { registers.new.variables ≡ registers.old.variables }
    ensures sizes { SameSizes registers.old registers.new }
{
    let count = work.actions.len();
    if number < count {
        match work.actions[number].entry {
            Some(variable) => {
                let word = word_at(&registers.variables, variable);
                registers.push(&work.lines, number, word);
            }
            None => {}
        }
    }
}

/// The lines begin with what variables hold.
pub fn begin_lines(registers: &mut Registers, work: &Work)
    ensures shows { (shapes : Shapes) (b : TimedBody) (memories : ℕ → ℕ → ℕ) →
        IsForm shapes.widths b work.now registers.old → HasWords work.now registers.old → IsWholeBody shapes b →
        Shows b work.now.lines.items registers.new
        (first_flow b (record { variables = held registers.old.variables.items; memories = memories })) }
    ensures variables { registers.new.variables ≡ registers.old.variables }
    ensures sizes { SameSizes registers.old registers.new }
{
    registers.reset(&work.lines);
    for number in 0..work.actions.len() {
        begin_one(registers, work, number);
    }
}

/// Puts what an operation gave into its line of what was made, if its first iteration has come to it.
fn keep_one(registers: &mut Registers, work: &Work, fresh: &[u64], number: usize, time: u64)
    ensures rests { (a : Action) → slice_get work.now.actions.items number ≡ Some a → time < a.start →
        registers.new ≡ registers.old }
    ensures pushes { (a : Action) → slice_get work.now.actions.items number ≡ Some a → a.start ≤ time →
        HasPushed registers.old registers.new work.now.lines.items
        (length work.now.actions.items + number) (get_or fresh.now number 0) }
    ensures variables { registers.new.variables ≡ registers.old.variables }
    ensures sizes { SameSizes registers.old registers.new }
{
    let count = work.actions.len();
    if number < count && work.actions[number].start <= time {
        let line = count.saturating_add(number);
        registers.push(&work.lines, line, word_at(fresh, number));
    }
}

/// Puts what the operations gave that started in this cycle into the lines of what was made.
pub fn keep_made(registers: &mut Registers, work: &Work, fresh: &[u64], phase: u64, time: u64)
    ensures kept { (shapes : Shapes) (b : TimedBody) (f : Flow) → IsForm shapes.widths b work.now registers.old →
        IsMoment b f phase time → HasGiven shapes b f fresh.now → Shows b work.now.lines.items registers.old f →
        ShowsGiven shapes b work.now.lines.items registers.new f }
    ensures variables { registers.new.variables ≡ registers.old.variables }
    ensures sizes { SameSizes registers.old registers.new }
{
    let mut number = work.starts.first(phase);
    while number < work.actions.len() {
        keep_one(registers, work, fresh, number, time);
        number = work.starts.next(number);
    }
}

/// Puts the value of an operation into its line, if that of its first iteration is there.
fn ready_one(registers: &mut Registers, work: &Work, number: usize, time: u64)
    ensures rests { (a : Action) → slice_get work.now.actions.items number ≡ Some a → time < a.ready →
        registers.new ≡ registers.old }
    ensures pushes { (a : Action) → slice_get work.now.actions.items number ≡ Some a → a.ready ≤ time →
        LineIsWithin registers.old
        (slice_get work.now.lines.items (length work.now.actions.items + number))
        (length work.now.actions.items + number) a.wait →
        HasPushed registers.old registers.new work.now.lines.items number
        (value_in registers.old (slice_get work.now.lines.items (length work.now.actions.items + number))
        (length work.now.actions.items + number) a.wait) }
    ensures variables { registers.new.variables ≡ registers.old.variables }
    ensures sizes { SameSizes registers.old registers.new }
{
    let count = work.actions.len();
    if number < count && work.actions[number].ready <= time {
        let made = Read::Value {
            line: count.saturating_add(number),
            back: work.actions[number].wait,
        };
        let word = registers.read(&work.lines, made);
        registers.push(&work.lines, number, word);
    }
}

/// Puts the values that are there from this cycle on into the lines of their operations.
pub fn keep_ready(registers: &mut Registers, work: &Work, phase: u64, time: u64)
    ensures ready { (shapes : Shapes) (b : TimedBody) (f : Flow) → IsForm shapes.widths b work.now registers.old →
        IsNextMoment b f phase time → ShowsGiven shapes b work.now.lines.items registers.old f →
        ShowsReady shapes b work.now.lines.items registers.new f }
    ensures variables { registers.new.variables ≡ registers.old.variables }
    ensures sizes { SameSizes registers.old registers.new }
{
    let mut number = work.arrivals.first(phase);
    while number < work.actions.len() {
        ready_one(registers, work, number, time);
        number = work.arrivals.next(number);
    }
}
