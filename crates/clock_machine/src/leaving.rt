//! What is taken along where a block or loop is left.
ghost use Rattle.std.specs.Prelude.{◌≡◌, ◌≤◌, length, map, take};
ghost use Rattle.std.specs.Option.{option_map};
ghost use Rattle.clock_machine.specs.Acts.{ReadIsWithinIf};
ghost use Rattle.clock_machine.specs.Leaving as spec;
ghost use Rattle.clock_machine.specs.Lines.Registers.{word_read};
ghost use Rattle.clock_machine.specs.Lines.Registers.{held};

use crate::lines::program::{Assignment, Case, Line, Read};
use crate::lines::registers::Registers;
use crate::lines::words::{set_word, word_at};
use hls_base::number::NodeId;

/// Puts what variables take at the front of a buffer.
pub fn read_assigned(
    registers: &Registers,
    lines: &[Line],
    assignments: &[Assignment],
    into: &mut [u64],
)
    ensures { length assignments.now ≤ length into.old →
        spec.AssignmentsAreWithin registers.now lines.now assignments.now →
        take (length assignments.now) into.new
        ≡ map (λ x. word_read registers.now lines.now x.value) assignments.now }
{
    for (index, assignment) in assignments.iter().enumerate() {
        set_word(into, index, registers.read(lines, assignment.value));
    }
}

/// The variables take these words, one after another.
pub fn set_assigned(variables: &mut [u64], assignments: &[Assignment], words: &[u64])
    ensures { length assignments.now ≤ length words.now →
        spec.AssignmentsAreThere assignments.now (length variables.old) →
        held variables.new ≡ spec.with_words assignments.now words.now (held variables.old) }
{
    for (index, assignment) in assignments.iter().enumerate() {
        set_word(variables, assignment.variable, word_at(words, index));
    }
}

/// The node of the first case that holds, else the other one.
pub fn chosen(registers: &Registers, lines: &[Line], cases: &[Case], other: NodeId) -> NodeId
    ensures { spec.CasesAreWithin registers.now lines.now cases.now →
        result ≡ spec.chosen_in (word_read registers.now lines.now) cases.now other }
{
    for case in cases {
        if registers.read(lines, case.test) != 0 {
            return case.to;
        }
    }
    other
}

/// The word that a run ends with, if it has one.
pub fn result_of(registers: &Registers, lines: &[Line], value: Option<Read>) -> Option<u64>
    ensures { ReadIsWithinIf registers.now lines.now value →
        result ≡ option_map (word_read registers.now lines.now) value }
{
    match value {
        Some(read) => Some(registers.read(lines, read)),
        None => None,
    }
}
