//! Which operations come to a time of their iteration in a cycle.
ghost use Rattle.std.specs.Prelude.{◌≡◌, ◌<◌, ◌+◌, ◌^◌, ◌%◌, length, get_or, slice_set, IfOk};
ghost use Rattle.clock_machine.specs.Lines.Agendas.{IsAgenda, IsNext};

use crate::lines::words::{number_at, set_number, word_at};
use std::alloc::{AllocError, Global};

/// The first operation of each phase, and behind each operation the next one of its phase.
#[derive(Drop)]
pub struct Agenda {
    first: Vec<usize>,
    next: Vec<usize>,
}

/// The phase of a time.
pub fn phase_of(time: u64, interval: u64) -> u64
    ensures { 0 < interval → result ≡ time % interval }
{
    time.checked_rem(interval).unwrap_or(0)
}

/// Puts an operation before the others of its phase.
fn put(first: &mut [usize], next: &mut [usize], number: usize, phase: usize)
    ensures next { next.new ≡ slice_set next.old number (get_or first.old phase 0) }
    ensures first { first.new ≡ slice_set first.old phase number }
{
    set_number(next, number, number_at(first, phase));
    set_number(first, phase, number);
}

impl Agenda {
    pub fn new(alloc: Global, times: &[u64], interval: u64) -> Result<Agenda, AllocError>
        ensures { IfOk result (λ a. 0 < interval → IsAgenda interval times.now a.first.items a.next.items) }
    {
        let count = times.len();
        let mut first = vec![in alloc; count; interval as usize]?;
        let mut next = vec![in alloc; count; count]?;
        for done in 0..count {
            let number = count - 1 - done;
            let phase = phase_of(word_at(times, number), interval);
            put(&mut first, &mut next, number, phase as usize);
        }
        Ok(Agenda { first, next })
    }

    /// The first operation of a phase.
    pub fn first(&self, phase: u64) -> usize
        ensures { result ≡ get_or self.now.first.items phase 0 }
    {
        number_at(&self.first, phase as usize)
    }

    /// The next operation of the same phase.
    pub fn next(&self, number: usize) -> usize
        ensures further { number + 1 < 2 ^ 64 → number < result }
        ensures next { number < get_or self.now.next.items number 0 → result ≡ get_or self.now.next.items number 0 }
    {
        number_at(&self.next, number).max(number.saturating_add(1))
    }
}
