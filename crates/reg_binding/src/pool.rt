//! The registers of one width as a block's values take them in order.
ghost use Rattle.std.specs.Prelude.{◌≡◌, ◌+◌, ◌<◌, ◌≤◌, ◌⊎◌, ℕ, List, [], None, length, slice_index, IfOk, OnOk};
ghost use Rattle.reg_binding.specs.Sharing.{life_at, IsShared};
ghost use Rattle.reg_binding.specs.Pools as spec;

use crate::life::Life;
use std::alloc::{AllocError, Global};
use std::collections::BTreeSet;

/// The registers of a width below `next`: those that are free, and those that hold values, each with the cycle by which it is free.
#[derive(Drop)]
pub(crate) struct Pool {
    width: u8,
    free: BTreeSet<usize>,
    busy: BTreeSet<(u64, usize)>,
    next: usize,
}

/// The first register of a width from one on, or, if there is none, their number.
fn next_of(widths: &[u8], from: usize, width: u8) -> usize
    ensures behind { from ≤ length widths.now → from ≤ result }
    ensures most { result ≤ length widths.now }
    ensures fits { result < length widths.now → slice_index widths.now result ≡ width }
    ensures first { (k : ℕ) → from ≤ k → k < result → slice_index widths.now k ≡ width → ⊥ }
{
    for number in from..widths.len() {
        if widths[number] == width {
            return number;
        }
    }
    widths.len()
}

impl Pool {
    /// No register was looked at.
    pub(crate) fn new(alloc: Global, width: u8) -> Pool
        ensures width { result.width ≡ width }
        ensures free { result.free.keys ≡ [] }
        ensures busy { result.busy.keys ≡ [] }
        ensures next { result.next ≡ 0 }
    {
        Pool {
            width,
            free: BTreeSet::new(alloc),
            busy: BTreeSet::new(alloc),
            next: 0,
        }
    }

    /// The pool of a width: this one, or another one of which no register was looked at.
    pub(crate) fn turned(self, alloc: Global, width: u8) -> Pool
        ensures width { result.width ≡ width }
        ensures same { self.width ≡ width → result ≡ self }
        ensures fresh { (self.width ≡ width → ⊥) → (result.free.keys ≡ []) × (result.busy.keys ≡ []) × (result.next ≡ 0) }
    {
        if self.width == width {
            self
        } else {
            Pool::new(alloc, width)
        }
    }

    /// Frees the registers whose values are gone.
    fn release(&mut self, time: u64) -> Result<(), AllocError>
        ensures width { self.new.width ≡ self.old.width }
        ensures pool { OnOk result ((lives : List Life) (n : ℕ) (choices widths : List ℕ) (before : ℕ) → before ≤ time → spec.IsPool lives n choices widths before self.old → spec.IsPool lives n choices widths time self.new) }
        ensures later { OnOk result ((r end_ : ℕ) → spec.Has self.new.busy.keys (end_, r) → time < end_) }
    {
        for _turn in 0..self.busy.len() {
            let Some(first) = self.busy.first() else {
                return Ok(());
            };
            if time < first.0 {
                return Ok(());
            }
            let Some((_, register)) = self.busy.pop_first() else {
                return Ok(());
            };
            self.free.insert(register)?;
        }
        Ok(())
    }

    /// Takes the first register out that is free or, if there is none, that was not looked at.
    fn pick(&mut self, widths: &[u8]) -> usize
        ensures width { self.new.width ≡ self.old.width }
        ensures busy { self.new.busy.keys ≡ self.old.busy.keys }
        ensures picked { spec.PicksFree self.old self.new result ⊎ spec.PicksNew widths.now self.old self.new result }
    {
        match self.free.pop_first() {
            Some(register) => register,
            None => {
                let register = next_of(widths, self.next, self.width);
                self.next = register + 1;
                register
            }
        }
    }

    /// Gives a register to the next value, which may be a new one.
    pub(crate) fn take(&mut self, life: &Life, widths: &mut Vec<u8>) -> Result<usize, AllocError>
        requires { spec.IsLasting life.now }
        ensures width { self.new.width ≡ self.old.width }
        ensures taken { IfOk result (λ r. (lives : List Life) (n : ℕ) (choices : List ℕ) (time : ℕ) → life_at lives n ≡ life.now → spec.AreInOrder lives (n + 1) → self.old.width ≡ life.now.width → time ≤ life.now.start → IsShared None lives n widths.old.items choices → spec.IsPool lives n choices widths.old.items time self.old → spec.Takes lives n choices widths.old.items widths.new.items self.new r) }
    {
        self.release(life.start)?;
        let register = self.pick(widths);
        self.busy.insert((life.start + life.length, register))?;
        if register >= widths.len() {
            widths.push(life.width)?;
        }
        Ok(register)
    }
}
