//! What has been made so far.
ghost use Rattle.std.specs.Prelude.{◌≡◌, ◌≤◌, ◌+◌, ◌-◌, [], map, length, IfOk, SomeIff, slice_get};
ghost use Rattle.hls_base.specs.Refusals.{IfRefused};
ghost use Rattle.pieces.specs.Trees as tree;
ghost use Rattle.pieces.specs.View.{piece_of, pure_of, pures_of};
ghost use Rattle.pieces.specs.Program.{array_of};
ghost use Rattle.piece_making.specs.Making.{own_weight, emit, label, declared, fresh, fresh_result, add_array, new_slot, note_array, noted, next_call, next_loop, set_own};
ghost use Rattle.piece_making.specs.Stocks.{IsMade, IsTooHeavy, state_of, stock, at_first, with_out, with_labels};

use crate::build::variable;
use c_token::ctype::CType;
use hls_base::number::{ArrayId, LoopId, VarId};
use hls_base::place::Place;
use hls_base::point::Point;
use hls_base::refusal::{Fail, Refusal, impossible};
use pieces::expanded::ArrayInfo;
use pieces::piece::{CallId, Label, Piece};
use pieces::pure_expr::Pure;
use pieces::weight::{rest_after_mark, rest_after_pure, rest_after_pures};
use std::alloc::{AllocError, Global};
use std::mem;

/// The greatest weight of a program.
pub const GREATEST_WEIGHT: u32 = 8192;

/// The rule that a program breaks that weighs more.
const WEIGHT_RULE: u8 = 36;

/// The number of a place where the array of a declaration is noted.
#[derive(Clone, Copy, PartialEq, Eq)]
pub struct Slot(pub u32);

/// The pieces of the list that is being made, the labels of the switch round it, and all variables and arrays. `rest` is what is left of the greatest weight; where it is passed the program is refused at `at`.
#[derive(Drop)]
pub struct Work {
    out: Vec<Piece>,
    labels: Vec<Label>,
    variables: Vec<CType>,
    arrays: Vec<ArrayInfo>,
    slots: Vec<Option<ArrayId>>,
    rest: u32,
    calls: u32,
    loops: u32,
    at: Place,
}

impl Work {
    pub fn new(alloc: Global, at: Place) -> Work
        ensures { stock result ≡ at_first 8192 at }
    {
        Work {
            out: Vec::new(alloc),
            labels: Vec::new(alloc),
            variables: Vec::new(alloc),
            arrays: Vec::new(alloc),
            slots: Vec::new(alloc),
            rest: GREATEST_WEIGHT,
            calls: 0,
            loops: 0,
            at,
        }
    }

    fn too_heavy(&self) -> Fail
        ensures { result ≡ Fail.Refused (record { rule = 36; place = self.now.at }) }
    {
        Fail::Refused(Refusal {
            rule: WEIGHT_RULE,
            place: self.at,
        })
    }

    /// Counts the weight of a declaration.
    pub fn charge(&mut self, weight: u32) -> Result<(), Fail>
        ensures made { IfOk result (λ u. IsMade (stock self.old) (stock self.new) u (declared weight (state_of (stock self.old)))) }
        ensures refused { IfRefused result (λ r. IsTooHeavy (stock self.old) r (declared weight (state_of (stock self.old)))) }
    {
        let Some(rest) = self.rest.checked_sub(weight) else {
            return Err(self.too_heavy());
        };
        self.rest = rest;
        Ok(())
    }

    /// Makes a piece. The pieces in it are counted already.
    pub fn emit(&mut self, piece: Piece) -> Result<(), Fail>
        ensures made { IfOk result (λ u. IsMade (stock self.old) (stock self.new) u (emit (piece_of piece) (state_of (stock self.old)))) }
        ensures refused { IfRefused result (λ r. IsTooHeavy (stock self.old) r (emit (piece_of piece) (state_of (stock self.old)))) }
    {
        let Some(rest) = rest_after_own(&piece, self.rest) else {
            return Err(self.too_heavy());
        };
        self.out.push(piece)?;
        self.rest = rest;
        Ok(())
    }

    /// A label of the switch round it, at the piece that comes next.
    pub fn label(&mut self, value: Option<u64>) -> Result<(), Fail>
        ensures made { IfOk result (λ u. IsMade (stock self.old) (stock self.new) u (label value (state_of (stock self.old)))) }
        ensures refused { IfRefused result (λ r. IsTooHeavy (stock self.old) r (label value (state_of (stock self.old)))) }
    {
        let Some(rest) = self.rest.checked_sub(1) else {
            return Err(self.too_heavy());
        };
        let target = number_behind(self.out.len())?;
        self.labels.push(Label { value, target })?;
        self.rest = rest;
        Ok(())
    }

    /// A variable of its own.
    pub fn fresh(&mut self, kind: CType) -> Result<VarId, AllocError>
        ensures { IfOk result (λ v. IsMade (stock self.old) (stock self.new) v (fresh kind (state_of (stock self.old)))) }
    {
        let number = number_behind(self.variables.len())?;
        self.variables.push(kind)?;
        Ok(VarId(number))
    }

    /// The variable of a call's result, if it has one.
    pub fn fresh_result(&mut self, kind: Option<CType>) -> Result<Option<VarId>, AllocError>
        ensures { IfOk result (λ v. IsMade (stock self.old) (stock self.new) v (fresh_result kind (state_of (stock self.old)))) }
    {
        match kind {
            None => Ok(None),
            Some(kind) => Ok(Some(self.fresh(kind)?)),
        }
    }

    pub fn variable_count(&self) -> Result<u32, AllocError>
        ensures { IfOk result (λ n. n ≡ length (stock self.now).variables) }
    {
        number_behind(self.variables.len())
    }

    pub fn add_array(&mut self, array: ArrayInfo) -> Result<ArrayId, AllocError>
        ensures { IfOk result (λ a. IsMade (stock self.old) (stock self.new) a (add_array (array_of array) (state_of (stock self.old)))) }
    {
        let number = number_behind(self.arrays.len())?;
        self.arrays.push(array)?;
        Ok(ArrayId(number))
    }

    /// A place for an array whose declaration is not reached yet.
    pub fn new_slot(&mut self) -> Result<Slot, AllocError>
        ensures { IfOk result (λ n. IsMade (stock self.old) (stock self.new) n (new_slot (state_of (stock self.old)))) }
    {
        let number = number_behind(self.slots.len())?;
        self.slots.push(None)?;
        Ok(Slot(number))
    }

    /// Notes the array of a declaration that is reached.
    pub fn note_array(&mut self, slot: Slot, array: ArrayId)
        ensures { IsMade (stock self.old) (stock self.new) tt (note_array slot array (state_of (stock self.old))) }
    {
        let index = slot.0 as usize;
        if index >= self.slots.len() {
            return;
        }
        self.slots[index] = Some(array);
    }

    /// The array of a declaration that was reached.
    pub fn array_in(&self, slot: Slot) -> Result<ArrayId, AllocError>
        ensures { IfOk result (λ a. a ≡ noted (slice_get (stock self.now).slots slot.0)) }
    {
        match self.slots.get(slot.0 as usize) {
            Some(Some(array)) => Ok(*array),
            _ => Err(impossible()),
        }
    }

    /// The number of the next call.
    pub fn next_call(&mut self) -> Result<CallId, AllocError>
        ensures { IfOk result (λ id. IsMade (stock self.old) (stock self.new) id (next_call (state_of (stock self.old)))) }
    {
        let number = self.calls;
        let next = one_more(number)?;
        self.calls = next;
        Ok(CallId(number))
    }

    /// The number of the next loop.
    pub fn next_loop(&mut self) -> Result<LoopId, AllocError>
        ensures { IfOk result (λ id. IsMade (stock self.old) (stock self.new) id (next_loop (state_of (stock self.old)))) }
    {
        let number = self.loops;
        let next = one_more(number)?;
        self.loops = next;
        Ok(LoopId(number))
    }

    /// Begins a list of pieces, and answers the one before it.
    pub fn begin(&mut self, alloc: Global) -> Vec<Piece>
        ensures before { map piece_of result.items ≡ (stock self.old).out }
        ensures begun { stock self.new ≡ with_out [] (stock self.old) }
    {
        mem::replace(&mut self.out, Vec::new(alloc))
    }

    /// Ends a list of pieces, and goes on with the one before it.
    pub fn finish(&mut self, outer: Vec<Piece>) -> Vec<Piece>
        ensures made { map piece_of result.items ≡ (stock self.old).out }
        ensures ended { stock self.new ≡ with_out (map piece_of outer.items) (stock self.old) }
    {
        mem::replace(&mut self.out, outer)
    }

    /// Begins the list of a switch's labels, and answers that of the switch round it.
    pub fn begin_labels(&mut self, alloc: Global) -> Vec<Label>
        ensures before { result.items ≡ (stock self.old).labels }
        ensures begun { stock self.new ≡ with_labels [] (stock self.old) }
    {
        mem::replace(&mut self.labels, Vec::new(alloc))
    }

    /// Ends the list of a switch's labels.
    pub fn finish_labels(&mut self, outer: Vec<Label>) -> Vec<Label>
        ensures made { result.items ≡ (stock self.old).labels }
        ensures ended { stock self.new ≡ with_labels outer.items (stock self.old) }
    {
        mem::replace(&mut self.labels, outer)
    }

    /// Sets a variable.
    pub fn set(&mut self, variable: VarId, value: Pure) -> Result<(), Fail>
        ensures made { IfOk result (λ u. IsMade (stock self.old) (stock self.new) u (emit (tree.set variable (pure_of value)) (state_of (stock self.old)))) }
        ensures refused { IfRefused result (λ r. IsTooHeavy (stock self.old) r (emit (tree.set variable (pure_of value)) (state_of (stock self.old)))) }
    {
        self.emit(Piece::Set { variable, value })
    }

    /// Writes an element.
    pub fn put(
        &mut self,
        array: ArrayId,
        subscripts: Vec<Pure>,
        value: Pure,
        at: Place,
    ) -> Result<(), Fail>
        ensures made { IfOk result (λ u. IsMade (stock self.old) (stock self.new) u (emit (tree.put array (pures_of subscripts.items) (pure_of value) at) (state_of (stock self.old)))) }
        ensures refused { IfRefused result (λ r. IsTooHeavy (stock self.old) r (emit (tree.put array (pures_of subscripts.items) (pure_of value) at) (state_of (stock self.old)))) }
    {
        self.emit(Piece::Put {
            array,
            subscripts,
            value,
            at,
        })
    }

    /// A point that control comes to.
    pub fn mark(&mut self, point: Point) -> Result<(), Fail>
        ensures made { IfOk result (λ u. IsMade (stock self.old) (stock self.new) u (emit (tree.mark point) (state_of (stock self.old)))) }
        ensures refused { IfRefused result (λ r. IsTooHeavy (stock self.old) r (emit (tree.mark point) (state_of (stock self.old)))) }
    {
        self.emit(Piece::Mark(point))
    }

    /// A variable of its own with this value, read as an expression.
    pub fn set_own(&mut self, kind: CType, value: Pure) -> Result<Pure, Fail>
        ensures made { IfOk result (λ p. IsMade (stock self.old) (stock self.new) (pure_of p) (set_own kind (pure_of value) (state_of (stock self.old)))) }
        ensures refused { IfRefused result (λ r. IsTooHeavy (stock self.old) r (set_own kind (pure_of value) (state_of (stock self.old)))) }
    {
        let own = self.fresh(kind)?;
        self.set(own, value)?;
        Ok(variable(own, kind))
    }

    /// The pieces, the types of the variables, and the arrays.
    pub fn finished(self) -> (Vec<Piece>, Vec<CType>, Vec<ArrayInfo>)
        ensures pieces { map piece_of result.0.items ≡ (stock self).out }
        ensures variables { result.1.items ≡ (stock self).variables }
        ensures arrays { map array_of result.2.items ≡ (stock self).arrays }
    {
        let Work {
            out,
            variables,
            arrays,
            ..
        } = self;
        (out, variables, arrays)
    }
}

/// What a piece leaves of `room` without the pieces and labels in it.
fn rest_after_own(piece: &Piece, room: u32) -> Option<u32>
    ensures { SomeIff result (own_weight (piece_of piece.now) ≤ room) (room - own_weight (piece_of piece.now)) }
{
    match piece {
        Piece::Set { value, .. } => rest_after_pure(value, room.checked_sub(1)?),
        Piece::Put {
            subscripts,
            value,
            ..
        } => {
            let room = rest_after_pures(subscripts, room.checked_sub(1)?)?;
            rest_after_pure(value, room)
        }
        Piece::Fork { test, .. } | Piece::Repeat { test, .. } | Piece::Pick { test, .. } => {
            rest_after_pure(test, room.checked_sub(1)?)
        }
        Piece::Break | Piece::Next | Piece::Leave(_) => room.checked_sub(1),
        Piece::Land(_, point) | Piece::Mark(point) => rest_after_mark(point, room),
    }
}

/// The number of what comes next behind so many.
fn number_behind(count: usize) -> Result<u32, AllocError>
    ensures { IfOk result (λ n. n ≡ count) }
{
    u32::try_from(count).map_err(|_| impossible())
}

fn one_more(number: u32) -> Result<u32, AllocError>
    ensures { IfOk result (λ n. n ≡ number + 1) }
{
    number.checked_add(1).ok_or(impossible())
}
