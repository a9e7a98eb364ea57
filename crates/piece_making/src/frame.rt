//! What is known of the program, and of the call that is being expanded.
ghost use Rattle.std.specs.Prelude.{◌≡◌, IfOk, slice_get};
ghost use Rattle.pieces.specs.Resolved.CoreView.{core_object_of};
ghost use Rattle.pieces.specs.View.{pure_of};
ghost use Rattle.piece_making.specs.Calls.{call_of, point_in, home_of, scalar, variable, array};
ghost use Rattle.piece_making.specs.Stocks.{state_of, stock};

use crate::work::{Slot, Work};
use c_token::ctype::CType;
use hls_base::number::{ArrayId, VarId};
use hls_base::place::{Path, Place};
use hls_base::point::{Point, PointKind};
use hls_base::refusal::impossible;
use pieces::piece::CallId;
use pieces::pure_expr::Pure;
use pieces::resolved::expression::{Cell, Scope};
use pieces::resolved::program::{CoreFunction, CoreObject, CoreProgram};
use std::alloc::{AllocError, Global};

/// What stands for an object: a variable, an array, the place where the array of a declaration is noted when it is reached, or the value of a constant.
#[derive(Clone, Copy, PartialEq, Eq)]
pub enum Home {
    Variable(VarId),
    Array(ArrayId),
    Local(Slot),
    Constant(u64),
}

/// The program, and what stands for its objects of file scope. The variables of file scope come before all others.
#[derive(Drop)]
pub struct Context<'p> {
    pub alloc: Global,
    pub core: &'p CoreProgram,
    pub file: Vec<Home>,
    pub file_variables: u32,
}

/// A call: what stands for its objects, the places of the calls that led to it, and the variable of its result.
#[derive(Drop)]
pub struct Frame<'p> {
    pub context: &'p Context<'p>,
    pub function: &'p CoreFunction,
    pub homes: Vec<Home>,
    pub path: Path,
    pub call: CallId,
    pub result: Option<VarId>,
}

impl Frame<'_> {
    /// A point of this call.
    pub fn point(&self, kind: PointKind, at: Place) -> Result<Point, AllocError>
        ensures { IfOk result (λ p. p ≡ point_in (call_of self.now) kind at) }
    {
        let path = self.path.copy(self.context.alloc)?;
        Ok(Point { path, at, kind })
    }

    fn home(&self, cell: Cell) -> Option<Home>
        ensures { result ≡ home_of (call_of self.now) cell }
    {
        let homes = match cell.scope {
            Scope::File => self.context.file.as_slice(),
            Scope::Call => self.homes.as_slice(),
        };
        homes.get(cell.number as usize).copied()
    }

    /// A scalar that is read: a variable or the value of a constant.
    pub fn scalar(&self, cell: Cell, kind: CType) -> Result<Pure, AllocError>
        ensures { IfOk result (λ p. pure_of p ≡ scalar (call_of self.now) cell kind) }
    {
        match self.home(cell) {
            Some(Home::Variable(variable)) => Ok(Pure::Variable(variable, kind)),
            Some(Home::Constant(value)) => Ok(Pure::Number { value, kind }),
            _ => Err(impossible()),
        }
    }

    /// The variable that stands for a scalar that is assigned.
    pub fn variable(&self, cell: Cell) -> Result<VarId, AllocError>
        ensures { IfOk result (λ v. v ≡ variable (call_of self.now) cell) }
    {
        match self.home(cell) {
            Some(Home::Variable(variable)) => Ok(variable),
            _ => Err(impossible()),
        }
    }

    /// What stands for an object of the function.
    pub fn local(&self, object: u32) -> Result<Home, AllocError>
        ensures { IfOk result (λ h. slice_get (call_of self.now).homes object ≡ Some h) }
    {
        self.homes.get(object as usize).copied().ok_or(impossible())
    }

    /// An object of the function.
    pub fn object(&self, object: u32) -> Result<&CoreObject, AllocError>
        ensures { IfOk result (λ o. slice_get (call_of self.now).objects object ≡ Some (core_object_of o.now)) }
    {
        self.function
            .objects
            .get(object as usize)
            .ok_or(impossible())
    }

    /// The array that a name stands for.
    pub fn array(&self, work: &Work, cell: Cell) -> Result<ArrayId, AllocError>
        ensures { IfOk result (λ a. a ≡ array (call_of self.now) cell (state_of (stock work.now))) }
    {
        match self.home(cell) {
            Some(Home::Array(array)) => Ok(array),
            Some(Home::Local(slot)) => work.array_in(slot),
            _ => Err(impossible()),
        }
    }
}
