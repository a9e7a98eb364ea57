//! Operations of a block that is open, and conversions between types.
ghost use Rattle.std.specs.Prelude.{◌≡◌};
ghost use Rattle.passes.specs.Lowering.Operations as spec;
ghost use Rattle.block_draft.specs.Views.{given_of, plain_form, conversion_form};

use c_token::ctype::CType;
use c_value::convert::{convert, number_of, pattern};
use c_value::kind::{INT, is_signed, promoted, width};
use hls_base::number::{ArrayId, OpId, VarId};
use hls_base::place::Place;
use hls_base::refusal::impossible;
use ir_core::body::{Op, OpKind, Operand, Source};
use ir_core::stamp::Untimed;
use smallvec::SmallVec;
use std::alloc::{AllocError, Global};
use std::mem;

/// The operands of an operation.
pub type Args = SmallVec<Operand, 4, Global>;

/// What an operation makes of its operands, and with which width.
#[derive(Clone, Copy, PartialEq, Eq)]
pub struct Form {
    pub kind: OpKind,
    pub signed: bool,
    pub bits: u8,
}

/// What an expression gives: one bit that says whether it holds, or a value of a type.
#[derive(Clone, Copy, PartialEq, Eq)]
pub enum Given {
    Truth(Operand),
    Value(Operand, CType),
}

impl Given {
    pub fn kind(self) -> CType
        ensures { result ≡ spec.kind_of (given_of self) }
    {
        match self {
            Given::Truth(_) => INT,
            Given::Value(_, kind) => kind,
        }
    }
}

/// The operations of a block so far.
#[derive(Drop)]
pub struct Operations {
    alloc: Global,
    items: Vec<Op<Untimed>>,
}

pub fn constant(value: u64) -> Operand
    ensures { result ≡ spec.constant value }
{
    Operand {
        value: Source::Constant(value),
        distance: 0,
    }
}

/// What the variable holds as the block is entered.
pub fn entry_value(variable: VarId) -> Operand
    ensures { result ≡ spec.entry_value variable }
{
    Operand {
        value: Source::Variable(variable),
        distance: 0,
    }
}

/// The form of an operation to which no sign belongs.
pub fn plain(kind: OpKind, bits: u8) -> Form
    ensures { result ≡ plain_form kind bits }
{
    Form {
        kind,
        signed: false,
        bits,
    }
}

/// The operation that converts values between types of different widths.
fn conversion(from: CType, to: CType) -> Form
    ensures { result ≡ conversion_form from to }
{
    match to {
        CType::Bool => plain(OpKind::Truth, width(from)),
        CType::Int { .. } if width(from) < width(to) => Form {
            kind: OpKind::Widen,
            signed: is_signed(from),
            bits: width(to),
        },
        CType::Int { .. } => plain(OpKind::Narrow, width(to)),
    }
}

impl Operations {
    ghost use Rattle.std.specs.Prelude.{◌≡◌, [], ◌∷◌, IfOk, map};
    ghost use Rattle.ir_core.specs.Bodies.{op_of};
    ghost use Rattle.passes.specs.Lowering.Operations as spec;
    ghost use Rattle.block_draft.specs.Views.{ops_of, given_of, defined_as, flagged_as, made};

    /// No operations.
    pub fn new(alloc: Global) -> Operations
        ensures { ops_of result ≡ [] }
    {
        Operations {
            alloc,
            items: Vec::new(alloc),
        }
    }

    pub fn alloc(&self) -> Global {
        self.alloc
    }

    /// The operations; none are left.
    pub fn take(&mut self) -> Vec<Op<Untimed>>
        ensures items { map op_of result.items ≡ ops_of self.old }
        ensures fresh { ops_of self.new ≡ [] }
    {
        mem::replace(&mut self.items, Vec::new(self.alloc))
    }

    fn add(&mut self, op: Op<Untimed>) -> Result<Operand, AllocError>
        ensures { IfOk result (λ x. made self.new x ≡ spec.added (ops_of self.old) (op_of op)) }
    {
        let id = u32::try_from(self.items.len()).map_err(|_| impossible())?;
        self.items.push(op)?;
        Ok(Operand {
            value: Source::Result(OpId(id)),
            distance: 0,
        })
    }

    /// An operation that is always defined.
    pub fn operation(&mut self, form: Form, args: &[Operand]) -> Result<Operand, AllocError>
        ensures { IfOk result (λ x. made self.new x ≡ spec.added (ops_of self.old) (defined_as form args.now)) }
    {
        let args = SmallVec::from_slice(self.alloc, args)?;
        self.add(Op {
            kind: form.kind,
            signed: form.signed,
            bits: form.bits,
            args,
            array: None,
            guard: None,
            flag: None,
            stamp: Untimed,
        })
    }

    /// An operation that may be undefined, which it is at this place, and only where the guard holds.
    pub fn flagged(
        &mut self,
        form: Form,
        args: Args,
        array: Option<ArrayId>,
        at: Place,
        guard: Option<Operand>,
    ) -> Result<Operand, AllocError>
        ensures { IfOk result (λ x. made self.new x ≡ spec.added (ops_of self.old) (flagged_as form args.items array at guard)) }
    {
        self.add(Op {
            kind: form.kind,
            signed: form.signed,
            bits: form.bits,
            args,
            array,
            guard,
            flag: Some(at),
            stamp: Untimed,
        })
    }

    /// The value of what an expression gives.
    pub fn value(&mut self, given: Given) -> Result<Operand, AllocError>
        ensures { IfOk result (λ x. made self.new x ≡ spec.valued (ops_of self.old) (given_of given)) }
    {
        match given {
            Given::Truth(bit) => self.operation(plain(OpKind::Widen, 32), &[bit]),
            Given::Value(value, _) => Ok(value),
        }
    }

    /// The bit that says whether what an expression gives is other than 0.
    pub fn condition(&mut self, given: Given) -> Result<Operand, AllocError>
        ensures { IfOk result (λ x. made self.new x ≡ spec.tested (ops_of self.old) (given_of given)) }
    {
        match given {
            Given::Truth(bit) => Ok(bit),
            Given::Value(value, CType::Bool) => Ok(value),
            Given::Value(value, kind) => {
                self.operation(plain(OpKind::Ne, width(kind)), &[value, constant(0)])
            }
        }
    }

    /// What an expression gives, as a value of this type.
    pub fn converted(&mut self, given: Given, to: CType) -> Result<Operand, AllocError>
        ensures { IfOk result (λ x. made self.new x ≡ spec.assigned (ops_of self.old) (given_of given) to) }
    {
        let value = self.value(given)?;
        self.convert(value, given.kind(), to)
    }

    /// What an expression gives, promoted and then as a value of this type.
    pub fn balanced(&mut self, given: Given, to: CType) -> Result<Operand, AllocError>
        ensures { IfOk result (λ x. made self.new x ≡ spec.balanced (ops_of self.old) (given_of given) to) }
    {
        let middle = promoted(given.kind());
        let value = self.converted(given, middle)?;
        self.convert(value, middle, to)
    }

    fn convert(&mut self, value: Operand, from: CType, to: CType) -> Result<Operand, AllocError>
        ensures { IfOk result (λ x. made self.new x ≡ spec.converted (ops_of self.old) from to value) }
    {
        match value.value {
            Source::Constant(word) => Ok(constant(pattern(to, convert(to, number_of(from, word))))),
            Source::Variable(_) => self.resize(value, from, to),
            Source::Result(_) => self.resize(value, from, to),
        }
    }

    #[tactic(auto, using(crate::proofs::Forms::conversion_is))]
    fn resize(&mut self, value: Operand, from: CType, to: CType) -> Result<Operand, AllocError>
        ensures { IfOk result (λ x. made self.new x ≡ spec.resized (ops_of self.old) from to value) }
    {
        if width(from) == width(to) {
            Ok(value)
        } else {
            self.operation(conversion(from, to), &[value])
        }
    }
}
