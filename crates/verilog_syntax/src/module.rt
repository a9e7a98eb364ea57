ghost use Rattle.std.specs.Prelude.{◌≡◌, ◌<◌, ◌≤◌, ◌+◌, length, OnOk, IfOk};
ghost use Rattle.verilog_syntax.specs.Forms.{classes_of};
ghost use Rattle.verilog_syntax.specs.ModuleViews.{name_view, operand_view, net_view, declared_view, memory_view, wire_view, assign_view, write_view, drive_view, module_view, nth, text_in, name_in, operand_in, pair_kind, declared_in, memory_in, net_in, wire_in, assign_in, write_behind, register_in, added, no_module};

use crate::form::{Form, operator_of};
use crate::token::{Kind, Token};
use hls_base::place::{Place, TEXT_START};
use rtl_core::design::Pair;
use std::alloc::{AllocError, Global};

#[derive(Clone, Copy)]
pub struct Name<'a> {
    pub text: &'a [u8],
    pub place: Place,
}

#[derive(Clone, Copy)]
pub enum Value<'a> {
    Named(&'a [u8]),
    Fixed { bits: u8, digits: &'a [u8] },
}

#[derive(Clone, Copy)]
pub struct Operand<'a> {
    pub value: Value<'a>,
    pub place: Place,
}

#[derive(Clone, Copy)]
pub enum Expression<'a> {
    Alone(Operand<'a>),
    Inverted(Operand<'a>),
    Between(Pair, Operand<'a>, Operand<'a>),
    Chosen(Operand<'a>, Operand<'a>, Operand<'a>),
    Joined(Operand<'a>, Operand<'a>),
    Slice(Name<'a>, &'a [u8], &'a [u8]),
    WordOf(Name<'a>, Operand<'a>),
}

/// `[high:0] name`
#[derive(Clone, Copy)]
pub struct Declared<'a> {
    pub high: &'a [u8],
    pub name: Name<'a>,
}

/// `reg [high:0] name [0:last];`
#[derive(Clone, Copy)]
pub struct DeclaredMemory<'a> {
    pub high: &'a [u8],
    pub name: Name<'a>,
    pub last: &'a [u8],
}

/// `wire [high:0] name = net;`, and where its net begins
#[derive(Clone, Copy)]
pub struct DeclaredWire<'a> {
    pub high: &'a [u8],
    pub name: Name<'a>,
    pub net: Expression<'a>,
    pub place: Place,
}

/// `assign name = from;`
#[derive(Clone, Copy)]
pub struct Assign<'a> {
    pub name: Name<'a>,
    pub from: Operand<'a>,
}

/// `if (enable) memory[address] <= value;`
#[derive(Clone, Copy)]
pub struct Write<'a> {
    pub enable: Operand<'a>,
    pub memory: Name<'a>,
    pub address: Operand<'a>,
    pub value: Operand<'a>,
}

/// What happens at an edge: a register is set, a memory's block begins with a port, or it goes on with one.
#[derive(Clone, Copy)]
pub enum Drive<'a> {
    Register {
        enable: Operand<'a>,
        name: Name<'a>,
        next: Operand<'a>,
    },
    First(Write<'a>),
    Further(Write<'a>),
}

/// What a module's text says, with its places.
#[derive(Drop)]
pub struct Module<'a> {
    pub name: Name<'a>,
    pub header: Vec<Name<'a>>,
    pub inputs: Vec<Declared<'a>>,
    pub outputs: Vec<Declared<'a>>,
    pub regs: Vec<Declared<'a>>,
    pub mems: Vec<DeclaredMemory<'a>>,
    pub wires: Vec<DeclaredWire<'a>>,
    pub assigns: Vec<Assign<'a>>,
    pub drives: Vec<Drive<'a>>,
}

/// The text of a name or a number.
fn text_of<'a>(token: &Token<'a>) -> &'a [u8]
    ensures { result.now ≡ text_in token.now.kind }
{
    match token.kind {
        Kind::Name(text) | Kind::Number(text) => text,
        _ => b"",
    }
}

fn name_of<'a>(token: &Token<'a>) -> Name<'a>
    ensures { name_view result ≡ name_in token.now }
{
    Name {
        text: text_of(token),
        place: token.place,
    }
}

fn operand_of<'a>(token: &Token<'a>) -> Operand<'a>
    ensures { operand_view result ≡ operand_in token.now }
{
    let value = match token.kind {
        Kind::Constant { bits, digits } => Value::Fixed { bits, digits },
        _ => Value::Named(text_of(token)),
    };
    Operand {
        value,
        place: token.place,
    }
}

fn pair_of(token: &Token) -> Pair
    ensures { result ≡ pair_kind token.now.kind }
{
    match token.kind {
        Kind::Sign(sign) => operator_of(sign).unwrap_or(Pair::Add),
        _ => Pair::Add,
    }
}

fn declared_at<'a>(tokens: &[Token<'a>]) -> Declared<'a>
    requires { 6 < length tokens.now }
    ensures { declared_view result ≡ declared_in tokens.now }
{
    Declared {
        high: text_of(&tokens[2]),
        name: name_of(&tokens[6]),
    }
}

fn memory_at<'a>(tokens: &[Token<'a>]) -> DeclaredMemory<'a>
    requires { 10 < length tokens.now }
    ensures { memory_view result ≡ memory_in tokens.now }
{
    DeclaredMemory {
        high: text_of(&tokens[2]),
        name: name_of(&tokens[6]),
        last: text_of(&tokens[10]),
    }
}

fn net_at<'a>(form: Form, tokens: &[Token<'a>]) -> Expression<'a>
    requires some { 8 < length tokens.now }
    requires all { length (classes_of form) ≤ length tokens.now }
    ensures { net_view result ≡ net_in form tokens.now }
{
    match form {
        Form::NotWire => Expression::Inverted(operand_of(&tokens[9])),
        Form::PairWire => Expression::Between(
            pair_of(&tokens[9]),
            operand_of(&tokens[8]),
            operand_of(&tokens[10]),
        ),
        Form::PickWire => Expression::Chosen(
            operand_of(&tokens[8]),
            operand_of(&tokens[10]),
            operand_of(&tokens[12]),
        ),
        Form::JoinWire => Expression::Joined(operand_of(&tokens[9]), operand_of(&tokens[11])),
        Form::PartWire => Expression::Slice(
            name_of(&tokens[8]),
            text_of(&tokens[10]),
            text_of(&tokens[12]),
        ),
        Form::WordWire => Expression::WordOf(name_of(&tokens[8]), operand_of(&tokens[10])),
        _ => Expression::Alone(operand_of(&tokens[8])),
    }
}

fn wire_at<'a>(form: Form, tokens: &[Token<'a>]) -> DeclaredWire<'a>
    requires some { 8 < length tokens.now }
    requires all { length (classes_of form) ≤ length tokens.now }
    ensures { wire_view result ≡ wire_in form tokens.now }
{
    DeclaredWire {
        high: text_of(&tokens[2]),
        name: name_of(&tokens[6]),
        net: net_at(form, tokens),
        place: tokens[8].place,
    }
}

fn assign_at<'a>(tokens: &[Token<'a>]) -> Assign<'a>
    requires { 3 < length tokens.now }
    ensures { assign_view result ≡ assign_in tokens.now }
{
    Assign {
        name: name_of(&tokens[1]),
        from: operand_of(&tokens[3]),
    }
}

/// The port whose `if` is the token at this place.
fn write_at<'a>(tokens: &[Token<'a>], start: usize) -> Write<'a>
    requires { start + 9 < length tokens.now }
    ensures { write_view result ≡ write_behind (operand_in (nth tokens.now (start + 2))) (name_in (nth tokens.now (start + 4))) (operand_in (nth tokens.now (start + 6))) (operand_in (nth tokens.now (start + 9))) }
{
    Write {
        enable: operand_of(&tokens[start + 2]),
        memory: name_of(&tokens[start + 4]),
        address: operand_of(&tokens[start + 6]),
        value: operand_of(&tokens[start + 9]),
    }
}

fn register_at<'a>(tokens: &[Token<'a>]) -> Drive<'a>
    requires { 12 < length tokens.now }
    ensures { drive_view result ≡ register_in tokens.now }
{
    Drive::Register {
        enable: operand_of(&tokens[8]),
        name: name_of(&tokens[10]),
        next: operand_of(&tokens[12]),
    }
}

impl<'a> Module<'a> {
    pub fn new(alloc: Global) -> Module<'a>
        ensures { module_view result ≡ no_module }
    {
        Module {
            name: Name {
                text: b"",
                place: TEXT_START,
            },
            header: Vec::new(alloc),
            inputs: Vec::new(alloc),
            outputs: Vec::new(alloc),
            regs: Vec::new(alloc),
            mems: Vec::new(alloc),
            wires: Vec::new(alloc),
            assigns: Vec::new(alloc),
            drives: Vec::new(alloc),
        }
    }

    /// Takes in what a form's tokens say.
    pub fn add(&mut self, form: Form, tokens: &[Token<'a>]) -> Result<(), AllocError>
        requires { length (classes_of form) ≤ length tokens.now }
        ensures { OnOk result (module_view self.new ≡ added form tokens.now (module_view self.old)) }
    {
        match form {
            Form::Head => self.name = name_of(&tokens[1]),
            Form::HeaderName => self.header.push(name_of(&tokens[1]))?,
            Form::Input => self.inputs.push(declared_at(tokens))?,
            Form::Output => self.outputs.push(declared_at(tokens))?,
            Form::Register => self.regs.push(declared_at(tokens))?,
            Form::Memory => self.mems.push(memory_at(tokens))?,
            Form::Assign => self.assigns.push(assign_at(tokens))?,
            Form::RegisterBlock => self.drives.push(register_at(tokens))?,
            Form::MemoryBlock => self.drives.push(Drive::First(write_at(tokens, 7)))?,
            Form::Port => self.drives.push(Drive::Further(write_at(tokens, 0)))?,
            Form::Start | Form::Clock | Form::BlockEnd | Form::ModuleEnd => {}
            _ => self.wires.push(wire_at(form, tokens))?,
        }
        Ok(())
    }
}
