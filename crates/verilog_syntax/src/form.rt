ghost use Rattle.std.specs.Prelude.{◌≡◌, ◌↔◌, IsTrue};
ghost use Rattle.verilog_syntax.specs.Views.{token_of, IsProper};
ghost use Rattle.verilog_syntax.specs.Forms.{FitsClass, classes_of, followers_of};
ghost use Rattle.verilog_syntax.specs.Operators.{operator_of};

use crate::token::{Keyword, Kind, Sign, Token};
use rtl_core::design::Pair;

/// What a token of a form may be.
#[derive(Clone, Copy, PartialEq, Eq)]
pub enum Class {
    Word(Keyword),
    Mark(Sign),
    Name,
    Number,
    Zero,
    Operand,
    Operator,
}

/// The pieces of a module's text, each with as many tokens as it has classes. `Start` stands for the text's beginning.
#[derive(Clone, Copy, PartialEq, Eq)]
pub enum Form {
    Start,
    Head,
    HeaderName,
    Clock,
    Input,
    Output,
    Register,
    Memory,
    CopyWire,
    NotWire,
    PairWire,
    PickWire,
    JoinWire,
    PartWire,
    WordWire,
    Assign,
    RegisterBlock,
    MemoryBlock,
    Port,
    BlockEnd,
    ModuleEnd,
}

const IF: Class = Class::Word(Keyword::If);

const REG: Class = Class::Word(Keyword::Reg);

const WIRE: Class = Class::Word(Keyword::Wire);

const CLOCK: Class = Class::Word(Keyword::Clock);

const OPEN: Class = Class::Mark(Sign::LeftBracket);

const CLOSE: Class = Class::Mark(Sign::RightBracket);

const COLON: Class = Class::Mark(Sign::Colon);

const EQUAL: Class = Class::Mark(Sign::Equal);

const ARROW: Class = Class::Mark(Sign::LessEqual);

const LEFT: Class = Class::Mark(Sign::LeftParen);

const RIGHT: Class = Class::Mark(Sign::RightParen);

const STOP: Class = Class::Mark(Sign::Semicolon);

const NAME: Class = Class::Name;

const NUMBER: Class = Class::Number;

const ZERO: Class = Class::Zero;

const OPERAND: Class = Class::Operand;

/// The operator that the sign is, if it is one.
pub fn operator_of(sign: Sign) -> Option<Pair>
    ensures { result ≡ operator_of sign }
{
    match sign {
        Sign::Plus => Some(Pair::Add),
        Sign::Minus => Some(Pair::Sub),
        Sign::Star => Some(Pair::Mul),
        Sign::Ampersand => Some(Pair::And),
        Sign::Bar => Some(Pair::Or),
        Sign::Caret => Some(Pair::Xor),
        Sign::EqualEqual => Some(Pair::Equal),
        Sign::Less => Some(Pair::Below),
        Sign::ShiftLeft => Some(Pair::Left),
        Sign::ShiftRight => Some(Pair::Right),
        _ => None,
    }
}

fn is_keyword(kind: Kind, wanted: Keyword) -> bool
    requires { IsProper kind }
    ensures { IsTrue result ↔ FitsClass (Class.Word wanted) (token_of kind.entry) }
{
    match kind {
        Kind::Keyword(keyword) => keyword == wanted,
        _ => false,
    }
}

fn is_mark(kind: Kind, wanted: Sign) -> bool
    ensures { IsTrue result ↔ FitsClass (Class.Mark wanted) (token_of kind.entry) }
{
    match kind {
        Kind::Sign(sign) => sign == wanted,
        _ => false,
    }
}

fn is_name(kind: Kind) -> bool
    requires { IsProper kind }
    ensures { IsTrue result ↔ FitsClass Class.Name (token_of kind.entry) }
{
    match kind {
        Kind::Name(_) => true,
        _ => false,
    }
}

fn is_number(kind: Kind) -> bool
    ensures { IsTrue result ↔ FitsClass Class.Number (token_of kind.entry) }
{
    match kind {
        Kind::Number(_) => true,
        _ => false,
    }
}

fn is_zero(kind: Kind) -> bool
    ensures { IsTrue result ↔ FitsClass Class.Zero (token_of kind.entry) }
{
    match kind {
        Kind::Number(digits) => digits == b"0".as_slice(),
        _ => false,
    }
}

fn is_operand(kind: Kind) -> bool
    requires { IsProper kind }
    ensures { IsTrue result ↔ FitsClass Class.Operand (token_of kind.entry) }
{
    match kind {
        Kind::Name(_) => true,
        Kind::Constant { .. } => true,
        _ => false,
    }
}

fn is_operator(kind: Kind) -> bool
    ensures { IsTrue result ↔ FitsClass Class.Operator (token_of kind.entry) }
{
    match kind {
        Kind::Sign(sign) => operator_of(sign).is_some(),
        _ => false,
    }
}

impl Class {
    pub fn fits(self, token: &Token) -> bool
        requires { IsProper token.now.kind }
        ensures { IsTrue result ↔ FitsClass self (token_of token.now.kind) }
    {
        match self {
            Class::Word(wanted) => is_keyword(token.kind, wanted),
            Class::Mark(wanted) => is_mark(token.kind, wanted),
            Class::Name => is_name(token.kind),
            Class::Number => is_number(token.kind),
            Class::Zero => is_zero(token.kind),
            Class::Operand => is_operand(token.kind),
            Class::Operator => is_operator(token.kind),
        }
    }
}

impl Form {
    pub fn is_module_end(self) -> bool
        ensures { IsTrue result ↔ (self ≡ Form.ModuleEnd) }
    {
        matches!(self, Form::ModuleEnd)
    }

    pub fn classes(self) -> &'static [Class]
        ensures { result.now ≡ classes_of self }
    {
        match self {
            Form::Start => &[],
            Form::Head => &[Class::Word(Keyword::Module), NAME, LEFT, CLOCK],
            Form::HeaderName => &[Class::Mark(Sign::Comma), NAME],
            Form::Clock => &[RIGHT, STOP, Class::Word(Keyword::Input), CLOCK, STOP],
            Form::Input => &[
                Class::Word(Keyword::Input),
                OPEN,
                NUMBER,
                COLON,
                ZERO,
                CLOSE,
                NAME,
                STOP,
            ],
            Form::Output => &[
                Class::Word(Keyword::Output),
                OPEN,
                NUMBER,
                COLON,
                ZERO,
                CLOSE,
                NAME,
                STOP,
            ],
            Form::Register => &[REG, OPEN, NUMBER, COLON, ZERO, CLOSE, NAME, STOP],
            Form::Memory => &[
                REG, OPEN, NUMBER, COLON, ZERO, CLOSE, NAME, OPEN, ZERO, COLON, NUMBER, CLOSE, STOP,
            ],
            Form::CopyWire => &[
                WIRE, OPEN, NUMBER, COLON, ZERO, CLOSE, NAME, EQUAL, OPERAND, STOP,
            ],
            Form::NotWire => &[
                WIRE,
                OPEN,
                NUMBER,
                COLON,
                ZERO,
                CLOSE,
                NAME,
                EQUAL,
                Class::Mark(Sign::Tilde),
                OPERAND,
                STOP,
            ],
            Form::PairWire => &[
                WIRE,
                OPEN,
                NUMBER,
                COLON,
                ZERO,
                CLOSE,
                NAME,
                EQUAL,
                OPERAND,
                Class::Operator,
                OPERAND,
                STOP,
            ],
            Form::PickWire => &[
                WIRE,
                OPEN,
                NUMBER,
                COLON,
                ZERO,
                CLOSE,
                NAME,
                EQUAL,
                OPERAND,
                Class::Mark(Sign::Question),
                OPERAND,
                COLON,
                OPERAND,
                STOP,
            ],
            Form::JoinWire => &[
                WIRE,
                OPEN,
                NUMBER,
                COLON,
                ZERO,
                CLOSE,
                NAME,
                EQUAL,
                Class::Mark(Sign::LeftBrace),
                OPERAND,
                Class::Mark(Sign::Comma),
                OPERAND,
                Class::Mark(Sign::RightBrace),
                STOP,
            ],
            Form::PartWire => &[
                WIRE, OPEN, NUMBER, COLON, ZERO, CLOSE, NAME, EQUAL, NAME, OPEN, NUMBER, COLON,
                NUMBER, CLOSE, STOP,
            ],
            Form::WordWire => &[
                WIRE, OPEN, NUMBER, COLON, ZERO, CLOSE, NAME, EQUAL, NAME, OPEN, OPERAND, CLOSE,
                STOP,
            ],
            Form::Assign => &[Class::Word(Keyword::Assign), NAME, EQUAL, OPERAND, STOP],
            Form::RegisterBlock => &[
                Class::Word(Keyword::Always),
                Class::Mark(Sign::At),
                LEFT,
                Class::Word(Keyword::Posedge),
                CLOCK,
                RIGHT,
                IF,
                LEFT,
                OPERAND,
                RIGHT,
                NAME,
                ARROW,
                OPERAND,
                STOP,
            ],
            Form::MemoryBlock => &[
                Class::Word(Keyword::Always),
                Class::Mark(Sign::At),
                LEFT,
                Class::Word(Keyword::Posedge),
                CLOCK,
                RIGHT,
                Class::Word(Keyword::Begin),
                IF,
                LEFT,
                OPERAND,
                RIGHT,
                NAME,
                OPEN,
                OPERAND,
                CLOSE,
                ARROW,
                OPERAND,
                STOP,
            ],
            Form::Port => &[
                IF, LEFT, OPERAND, RIGHT, NAME, OPEN, OPERAND, CLOSE, ARROW, OPERAND, STOP,
            ],
            Form::BlockEnd => &[Class::Word(Keyword::End)],
            Form::ModuleEnd => &[Class::Word(Keyword::Endmodule)],
        }
    }

    /// The forms that may stand behind this one.
    pub fn followers(self) -> &'static [Form]
        ensures { result.now ≡ followers_of self }
    {
        match self {
            Form::Start => &[Form::Head],
            Form::Head | Form::HeaderName => &[Form::HeaderName, Form::Clock],
            Form::Clock | Form::Input => &ITEMS,
            Form::Output => &ITEMS[1..],
            Form::Register => &ITEMS[2..],
            Form::Memory => &ITEMS[3..],
            Form::CopyWire
            | Form::NotWire
            | Form::PairWire
            | Form::PickWire
            | Form::JoinWire
            | Form::PartWire
            | Form::WordWire => &ITEMS[4..],
            Form::Assign => &ITEMS[11..],
            Form::RegisterBlock | Form::BlockEnd => &ITEMS[12..],
            Form::MemoryBlock | Form::Port => &[Form::Port, Form::BlockEnd],
            Form::ModuleEnd => &[],
        }
    }
}

/// The items of a module in their order.
const ITEMS: [Form; 15] = [
    Form::Input,
    Form::Output,
    Form::Register,
    Form::Memory,
    Form::CopyWire,
    Form::NotWire,
    Form::PairWire,
    Form::PickWire,
    Form::JoinWire,
    Form::PartWire,
    Form::WordWire,
    Form::Assign,
    Form::RegisterBlock,
    Form::MemoryBlock,
    Form::ModuleEnd,
];
