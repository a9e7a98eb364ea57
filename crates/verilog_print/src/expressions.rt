ghost use Rattle.std.specs.Prelude.{◌≡◌, ◌<◌, ◌∷◌, ◌++◌, OnOk, false};
ghost use Rattle.std.specs.Fmt.{decimal, digit_glyph};
ghost use Rattle.rtl_core.specs.ModuleSyntax.{operator};
ghost use Rattle.verilog_print.specs.PrintedSyntax.{name_at, operand_of, name_of, expression_of};
ghost use Rattle.verilog_print.specs.PrintedText.{hexadecimal, operand_text, expression_text};

use itoa::Buffer;
use rtl_core::design::{Atom, Net, Pair, Pin};
use std::alloc::AllocError;

/// Appends the decimal digits of a number.
pub fn push_decimal(out: &mut Vec<u8>, n: u64) -> Result<(), AllocError>
    ensures { OnOk result (out.new.items ≡ out.old.items ++ decimal n) }
{
    let mut buffer = Buffer::new();
    out.extend_from_slice(buffer.format(n).as_bytes())
}

fn hexadecimal_digit(digit: u8) -> u8
    requires { digit < 16 }
    ensures { result ≡ digit_glyph false digit }
{
    if digit < 10 {
        b'0' + digit
    } else {
        b'a' + (digit - 10)
    }
}

/// Appends the hexadecimal digits of a number, in lower case and without leading zeros.
pub fn push_hexadecimal(out: &mut Vec<u8>, value: u128) -> Result<(), AllocError>
    ensures { OnOk result (out.new.items ≡ out.old.items ++ hexadecimal value) }
{
    let mut digits = [0u8; 32];
    let mut start = 31;
    digits[31] = hexadecimal_digit((value % 16) as u8);
    let mut left = value / 16;
    while left != 0 {
        start -= 1;
        digits[start] = hexadecimal_digit((left % 16) as u8);
        left /= 16;
    }
    out.extend_from_slice(&digits[start..])
}

/// Appends a letter and a number, which make the name of a register, a memory or a wire.
pub fn push_numbered(out: &mut Vec<u8>, letter: u8, k: u64) -> Result<(), AllocError>
    ensures { OnOk result (out.new.items ≡ out.old.items ++ (letter ∷ decimal k)) }
{
    out.push(letter)?;
    push_decimal(out, k)
}

fn push_input(out: &mut Vec<u8>, pins: &[Pin], k: u64) -> Result<(), AllocError>
    ensures { OnOk result (out.new.items ≡ out.old.items ++ name_at pins.now k) }
{
    let k = k as usize;
    if k < pins.len() {
        out.extend_from_slice(pins[k].name.items())?;
    }
    Ok(())
}

/// Appends an operand, where these are the circuit's inputs.
pub fn push_operand(out: &mut Vec<u8>, pins: &[Pin], atom: Atom) -> Result<(), AllocError>
    ensures { OnOk result (out.new.items ≡ out.old.items ++ operand_text (operand_of pins.now atom)) }
{
    match atom {
        Atom::Constant { bits, value } => {
            push_decimal(out, bits as u64)?;
            out.extend_from_slice(b"'h")?;
            push_hexadecimal(out, value)
        }
        Atom::Input(k) => push_input(out, pins, k),
        Atom::Reg(k) => push_numbered(out, b'r', k),
        Atom::Wire(k) => push_numbered(out, b'w', k),
    }
}

fn operator_text(op: Pair) -> &'static [u8]
    ensures { result.now ≡ operator op }
{
    match op {
        Pair::Add => b"+",
        Pair::Sub => b"-",
        Pair::Mul => b"*",
        Pair::And => b"&",
        Pair::Or => b"|",
        Pair::Xor => b"^",
        Pair::Equal => b"==",
        Pair::Below => b"<",
        Pair::Left => b"<<",
        Pair::Right => b">>",
    }
}

fn push_name(out: &mut Vec<u8>, pins: &[Pin], atom: Atom) -> Result<(), AllocError>
    ensures { OnOk result (out.new.items ≡ out.old.items ++ name_of (operand_of pins.now atom)) }
{
    match atom {
        Atom::Constant { .. } => Ok(()),
        _ => push_operand(out, pins, atom),
    }
}

fn push_two(out: &mut Vec<u8>, pins: &[Pin], op: Pair, a: Atom, b: Atom) -> Result<(), AllocError>
    ensures { OnOk result (out.new.items ≡ out.old.items ++ expression_text (expression_of pins.now (Net.Two op a b))) }
{
    push_operand(out, pins, a)?;
    out.extend_from_slice(b" ")?;
    out.extend_from_slice(operator_text(op))?;
    out.extend_from_slice(b" ")?;
    push_operand(out, pins, b)
}

fn push_pick(
    out: &mut Vec<u8>,
    pins: &[Pin],
    test: Atom,
    a: Atom,
    b: Atom,
) -> Result<(), AllocError>
    ensures { OnOk result (out.new.items ≡ out.old.items ++ expression_text (expression_of pins.now (Net.Pick test a b))) }
{
    push_operand(out, pins, test)?;
    out.extend_from_slice(b" ? ")?;
    push_operand(out, pins, a)?;
    out.extend_from_slice(b" : ")?;
    push_operand(out, pins, b)
}

fn push_join(out: &mut Vec<u8>, pins: &[Pin], high: Atom, low: Atom) -> Result<(), AllocError>
    ensures { OnOk result (out.new.items ≡ out.old.items ++ expression_text (expression_of pins.now (Net.Join high low))) }
{
    out.extend_from_slice(b"{")?;
    push_operand(out, pins, high)?;
    out.extend_from_slice(b", ")?;
    push_operand(out, pins, low)?;
    out.extend_from_slice(b"}")
}

fn push_part(out: &mut Vec<u8>, pins: &[Pin], of: Atom, high: u8, low: u8) -> Result<(), AllocError>
    ensures { OnOk result (out.new.items ≡ out.old.items ++ expression_text (expression_of pins.now (Net.Part of high low))) }
{
    push_name(out, pins, of)?;
    out.extend_from_slice(b"[")?;
    push_decimal(out, high as u64)?;
    out.extend_from_slice(b":")?;
    push_decimal(out, low as u64)?;
    out.extend_from_slice(b"]")
}

fn push_word(out: &mut Vec<u8>, pins: &[Pin], mem: u32, addr: Atom) -> Result<(), AllocError>
    ensures { OnOk result (out.new.items ≡ out.old.items ++ expression_text (expression_of pins.now (Net.Word mem addr))) }
{
    push_numbered(out, b'm', mem as u64)?;
    out.extend_from_slice(b"[")?;
    push_operand(out, pins, addr)?;
    out.extend_from_slice(b"]")
}

/// Appends the expression of a wire, where these are the circuit's inputs.
pub fn push_expression(out: &mut Vec<u8>, pins: &[Pin], net: Net) -> Result<(), AllocError>
    ensures { OnOk result (out.new.items ≡ out.old.items ++ expression_text (expression_of pins.now net)) }
{
    match net {
        Net::Copy(a) => push_operand(out, pins, a),
        Net::Not(a) => {
            out.extend_from_slice(b"~")?;
            push_operand(out, pins, a)
        }
        Net::Two(op, a, b) => push_two(out, pins, op, a, b),
        Net::Pick(test, a, b) => push_pick(out, pins, test, a, b),
        Net::Join(high, low) => push_join(out, pins, high, low),
        Net::Part { of, high, low } => push_part(out, pins, of, high, low),
        Net::Word { mem, addr } => push_word(out, pins, mem, addr),
    }
}
