//! Types, conversions, operators and constants.
use c_token::ctype::CType;
use c_tree::expression::Expr;
use c_tree::operator::{Binary, Unary};
use c_value::chain::{chain_length, part_at};
use c_value::constant::{Constant, constant_kind, constant_number, constant_value, is_constant};
use c_value::convert::{convert, number_of, ones, pattern, wrap};
use c_value::kind::{
    INT, common, count_of, greatest, half_of, is_of, is_signed, least, promoted, width,
};
use c_value::operate::{binary_kind, binary_value, unary_kind, unary_value};
use hls_base::place::Place;
use hls_base::refusal::UbRule;
use std::alloc::AllocError;

const UNSIGNED: CType = CType::Int {
    signed: false,
    bits: 32,
};

const BYTE: CType = CType::Int {
    signed: false,
    bits: 8,
};

const LONG: CType = CType::Int {
    signed: true,
    bits: 64,
};

#[test]
fn types(rt: HostRuntime) {
    assert_eq!(rt; count_of(8), 256);
    assert_eq!(rt; half_of(32), 2147483648);
    assert_eq!(rt; width(CType::Bool), 1);
    assert!(rt; is_signed(LONG));
    assert_eq!(rt; least(INT), -2147483648);
    assert_eq!(rt; greatest(LONG), 9223372036854775807);
    assert!(rt; !is_of(BYTE, 256));
    assert_eq!(rt; promoted(BYTE), INT);
    assert_eq!(rt; common(UNSIGNED, INT), UNSIGNED);
}

#[test]
fn conversions(rt: HostRuntime) {
    assert_eq!(rt; ones(BYTE), 255);
    assert_eq!(rt; pattern(INT, -1), 4294967295);
    assert_eq!(rt; number_of(INT, 4294967295), -1);
    assert_eq!(rt; wrap(BYTE, 300), 44);
    assert_eq!(rt; convert(CType::Bool, 256), 1);
}

#[test]
fn operators(rt: HostRuntime) {
    assert_eq!(rt; unary_kind(Unary::Minus, BYTE), INT);
    assert_eq!(rt; unary_value(Unary::Not, UNSIGNED, 0), Ok(4294967295));
    assert_eq!(rt; binary_kind(Binary::Shl, BYTE, LONG), INT);
    assert_eq!(rt; binary_value(Binary::Rem, INT, -7, INT, 2), Ok(-1));
    assert_eq!(rt; binary_value(Binary::Shr, INT, -8, INT, 1), Ok(-4));
    assert_eq!(rt;
        binary_value(Binary::Shr, INT, -8, INT, 32),
        Err(UbRule::ShiftCount)
    );
    assert_eq!(rt; binary_value(Binary::Lt, INT, -1, UNSIGNED, 1), Ok(0));
}

fn number(value: u64) -> Expr {
    Expr::number(
        value,
        INT,
        Place {
            line: 1,
            column: 1,
            part: 0,
        },
    )
}

#[test]
fn constants(rt: HostRuntime) -> Result<(), AllocError> {
    let alloc = rt.alloc();
    let at = Place {
        line: 1,
        column: 1,
        part: 0,
    };
    let quotient = Expr::binary(alloc, Binary::Div, number(7), number(0), at)?;
    assert!(rt; is_constant(&quotient));
    assert_eq!(rt; constant_kind(&quotient), INT);
    assert_eq!(rt; constant_number(&quotient), Err(UbRule::DivideByZero));
    let chosen = Expr::choice(alloc, number(1), number(2), quotient, at, at)?;
    let wanted = Constant::Number {
        kind: INT,
        number: 2,
    };
    assert_eq!(rt; constant_value(&chosen), wanted);
    Ok(())
}

/// `1000 - 1 - 1 ..`, longer than what is counted at once.
#[test]
fn long_rows(rt: HostRuntime) -> Result<(), AllocError> {
    let alloc = rt.alloc();
    let at = Place {
        line: 1,
        column: 1,
        part: 0,
    };
    let mut row = number(1000);
    for _ in 0..300 {
        row = Expr::binary(alloc, Binary::Sub, row, number(1), at)?;
    }
    assert_eq!(rt; chain_length(&row), 256);
    assert_eq!(rt; constant_number(part_at(&row, 256)), Ok(956));
    assert!(rt; is_constant(&row));
    assert_eq!(rt; constant_number(&row), Ok(700));
    Ok(())
}
