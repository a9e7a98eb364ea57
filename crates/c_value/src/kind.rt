//! What types have.
ghost use Rattle.std.specs.Prelude.{◌≡◌, ◌-◌, ◌^◌, pos};
ghost use Rattle.c_value.specs.Values.{bits_of, width, is_signed, least, greatest, is_of, int_type, promoted, wider, common};

use c_token::ctype::CType;

/// The type `int`.
pub const INT: CType = CType::Int {
    signed: true,
    bits: 32,
};

/// The number of values of an integer with so many bits.
pub fn count_of(bits: u8) -> i128
    ensures { result ≡ pos (2 ^ bits_of bits) }
{
    if bits <= 8 {
        1 << 8
    } else if bits <= 16 {
        1 << 16
    } else if bits <= 32 {
        1 << 32
    } else {
        1 << 64
    }
}

/// The number of values of an integer with so many bits that are negative where it is signed.
pub fn half_of(bits: u8) -> i128
    ensures { result ≡ pos (2 ^ (bits_of bits - 1)) }
{
    if bits <= 8 {
        1 << 7
    } else if bits <= 16 {
        1 << 15
    } else if bits <= 32 {
        1 << 31
    } else {
        1 << 63
    }
}

/// The bits of the type's values.
pub fn width(kind: CType) -> u8
    ensures { result ≡ width kind }
{
    match kind {
        CType::Bool => 1,
        CType::Int { bits, .. } if bits <= 8 => 8,
        CType::Int { bits, .. } if bits <= 16 => 16,
        CType::Int { bits, .. } if bits <= 32 => 32,
        CType::Int { .. } => 64,
    }
}

pub fn is_signed(kind: CType) -> bool
    ensures { result ≡ is_signed kind }
{
    match kind {
        CType::Bool => false,
        CType::Int { signed, .. } => signed,
    }
}

/// The least number of the type.
pub fn least(kind: CType) -> i128
    ensures { result ≡ least kind }
{
    match kind {
        CType::Int { signed: true, bits } => -half_of(bits),
        _ => 0,
    }
}

/// The greatest number of the type.
pub fn greatest(kind: CType) -> i128
    ensures { result ≡ greatest kind }
{
    match kind {
        CType::Bool => 1,
        CType::Int { signed: true, bits } => half_of(bits) - 1,
        CType::Int { bits, .. } => count_of(bits) - 1,
    }
}

/// Whether the type has the number.
pub fn is_of(kind: CType, n: i128) -> bool
    ensures { result ≡ is_of kind n }
{
    least(kind) <= n && n <= greatest(kind)
}

/// The integer promotions.
pub fn promoted(kind: CType) -> CType
    ensures { result ≡ promoted kind }
{
    match kind {
        CType::Int { bits, .. } if bits >= 32 => kind,
        _ => INT,
    }
}

fn wider(a: CType, b: CType) -> CType
    ensures { result ≡ wider a b }
{
    let (
        CType::Int {
            signed: a_signed,
            bits: a_bits,
        },
        CType::Int {
            signed: b_signed,
            bits: b_bits,
        },
    ) = (a, b)
    else {
        return INT;
    };
    if a_bits < b_bits {
        b
    } else if b_bits < a_bits {
        a
    } else {
        CType::Int {
            signed: a_signed && b_signed,
            bits: a_bits,
        }
    }
}

/// The common type of two operands, by the usual arithmetic conversions.
pub fn common(a: CType, b: CType) -> CType
    ensures { result ≡ common a b }
{
    wider(promoted(a), promoted(b))
}
