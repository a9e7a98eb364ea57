//! Arithmetic on true integers that fit 128 bits.
ghost use Rattle.std.specs.Prelude.{◌≡◌, ◌≢◌, ◌<◌, ◌≤◌, ◌*◌, ◌^◌, ◌+ℤ◌, ◌-ℤ◌, ◌*ℤ◌, pos, neg_ℤ, unsigned_abs, int_div, int_rem};
ghost use Rattle.std.specs.Int.{int_shr};

pub fn opposite(n: i128) -> i128
    requires { unsigned_abs n < 2 ^ 100 }
    ensures { result ≡ neg_ℤ n }
{
    -n
}

pub fn sum(x: i128, y: i128) -> i128
    requires left { unsigned_abs x < 2 ^ 100 }
    requires right { unsigned_abs y < 2 ^ 100 }
    ensures { result ≡ x +ℤ y }
{
    x + y
}

pub fn difference(x: i128, y: i128) -> i128
    requires left { unsigned_abs x < 2 ^ 100 }
    requires right { unsigned_abs y < 2 ^ 100 }
    ensures { result ≡ x -ℤ y }
{
    x - y
}

pub fn product(x: i128, y: i128) -> i128
    requires left { unsigned_abs x ≤ 2 ^ 63 }
    requires right { unsigned_abs y ≤ 2 ^ 63 }
    ensures { result ≡ x *ℤ y }
{
    x * y
}

pub fn quotient(x: i128, y: i128) -> i128
    requires dividend { unsigned_abs x < 2 ^ 100 }
    requires divisor { y ≢ pos 0 }
    ensures value { result ≡ int_div x y }
    ensures small { unsigned_abs result ≤ unsigned_abs x }
{
    x / y
}

pub fn remainder(x: i128, y: i128) -> i128
    requires dividend { unsigned_abs x < 2 ^ 100 }
    requires divisor { y ≢ pos 0 }
    ensures { result ≡ int_rem x y }
{
    x % y
}

fn power(count: u8) -> i128
    requires { count < 64 }
    ensures value { result ≡ pos (2 ^ count) }
    ensures small { unsigned_abs result ≤ 2 ^ 63 }
{
    i128::from(1u64 << count)
}

fn small_product(x: i128, y: i128) -> i128
    requires left { unsigned_abs x < 2 ^ 64 }
    requires right { unsigned_abs y ≤ 2 ^ 63 }
    ensures { result ≡ x *ℤ y }
{
    x * y
}

/// A number times a power of two.
pub fn times_power(n: i128, count: u8) -> i128
    requires number { unsigned_abs n < 2 ^ 64 }
    requires count { count < 64 }
    ensures { result ≡ n *ℤ pos (2 ^ count) }
{
    small_product(n, power(count))
}

/// A number divided by a power of two, and rounded down.
pub fn by_power(n: i128, count: u8) -> i128
    requires { count < 64 }
    ensures { result ≡ int_shr n count }
{
    n >> count
}
