ghost use Rattle.std.specs.Prelude.{◌≡◌, ◌≤◌, ◌<◌, ◌+◌, ◌-◌, ◌*◌, ◌/◌, ◌%◌, ◌^◌, ◌==◌, ◌⊎◌, ℕ, Bool, IfOk, IsTrue, Some, bit_and, bit_or, if◌then◌else◌};
ghost use Rattle.rtl_core.specs.ClockStep.{bit_of, pair_value, widths};
ghost use Rattle.rtl_core.specs.Valid.{HasBits, IsBetween, OperandsFit};
ghost use Rattle.rtl_logic.specs.Making.{circuit, number_in, is_same, net_in, IsSound, Makes, keeps_left, keeps_right};

use crate::fold::{bit, constant, constant_of, pair_of_constants};
use crate::logic::Logic;
use rtl_core::design::{Atom, Net, Pair};
use std::alloc::AllocError;

fn is_number(atom: Atom, number: u128) -> bool
    ensures { result ≡ is_same number (number_in atom) }
{
    match constant_of(atom) {
        Some(value) => value == number,
        None => false,
    }
}

impl Logic {
    /// Whether one bit is the other one turned round.
    fn are_opposite(&self, left: Atom, right: Atom) -> bool
        ensures { IsTrue result → (net_in (circuit self.now) left ≡ Some (Net.Not right)) ⊎ (net_in (circuit self.now) right ≡ Some (Net.Not left)) }
    {
        self.net_of(left) == Some(Net::Not(right)) || self.net_of(right) == Some(Net::Not(left))
    }

    /// All bits of an atom turned round.
    pub fn not(&mut self, atom: Atom) -> Result<Atom, AllocError>
        ensures { (n : ℕ) → IsSound (circuit self.old) → IsBetween 1 128 n → HasBits (widths (circuit self.old)) n atom
            → IfOk result (λ a. Makes (circuit self.old) (circuit self.new) n a (λ v x. x ≡ 2 ^ n - 1 - v atom)) }
    {
        let bits = self.width(atom);
        if let Some(value) = constant_of(atom) {
            return Ok(constant(bits, !value));
        }
        if let Some(Net::Not(inner)) = self.net_of(atom) {
            return Ok(inner);
        }
        self.wire(bits, Net::Not(atom))
    }

    /// An operator on two atoms, in so many bits.
    pub fn two(&mut self, pair: Pair, bits: u8, left: Atom, right: Atom) -> Result<Atom, AllocError>
        ensures { IsSound (circuit self.old) → IsBetween 1 128 bits
            → OperandsFit pair bits (λ m. HasBits (widths (circuit self.old)) m left) (λ m. HasBits (widths (circuit self.old)) m right)
            → IfOk result (λ a. Makes (circuit self.old) (circuit self.new) bits a (λ v x. x ≡ pair_value pair bits (v left) (v right))) }
    {
        if let (Some(left), Some(right)) = (constant_of(left), constant_of(right)) {
            return Ok(pair_of_constants(pair, bits, left, right));
        }
        if is_number(right, 0) && keeps_left(pair) {
            return Ok(left);
        }
        if is_number(left, 0) && keeps_right(pair) {
            return Ok(right);
        }
        self.wire(bits, Net::Two(pair, left, right))
    }

    /// Whether both bits are 1.
    pub fn and(&mut self, left: Atom, right: Atom) -> Result<Atom, AllocError>
        ensures { IsSound (circuit self.old) → HasBits (widths (circuit self.old)) 1 left → HasBits (widths (circuit self.old)) 1 right
            → IfOk result (λ a. Makes (circuit self.old) (circuit self.new) 1 a (λ v x. x ≡ bit_and (v left) (v right))) }
    {
        if is_number(left, 0) || is_number(right, 1) || left == right {
            return Ok(left);
        }
        if is_number(right, 0) || is_number(left, 1) {
            return Ok(right);
        }
        if self.are_opposite(left, right) {
            return Ok(bit(false));
        }
        self.wire(1, Net::Two(Pair::And, left, right))
    }

    /// Whether one of the bits is 1.
    pub fn or(&mut self, left: Atom, right: Atom) -> Result<Atom, AllocError>
        ensures { IsSound (circuit self.old) → HasBits (widths (circuit self.old)) 1 left → HasBits (widths (circuit self.old)) 1 right
            → IfOk result (λ a. Makes (circuit self.old) (circuit self.new) 1 a (λ v x. x ≡ bit_or (v left) (v right))) }
    {
        if is_number(left, 1) || is_number(right, 0) || left == right {
            return Ok(left);
        }
        if is_number(right, 1) || is_number(left, 0) {
            return Ok(right);
        }
        if self.are_opposite(left, right) {
            return Ok(bit(true));
        }
        self.wire(1, Net::Two(Pair::Or, left, right))
    }

    /// Whether both atoms, of one width, have one value.
    pub fn equal(&mut self, left: Atom, right: Atom) -> Result<Atom, AllocError>
        ensures { (n : ℕ) → IsSound (circuit self.old) → HasBits (widths (circuit self.old)) n left → HasBits (widths (circuit self.old)) n right
            → IfOk result (λ a. Makes (circuit self.old) (circuit self.new) 1 a (λ v x. x ≡ bit_of (v left == v right))) }
    {
        if left == right {
            return Ok(bit(true));
        }
        if self.width(left) == 1 && is_number(right, 1) {
            return Ok(left);
        }
        if self.width(left) == 1 && is_number(right, 0) {
            return self.not(left);
        }
        self.two(Pair::Equal, 1, left, right)
    }

    /// The first atom where the test is 1, else the second.
    pub fn pick(&mut self, test: Atom, one: Atom, other: Atom) -> Result<Atom, AllocError>
        ensures { (n : ℕ) → IsSound (circuit self.old) → IsBetween 1 128 n → HasBits (widths (circuit self.old)) 1 test
            → HasBits (widths (circuit self.old)) n one → HasBits (widths (circuit self.old)) n other
            → IfOk result (λ a. Makes (circuit self.old) (circuit self.new) n a (λ v x. x ≡ (if v test == 1 then v one else v other))) }
    {
        if is_number(test, 1) || one == other {
            return Ok(one);
        }
        if is_number(test, 0) {
            return Ok(other);
        }
        let bits = self.width(one);
        if bits == 1 {
            return self.pick_bit(test, one, other);
        }
        self.wire(bits, Net::Pick(test, one, other))
    }

    fn pick_bit(&mut self, test: Atom, one: Atom, other: Atom) -> Result<Atom, AllocError>
        ensures { IsSound (circuit self.old) → HasBits (widths (circuit self.old)) 1 test
            → HasBits (widths (circuit self.old)) 1 one → HasBits (widths (circuit self.old)) 1 other
            → IfOk result (λ a. Makes (circuit self.old) (circuit self.new) 1 a (λ v x. x ≡ (if v test == 1 then v one else v other))) }
    {
        if is_number(one, 1) {
            return self.or(test, other);
        }
        if is_number(other, 0) {
            return self.and(test, one);
        }
        if is_number(one, 0) {
            let against = self.not(test)?;
            return self.and(against, other);
        }
        if is_number(other, 1) {
            let against = self.not(test)?;
            return self.or(against, one);
        }
        self.wire(1, Net::Pick(test, one, other))
    }

    /// The bits from `high` down to `low`.
    pub fn part(&mut self, of: Atom, high: u8, low: u8) -> Result<Atom, AllocError>
        ensures { (n : ℕ) → IsSound (circuit self.old) → HasBits (widths (circuit self.old)) n of → high < n → low ≤ high → n ≤ 128
            → IfOk result (λ a. Makes (circuit self.old) (circuit self.new) (high + 1 - low) a (λ v x. x ≡ v of / 2 ^ low % 2 ^ (high + 1 - low))) }
    {
        let bits = high.saturating_sub(low).saturating_add(1);
        if let Some(value) = constant_of(of) {
            let rest = if low < 128 { value >> low as u32 } else { 0 };
            return Ok(constant(bits, rest));
        }
        if low == 0 && self.width(of) == bits {
            return Ok(of);
        }
        self.wire(bits, Net::Part { of, high, low })
    }

    /// Two atoms side by side.
    pub fn join(&mut self, high: Atom, low: Atom) -> Result<Atom, AllocError>
        ensures { (m k : ℕ) → IsSound (circuit self.old) → HasBits (widths (circuit self.old)) m high → HasBits (widths (circuit self.old)) k low → IsBetween 1 128 (m + k)
            → IfOk result (λ a. Makes (circuit self.old) (circuit self.new) (m + k) a (λ v x. x ≡ v high * 2 ^ k + v low)) }
    {
        let low_width = self.width(low);
        let bits = self.width(high).saturating_add(low_width);
        if let (Some(high), Some(low)) = (constant_of(high), constant_of(low))
            && low_width < 128
        {
            let above = high << low_width as u32;
            return Ok(constant(bits, above.wrapping_add(low)));
        }
        self.wire(bits, Net::Join(high, low))
    }

    /// The low bits of an atom, or the atom behind zeros.
    pub fn resized(&mut self, atom: Atom, bits: u8) -> Result<Atom, AllocError>
        ensures { (n : ℕ) → IsSound (circuit self.old) → HasBits (widths (circuit self.old)) n atom → IsBetween 1 128 n → IsBetween 1 128 bits
            → IfOk result (λ a. Makes (circuit self.old) (circuit self.new) bits a (λ v x. x ≡ v atom % 2 ^ bits)) }
    {
        let width = self.width(atom);
        if let Some(value) = constant_of(atom) {
            return Ok(constant(bits, value));
        }
        if width < bits {
            return self.join(constant(bits - width, 0), atom);
        }
        self.part(atom, bits.saturating_sub(1), 0)
    }
}

/// Whether an operator with 0 on its right gives its left side.
fn keeps_left(pair: Pair) -> bool
    ensures { result ≡ keeps_left pair }
{
    matches!(
        pair,
        Pair::Add | Pair::Sub | Pair::Or | Pair::Xor | Pair::Left | Pair::Right,
    )
}

/// Whether an operator with 0 on its left gives its right side.
fn keeps_right(pair: Pair) -> bool
    ensures { result ≡ keeps_right pair }
{
    matches!(pair, Pair::Add | Pair::Or | Pair::Xor)
}
