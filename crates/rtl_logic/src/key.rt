//! Expressions of wires in an order.
ghost use Rattle.std.specs.Prelude.{◌≡◌};
ghost use Rattle.rtl_logic.specs.Keys.{keyed_atom, keyed_net, keyed_pair};

use rtl_core::design::{Atom, Net, Pair};

#[derive(Clone, Copy, PartialEq, Eq, PartialOrd, Ord)]
pub enum AtomKey {
    Constant { bits: u8, value: u128 },
    Input(u64),
    Reg(u64),
    Wire(u64),
}

#[derive(Clone, Copy, PartialEq, Eq, PartialOrd, Ord)]
pub enum Operator {
    Add,
    Sub,
    Mul,
    And,
    Or,
    Xor,
    Equal,
    Below,
    Left,
    Right,
}

/// The expression of a wire, of so many bits where it does not tell them itself.
#[derive(Clone, Copy, PartialEq, Eq, PartialOrd, Ord)]
pub enum NetKey {
    Copy(AtomKey),
    Not(AtomKey),
    Two(Operator, AtomKey, AtomKey),
    Pick(AtomKey, AtomKey, AtomKey),
    Join(AtomKey, AtomKey),
    Part(AtomKey, u8, u8),
    Word(u32, AtomKey),
}

pub fn atom_key(atom: Atom) -> AtomKey
    ensures { keyed_atom result ≡ atom }
{
    match atom {
        Atom::Constant { bits, value } => AtomKey::Constant { bits, value },
        Atom::Input(k) => AtomKey::Input(k),
        Atom::Reg(k) => AtomKey::Reg(k),
        Atom::Wire(k) => AtomKey::Wire(k),
    }
}

fn make_operator(pair: Pair) -> Operator
    ensures { keyed_pair result ≡ pair }
{
    match pair {
        Pair::Add => Operator::Add,
        Pair::Sub => Operator::Sub,
        Pair::Mul => Operator::Mul,
        Pair::And => Operator::And,
        Pair::Or => Operator::Or,
        Pair::Xor => Operator::Xor,
        Pair::Equal => Operator::Equal,
        Pair::Below => Operator::Below,
        Pair::Left => Operator::Left,
        Pair::Right => Operator::Right,
    }
}

pub fn net_key(net: Net) -> NetKey
    ensures { keyed_net result ≡ net }
{
    match net {
        Net::Copy(a) => NetKey::Copy(atom_key(a)),
        Net::Not(a) => NetKey::Not(atom_key(a)),
        Net::Two(pair, a, b) => NetKey::Two(make_operator(pair), atom_key(a), atom_key(b)),
        Net::Pick(test, a, b) => NetKey::Pick(atom_key(test), atom_key(a), atom_key(b)),
        Net::Join(high, low) => NetKey::Join(atom_key(high), atom_key(low)),
        Net::Part { of, high, low } => NetKey::Part(atom_key(of), high, low),
        Net::Word { mem, addr } => NetKey::Word(mem, atom_key(addr)),
    }
}
