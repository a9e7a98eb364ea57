//! The small circuits between stages: queues, controls, and pins that are held low. Called by `linking`.
ghost use Rattle.std.specs.Prelude.{◌≡◌, ◌<◌, ◌-◌, [], ◌∷◌};
ghost use Rattle.chain_link.specs.Units as spec;

use rtl_core::design::{Atom, Net, Pair, Port, Reg, Wire};

fn wire(bits: u8, net: Net) -> Wire
    ensures { result ≡ spec.wire_of bits net }
{
    Wire { bits, net }
}

fn two(bits: u8, op: Pair, left: Atom, right: Atom) -> Wire
    ensures { result ≡ spec.wire_of bits (Net.Two op left right) }
{
    wire(bits, Net::Two(op, left, right))
}

fn pick(bits: u8, test: Atom, one: Atom, zero: Atom) -> Wire
    ensures { result ≡ spec.wire_of bits (Net.Pick test one zero) }
{
    wire(bits, Net::Pick(test, one, zero))
}

fn zero(bits: u8) -> Atom
    ensures { result ≡ spec.zero_of bits }
{
    Atom::Constant { bits, value: 0 }
}

fn one(bits: u8) -> Atom
    ensures { result ≡ spec.one_of bits }
{
    Atom::Constant { bits, value: 1 }
}

fn register(bits: u8, enable: Atom, next: Atom) -> Reg
    ensures { result ≡ spec.register_of bits enable next }
{
    Reg { bits, enable, next }
}

fn low(bits: u8) -> Wire
    ensures { result ≡ spec.wire_of bits (Net.Copy (spec.zero_of bits)) }
{
    wire(bits, Net::Copy(zero(bits)))
}

/// Pins that are held low, of 1, 5, 16 and 64 bits.
pub fn low_wires() -> [Wire; 4]
    ensures { result ≡ spec.low_wires }
{
    [low(1), low(5), low(16), low(64)]
}

/// Whether both inputs are 1.
pub fn both_wires() -> [Wire; 1]
    ensures { result ≡ spec.both_wires }
{
    [two(1, Pair::And, Atom::Input(0), Atom::Input(1))]
}

/// The state of a queue: whether there is an item, whether there is room, and the first item.
pub fn front_wires(depth: u16, log: u8, bits: u8) -> [Wire; 3]
    requires { log < 64 }
    ensures { result ≡ spec.front_wires depth log bits }
{
    let limit = Atom::Constant {
        bits: log + 1,
        value: u128::from(depth),
    };
    let word = Net::Word {
        mem: 0,
        addr: Atom::Reg(0),
    };
    [
        two(1, Pair::Below, zero(log + 1), Atom::Reg(1)),
        two(1, Pair::Below, Atom::Reg(1), limit),
        wire(bits, word),
    ]
}

fn low_bits(of: Atom, log: u8) -> Wire
    requires { 0 < log }
    ensures { result ≡ spec.wire_of log (Net.Part of (log - 1) 0) }
{
    wire(
        log,
        Net::Part {
            of,
            high: log - 1,
            low: 0,
        },
    )
}

/// The next state of a queue.
pub fn back_wires(log: u8) -> [Wire; 11]
    requires some { 0 < log }
    requires few { log < 64 }
    ensures { result ≡ spec.back_wires log }
{
    let (head, count) = (Atom::Reg(0), Atom::Reg(1));
    let (reset, take, give) = (Atom::Input(0), Atom::Input(1), Atom::Input(2));
    [
        low_bits(count, log),
        two(log, Pair::Add, head, Atom::Wire(0)),
        two(log, Pair::Add, head, one(log)),
        two(1, Pair::Or, reset, take),
        pick(log, reset, zero(log), Atom::Wire(2)),
        two(log + 1, Pair::Add, count, one(log + 1)),
        two(log + 1, Pair::Sub, count, one(log + 1)),
        two(1, Pair::Xor, take, give),
        two(1, Pair::Or, reset, Atom::Wire(7)),
        pick(log + 1, give, Atom::Wire(5), Atom::Wire(6)),
        pick(log + 1, reset, zero(log + 1), Atom::Wire(9)),
    ]
}

/// The registers of a queue: the number of the first item's word, and the count of items.
pub fn back_registers(log: u8) -> [Reg; 2]
    requires { log < 64 }
    ensures { result ≡ spec.back_registers log }
{
    [
        register(log, Atom::Wire(3), Atom::Wire(4)),
        register(log + 1, Atom::Wire(8), Atom::Wire(10)),
    ]
}

fn writing_port() -> Port
    ensures { result ≡ spec.writing_port }
{
    Port {
        addr: Atom::Wire(1),
        enable: Atom::Input(2),
        value: Atom::Input(3),
    }
}

fn reading_port(bits: u8) -> Port
    ensures { result ≡ spec.reading_port bits }
{
    Port {
        addr: Atom::Reg(0),
        enable: zero(1),
        value: zero(bits),
    }
}

/// The ports of a queue: one writes the word after the last item, and one reads the first item.
pub fn back_ports(bits: u8) -> [Port; 2]
    ensures { result ≡ spec.writing_port ∷ spec.reading_port bits ∷ [] }
{
    [writing_port(), reading_port(bits)]
}

/// The control of a stage: whether its result is appended, whether it is started, and whether a result is fresh in the next cycle.
pub fn control_wires() -> [Wire; 9]
    ensures { result ≡ spec.control_wires }
{
    let (reset, ready, done) = (Atom::Input(0), Atom::Input(1), Atom::Input(2));
    let (room, some, fresh) = (Atom::Input(3), Atom::Input(4), Atom::Reg(0));
    [
        two(1, Pair::And, done, fresh),
        two(1, Pair::And, Atom::Wire(0), room),
        wire(1, Net::Not(fresh)),
        two(1, Pair::Or, Atom::Wire(2), Atom::Wire(1)),
        two(1, Pair::And, ready, Atom::Wire(3)),
        two(1, Pair::And, Atom::Wire(4), some),
        pick(1, Atom::Wire(1), zero(1), fresh),
        pick(1, Atom::Wire(5), one(1), Atom::Wire(6)),
        pick(1, reset, zero(1), Atom::Wire(7)),
    ]
}

/// The register of a control: whether the result is fresh.
pub fn control_registers() -> [Reg; 1]
    ensures { result ≡ spec.control_registers }
{
    [register(1, one(1), Atom::Wire(8))]
}
