//! The registers of a circuit, and what else is given values as it is made.
use hls_base::number::{ArrayId, NodeId, VarId};

/// A register of a multiplier or divider of so many bits: the factors and their product; the steps that are left, the dividend, the remainder, the divisor, and the signs of quotient and remainder.
#[derive(Clone, Copy, PartialEq, Eq, PartialOrd, Ord, Hash)]
pub enum UnitRegister {
    Left { bits: u8, unit: u32 },
    Right { bits: u8, unit: u32 },
    Product { bits: u8, unit: u32 },
    Steps { bits: u8, unit: u32 },
    Dividend { bits: u8, unit: u32 },
    Remainder { bits: u8, unit: u32 },
    Divisor { bits: u8, unit: u32 },
    QuotientSign { bits: u8, unit: u32 },
    RemainderSign { bits: u8, unit: u32 },
}

/// A register of the circuit.
#[derive(Clone, Copy, PartialEq, Eq, PartialOrd, Ord, Hash)]
pub enum Role {
    Ready,
    Done,
    Initial,
    Time,
    Active(NodeId),
    Load(NodeId),
    /// No test had failed before the last so many tests.
    Gate(u64),
    /// So many intervals have passed.
    Passed(u64),
    Waited,
    Variable(VarId),
    /// A register for results.
    Value(u64),
    Result,
    /// The word that was read last at a port.
    Word { array: ArrayId, port: u32 },
    /// The array that the host named in the cycle before.
    Named,
    OfUnit(UnitRegister),
}

#[derive(Clone, Copy, PartialEq, Eq, PartialOrd, Ord, Hash)]
pub enum UnitKind {
    Multiplier,
    Divider,
}

/// A multiplier or divider, with its number among those of its bits.
#[derive(Clone, Copy, PartialEq, Eq, PartialOrd, Ord, Hash)]
pub struct SharedUnit {
    pub kind: UnitKind,
    pub bits: u8,
    pub number: u32,
}

/// What takes values.
#[derive(Clone, Copy, PartialEq, Eq, PartialOrd, Ord, Hash)]
pub enum Target {
    Register(Role),
    /// The operands of a unit, and whether they have signs.
    Left(SharedUnit),
    Right(SharedUnit),
    Signed(SharedUnit),
    /// The address at a port, and the word that is stored there.
    Address { array: ArrayId, port: u32 },
    Stored { array: ArrayId, port: u32 },
    /// A load at the port is not to be.
    Refused { array: ArrayId, port: u32 },
    /// The node is entered in the next cycle.
    Entered(NodeId),
    /// The run ends with this cycle.
    Ended,
    /// The test of a loop becomes known.
    Tested,
}
