/// The operations of one unit in the order in which it serves them, each for `occupancy` cycles. The unit's number counts within its class.
#[derive(Drop)]
pub struct UnitOrder {
    pub unit: u32,
    pub occupancy: u32,
    pub ops: Vec<u32>,
}

/// The number of the unit of each operation, 0 where it shares none, and the order of each unit that has an operation: first by class (multipliers of 32 and of 64 bits, dividers of 32 and of 64 bits, ports by array), then by number.
#[derive(Drop)]
pub struct Binding {
    pub unit_of: Vec<u32>,
    pub orders: Vec<UnitOrder>,
}
