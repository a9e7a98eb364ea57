//! The inputs of the module, in the order of its pins.
use rtl_core::design::Atom;

pub const RESET: Atom = Atom::Input(0);

pub const START: Atom = Atom::Input(1);

pub const HOST_ENABLE: Atom = Atom::Input(2);

pub const HOST_WRITE: Atom = Atom::Input(3);

pub const HOST_SELECT: Atom = Atom::Input(4);

pub const HOST_ADDRESS: Atom = Atom::Input(5);

pub const HOST_DATA: Atom = Atom::Input(6);

/// The number of the first argument among the inputs.
pub const FIRST_ARGUMENT: u64 = 7;
