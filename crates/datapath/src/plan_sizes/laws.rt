//! Laws of pins.
ghost use Rattle.rtl_core.specs.Interface.{address_of, data_of, enable_of, reset_of, select_of, start_of, write_of};
ghost use Rattle.datapath.specs.Pins.{ArgumentsFrom, IsPin};

use crate::plan_sizes::pins::{
    FIRST_ARGUMENT, HOST_ADDRESS, HOST_DATA, HOST_ENABLE, HOST_SELECT, HOST_WRITE, RESET, START,
};

/// The inputs of the module are its pins.
pub fn pins_in_order()
    ensures reset { IsPin RESET 1 reset_of }
    ensures start { IsPin START 1 start_of }
    ensures enable { IsPin HOST_ENABLE 1 enable_of }
    ensures write { IsPin HOST_WRITE 1 write_of }
    ensures select { IsPin HOST_SELECT 5 select_of }
    ensures address { IsPin HOST_ADDRESS 16 address_of }
    ensures data { IsPin HOST_DATA 64 data_of }
    ensures arguments { ArgumentsFrom FIRST_ARGUMENT }
{}
