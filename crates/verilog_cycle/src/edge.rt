//! What the words of memories are after an edge.
ghost use Rattle.std.specs.Prelude.{◌≡◌, ◌==◌, if◌then◌else◌, length, slice_set};
ghost use Rattle.std.specs.List.{All};
ghost use Rattle.rtl_core.specs.Netlist.{netlist_of};
ghost use Rattle.rtl_core.specs.ClockStep.{written_words, clocked_memories, AreMemories};
ghost use Rattle.rtl_core.specs.Valid.{IsValid};
ghost use Rattle.verilog_cycle.specs.Inside.{AreValues, PortIsInside, value_in};

use crate::contents::Contents;
use crate::values::Values;
use rtl_core::design::{Design, Port};

fn write_port(port: Port, values: &Values, contents: &mut Contents)
    requires { PortIsInside values.now (length contents.old) port }
    ensures { contents.new ≡ (if value_in values.now port.enable == 1 then slice_set contents.old (value_in values.now port.addr) (value_in values.now port.value) else contents.old) }
{
    if values.value(port.enable) == 1 {
        contents.write(values.word(port.addr) as usize, values.word(port.value));
    }
}

/// Writes through the ports of a memory in order, so that a later one wins.
fn write_ports(ports: &[Port], values: &Values, contents: &mut Contents)
    requires { All (PortIsInside values.now (length contents.old)) ports.now }
    ensures { contents.new ≡ written_words (value_in values.now) ports.now contents.old }
{
    for port in ports {
        write_port(*port, values, contents);
    }
}

/// Clocks the memories, all from the values before the edge.
pub fn clock_memories(design: &Design, values: &Values, mems: &mut [Contents])
    requires valid { IsValid (netlist_of design.now) }
    requires values { AreValues (netlist_of design.now) values.now }
    requires words { AreMemories (netlist_of design.now).mems mems.old }
    ensures { mems.new ≡ clocked_memories (value_in values.now) (netlist_of design.now).mems mems.old }
{
    for k in 0..design.mems.len() {
        write_ports(&design.mems[k].ports, values, &mut mems[k]);
    }
}
