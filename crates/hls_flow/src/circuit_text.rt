ghost use Rattle.std.specs.Prelude.{IfOk};
ghost use Rattle.rtl_core.specs.Netlist.{netlist_of};
ghost use Rattle.rtl_core.specs.Valid.{IsValid};
ghost use Rattle.rtl_core.specs.ModuleText.{IsModuleText};
ghost use Rattle.verilog_print.specs.PrintableNames.{HasPrintableNames};

use hls_base::text::Text;
use rtl_core::design::Design;
use std::alloc::{AllocError, Global};
use verilog_print::printer::print;

/// The text of a circuit.
pub fn circuit_text(alloc: Global, design: &Design) -> Result<Text, AllocError>
    requires valid { IsValid (netlist_of design.now) }
    requires names { HasPrintableNames (netlist_of design.now) }
    ensures { IfOk result (λ t. IsModuleText t (netlist_of design.now)) }
{
    print(alloc, design)
}
