//! The words of all wires.
ghost use Rattle.std.specs.Prelude.{◌≡◌, [], take, OnOk};
ghost use Rattle.aig_graph.specs.Making.{gates_of};
ghost use Rattle.rtl_core.specs.Netlist.{netlist_of};
ghost use Rattle.rtl_core.specs.Valid.{IsValid};
ghost use Rattle.aig_blast.specs.Literals.{CanMake, IsBlasted};

use crate::literals::Literals;
use crate::net::wire_word;
use aig_graph::builder::Builder;
use aig_graph::word::Word;
use rtl_core::design::Design;
use std::alloc::{AllocError, Global};

/// Adds the word of each wire, in order.
pub fn add_wires(
    alloc: Global,
    graph: &mut Builder,
    literals: &mut Literals,
    design: &Design,
) -> Result<(), AllocError>
    requires valid { IsValid (netlist_of design.now) }
    requires given { IsBlasted (netlist_of design.now) [] (gates_of graph.old) literals.old }
    ensures { OnOk result (IsBlasted (netlist_of design.now) (netlist_of design.now).wires (gates_of graph.new) literals.new) }
{
    for k in 0..design.wires.len() {
        let word = wire_word(alloc, graph, literals, design.wires[k])?;
        literals.wires.push(Word::new(word))?;
    }
    Ok(())
}
