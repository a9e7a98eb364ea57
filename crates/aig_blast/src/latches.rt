//! What the registers take at an edge, and what the outputs show.
ghost use Rattle.std.specs.Prelude.{◌≡◌, ◌<◌, ◌==◌, if◌then◌else◌, List, Bool, length, take, map, IfOk};
ghost use Rattle.aig_graph.specs.Making.{gates_of, IsSound};
ghost use Rattle.aig_graph.specs.Words.{Computes, worded, word_at};
ghost use Rattle.rtl_core.specs.Netlist.{netlist_of};
ghost use Rattle.rtl_core.specs.ClockStep.{register_widths, clocked_registers, seen, outputs};
ghost use Rattle.rtl_core.specs.Valid.{IsValid};
ghost use Rattle.aig_blast.specs.Encoding.{encoded, output_bits};
ghost use Rattle.aig_blast.specs.Literals.{literals_of, shown, state_shown, pins_shown, AreOf, IsBlasted, Shows};

use crate::literals::{Literals, atom_word};
use crate::net::pick;
use aig_graph::builder::Builder;
use rtl_core::design::{Design, Reg};
use std::alloc::{AllocError, Global};

/// What the register of this number holds after the edge.
fn next_word(
    alloc: Global,
    graph: &mut Builder,
    literals: &Literals,
    number: usize,
    reg: Reg,
) -> Result<Vec<u32>, AllocError>
    requires inside { number < length literals.now.regs.items }
    requires enable { length (literals_of literals.now reg.enable) ≡ 1 }
    requires next { length (literals_of literals.now reg.next) ≡ length (word_at literals.now.regs.items number) }
    requires sound { IsSound (gates_of graph.old) }
    requires fits { AreOf (gates_of graph.old) literals.now }
    ensures { IfOk result (λ ls. Computes (gates_of graph.old) (gates_of graph.new) ls.items (length (literals_of literals.now reg.next))
        (λ w. if shown literals.now w reg.enable == 1 then shown literals.now w reg.next else worded w (word_at literals.now.regs.items number))) }
{
    let enable = atom_word(alloc, literals, reg.enable)?;
    let next = atom_word(alloc, literals, reg.next)?;
    let held = literals.regs[number].literals();
    let picked = pick(alloc, graph, enable.as_slice(), next.as_slice(), held)?;
    Ok(picked)
}

/// The next literals of the bits of the registers.
pub fn register_latches(
    alloc: Global,
    graph: &mut Builder,
    literals: &Literals,
    design: &Design,
) -> Result<Vec<u32>, AllocError>
    requires valid { IsValid (netlist_of design.now) }
    requires blasted { IsBlasted (netlist_of design.now) (netlist_of design.now).wires (gates_of graph.old) literals.now }
    ensures { let d = netlist_of design.now in let t = literals.now in IfOk result (λ ls. Shows (gates_of graph.old) (gates_of graph.new) ls.items
        (λ w. encoded (register_widths d) (clocked_registers (seen d (state_shown t w) (pins_shown t w)) d.regs (state_shown t w).regs))) }
{
    let mut latches = Vec::new(alloc);
    for k in 0..design.regs.len() {
        let next = next_word(alloc, graph, literals, k, design.regs[k])?;
        latches.extend_from_slice(next.as_slice())?;
    }
    Ok(latches)
}

/// The literals of the bits of the outputs.
pub fn output_literals(
    alloc: Global,
    graph: &Builder,
    literals: &Literals,
    design: &Design,
) -> Result<Vec<u32>, AllocError>
    requires valid { IsValid (netlist_of design.now) }
    requires blasted { IsBlasted (netlist_of design.now) (netlist_of design.now).wires (gates_of graph.now) literals.now }
    ensures { let d = netlist_of design.now in let t = literals.now in IfOk result (λ ls. Shows (gates_of graph.now) (gates_of graph.now) ls.items
        (λ w. output_bits d (outputs d (state_shown t w) (pins_shown t w)))) }
{
    let mut shown = Vec::new(alloc);
    for k in 0..design.outputs.len() {
        let word = atom_word(alloc, literals, design.outputs[k].from)?;
        shown.extend_from_slice(word.as_slice())?;
    }
    Ok(shown)
}
