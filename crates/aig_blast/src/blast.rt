//! `blast`: the and-inverter graph of a circuit.
ghost use Rattle.std.specs.Prelude.{◌≡◌, ◌≤◌, List, Bool, IfOk, OnOk, sum};
ghost use Rattle.hls_base.specs.Refusals.{IfRefused};
ghost use Rattle.aig_graph.specs.Graphs.{graph_of};
ghost use Rattle.aig_graph.specs.Making.{gates_of};
ghost use Rattle.rtl_core.specs.Netlist.{netlist_of};
ghost use Rattle.rtl_core.specs.ClockStep.{input_widths, stepped};
ghost use Rattle.rtl_core.specs.Valid.{IsValid};
ghost use Rattle.aig_blast.specs.Weight.{bit_count, IsBlastFault, IsSmall};
ghost use Rattle.aig_blast.specs.Encoding.{state_bits, IsGraphOf};
ghost use Rattle.aig_blast.specs.Literals.{state_shown, pins_shown, IsBlasted, Shows};

use crate::given::fresh_literals;
use crate::latches::{output_literals, register_latches};
use crate::literals::Literals;
use crate::memories::memory_latches;
use crate::weight::{bit_count, check_size, input_bits};
use crate::wires::add_wires;
use aig_graph::aig::Aig;
use aig_graph::builder::Builder;
use hls_base::refusal::Fail;
use rtl_core::design::Design;
use std::alloc::{AllocError, Global};

/// The next literals of the bits of registers and then of memory words.
fn next_literals(
    alloc: Global,
    graph: &mut Builder,
    literals: &Literals,
    design: &Design,
) -> Result<Vec<u32>, AllocError>
    requires valid { IsValid (netlist_of design.now) }
    requires blasted { IsBlasted (netlist_of design.now) (netlist_of design.now).wires (gates_of graph.old) literals.now }
    ensures { let d = netlist_of design.now in let t = literals.now in IfOk result (λ ls. Shows (gates_of graph.old) (gates_of graph.new) ls.items
        (λ w. state_bits d (stepped d (state_shown t w) (pins_shown t w)))) }
{
    let mut latches = register_latches(alloc, graph, literals, design)?;
    let words = memory_latches(alloc, graph, literals, design)?;
    latches.extend_from_slice(words.as_slice())?;
    Ok(latches)
}

/// The graph whose wires have been made.
fn finished(
    alloc: Global,
    graph: &mut Builder,
    literals: &Literals,
    design: &Design,
) -> Result<Aig, AllocError>
    requires valid { IsValid (netlist_of design.now) }
    requires few { bit_count (netlist_of design.now) ≤ 65536 }
    requires blasted { IsBlasted (netlist_of design.now) (netlist_of design.now).wires (gates_of graph.old) literals.now }
    ensures { IfOk result (λ g. IsGraphOf (netlist_of design.now) (graph_of g)) }
{
    let inputs = input_bits(design.inputs.as_slice()) as u32;
    let latches = next_literals(alloc, graph, literals, design)?;
    let outputs = output_literals(alloc, graph, literals, design)?;
    let ands = graph.ands(alloc)?;
    Ok(Aig {
        inputs,
        latches,
        outputs,
        ands,
    })
}

/// The and-inverter graph of a circuit. Rejected at 1:1 are circuits with more than 65,536 bits in inputs, registers and memories (rule 70), and else those whose weight is above 4,194,304 (rule 72).
pub fn blast(alloc: Global, design: &Design) -> Result<Aig, Fail>
    requires { IsValid (netlist_of design.now) }
    ensures graph { IfOk result (λ g. IsGraphOf (netlist_of design.now) (graph_of g)) }
    ensures small { OnOk result (IsSmall (netlist_of design.now)) }
    ensures refused { IfRefused result (IsBlastFault (netlist_of design.now)) }
{
    if let Err(refusal) = check_size(design) {
        return Err(Fail::Refused(refusal));
    }
    let mut literals = fresh_literals(alloc, design)?;
    let mut graph = Builder::new(alloc, bit_count(design) as u32);
    add_wires(alloc, &mut graph, &mut literals, design)?;
    let aig = finished(alloc, &mut graph, &literals, design)?;
    Ok(aig)
}
