//! The circuit of a module's text.
#![tactic(auto)]

ghost use Rattle.std.specs.Prelude.{◌≡◌, ◌++◌, ◌≤◌, ◌<◌, ℕ, List, length, None, Some, IfOk, OnOk};
ghost use Rattle.hls_base.specs.declared.refusal.Refusal.{Refusal};
ghost use Rattle.hls_base.specs.Refusals.{IfRefused};
ghost use Rattle.rtl_core.specs.Netlist.{Netlist, netlist_of};
ghost use Rattle.rtl_core.specs.ModuleText.{IsModuleText};
ghost use Rattle.verilog_read.specs.NameTable.{scope_in};
ghost use Rattle.verilog_syntax.specs.ModuleViews.{module_view};
ghost use Rattle.verilog_read.specs.Scope.{scope_of, pins, declarations};
ghost use Rattle.verilog_read.specs.Earliest.{noted, first_fault};
ghost use Rattle.verilog_read.specs.Faults.{header_faults, declared_faults, no_scope, content_faults, module_faults, output_slots, driven};
ghost use Rattle.verilog_read.specs.Circuit.{circuit_of};
ghost use Rattle.verilog_syntax.specs.TextSyntax.{limit};
ghost use Rattle.verilog_read.specs.TextFaults.{IsFirstFault};
ghost use Rattle.verilog_read.specs.NamePlace.{IsNamePlace};

mod checks;
mod circuit;
mod declarations;
mod drives;
mod fault;
mod names;
mod number;
mod widths;

use crate::checks::{Assigned, check_assignments, check_wires};
use crate::circuit::circuit_of;
use crate::declarations::{check_header, declarations, names_of};
use crate::fault::FirstFault;
use crate::names::Names;
use crate::widths::addresses_of;
use hls_base::place::Place;
use hls_base::refusal::Fail;
use rtl_core::design::Design;
use std::alloc::{AllocError, Global};
use verilog_syntax::module::Module;
use verilog_syntax::read_syntax;

/// What the names of a module stand for. The faults of its header and its declarations are noted.
fn check_declarations<'a>(
    alloc: Global,
    module: &Module<'a>,
    first: &mut FirstFault,
) -> Result<Names<'a>, AllocError>
    ensures scope { IfOk result (λ names. (q : List ℕ) → scope_in names q ≡ scope_of (module_view module.now) q) }
    ensures faults { let m = module_view module.now in IfOk result (λ names. first.new.found ≡ noted first.old.found (header_faults m.header (pins m) ++ declared_faults no_scope (declarations m))) }
{
    let all = declarations(alloc, module)?;
    let count = module.inputs.len() + module.outputs.len();
    let (pins, _) = all.as_slice().split_at(count);
    check_header(&module.header, pins, first);
    let names = names_of(alloc, &all, first)?;
    Ok(names)
}

/// How a module's outputs and registers are assigned. The faults of its wires and assignments are noted.
fn check_contents(
    alloc: Global,
    names: &Names,
    module: &Module,
    first: &mut FirstFault,
) -> Result<Assigned, AllocError>
    ensures faults { IfOk result (λ a. first.new.found ≡ noted first.old.found (content_faults (scope_in names.now) (module_view module.now))) }
    ensures outputs { IfOk result (λ a. a.outputs.items ≡ output_slots (scope_in names.now) (module_view module.now)) }
    ensures regs { IfOk result (λ a. a.regs.items ≡ (driven (scope_in names.now) (module_view module.now)).regs) }
    ensures blocks { IfOk result (λ a. a.blocks.items ≡ (driven (scope_in names.now) (module_view module.now)).blocks) }
{
    let addresses = addresses_of(alloc, names, &module.drives)?;
    check_wires(names, &addresses, &module.wires, first);
    let assigned = check_assignments(alloc, names, module, first)?;
    Ok(assigned)
}

/// The circuit of a module that is in the grammar, or its first fault.
fn design_of(alloc: Global, module: &Module) -> Result<Design, Fail>
    ensures found { let m = module_view module.now in IfOk result (λ d. (first_fault (module_faults m) ≡ None) × (netlist_of d ≡ circuit_of m)) }
    ensures refused { IfRefused result (λ r. first_fault (module_faults (module_view module.now)) ≡ Some r) }
{
    let mut first = FirstFault::new();
    let names = check_declarations(alloc, module, &mut first)?;
    let assigned = check_contents(alloc, &names, module, &mut first)?;
    match first.found {
        Some(refusal) => Err(Fail::Refused(refusal)),
        None => Ok(circuit_of(alloc, &names, module, &assigned)?),
    }
}

/// The circuit of a module's text, or the text's first fault.
pub fn read(alloc: Global, bytes: &[u8]) -> Result<Design, Fail>
    ensures within { IfOk result (λ d. length bytes.now ≤ limit) }
    ensures text { IfOk result (λ d. IsModuleText bytes.now (netlist_of d)) }
    ensures only { IfOk result (λ d. (e : Netlist) → IsModuleText bytes.now e → e ≡ netlist_of d) }
    ensures refused { IfRefused result (λ r. IsFirstFault bytes.now r) }
    ensures once { IfRefused result (λ r. (q : Refusal) → IsFirstFault bytes.now q → q ≡ r) }
    ensures no_text { IfRefused result (λ r. length bytes.now ≤ limit → (d : Netlist) → IsModuleText bytes.now d → ⊥) }
{
    let module = read_syntax(alloc, bytes)?;
    design_of(alloc, &module)
}

/// Where the name of a module stands in its text. What is refused is the text of no circuit.
pub fn name_place(alloc: Global, bytes: &[u8]) -> Result<Place, Fail>
    ensures found { IfOk result (λ p. IsNamePlace bytes.now p) }
    ensures no_text { IfRefused result (λ r. length bytes.now ≤ limit → (d : Netlist) → IsModuleText bytes.now d → ⊥) }
{
    let module = read_syntax(alloc, bytes)?;
    Ok(module.name.place)
}
