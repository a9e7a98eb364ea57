ghost use Rattle.std.specs.Prelude.{◌≡◌, List, IfOk, OnOk, map};
ghost use Rattle.rtl_core.specs.Interface.{input_pins, output_pins, outer};
ghost use Rattle.rtl_core.specs.Netlist.{netlist_of};
ghost use Rattle.rtl_core.specs.Valid.{IsValid};
ghost use Rattle.reg_binding.specs.Liveness.{IsLiveness, flow_of};
ghost use Rattle.rtl_core.specs.FramePins.{interface_of, module_name};
ghost use Rattle.rtl_logic.specs.Making.{circuit};
ghost use Rattle.datapath.specs.Plans.{Plan};
ghost use Rattle.datapath.specs.Cycles.{Register};
ghost use Rattle.datapath.specs.CircuitWires.Carrying.{IsBegun};
ghost use Rattle.circuit_context.specs.Programs.{IsBuildable};
ghost use Rattle.circuit_context.specs.Contexts.{IsContext};
ghost use Rattle.fsm_datapath.specs.Making.{begun_with, HasOutputs, IsWhole, IsBuilt};

use crate::outputs::outputs_showing;
use crate::parts::{add_moves, add_parts, context_of};
use circuit_context::context::Context;
use circuit_context::host::element;
use circuit_context::wanted::role::Role;
use hls_base::refusal::impossible;
use ir_core::cfg::Cfg;
use ir_core::timed::Timed;
use reg_binding::live::Live;
use reg_binding::registers::Registers;
use rtl_core::design::Design;
use rtl_core::pins::{Shown, inputs_of, name_of_module};
use rtl_logic::logic::Logic;
use rtl_logic::prune::prune;
use rtl_logic::select::constant;
use std::alloc::{AllocError, Global};

/// All outputs.
fn add_outputs(of: &Context<'_>, logic: &mut Logic) -> Result<(), AllocError>
    ensures { (p : Plan) (names : List Register) → IsContext p names of.now → IsBegun p names (circuit logic.old)
        → OnOk result (HasOutputs p names of.now.cfg.now.frame (circuit logic.old) (circuit logic.new)) }
{
    let result = match of.cfg.frame.ret {
        0 => constant(1, 0),
        _ => of.bank.register(Role::Result)?,
    };
    let shown = Shown {
        ready: of.bank.register(Role::Ready)?,
        done: of.bank.register(Role::Done)?,
        element: element(of, logic)?,
        result,
    };
    logic.builder.design.outputs = outputs_showing(of.alloc, of.cfg.frame.ret, shown)?;
    Ok(())
}

/// A circuit with nothing but the inputs of the function's module.
fn begun(alloc: Global, cfg: &Cfg<Timed>) -> Result<Logic, AllocError>
    ensures { IfOk result (λ l. circuit l ≡ begun_with (module_name cfg.now.frame.name) (interface_of cfg.now.frame)) }
{
    let mut logic = Logic::new(alloc, name_of_module(alloc, cfg.frame.name.items())?);
    logic.builder.design.inputs = inputs_of(alloc, &cfg.frame)?;
    Ok(logic)
}

/// The whole circuit.
fn wired(
    alloc: Global,
    cfg: &Cfg<Timed>,
    registers: &Registers,
    live: Live,
) -> Result<Design, AllocError>
    requires live { IsLiveness (flow_of cfg.now) live }
    requires buildable { IsBuildable cfg.now }
    ensures { IfOk result (λ d. IsWhole cfg.now live registers.now (netlist_of d)) }
{
    let mut logic = begun(alloc, cfg)?;
    let of = context_of(alloc, &mut logic, cfg, registers, live)?;
    let parts = add_parts(&of, &mut logic)?;
    add_moves(&of, &mut logic, &parts)?;
    add_outputs(&of, &mut logic)?;
    Ok(logic.builder.finish())
}

/// The circuit without what nothing depends on.
fn pruned(
    alloc: Global,
    cfg: &Cfg<Timed>,
    registers: &Registers,
    live: Live,
) -> Result<Design, AllocError>
    requires live { IsLiveness (flow_of cfg.now) live }
    requires buildable { IsBuildable cfg.now }
    ensures built { IfOk result (λ d. IsBuilt cfg.now live registers.now (netlist_of d)) }
    ensures inputs { IfOk result (λ d. d.inputs.items ≡ input_pins (interface_of cfg.now.frame)) }
    ensures outputs { IfOk result (λ d. map outer d.outputs.items ≡ output_pins (interface_of cfg.now.frame)) }
{
    let mut design = wired(alloc, cfg, registers, live)?;
    if !design.valid() {
        return Err(impossible());
    }
    prune(alloc, &mut design)?;
    Ok(design)
}

/// The circuit of a timed program behind the host's pins. `live` has the live variables of the program.
pub fn build(
    alloc: Global,
    cfg: &Cfg<Timed>,
    registers: &Registers,
    live: Live,
) -> Result<Design, AllocError>
    requires live { IsLiveness (flow_of cfg.now) live }
    requires buildable { IsBuildable cfg.now }
    ensures name { IfOk result (λ d. d.name ≡ module_name cfg.now.frame.name) }
    ensures inputs { IfOk result (λ d. d.inputs.items ≡ input_pins (interface_of cfg.now.frame)) }
    ensures outputs { IfOk result (λ d. map outer d.outputs.items ≡ output_pins (interface_of cfg.now.frame)) }
    ensures valid { IfOk result (λ d. IsValid (netlist_of d)) }
    ensures built { IfOk result (λ d. IsBuilt cfg.now live registers.now (netlist_of d)) }
{
    let design = pruned(alloc, cfg, registers, live)?;
    let design = Design {
        name: name_of_module(alloc, cfg.frame.name.items())?,
        inputs: design.inputs,
        outputs: design.outputs,
        regs: design.regs,
        mems: design.mems,
        wires: design.wires,
    };
    if !design.valid() {
        return Err(impossible());
    }
    Ok(design)
}
