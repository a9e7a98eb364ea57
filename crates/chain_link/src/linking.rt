//! The registers, memories and wires of the linked circuit. Called by `link`.
ghost use Rattle.std.specs.Prelude.{◌≡◌, ◌+◌, ◌^◌, ◌<◌, ◌≤◌, ◌++◌, [], ◌∷◌, OnOk, IfOk, length, map};
ghost use Rattle.std.specs.List.{All};
ghost use Rattle.rtl_core.specs.Netlist.{netlist_of, memory_of};
ghost use Rattle.rtl_core.specs.Valid.{IsValid};
ghost use Rattle.chain_box.specs.StageEmbedding.Placing.{part_wires, wires_of, registers_of, memories_of};
ghost use Rattle.chain_link.specs.Linking as spec;
ghost use Rattle.chain_link.specs.Places.{place_of};
ghost use Rattle.chain_link.specs.Bounds.{HasRoom, IsEarly, IsSmall, IsWithin, SpotHasRoom};

use crate::numbers::{
    Joint, Queue, asked_spot, back_spot, behind, control_spot, front_spot, last_spot, result_bits,
    started_spot, take_spot,
};
use crate::placing::{Spot, push_exits, push_registers, push_wires, renamed_ports};
use crate::units::{
    back_ports, back_registers, back_wires, both_wires, control_registers, control_wires,
    front_wires, low_wires,
};
use rtl_core::design::{Atom, Design, Mem, OutPin, Reg, Wire};
use std::alloc::{AllocError, Global};

/// A circuit under construction, without pins.
#[derive(Drop)]
pub struct Content {
    pub regs: Vec<Reg>,
    pub mems: Vec<Mem>,
    pub wires: Vec<Wire>,
}

fn spot_at(alloc: Global, inputs: Vec<Atom>, wires: u64) -> Spot
    requires first { wires ≤ 7 }
    ensures place { place_of result ≡ record { inputs = inputs.items; regs = 0; mems = 0; wires = wires } }
    ensures room { SpotHasRoom result }
{
    Spot {
        inputs,
        regs: 0,
        mems: 0,
        wires,
    }
}

/// The wires before the first stage.
fn entry_wires(alloc: Global, joint: Joint) -> Result<Vec<Wire>, AllocError>
    requires few { joint.log < 64 }
    ensures { IfOk result (λ v. v.items ≡ wires_of (spec.entry_parts joint.depth joint.log joint.queue.bits)) }
{
    let mut wires = Vec::new(alloc);
    push_wires(
        &mut wires,
        &low_wires(),
        &spot_at(alloc, Vec::new(alloc), 0),
    )?;
    let front = front_wires(joint.depth, joint.log, joint.queue.bits);
    push_wires(&mut wires, &front, &spot_at(alloc, Vec::new(alloc), 4))?;
    let inputs = vec![in alloc; Atom::Input(1), Atom::Wire(5)]?;
    push_wires(&mut wires, &both_wires(), &spot_at(alloc, inputs, 7))?;
    Ok(wires)
}

/// An item of these lists takes more than 64 bytes of memory.
fn are_few_wires(wires: &[Wire])
    ensures { length wires.now < 2 ^ 57 }
{}

fn are_few_registers(regs: &[Reg])
    ensures { length regs.now < 2 ^ 57 }
{}

fn are_few_outputs(outputs: &[OutPin])
    ensures { length outputs.now < 2 ^ 57 }
{}

/// A valid circuit in memory has no number that comes near 2^64.
fn has_small_numbers(stage: &Design)
    requires valid { IsValid (netlist_of stage.now) }
    requires none { stage.now.mems.items ≡ [] }
    ensures { IsSmall (netlist_of stage.now) }
{
    are_few_wires(&stage.wires);
    are_few_registers(&stage.regs);
    are_few_outputs(&stage.outputs);
}

/// The wires of the stage with start low, and one for each output.
fn push_asked(
    alloc: Global,
    all: &mut Vec<Wire>,
    joint: Joint,
    stage: &Design,
) -> Result<(), AllocError>
    requires room { HasRoom joint.sizes }
    requires early { IsEarly joint.queue }
    requires small { IsSmall (netlist_of stage.now) }
    ensures { OnOk result (all.new.items ≡ all.old.items ++ part_wires (spec.asked_part joint.sizes joint.queue (netlist_of stage.now))) }
{
    let spot = asked_spot(alloc, joint, stage)?;
    push_wires(all, &stage.wires, &spot)?;
    push_exits(all, &stage.outputs, &spot)
}

/// The wires of the queue after the stage, of its control, and of the queue before it.
fn push_between(
    alloc: Global,
    all: &mut Vec<Wire>,
    joint: Joint,
    stage: &Design,
) -> Result<(), AllocError>
    requires room { HasRoom joint.sizes }
    requires early { IsEarly joint.queue }
    requires small { IsSmall (netlist_of stage.now) }
    requires some { 0 < joint.log }
    requires few { joint.log < 64 }
    ensures { let d = netlist_of stage.now in
        OnOk result (all.new.items ≡ all.old.items ++ wires_of (spec.front_part joint.depth joint.log joint.sizes d ∷ spec.control_part joint.sizes joint.queue d ∷ spec.back_part joint.log joint.sizes joint.queue d ∷ [])) }
{
    let front = front_wires(joint.depth, joint.log, result_bits(stage));
    push_wires(all, &front, &front_spot(alloc, joint, stage))?;
    push_wires(all, &control_wires(), &control_spot(alloc, joint, stage)?)?;
    push_wires(
        all,
        &back_wires(joint.log),
        &back_spot(alloc, joint, stage)?,
    )?;
    Ok(())
}

fn push_stage_wires(
    alloc: Global,
    all: &mut Vec<Wire>,
    joint: Joint,
    stage: &Design,
) -> Result<(), AllocError>
    requires room { HasRoom joint.sizes }
    requires early { IsEarly joint.queue }
    requires small { IsSmall (netlist_of stage.now) }
    requires some { 0 < joint.log }
    requires few { joint.log < 64 }
    ensures { OnOk result (all.new.items ≡ all.old.items ++ wires_of (spec.stage_parts joint.depth joint.log joint.sizes joint.queue (netlist_of stage.now))) }
{
    push_asked(alloc, all, joint, stage)?;
    push_between(alloc, all, joint, stage)?;
    push_wires(all, &stage.wires, &started_spot(alloc, joint, stage)?)?;
    Ok(())
}

fn push_stage_registers(
    alloc: Global,
    all: &mut Vec<Reg>,
    joint: Joint,
    stage: &Design,
) -> Result<(), AllocError>
    requires room { HasRoom joint.sizes }
    requires early { IsEarly joint.queue }
    requires small { IsSmall (netlist_of stage.now) }
    requires few { joint.log < 64 }
    ensures { OnOk result (all.new.items ≡ all.old.items ++ registers_of (spec.owned_stage joint.log joint.sizes joint.queue (netlist_of stage.now))) }
{
    push_registers(
        all,
        &back_registers(joint.log),
        &back_spot(alloc, joint, stage)?,
    )?;
    push_registers(
        all,
        &control_registers(),
        &control_spot(alloc, joint, stage)?,
    )?;
    push_registers(all, &stage.regs, &started_spot(alloc, joint, stage)?)
}

/// The memory of the queue before the stage.
fn push_stage_memory(
    alloc: Global,
    all: &mut Vec<Mem>,
    joint: Joint,
    stage: &Design,
) -> Result<(), AllocError>
    requires room { HasRoom joint.sizes }
    requires early { IsEarly joint.queue }
    requires small { IsSmall (netlist_of stage.now) }
    requires none { stage.now.mems.items ≡ [] }
    ensures { OnOk result (map memory_of all.new.items ≡ map memory_of all.old.items ++ memories_of (spec.owned_stage joint.log joint.sizes joint.queue (netlist_of stage.now))) }
{
    let bits = joint.queue.bits;
    let ports = renamed_ports(alloc, &back_ports(bits), &back_spot(alloc, joint, stage)?)?;
    all.push(Mem {
        bits,
        depth_log: joint.log,
        ports,
    })?;
    Ok(())
}

fn push_stage(
    alloc: Global,
    content: &mut Content,
    joint: Joint,
    stage: &Design,
) -> Result<(), AllocError>
    requires room { HasRoom joint.sizes }
    requires early { IsEarly joint.queue }
    requires small { IsSmall (netlist_of stage.now) }
    requires none { stage.now.mems.items ≡ [] }
    requires some { 0 < joint.log }
    requires few { joint.log < 64 }
    ensures wires { OnOk result (content.new.wires.items ≡ content.old.wires.items ++ wires_of (spec.stage_parts joint.depth joint.log joint.sizes joint.queue (netlist_of stage.now))) }
    ensures regs { OnOk result (content.new.regs.items ≡ content.old.regs.items ++ registers_of (spec.owned_stage joint.log joint.sizes joint.queue (netlist_of stage.now))) }
    ensures mems { OnOk result (map memory_of content.new.mems.items ≡ map memory_of content.old.mems.items ++ memories_of (spec.owned_stage joint.log joint.sizes joint.queue (netlist_of stage.now))) }
{
    push_stage_wires(alloc, &mut content.wires, joint, stage)?;
    push_stage_registers(alloc, &mut content.regs, joint, stage)?;
    push_stage_memory(alloc, &mut content.mems, joint, stage)
}

/// The last queue.
fn push_last(alloc: Global, content: &mut Content, joint: Joint) -> Result<(), AllocError>
    requires room { HasRoom joint.sizes }
    requires early { IsEarly joint.queue }
    requires some { 0 < joint.log }
    requires few { joint.log < 64 }
    ensures wires { OnOk result (content.new.wires.items ≡ content.old.wires.items ++ wires_of (spec.last_parts joint.log joint.sizes joint.queue)) }
    ensures regs { OnOk result (content.new.regs.items ≡ content.old.regs.items ++ registers_of (spec.last_part joint.log joint.sizes joint.queue ∷ [])) }
    ensures mems { OnOk result (map memory_of content.new.mems.items ≡ map memory_of content.old.mems.items ++ memories_of (spec.last_part joint.log joint.sizes joint.queue ∷ [])) }
{
    push_wires(&mut content.wires, &both_wires(), &take_spot(alloc, joint)?)?;
    let spot = last_spot(alloc, joint)?;
    push_wires(&mut content.wires, &back_wires(joint.log), &spot)?;
    push_registers(&mut content.regs, &back_registers(joint.log), &spot)?;
    let bits = joint.queue.bits;
    let ports = renamed_ports(alloc, &back_ports(bits), &spot)?;
    content.mems.push(Mem {
        bits,
        depth_log: joint.log,
        ports,
    })?;
    Ok(())
}

/// Appends all stages. The answer is where another one would follow.
fn push_stages(
    alloc: Global,
    content: &mut Content,
    stages: &[Design],
    first: Joint,
) -> Result<Joint, AllocError>
    requires few { length stages.now ≤ 16 }
    requires valid { All (λ (d : Design). IsValid (netlist_of d)) stages.now }
    requires begins { IsWithin 0 first.sizes first.queue }
    requires none { All (λ (d : Design). d.mems.items ≡ []) stages.now }
    requires some { 0 < first.log }
    requires log { first.log < 64 }
    ensures room { IfOk result (λ j. HasRoom j.sizes) }
    ensures early { IfOk result (λ j. IsEarly j.queue) }
    ensures depth { IfOk result (λ j. j.depth ≡ first.depth) }
    ensures log { IfOk result (λ j. j.log ≡ first.log) }
    ensures queue { IfOk result (λ j. j.queue ≡ spec.last_queue first.sizes first.queue (map netlist_of stages.now)) }
    ensures wires { IfOk result (λ j. content.new.wires.items ++ wires_of (spec.chain_parts first.depth first.log j.sizes j.queue [])
        ≡ content.old.wires.items ++ wires_of (spec.chain_parts first.depth first.log first.sizes first.queue (map netlist_of stages.now))) }
    ensures regs { IfOk result (λ j. content.new.regs.items ++ registers_of (spec.owned_parts first.log j.sizes j.queue [])
        ≡ content.old.regs.items ++ registers_of (spec.owned_parts first.log first.sizes first.queue (map netlist_of stages.now))) }
    ensures mems { IfOk result (λ j. map memory_of content.new.mems.items ++ memories_of (spec.owned_parts first.log j.sizes j.queue [])
        ≡ map memory_of content.old.mems.items ++ memories_of (spec.owned_parts first.log first.sizes first.queue (map netlist_of stages.now))) }
{
    let mut joint = first;
    for stage in stages {
        has_small_numbers(stage);
        push_stage(alloc, content, joint, stage)?;
        joint = behind(joint, stage);
    }
    Ok(joint)
}

/// The registers, memories and wires of the linked circuit, and its last queue.
pub fn contents(
    alloc: Global,
    stages: &[Design],
    first: Joint,
) -> Result<(Content, Queue), AllocError>
    requires stages { length stages.now ≤ 16 }
    requires valid { All (λ (d : Design). IsValid (netlist_of d)) stages.now }
    requires begins { IsWithin 0 first.sizes first.queue }
    requires none { All (λ (d : Design). d.mems.items ≡ []) stages.now }
    requires some { 0 < first.log }
    requires few { first.log < 64 }
    ensures early { IfOk result (λ r. IsEarly r.1) }
    ensures queue { IfOk result (λ r. r.1 ≡ spec.last_queue first.sizes first.queue (map netlist_of stages.now)) }
    ensures wires { IfOk result (λ r. r.0.wires.items
        ≡ wires_of (spec.entry_parts first.depth first.log first.queue.bits ++ spec.chain_parts first.depth first.log first.sizes first.queue (map netlist_of stages.now))) }
    ensures regs { IfOk result (λ r. r.0.regs.items ≡ registers_of (spec.owned_parts first.log first.sizes first.queue (map netlist_of stages.now))) }
    ensures mems { IfOk result (λ r. map memory_of r.0.mems.items ≡ memories_of (spec.owned_parts first.log first.sizes first.queue (map netlist_of stages.now))) }
{
    let mut content = Content {
        regs: Vec::new(alloc),
        mems: Vec::new(alloc),
        wires: entry_wires(alloc, first)?,
    };
    let joint = push_stages(alloc, &mut content, stages, first)?;
    push_last(alloc, &mut content, joint)?;
    Ok((content, joint.queue))
}
