//! Numbers of registers, memories and wires, and the places of a stage's parts. Called by `linking`.
ghost use Rattle.std.specs.Prelude.{◌≡◌, ◌+◌, ◌^◌, ◌<◌, ◌≤◌, [], ◌∷◌, IfOk};
ghost use Rattle.rtl_core.specs.Netlist.{netlist_of};
ghost use Rattle.chain_link.specs.Linking as spec;
ghost use Rattle.chain_link.specs.Places.{place_of};
ghost use Rattle.chain_link.specs.Bounds.{HasRoom, IsEarly, IsSmall, IsWithin, SpotHasRoom};

use crate::placing::Spot;
use rtl_core::design::{Atom, Design};
use std::alloc::{AllocError, Global};

/// How many registers, memories and wires there are so far.
#[derive(Clone, Copy, PartialEq, Eq)]
pub struct Sizes {
    pub regs: u64,
    pub mems: u32,
    pub wires: u64,
}

/// The queue before a stage: the first of the wires that show its state, the wire that says that an item is appended, that item, and its width.
#[derive(Clone, Copy, PartialEq, Eq)]
pub struct Queue {
    pub front: u64,
    pub give: u64,
    pub item: Atom,
    pub bits: u8,
}

/// Where the next stage follows. Queues have at most `depth` items in 2^log words.
#[derive(Clone, Copy, PartialEq, Eq)]
pub struct Joint {
    pub depth: u16,
    pub log: u8,
    pub sizes: Sizes,
    pub queue: Queue,
}

pub fn argument_bits(stage: &Design) -> u8
    ensures { result ≡ spec.argument_bits (netlist_of stage.now) }
{
    if stage.inputs.len() > 7 {
        stage.inputs[7].bits
    } else {
        0
    }
}

pub fn result_bits(stage: &Design) -> u8
    ensures { result ≡ spec.result_bits (netlist_of stage.now) }
{
    if stage.outputs.len() > 3 {
        stage.outputs[3].bits
    } else {
        0
    }
}

/// The wire k places after another.
fn wire_at(first: u64, k: u64) -> Atom
    requires fits { first + k < 2 ^ 64 }
    ensures { result ≡ Atom.Wire (first + k) }
{
    Atom::Wire(first + k)
}

/// Whether the queue has an item.
pub fn some_of(queue: Queue) -> Atom
    requires early { IsEarly queue }
    ensures { result ≡ spec.some_of queue }
{
    wire_at(queue.front, 0)
}

/// The first item.
pub fn first_of(queue: Queue) -> Atom
    requires early { IsEarly queue }
    ensures { result ≡ spec.first_of queue }
{
    wire_at(queue.front, 2)
}

/// Output k of the stage with start low.
fn exit_of(sizes: Sizes, stage: &Design, k: u64) -> Atom
    requires room { HasRoom sizes }
    requires small { IsSmall (netlist_of stage.now) }
    requires output { k ≤ 3 }
    ensures { result ≡ spec.exit_of sizes (netlist_of stage.now) k }
{
    wire_at(sizes.wires, stage.wires.len() as u64 + k)
}

fn behind_asked(sizes: Sizes, stage: &Design) -> u64
    requires room { HasRoom sizes }
    requires small { IsSmall (netlist_of stage.now) }
    ensures is { result ≡ spec.behind_asked sizes (netlist_of stage.now) }
    ensures bound { result < sizes.wires + 2 ^ 58 }
{
    let wires = stage.wires.len() as u64 + stage.outputs.len() as u64;
    sizes.wires + wires
}

fn start_of(sizes: Sizes, stage: &Design) -> Atom
    requires room { HasRoom sizes }
    requires small { IsSmall (netlist_of stage.now) }
    ensures { result ≡ spec.start_of sizes (netlist_of stage.now) }
{
    let control = behind_asked(sizes, stage) + 3;
    wire_at(control, 5)
}

fn stage_inputs(alloc: Global, start: Atom, argument: Atom) -> Result<Vec<Atom>, AllocError>
    ensures { IfOk result (λ v. v.items ≡ spec.stage_inputs start argument) }
{
    let inputs = vec![in alloc;
        Atom::Input(0),
        start,
        Atom::Wire(0),
        Atom::Wire(0),
        Atom::Wire(1),
        Atom::Wire(2),
        Atom::Wire(3),
        argument,
    ]?;
    Ok(inputs)
}

/// The stage with start low.
pub fn asked_spot(alloc: Global, joint: Joint, stage: &Design) -> Result<Spot, AllocError>
    requires room { HasRoom joint.sizes }
    requires early { IsEarly joint.queue }
    ensures place { IfOk result (λ x. place_of x ≡ (spec.asked_part joint.sizes joint.queue (netlist_of stage.now)).place) }
    ensures room { IfOk result SpotHasRoom }
{
    let inputs = stage_inputs(alloc, Atom::Wire(0), first_of(joint.queue))?;
    Ok(Spot {
        inputs,
        regs: joint.sizes.regs + 3,
        mems: joint.sizes.mems + 1,
        wires: joint.sizes.wires,
    })
}

/// The state of the queue after the stage.
pub fn front_spot(alloc: Global, joint: Joint, stage: &Design) -> Spot
    requires room { HasRoom joint.sizes }
    requires small { IsSmall (netlist_of stage.now) }
    ensures place { place_of result ≡ (spec.front_part joint.depth joint.log joint.sizes (netlist_of stage.now)).place }
    ensures room { SpotHasRoom result }
{
    Spot {
        inputs: Vec::new(alloc),
        regs: joint.sizes.regs + 3 + stage.regs.len() as u64,
        mems: joint.sizes.mems + 1,
        wires: behind_asked(joint.sizes, stage),
    }
}

/// The control of the stage.
pub fn control_spot(alloc: Global, joint: Joint, stage: &Design) -> Result<Spot, AllocError>
    requires room { HasRoom joint.sizes }
    requires early { IsEarly joint.queue }
    requires small { IsSmall (netlist_of stage.now) }
    ensures place { IfOk result (λ x. place_of x ≡ (spec.control_part joint.sizes joint.queue (netlist_of stage.now)).place) }
    ensures room { IfOk result SpotHasRoom }
{
    let behind = behind_asked(joint.sizes, stage);
    let inputs = vec![in alloc;
        Atom::Input(0),
        exit_of(joint.sizes, stage, 0),
        exit_of(joint.sizes, stage, 1),
        wire_at(behind, 1),
        some_of(joint.queue),
    ]?;
    Ok(Spot {
        inputs,
        regs: joint.sizes.regs + 2,
        mems: joint.sizes.mems + 1,
        wires: behind + 3,
    })
}

/// The next state of the queue before the stage.
pub fn back_spot(alloc: Global, joint: Joint, stage: &Design) -> Result<Spot, AllocError>
    requires room { HasRoom joint.sizes }
    requires small { IsSmall (netlist_of stage.now) }
    ensures place { IfOk result (λ x. place_of x ≡ (spec.back_part joint.log joint.sizes joint.queue (netlist_of stage.now)).place) }
    ensures room { IfOk result SpotHasRoom }
{
    let inputs = vec![in alloc;
        Atom::Input(0),
        start_of(joint.sizes, stage),
        Atom::Wire(joint.queue.give),
        joint.queue.item,
    ]?;
    Ok(Spot {
        inputs,
        regs: joint.sizes.regs,
        mems: joint.sizes.mems,
        wires: behind_asked(joint.sizes, stage) + 12,
    })
}

/// The stage with its real start.
pub fn started_spot(alloc: Global, joint: Joint, stage: &Design) -> Result<Spot, AllocError>
    requires room { HasRoom joint.sizes }
    requires early { IsEarly joint.queue }
    requires small { IsSmall (netlist_of stage.now) }
    ensures place { IfOk result (λ x. place_of x ≡ (spec.started_part joint.sizes joint.queue (netlist_of stage.now)).place) }
    ensures room { IfOk result SpotHasRoom }
{
    let start = start_of(joint.sizes, stage);
    let inputs = stage_inputs(alloc, start, first_of(joint.queue))?;
    Ok(Spot {
        inputs,
        regs: joint.sizes.regs + 3,
        mems: joint.sizes.mems + 1,
        wires: behind_asked(joint.sizes, stage) + 23,
    })
}

/// Whether the user takes an item.
pub fn take_spot(alloc: Global, joint: Joint) -> Result<Spot, AllocError>
    requires room { HasRoom joint.sizes }
    requires early { IsEarly joint.queue }
    ensures place { IfOk result (λ x. place_of x ≡ (spec.take_part joint.sizes joint.queue).place) }
    ensures room { IfOk result SpotHasRoom }
{
    let inputs = vec![in alloc; Atom::Input(3), some_of(joint.queue)]?;
    Ok(Spot {
        inputs,
        regs: 0,
        mems: 0,
        wires: joint.sizes.wires,
    })
}

/// The next state of the last queue.
pub fn last_spot(alloc: Global, joint: Joint) -> Result<Spot, AllocError>
    requires room { HasRoom joint.sizes }
    ensures place { IfOk result (λ x. place_of x ≡ (spec.last_part joint.log joint.sizes joint.queue).place) }
    ensures room { IfOk result SpotHasRoom }
{
    let inputs = vec![in alloc;
        Atom::Input(0),
        wire_at(joint.sizes.wires, 0),
        Atom::Wire(joint.queue.give),
        joint.queue.item,
    ]?;
    Ok(Spot {
        inputs,
        regs: joint.sizes.regs,
        mems: joint.sizes.mems,
        wires: joint.sizes.wires + 1,
    })
}

fn sizes_behind(sizes: Sizes, stage: &Design) -> Sizes
    requires room { HasRoom sizes }
    requires small { IsSmall (netlist_of stage.now) }
    ensures { result ≡ spec.sizes_behind sizes (netlist_of stage.now) }
{
    Sizes {
        regs: sizes.regs + 3 + stage.regs.len() as u64,
        mems: sizes.mems + 1,
        wires: behind_asked(sizes, stage) + 23 + stage.wires.len() as u64,
    }
}

fn queue_behind(sizes: Sizes, stage: &Design) -> Queue
    requires room { HasRoom sizes }
    requires small { IsSmall (netlist_of stage.now) }
    ensures { result ≡ spec.queue_behind sizes (netlist_of stage.now) }
{
    let front = behind_asked(sizes, stage);
    let control = front + 3;
    Queue {
        front,
        give: control + 1,
        item: exit_of(sizes, stage, 3),
        bits: result_bits(stage),
    }
}

/// Where the stage after this one follows.
pub fn behind(joint: Joint, stage: &Design) -> Joint
    requires room { HasRoom joint.sizes }
    requires small { IsSmall (netlist_of stage.now) }
    ensures depth { result.depth ≡ joint.depth }
    ensures log { result.log ≡ joint.log }
    ensures sizes { result.sizes ≡ spec.sizes_behind joint.sizes (netlist_of stage.now) }
    ensures queue { result.queue ≡ spec.queue_behind joint.sizes (netlist_of stage.now) }
{
    Joint {
        depth: joint.depth,
        log: joint.log,
        sizes: sizes_behind(joint.sizes, stage),
        queue: queue_behind(joint.sizes, stage),
    }
}

/// Where the first stage follows.
pub fn entry(depth: u16, log: u8, bits: u8) -> Joint
    ensures depth { result.depth ≡ depth }
    ensures log { result.log ≡ log }
    ensures sizes { result.sizes ≡ spec.entry_sizes }
    ensures queue { result.queue ≡ spec.entry_queue bits }
    ensures room { IsWithin 0 result.sizes result.queue }
{
    Joint {
        depth,
        log,
        sizes: Sizes {
            regs: 0,
            mems: 0,
            wires: 8,
        },
        queue: Queue {
            front: 4,
            give: 7,
            item: Atom::Input(2),
            bits,
        },
    }
}
