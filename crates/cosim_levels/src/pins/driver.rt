//! Single cycles of a module.
ghost use Rattle.std.specs.Prelude.{◌≡◌, ◌≤◌, ◌+◌, ◌-◌, ◌∷◌, ◌==◌, ℕ, length, map, replicate, slice_index, IfOk, IfSome, All};
ghost use Rattle.rtl_core.specs.declared.design.Mem.{Mem};
ghost use Rattle.rtl_core.specs.Netlist.{netlist_of, memory_of};
ghost use Rattle.rtl_core.specs.Valid.{IsValid, IsBetween};
ghost use Rattle.rtl_core.specs.Interface.{ready_of, done_of, read_data_of, ret_of};
ghost use Rattle.verilog_cycle.specs.Simulation.{word_count, contents_count, powered_up};
ghost use Rattle.cosim_levels.specs.Pins.Host.{Driven, clocked, low_row, reset_row, start_row, write_row, asked};

use rtl_core::design::{Design, Mem};
use std::alloc::{AllocError, Global};
use std::marker::Model;
use verilog_cycle::sim::Sim;

/// The inputs that every module has. The arguments stand behind them.
const HOST_INPUTS: usize = 7;

/// The values of these inputs in one cycle.
#[derive(Clone, Copy)]
struct HostRow {
    reset: u64,
    start: u64,
    enable: u64,
    write: u64,
    select: u64,
    address: u64,
    data: u64,
}

/// All of them low.
const LOW: HostRow = HostRow {
    reset: 0,
    start: 0,
    enable: 0,
    write: 0,
    select: 0,
    address: 0,
    data: 0,
};

/// A module of a function, how many arguments it has, the values of its inputs, and what its outputs were in the last cycle.
#[derive(Drop)]
pub struct Driver {
    sim: Sim,
    arguments: usize,
    pins: Vec<u64>,
    outs: Vec<u64>,
}

impl Model for Driver {
    ghost use Rattle.cosim_levels.specs.Pins.Host.{Driven};

    ghost Value = { Driven };

    ghost use Rattle.std.specs.Prelude.{◌≡◌, ◌+◌, length};

    ghost view = { λ d. record { netlist = d.sim.netlist; arguments = d.arguments; state = d.sim.state; outs = d.outs.items } };

    ghost invariant = { λ d. (length d.pins.items ≡ 7 + d.arguments) × (length d.sim.netlist.inputs ≡ 7 + d.arguments) × (length d.outs.items ≡ length d.sim.netlist.outputs) };
}

/// How many words the memories have together, where a memory can hold so many.
fn word_count(mems: &[Mem]) -> Option<usize>
    requires { All (λ (m : Mem). IsBetween 1 16 m.depth_log) mems.now }
    ensures { IfSome result (λ n. n ≡ word_count (map memory_of mems.now)) }
{
    let mut count: usize = 0;
    for mem in mems {
        let words: usize = 1 << usize::from(mem.depth_log);
        let Some(sum) = count.checked_add(words) else {
            return None;
        };
        count = sum;
    }
    Some(count)
}

/// The contents of a power-up, which are 0.
fn power_up(alloc: Global, design: &Design) -> Result<Vec<u64>, AllocError>
    requires { IsValid (netlist_of design.now) }
    ensures { IfOk result (λ v. v.items ≡ replicate (contents_count (netlist_of design.now)) 0) }
{
    let Some(words) = word_count(&design.mems) else {
        return Err(AllocError);
    };
    match design.regs.len().checked_add(words) {
        Some(count) => vec![in alloc; 0; count],
        None => Err(AllocError),
    }
}

/// Makes all inputs low.
fn lower(pins: &mut [u64])
    ensures { pins.new ≡ replicate (length pins.old) 0 }
{
    for k in 0..pins.len() {
        pins[k] = 0;
    }
}

/// Gives the inputs that every module has their values, and makes the arguments low.
fn set_row(pins: &mut [u64], row: HostRow)
    requires { 7 ≤ length pins.old }
    ensures { pins.new ≡ row.reset ∷ row.start ∷ row.enable ∷ row.write ∷ row.select ∷ row.address ∷ row.data ∷ replicate (length pins.old - 7) 0 }
{
    lower(pins);
    pins[0] = row.reset;
    pins[1] = row.start;
    pins[2] = row.enable;
    pins[3] = row.write;
    pins[4] = row.select;
    pins[5] = row.address;
    pins[6] = row.data;
}

/// Gives the inputs the values of a cycle of start with these arguments.
fn set_start(pins: &mut [u64], arguments: &[u64])
    requires { length pins.old ≡ 7 + length arguments.now }
    ensures { pins.new ≡ start_row arguments.now }
{
    set_row(pins, HostRow { start: 1, ..LOW });
    for k in 0..arguments.len() {
        pins[HOST_INPUTS + k] = arguments[k];
    }
}

/// A cycle with these values of the inputs that every module has, where the arguments are low.
fn clock_row(sim: &mut Sim, pins: &mut [u64], outs: &mut [u64], row: HostRow)
    requires room { 7 ≤ length pins.old }
    requires pins { length pins.old ≡ length sim.old.netlist.inputs }
    requires outs { length outs.old ≡ length sim.old.netlist.outputs }
    ensures cycle { (n : ℕ) → clocked (record { netlist = sim.old.netlist; arguments = n; state = sim.old.state; outs = outs.old })
        (row.reset ∷ row.start ∷ row.enable ∷ row.write ∷ row.select ∷ row.address ∷ row.data ∷ replicate (length pins.old - 7) 0)
        ≡ record { netlist = sim.new.netlist; arguments = n; state = sim.new.state; outs = outs.new } }
    ensures netlist { sim.new.netlist ≡ sim.old.netlist }
{
    set_row(pins, row);
    sim.clock(pins, outs);
}

/// A cycle of start with these arguments.
fn clock_start(sim: &mut Sim, pins: &mut [u64], outs: &mut [u64], arguments: &[u64])
    requires room { length pins.old ≡ 7 + length arguments.now }
    requires pins { length pins.old ≡ length sim.old.netlist.inputs }
    requires outs { length outs.old ≡ length sim.old.netlist.outputs }
    ensures cycle { (n : ℕ) → clocked (record { netlist = sim.old.netlist; arguments = n; state = sim.old.state; outs = outs.old }) (start_row arguments.now)
        ≡ record { netlist = sim.new.netlist; arguments = n; state = sim.new.state; outs = outs.new } }
    ensures netlist { sim.new.netlist ≡ sim.old.netlist }
{
    set_start(pins, arguments);
    sim.clock(pins, outs);
}

impl Driver {
    /// A circuit with so many arguments behind the inputs of the host, before its first cycle, with contents 0.
    pub fn new(alloc: Global, design: Design, arguments: usize) -> Result<Driver, AllocError>
        requires valid { IsValid (netlist_of design) }
        requires inputs { length design.inputs.items ≡ 7 + arguments }
        ensures { IfOk result (λ d. d ≡ record {
          netlist = netlist_of design;
          arguments = arguments;
          state = powered_up (netlist_of design) (replicate (contents_count (netlist_of design)) 0);
          outs = replicate (length design.outputs.items) 0;
        }) }
    {
        let contents = power_up(alloc, &design)?;
        let pins = vec![in alloc; 0; design.inputs.len()]?;
        let outs = vec![in alloc; 0; design.outputs.len()]?;
        let sim = Sim::new(alloc, design, &contents)?;
        Ok(Driver {
            sim,
            arguments,
            pins,
            outs,
        })
    }

    /// A cycle with these inputs.
    fn take_cycle(&mut self, row: HostRow)
        ensures { self.new ≡ clocked self.old (row.reset ∷ row.start ∷ row.enable ∷ row.write ∷ row.select ∷ row.address ∷ row.data ∷ replicate self.old.arguments 0) }
    {
        clock_row(&mut self.sim, &mut self.pins, &mut self.outs, row);
    }

    /// A cycle in which all inputs are low.
    pub fn wait(&mut self)
        ensures { self.new ≡ clocked self.old (low_row self.old.arguments) }
    {
        self.take_cycle(LOW);
    }

    /// A cycle of reset.
    pub fn reset(&mut self)
        ensures { self.new ≡ clocked self.old (reset_row self.old.arguments) }
    {
        self.take_cycle(HostRow { reset: 1, ..LOW });
    }

    /// A cycle in which the host writes an element.
    pub fn write(&mut self, array: u64, address: u64, word: u64)
        ensures { self.new ≡ clocked self.old (write_row self.old.arguments array address word) }
    {
        self.take_cycle(HostRow {
            enable: 1,
            write: 1,
            select: array,
            address,
            data: word,
            ..LOW
        });
    }

    /// A cycle in which the host asks for an element, and one in which it is there.
    pub fn read(&mut self, array: u64, address: u64) -> u64
        ensures after { self.new ≡ asked self.old array address }
        ensures word { result ≡ read_data_of self.new.outs }
    {
        self.take_cycle(HostRow {
            enable: 1,
            select: array,
            address,
            ..LOW
        });
        self.wait();
        self.out(2)
    }

    /// A cycle of start with these arguments.
    pub fn start(&mut self, arguments: &[u64])
        requires { length arguments.now ≡ self.old.arguments }
        ensures { self.new ≡ clocked self.old (start_row arguments.now) }
    {
        clock_start(&mut self.sim, &mut self.pins, &mut self.outs, arguments);
    }

    /// What an output was in the last cycle; 0 where there is none.
    fn out(&self, number: usize) -> u64
        ensures { result ≡ slice_index self.now.outs number }
    {
        if number < self.outs.len() {
            self.outs[number]
        } else {
            0
        }
    }

    /// Whether the circuit was ready in the last cycle.
    pub fn was_ready(&self) -> bool
        ensures { result ≡ (ready_of self.now.outs == 1) }
    {
        self.out(0) == 1
    }

    /// Whether the circuit was done in the last cycle.
    pub fn was_done(&self) -> bool
        ensures { result ≡ (done_of self.now.outs == 1) }
    {
        self.out(1) == 1
    }

    /// The result that was shown in the last cycle.
    pub fn returned(&self) -> u64
        ensures { result ≡ ret_of self.now.outs }
    {
        self.out(3)
    }
}
