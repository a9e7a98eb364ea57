//! Leaves out the registers and wires on which nothing depends.
ghost use Rattle.std.specs.Prelude.{◌≡◌, ℕ, true, not, map, Some, slice_get, slice_index_or, slice_set, IfOk, OnOk};
ghost use Rattle.std.specs.List.{All};
ghost use Rattle.rtl_core.specs.declared.design.Mem.{Mem};
ghost use Rattle.rtl_core.specs.declared.design.OutPin.{OutPin};
ghost use Rattle.rtl_core.specs.declared.design.Reg.{Reg};
ghost use Rattle.rtl_core.specs.declared.design.Wire.{Wire};
ghost use Rattle.rtl_core.specs.Netlist.{memory_of, netlist_of};
ghost use Rattle.rtl_core.specs.Valid.{IsValid};
ghost use Rattle.rtl_logic.specs.Pruning.{Marked, is_marked, IsMarked, NetIsMarked, PortIsMarked, RegIsMarked, is_unit, RootsAreMarked, IsClosed, kept, place_in, renamed, renamed_net, renamed_wire, renamed_reg, renamed_port, renamed_memory, renamed_output, IsPruned};
ghost use Rattle.rtl_logic.specs.Marking.{marked_of, search_of, with_mark, Covers, StaysIn, Spreads, ReadsMarked, Rounds, AreNumbers};

use rtl_core::design::{Atom, Design, Mem, Net, OutPin, Pair, Port, Reg, Wire};
use std::alloc::{AllocError, Global};

/// Which registers and wires are wanted, and the atoms that are still to be followed.
#[derive(Drop)]
struct Marks {
    regs: Vec<bool>,
    wires: Vec<bool>,
    waiting: Vec<Atom>,
}

/// The new number of each register and wire that stays.
#[derive(Drop)]
struct Numbers {
    regs: Vec<u64>,
    wires: Vec<u64>,
}

/// Whether the wire marks a multiplier or a divider, which stay in any case.
fn is_unit(wire: Wire) -> bool
    ensures { result ≡ is_unit wire }
{
    match wire.net {
        Net::Two(Pair::Mul, ..) => true,
        Net::Two(Pair::Sub, ..) => wire.bits == 33 || wire.bits == 65,
        _ => false,
    }
}

/// Marks a place, and tells whether it was not marked before.
fn mark(marks: &mut [bool], number: u64) -> bool
    ensures marks { marks.new ≡ slice_set marks.old number true }
    ensures fresh { result ≡ not (slice_index_or marks.old number true) }
{
    let k = number as usize;
    let is_new = k < marks.len() && !marks[k];
    if is_new {
        marks[k] = true;
    }
    is_new
}

impl Marks {
    /// Marks an atom, and tells whether it was not marked before.
    fn mark(&mut self, atom: Atom) -> bool
        ensures marks { marked_of self.new ≡ with_mark (marked_of self.old) atom }
        ensures waits { self.new.waiting.items ≡ self.old.waiting.items }
        ensures fresh { result ≡ not (is_marked (marked_of self.old) atom) }
    {
        match atom {
            Atom::Reg(k) => mark(&mut self.regs, k),
            Atom::Wire(k) => mark(&mut self.wires, k),
            _ => false,
        }
    }

    fn follow(&mut self, atom: Atom) -> Result<(), AllocError>
        ensures spreads { OnOk result (Spreads (search_of self.old) (search_of self.new)) }
        ensures marked { OnOk result (IsMarked (marked_of self.new) atom) }
        ensures least { OnOk result ((n : Marked) → IsMarked n atom → StaysIn n (search_of self.old) (search_of self.new)) }
    {
        if self.mark(atom) {
            self.waiting.push(atom)?;
        }
        Ok(())
    }

    fn follow_both(&mut self, one: Atom, other: Atom) -> Result<(), AllocError>
        ensures spreads { OnOk result (Spreads (search_of self.old) (search_of self.new)) }
        ensures marked { OnOk result (IsMarked (marked_of self.new) one × IsMarked (marked_of self.new) other) }
        ensures least { OnOk result ((n : Marked) → IsMarked n one → IsMarked n other → StaysIn n (search_of self.old) (search_of self.new)) }
    {
        self.follow(one)?;
        self.follow(other)
    }

    fn follow_three(&mut self, one: Atom, other: Atom, third: Atom) -> Result<(), AllocError>
        ensures spreads { OnOk result (Spreads (search_of self.old) (search_of self.new)) }
        ensures marked { OnOk result (IsMarked (marked_of self.new) one × IsMarked (marked_of self.new) other × IsMarked (marked_of self.new) third) }
        ensures least { OnOk result ((n : Marked) → IsMarked n one → IsMarked n other → IsMarked n third → StaysIn n (search_of self.old) (search_of self.new)) }
    {
        self.follow(one)?;
        self.follow_both(other, third)
    }

    fn follow_net(&mut self, net: Net) -> Result<(), AllocError>
        ensures spreads { OnOk result (Spreads (search_of self.old) (search_of self.new)) }
        ensures marked { OnOk result (NetIsMarked (marked_of self.new) net) }
        ensures least { OnOk result ((n : Marked) → NetIsMarked n net → StaysIn n (search_of self.old) (search_of self.new)) }
    {
        match net {
            Net::Copy(a) => self.follow(a),
            Net::Not(a) => self.follow(a),
            Net::Two(_, a, b) => self.follow_both(a, b),
            Net::Pick(test, a, b) => self.follow_three(test, a, b),
            Net::Join(high, low) => self.follow_both(high, low),
            Net::Part { of, .. } => self.follow(of),
            Net::Word { addr, .. } => self.follow(addr),
        }
    }

    fn follow_outputs(&mut self, outputs: &[OutPin]) -> Result<(), AllocError>
        ensures spreads { OnOk result (Spreads (search_of self.old) (search_of self.new)) }
        ensures marked { OnOk result (All (λ (o : OutPin). IsMarked (marked_of self.new) o.from) outputs.now) }
        ensures least { OnOk result ((n : Marked) → All (λ (o : OutPin). IsMarked n o.from) outputs.now → StaysIn n (search_of self.old) (search_of self.new)) }
    {
        for pin in outputs {
            self.follow(pin.from)?;
        }
        Ok(())
    }

    fn follow_ports(&mut self, ports: &[Port]) -> Result<(), AllocError>
        ensures spreads { OnOk result (Spreads (search_of self.old) (search_of self.new)) }
        ensures marked { OnOk result (All (PortIsMarked (marked_of self.new)) ports.now) }
        ensures least { OnOk result ((n : Marked) → All (PortIsMarked n) ports.now → StaysIn n (search_of self.old) (search_of self.new)) }
    {
        for port in ports {
            self.follow_three(port.addr, port.enable, port.value)?;
        }
        Ok(())
    }

    fn follow_memories(&mut self, memories: &[Mem]) -> Result<(), AllocError>
        ensures spreads { OnOk result (Spreads (search_of self.old) (search_of self.new)) }
        ensures marked { OnOk result (All (λ (x : Mem). All (PortIsMarked (marked_of self.new)) x.ports.items) memories.now) }
        ensures least { OnOk result ((n : Marked) → All (λ (x : Mem). All (PortIsMarked n) x.ports.items) memories.now → StaysIn n (search_of self.old) (search_of self.new)) }
    {
        for memory in memories {
            self.follow_ports(&memory.ports)?;
        }
        Ok(())
    }

    fn follow_units(&mut self, wires: &[Wire]) -> Result<(), AllocError>
        ensures spreads { OnOk result (Spreads (search_of self.old) (search_of self.new)) }
        ensures marked { OnOk result ((k : ℕ) (w : Wire) → slice_get wires.now k ≡ Some w → is_unit w ≡ true → IsMarked (marked_of self.new) (Atom.Wire k)) }
        ensures least { OnOk result ((n : Marked) → ((k : ℕ) (w : Wire) → slice_get wires.now k ≡ Some w → is_unit w ≡ true → IsMarked n (Atom.Wire k)) → StaysIn n (search_of self.old) (search_of self.new)) }
    {
        for k in 0..wires.len() {
            self.follow_unit(wires[k], k as u64)?;
        }
        Ok(())
    }

    /// Follows a wire, with its number, if it marks a unit.
    fn follow_unit(&mut self, wire: Wire, number: u64) -> Result<(), AllocError>
        ensures spreads { OnOk result (Spreads (search_of self.old) (search_of self.new)) }
        ensures marked { OnOk result (is_unit wire ≡ true → IsMarked (marked_of self.new) (Atom.Wire number)) }
        ensures least { OnOk result ((n : Marked) → (is_unit wire ≡ true → IsMarked n (Atom.Wire number)) → StaysIn n (search_of self.old) (search_of self.new)) }
    {
        if is_unit(wire) {
            self.follow(Atom::Wire(number))
        } else {
            Ok(())
        }
    }

    /// Follows what the outputs and the memories' ports read, and the units.
    fn follow_roots(&mut self, design: &Design) -> Result<(), AllocError>
        ensures spreads { OnOk result (Spreads (search_of self.old) (search_of self.new)) }
        ensures marked { OnOk result (RootsAreMarked (netlist_of design.now) (marked_of self.new)) }
        ensures least { OnOk result ((n : Marked) → RootsAreMarked (netlist_of design.now) n → StaysIn n (search_of self.old) (search_of self.new)) }
    {
        self.follow_outputs(&design.outputs)?;
        self.follow_memories(&design.mems)?;
        self.follow_units(&design.wires)
    }

    /// Follows what a register or a wire reads.
    fn follow_read(&mut self, design: &Design, atom: Atom) -> Result<(), AllocError>
        ensures spreads { OnOk result (Spreads (search_of self.old) (search_of self.new)) }
        ensures marked { OnOk result (ReadsMarked (netlist_of design.now) (marked_of self.new) atom) }
        ensures least { OnOk result ((n : Marked) → ReadsMarked (netlist_of design.now) n atom → StaysIn n (search_of self.old) (search_of self.new)) }
    {
        match atom {
            Atom::Reg(k) => self.follow_register(&design.regs, k),
            Atom::Wire(k) => self.follow_wire(&design.wires, k),
            _ => Ok(()),
        }
    }

    fn follow_register(&mut self, regs: &[Reg], number: u64) -> Result<(), AllocError>
        ensures spreads { OnOk result (Spreads (search_of self.old) (search_of self.new)) }
        ensures marked { OnOk result ((r : Reg) → slice_get regs.now number ≡ Some r → RegIsMarked (marked_of self.new) r) }
        ensures least { OnOk result ((n : Marked) → ((r : Reg) → slice_get regs.now number ≡ Some r → RegIsMarked n r) → StaysIn n (search_of self.old) (search_of self.new)) }
    {
        let k = number as usize;
        if k >= regs.len() {
            return Ok(());
        }
        self.follow_both(regs[k].enable, regs[k].next)
    }

    fn follow_wire(&mut self, wires: &[Wire], number: u64) -> Result<(), AllocError>
        ensures spreads { OnOk result (Spreads (search_of self.old) (search_of self.new)) }
        ensures marked { OnOk result ((w : Wire) → slice_get wires.now number ≡ Some w → NetIsMarked (marked_of self.new) w.net) }
        ensures least { OnOk result ((n : Marked) → ((w : Wire) → slice_get wires.now number ≡ Some w → NetIsMarked n w.net) → StaysIn n (search_of self.old) (search_of self.new)) }
    {
        let k = number as usize;
        if k >= wires.len() {
            return Ok(());
        }
        self.follow_net(wires[k].net)
    }

    /// Follows one that is still to be followed, if there is one.
    fn follow_next(&mut self, design: &Design) -> Result<(), AllocError>
        ensures rounds { OnOk result (Rounds (netlist_of design.now) 1 (search_of self.old) (search_of self.new)) }
        ensures least { OnOk result ((n : Marked) → IsClosed (netlist_of design.now) n → StaysIn n (search_of self.old) (search_of self.new)) }
    {
        match self.waiting.pop() {
            Some(atom) => self.follow_read(design, atom),
            None => Ok(()),
        }
    }

    /// Follows so many times one that is still to be followed.
    fn follow_times(&mut self, design: &Design, count: usize) -> Result<(), AllocError>
        ensures rounds { OnOk result (Rounds (netlist_of design.now) count (search_of self.old) (search_of self.new)) }
        ensures least { OnOk result ((n : Marked) → IsClosed (netlist_of design.now) n → StaysIn n (search_of self.old) (search_of self.new)) }
    {
        for _round in 0..count {
            self.follow_next(design)?;
        }
        Ok(())
    }
}

/// Which registers and wires the outputs, the memories and the units depend on.
fn marks_of(alloc: Global, design: &Design) -> Result<Marks, AllocError>
    ensures closed { IfOk result (λ marks. IsClosed (netlist_of design.now) (marked_of marks)) }
    ensures least { IfOk result (λ marks. (n : Marked) → IsClosed (netlist_of design.now) n → Covers n (marked_of marks)) }
{
    let mut marks = Marks {
        regs: vec![in alloc; false; design.regs.len()]?,
        wires: vec![in alloc; false; design.wires.len()]?,
        waiting: Vec::new(alloc),
    };
    marks.follow_roots(design)?;
    // Each register and wire waits once at most, so that nothing is left after as many rounds.
    marks.follow_times(design, design.regs.len())?;
    marks.follow_times(design, design.wires.len())?;
    Ok(marks)
}

/// How many marks stand before each place.
fn places_before(alloc: Global, marks: &[bool]) -> Result<Vec<u64>, AllocError>
    ensures { IfOk result (λ places. (k : ℕ) → slice_index_or places.items k k ≡ place_in marks.now k) }
{
    let mut all = Vec::with_capacity(alloc, marks.len())?;
    let mut next: u64 = 0;
    for mark in marks {
        all.push(next)?;
        if *mark {
            next = next.saturating_add(1);
        }
    }
    Ok(all)
}

/// The new number at a place, or the place where there is none.
fn number_at(numbers: &[u64], place: u64) -> u64
    ensures { result ≡ slice_index_or numbers.now place place }
{
    let k = place as usize;
    if k < numbers.len() { numbers[k] } else { place }
}

impl Numbers {
    fn atom(&self, atom: Atom) -> Atom
        ensures { (m : Marked) → AreNumbers self.now m → result ≡ renamed m atom }
    {
        match atom {
            Atom::Reg(k) => Atom::Reg(number_at(&self.regs, k)),
            Atom::Wire(k) => Atom::Wire(number_at(&self.wires, k)),
            other => other,
        }
    }

    fn net(&self, net: Net) -> Net
        ensures { (m : Marked) → AreNumbers self.now m → result ≡ renamed_net m net }
    {
        match net {
            Net::Copy(a) => Net::Copy(self.atom(a)),
            Net::Not(a) => Net::Not(self.atom(a)),
            Net::Two(pair, a, b) => Net::Two(pair, self.atom(a), self.atom(b)),
            Net::Pick(test, a, b) => Net::Pick(self.atom(test), self.atom(a), self.atom(b)),
            Net::Join(high, low) => Net::Join(self.atom(high), self.atom(low)),
            Net::Part { of, high, low } => Net::Part {
                of: self.atom(of),
                high,
                low,
            },
            Net::Word { mem, addr } => Net::Word {
                mem,
                addr: self.atom(addr),
            },
        }
    }

    fn port(&self, port: Port) -> Port
        ensures { (m : Marked) → AreNumbers self.now m → result ≡ renamed_port m port }
    {
        Port {
            addr: self.atom(port.addr),
            enable: self.atom(port.enable),
            value: self.atom(port.value),
        }
    }

    fn ports(&self, ports: &mut [Port])
        ensures { (m : Marked) → AreNumbers self.now m → ports.new ≡ map (renamed_port m) ports.old }
    {
        for port in ports.iter_mut() {
            *port = self.port(*port);
        }
    }
}

fn wires_left(
    alloc: Global,
    wires: &[Wire],
    marks: &[bool],
    numbers: &Numbers,
) -> Result<Vec<Wire>, AllocError>
    ensures { (m : Marked) → AreNumbers numbers.now m → IfOk result (λ left. left.items ≡ map (renamed_wire m) (kept marks.now wires.now)) }
{
    let mut left = Vec::new(alloc);
    for k in 0..wires.len().min(marks.len()) {
        if marks[k] {
            let bits = wires[k].bits;
            let net = numbers.net(wires[k].net);
            left.push(Wire { bits, net })?;
        }
    }
    Ok(left)
}

fn registers_left(
    alloc: Global,
    regs: &[Reg],
    marks: &[bool],
    numbers: &Numbers,
) -> Result<Vec<Reg>, AllocError>
    ensures { (m : Marked) → AreNumbers numbers.now m → IfOk result (λ left. left.items ≡ map (renamed_reg m) (kept marks.now regs.now)) }
{
    let mut left = Vec::new(alloc);
    for k in 0..regs.len().min(marks.len()) {
        if marks[k] {
            let bits = regs[k].bits;
            let enable = numbers.atom(regs[k].enable);
            let next = numbers.atom(regs[k].next);
            left.push(Reg { bits, enable, next })?;
        }
    }
    Ok(left)
}

fn renumber_outputs(outputs: &mut [OutPin], numbers: &Numbers)
    ensures { (m : Marked) → AreNumbers numbers.now m → outputs.new ≡ map (renamed_output m) outputs.old }
{
    for pin in outputs.iter_mut() {
        pin.from = numbers.atom(pin.from);
    }
}

fn renumber_memories(memories: &mut [Mem], numbers: &Numbers)
    ensures { (m : Marked) → AreNumbers numbers.now m → map memory_of memories.new ≡ map (renamed_memory m) (map memory_of memories.old) }
{
    for memory in memories.iter_mut() {
        numbers.ports(&mut memory.ports);
    }
}

/// Leaves out the registers and wires on which no output and no memory depends, but no multiplier and no divider.
pub fn prune(alloc: Global, design: &mut Design) -> Result<(), AllocError>
    ensures { OnOk result (IsValid (netlist_of design.old) → IsPruned (netlist_of design.old) (netlist_of design.new)) }
{
    let marks = marks_of(alloc, design)?;
    let numbers = Numbers {
        regs: places_before(alloc, &marks.regs)?,
        wires: places_before(alloc, &marks.wires)?,
    };
    design.wires = wires_left(alloc, &design.wires, &marks.wires, &numbers)?;
    design.regs = registers_left(alloc, &design.regs, &marks.regs, &numbers)?;
    renumber_memories(&mut design.mems, &numbers);
    renumber_outputs(&mut design.outputs, &numbers);
    Ok(())
}
