ghost use Rattle.std.specs.Prelude.{◌≡◌, ◌+◌, List, IfOk, OnOk, OnErr, [], ◌∷◌, ◌++◌, length};
ghost use Rattle.rtl_core.specs.declared.design.Wire.{Wire};
ghost use Rattle.rtl_core.specs.Netlist.{netlist_of, memory_of};
ghost use Rattle.rtl_units.specs.Fragments.{grown, empty, port_wire, port_wires, wires_from, multiplier_registers, multiplier_wires};
ghost use Rattle.rtl_units.specs.Growing.{Grows, Shows};
ghost use Rattle.rtl_units.specs.Division.{divider_registers, divider_wires, quotient_atom, remainder_atom};

use crate::divider::{Division, divider};
use crate::draft::Draft;
use crate::multiplier::multiplier;
use crate::table::{TableOf, table};
use hls_base::text::Text;
use hls_base::words::Words;
use rtl_core::design::{Atom, Design, Mem, Net, Port};
use std::alloc::{AllocError, Global};

/// A part that is appended to a circuit: a memory with ports, a table of constants, a multiplier or a divider, with the atoms that it reads.
#[derive(Drop)]
pub enum Fragment {
    Store {
        bits: u8,
        depth_log: u8,
        ports: Vec<Port>,
    },
    Table {
        bits: u8,
        words: Words,
        addr: Atom,
    },
    Multiplier {
        bits: u8,
        left: Atom,
        right: Atom,
    },
    Divider {
        bits: u8,
        signed: Atom,
        start: Atom,
        left: Atom,
        right: Atom,
    },
}

/// The atoms that show what a fragment gives: the word at each port's address, the table's word, the product, or the quotient and the remainder.
#[derive(Drop)]
pub struct Pins {
    pub atoms: Vec<Atom>,
}

/// A circuit under construction.
#[derive(Drop)]
pub struct Builder {
    pub design: Design,
}

impl Builder {
    /// A circuit with nothing but a name.
    pub fn new(alloc: Global, name: Text) -> Builder
        ensures { netlist_of result.design ≡ empty name }
    {
        Builder {
            design: Design {
                name,
                inputs: Vec::new(alloc),
                outputs: Vec::new(alloc),
                regs: Vec::new(alloc),
                mems: Vec::new(alloc),
                wires: Vec::new(alloc),
            },
        }
    }

    /// Appends a fragment, and changes nothing that is there. The product of a multiplier is there two cycles after its operands, and one cycle before as what its register takes next; quotient and remainder of a divider of w bits are there w + 1 cycles after the start, and until the next start.
    pub fn add(&mut self, alloc: Global, fragment: Fragment) -> Result<Pins, AllocError>
        ensures grows { OnOk result (Grows (netlist_of self.old.design) fragment (netlist_of self.new.design)) }
        ensures shows { IfOk result (λ p. Shows (netlist_of self.old.design) fragment p.atoms.items) }
        ensures unchanged { OnErr result (netlist_of self.new.design ≡ netlist_of self.old.design) }
    {
        match fragment {
            Fragment::Store {
                bits,
                depth_log,
                ports,
            } => self.add_memory(
                alloc,
                Mem {
                    bits,
                    depth_log,
                    ports,
                },
            ),
            Fragment::Table { bits, words, addr } => self.add_table(alloc, bits, &words, addr),
            Fragment::Multiplier { bits, left, right } => {
                self.add_multiplier(alloc, bits, left, right)
            }
            Fragment::Divider {
                bits,
                signed,
                start,
                left,
                right,
            } => self.add_divider(
                alloc,
                Division {
                    bits,
                    signed,
                    start,
                    left,
                    right,
                },
            ),
        }
    }

    fn add_table(
        &mut self,
        alloc: Global,
        bits: u8,
        words: &Words,
        addr: Atom,
    ) -> Result<Pins, AllocError>
        ensures grown { OnOk result ((wires : List Wire) × (netlist_of self.new.design ≡ grown (netlist_of self.old.design) [] [] wires)) }
        ensures atoms { IfOk result (λ p. length p.atoms.items ≡ 1) }
        ensures unchanged { OnErr result (netlist_of self.new.design ≡ netlist_of self.old.design) }
    {
        let mut draft = Draft::new(alloc, &self.design);
        let words = words.items();
        let word = table(alloc, &mut draft, TableOf { bits, words, addr })?;
        self.append(draft, pins_of_one(alloc, word)?)
    }

    fn add_multiplier(
        &mut self,
        alloc: Global,
        bits: u8,
        left: Atom,
        right: Atom,
    ) -> Result<Pins, AllocError>
        ensures grown { OnOk result (netlist_of self.new.design ≡ grown (netlist_of self.old.design) (multiplier_registers (length self.old.design.wires.items) bits left right) [] (multiplier_wires (length self.old.design.regs.items) bits)) }
        ensures atoms { IfOk result (λ p. p.atoms.items ≡ Atom.Reg (length self.old.design.regs.items + 2) ∷ []) }
        ensures unchanged { OnErr result (netlist_of self.new.design ≡ netlist_of self.old.design) }
    {
        let mut draft = Draft::new(alloc, &self.design);
        let product = multiplier(&mut draft, bits, left, right)?;
        self.append(draft, pins_of_one(alloc, product)?)
    }

    fn add_divider(&mut self, alloc: Global, division: Division) -> Result<Pins, AllocError>
        ensures grown { let r = length self.old.design.regs.items in let n = length self.old.design.wires.items in
            OnOk result (netlist_of self.new.design ≡ grown (netlist_of self.old.design) (divider_registers n division) [] (divider_wires r n division)) }
        ensures atoms { let r = length self.old.design.regs.items in let n = length self.old.design.wires.items in
            IfOk result (λ p. p.atoms.items ≡ quotient_atom r n division ∷ remainder_atom r n division ∷ []) }
        ensures unchanged { OnErr result (netlist_of self.new.design ≡ netlist_of self.old.design) }
    {
        let mut draft = Draft::new(alloc, &self.design);
        let (quotient, remainder) = divider(&mut draft, division)?;
        let mut pins = pins_of_one(alloc, quotient)?;
        pins.atoms.push(remainder)?;
        let shown = self.append(draft, pins)?;
        Ok(shown)
    }

    /// Appends what was drafted, or leaves the design as it is.
    fn append(&mut self, draft: Draft, pins: Pins) -> Result<Pins, AllocError>
        ensures pins { IfOk result (λ p. p ≡ pins) }
        ensures grown { OnOk result (netlist_of self.new.design ≡ grown (netlist_of self.old.design) draft.regs.items [] draft.wires.items) }
        ensures unchanged { OnErr result (netlist_of self.new.design ≡ netlist_of self.old.design) }
    {
        self.design.regs.reserve(draft.regs.len())?;
        self.design.wires.reserve(draft.wires.len())?;
        self.design.regs.extend_from_slice(&draft.regs)?;
        self.design.wires.extend_from_slice(&draft.wires)?;
        Ok(pins)
    }

    fn add_memory(&mut self, alloc: Global, memory: Mem) -> Result<Pins, AllocError>
        ensures grown { OnOk result (netlist_of self.new.design ≡ grown (netlist_of self.old.design) [] (memory_of memory ∷ []) (port_wires (length self.old.design.mems.items) memory.bits memory.ports.items)) }
        ensures atoms { IfOk result (λ p. p.atoms.items ≡ wires_from (length self.old.design.wires.items) (length memory.ports.items)) }
        ensures unchanged { OnErr result (netlist_of self.new.design ≡ netlist_of self.old.design) }
    {
        let mut draft = Draft::new(alloc, &self.design);
        let Ok(number) = u32::try_from(self.design.mems.len()) else {
            return Err(AllocError);
        };
        let pins = words_at_ports(alloc, &mut draft, number, memory.bits, &memory.ports)?;
        self.design.wires.reserve(draft.wires.len())?;
        self.design.mems.reserve(1)?;
        self.design.mems.push(memory)?;
        self.design.wires.extend_from_slice(&draft.wires)?;
        Ok(pins)
    }

    pub fn finish(self) -> Design
        ensures { result ≡ self.design }
    {
        self.design
    }
}

fn pins_of_one(alloc: Global, atom: Atom) -> Result<Pins, AllocError>
    ensures { IfOk result (λ p. p.atoms.items ≡ atom ∷ []) }
{
    let atoms = vec![in alloc; atom]?;
    Ok(Pins { atoms })
}

/// The word at a port's address.
fn word_at(draft: &mut Draft, number: u32, bits: u8, port: Port) -> Result<Atom, AllocError>
    ensures atom { IfOk result (λ a. a ≡ Atom.Wire draft.old.next_wire) }
    ensures wires { OnOk result (draft.new.wires.items ≡ draft.old.wires.items ++ port_wire number bits port ∷ []) }
    ensures regs { draft.new.regs.items ≡ draft.old.regs.items }
    ensures first_reg { draft.new.first_reg ≡ draft.old.first_reg }
    ensures next_wire { OnOk result (draft.new.next_wire ≡ draft.old.next_wire + 1) }
{
    let addr = port.addr;
    draft.wire(bits, Net::Word { mem: number, addr })
}

/// The word at each port's address.
fn words_at_ports(
    alloc: Global,
    draft: &mut Draft,
    number: u32,
    bits: u8,
    ports: &[Port],
) -> Result<Pins, AllocError>
    requires no_wires { draft.old.wires.items ≡ [] }
    ensures regs { draft.new.regs.items ≡ draft.old.regs.items }
    ensures wires { OnOk result (draft.new.wires.items ≡ port_wires number bits ports.now) }
    ensures atoms { IfOk result (λ p. p.atoms.items ≡ wires_from draft.old.next_wire (length ports.now)) }
{
    let mut atoms = Vec::with_capacity(alloc, ports.len())?;
    for port in ports {
        atoms.push(word_at(draft, number, bits, *port)?)?;
    }
    Ok(Pins { atoms })
}
