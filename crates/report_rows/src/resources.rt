//! What a circuit is built of.
ghost use Rattle.std.specs.Prelude.{◌≡◌, ◌↔◌, IfOk, IsTrue, map, length, take};
ghost use Rattle.std.specs.List.{All};
ghost use Rattle.rtl_core.specs.Netlist.{netlist_of, memory_of};
ghost use Rattle.rtl_core.specs.Resources.{multipliers, dividers};
ghost use Rattle.report_rows.specs.Resources.{shape_of, row_shape, declared_names, FitsRow, HasRows, IsReportable};

use cycle_report::report::MemoryRow;
use hls_base::text::Text;
use ir_core::cfg::{Cfg, Frame, Memory};
use ir_core::timed::Timed;
use rtl_core::design::{Design, Mem};
use std::alloc::{AllocError, Global};

/// The multipliers and dividers of each width.
#[derive(Clone, Copy, PartialEq, Eq)]
pub struct UnitCounts {
    pub mul32: u32,
    pub mul64: u32,
    pub div32: u32,
    pub div64: u32,
}

/// The units of a circuit, and its memories with the names that the program declares.
#[derive(Drop)]
pub struct Resources {
    pub units: UnitCounts,
    pub memories: Vec<MemoryRow>,
}

/// A count as the report prints it.
fn counted(count: u64) -> Result<u32, AllocError>
    ensures { IfOk result (λ n. n ≡ count) }
{
    match u32::try_from(count) {
        Ok(count) => Ok(count),
        Err(_) => Err(AllocError),
    }
}

fn unit_counts(design: &Design) -> Result<UnitCounts, AllocError>
    ensures mul32 { IfOk result (λ u. u.mul32 ≡ multipliers 32 (netlist_of design.now)) }
    ensures mul64 { IfOk result (λ u. u.mul64 ≡ multipliers 64 (netlist_of design.now)) }
    ensures div32 { IfOk result (λ u. u.div32 ≡ dividers 32 (netlist_of design.now)) }
    ensures div64 { IfOk result (λ u. u.div64 ≡ dividers 64 (netlist_of design.now)) }
{
    Ok(UnitCounts {
        mul32: counted(design.multipliers(32))?,
        mul64: counted(design.multipliers(64))?,
        div32: counted(design.dividers(32))?,
        div64: counted(design.dividers(64))?,
    })
}

/// The memory with the name that the program gives it.
fn memory_row(alloc: Global, name: &Text, built: &Mem) -> Result<MemoryRow, AllocError>
    requires { FitsRow built.now }
    ensures shape { IfOk result (λ m. row_shape m ≡ shape_of (memory_of built.now)) }
    ensures name { IfOk result (λ m. m.name ≡ name.now) }
{
    Ok(MemoryRow {
        name: name.copy(alloc)?,
        bits: built.bits,
        depth: 2u32.pow(u32::from(built.depth_log)),
        ports: built.ports.len() as u8,
    })
}

/// The names of the memories that are no tables.
fn memory_names<'m>(alloc: Global, memories: &'m [Memory]) -> Result<Vec<&'m Text>, AllocError>
    ensures { IfOk result (λ v. map (λ name. name.now) v.items ≡ declared_names memories.now) }
{
    let mut names = Vec::new(alloc);
    for memory in memories {
        if memory.table.is_none() {
            names.push(&memory.name)?;
        }
    }
    Ok(names)
}

/// A row for each memory of the circuit, which are those of the program without its tables.
fn memory_rows(alloc: Global, names: &[&Text], built: &[Mem]) -> Result<Vec<MemoryRow>, AllocError>
    requires fit { All FitsRow built.now }
    requires count { length names.now ≡ length built.now }
    ensures shapes { IfOk result (λ v. map row_shape v.items ≡ map shape_of (map memory_of built.now)) }
    ensures names { IfOk result (λ v. map (λ row. row.name) v.items ≡ map (λ name. name.now) names.now) }
{
    let mut rows = Vec::with_capacity(alloc, built.len())?;
    for number in 0..built.len() {
        rows.push(memory_row(alloc, names[number], &built[number])?)?;
    }
    Ok(rows)
}

/// What a circuit is built of, with the names of the program's memories.
pub fn resources_of(alloc: Global, frame: &Frame, design: &Design) -> Result<Resources, AllocError>
    requires { HasRows frame.now.memories.items design.now.mems.items }
    ensures mul32 { IfOk result (λ r. r.units.mul32 ≡ multipliers 32 (netlist_of design.now)) }
    ensures mul64 { IfOk result (λ r. r.units.mul64 ≡ multipliers 64 (netlist_of design.now)) }
    ensures div32 { IfOk result (λ r. r.units.div32 ≡ dividers 32 (netlist_of design.now)) }
    ensures div64 { IfOk result (λ r. r.units.div64 ≡ dividers 64 (netlist_of design.now)) }
    ensures memories { IfOk result (λ r. map row_shape r.memories.items ≡ map shape_of (netlist_of design.now).mems) }
    ensures names { IfOk result (λ r. map (λ row. row.name) r.memories.items ≡ declared_names frame.now.memories.items) }
{
    let units = unit_counts(design)?;
    let names = memory_names(alloc, &frame.memories)?;
    let memories = memory_rows(alloc, &names, &design.mems)?;
    Ok(Resources { units, memories })
}

/// How many memories are no tables.
fn declared_count(memories: &[Memory]) -> usize
    ensures { result ≡ length (declared_names memories.now) }
{
    let mut count = 0;
    for declared in memories {
        if declared.table.is_none() {
            count += 1;
        }
    }
    count
}

fn fits_row(built: &Mem) -> bool
    ensures { IsTrue result ↔ FitsRow built.now }
{
    built.depth_log <= 16 && built.ports.len() < 256
}

fn fit_rows(built: &[Mem]) -> bool
    ensures { IsTrue result ↔ All FitsRow built.now }
{
    built.iter().all(|mem| fits_row(mem))
}

fn has_rows(memories: &[Memory], built: &[Mem]) -> bool
    ensures { IsTrue result ↔ HasRows memories.now built.now }
{
    fit_rows(built) && declared_count(memories) == built.len()
}

/// Whether a report has room for a program with times and its circuit.
pub fn is_reportable(timed: &Cfg<Timed>, design: &Design) -> bool
    ensures { IsTrue result ↔ IsReportable timed.now design.now }
{
    timed.nodes.len() < 1 << 31 && has_rows(&timed.frame.memories, &design.mems)
}
