//! The multipliers and dividers that operations share.
ghost use Rattle.std.specs.Prelude.{◌≡◌, ◌++◌, ◌∷◌, ℕ, [], List, Bool, true, false, not, map, IfOk};
ghost use Rattle.std.specs.List.{All};
ghost use Rattle.rtl_core.specs.Netlist.{Netlist};
ghost use Rattle.rtl_core.specs.Valid.{IsBetween};
ghost use Rattle.rtl_units.specs.Division.{is_unsigned};
ghost use Rattle.rtl_logic.specs.Making.{circuit};
ghost use Rattle.rtl_logic.specs.Choosing.{is_any_wanted};
ghost use Rattle.datapath.specs.Plans.{Plan};
ghost use Rattle.datapath.specs.Cycles.{Register, Cycle};
ghost use Rattle.datapath.specs.Units.{argument_writes, has_signs, is_dividing};
ghost use Rattle.datapath.specs.CircuitWires.Carrying.{IsBegun, Tells, MakesTelling};
ghost use Rattle.circuit_context.specs.declared.wanted.log.Push.{Push};
ghost use Rattle.circuit_context.specs.declared.wanted.role.SharedUnit.{SharedUnit};
ghost use Rattle.circuit_context.specs.declared.wanted.role.Target.{Target};
ghost use Rattle.circuit_context.specs.Wanted.Roles.{class_of, given, choices_of};
ghost use Rattle.circuit_context.specs.Wanted.Entries.{all_demands};
ghost use Rattle.circuit_context.specs.Wanted.Logs.{ArePushes, CarriesSome};
ghost use Rattle.circuit_context.specs.Contexts.{IsContext};
ghost use Rattle.circuit_units.specs.Units.{AddsUnits, HasAnswers, answer_of, registers_of};
ghost use Rattle.circuit_units.specs.Units.Adding.{wanted_in, AreBits, AreDemands, MakesWanted, AreInputs, MakesInputs, signs_of, AreSigns, Adds, AddsOne};

use crate::units::uses::{UnitUse, has_signs, units_of, uses_of};
use circuit_context::context::Context;
use circuit_context::wanted::log::Groups;
use circuit_context::wanted::role::{SharedUnit, Target, UnitKind};
use hls_base::refusal::impossible;
use rtl_core::design::Atom;
use rtl_logic::logic::Logic;
use rtl_logic::select::Choice;
use rtl_units::builder::Fragment;
use std::alloc::{AllocError, Global};

/// A unit, what it is given, and what it gives: the product; or the quotient first and the remainder second.
#[derive(Clone, Copy)]
pub struct UnitWires {
    pub unit: SharedUnit,
    pub left: Atom,
    pub right: Atom,
    pub signed: Atom,
    pub first: Atom,
    pub second: Atom,
}

/// All units, in the order in which operations first use them.
#[derive(Drop)]
pub struct UnitTable {
    pub wires: Vec<UnitWires>,
}

/// What a unit is given.
#[derive(Clone, Copy)]
struct UnitInputs {
    left: Atom,
    right: Atom,
    signed: Atom,
}

/// What is wanted of a target of so many bits.
fn wanted(
    alloc: Global,
    logic: &mut Logic,
    groups: &Groups,
    bits: u8,
    target: Target,
) -> Result<Atom, AllocError>
    ensures { (p : Plan) (names : List Register) → AreDemands p names (circuit logic.old) groups.now → IsBetween 1 64 bits → AreBits p target bits
        → IfOk result (λ a. MakesWanted p names (circuit logic.old) (circuit logic.new) bits a (wanted_in target (all_demands p))) }
{
    logic.selected(alloc, bits, groups.choices(target))
}

/// What is wanted of a unit.
fn inputs(
    alloc: Global,
    logic: &mut Logic,
    groups: &Groups,
    unit: SharedUnit,
) -> Result<UnitInputs, AllocError>
    ensures { (p : Plan) (names : List Register) → AreDemands p names (circuit logic.old) groups.now → IsBetween 1 64 unit.bits
        → IfOk result (MakesInputs p names (circuit logic.old) (circuit logic.new) unit) }
{
    let left = wanted(alloc, logic, groups, unit.bits, Target::Left(unit))?;
    let right = wanted(alloc, logic, groups, unit.bits, Target::Right(unit))?;
    let signed = wanted(alloc, logic, groups, 1, Target::Signed(unit))?;
    Ok(UnitInputs {
        left,
        right,
        signed,
    })
}

fn whens_of(alloc: Global, choices: &[Choice]) -> Result<Vec<Atom>, AllocError>
    ensures { IfOk result (λ whens. whens.items ≡ map (λ (c : Choice). c.when) choices.now) }
{
    let mut whens = Vec::with_capacity(alloc, choices.len())?;
    for choice in choices {
        whens.push(choice.when)?;
    }
    Ok(whens)
}

/// Whether an operation gives a unit operands.
fn starts(
    alloc: Global,
    logic: &mut Logic,
    groups: &Groups,
    unit: SharedUnit,
) -> Result<Atom, AllocError>
    ensures { (p : Plan) (names : List Register) → AreDemands p names (circuit logic.old) groups.now
        → IfOk result (λ a. MakesTelling p names (circuit logic.old) (circuit logic.new) a (λ (c : Cycle). is_any_wanted (argument_writes p c (class_of unit) unit.number 0))) }
{
    let whens = whens_of(alloc, groups.choices(Target::Left(unit)))?;
    logic.any(alloc, &whens)
}

fn add_multiplier(
    alloc: Global,
    logic: &mut Logic,
    unit: SharedUnit,
    given: UnitInputs,
) -> Result<UnitWires, AllocError>
    ensures adds { (p : Plan) (names : List Register) → IsBegun p names (circuit logic.old) → unit.kind ≡ UnitKind.Multiplier → IsBetween 1 64 unit.bits → AreInputs p names (circuit logic.old) unit given
        → IfOk result (AddsOne p names (circuit logic.old) (circuit logic.new)) }
    ensures unit { IfOk result (λ w. w.unit ≡ unit) }
{
    let UnitInputs {
        left,
        right,
        signed,
    } = given;
    let bits = unit.bits;
    let pins = logic
        .builder
        .add(alloc, Fragment::Multiplier { bits, left, right })?;
    let product = logic.next_of(pins.atoms[0]);
    Ok(UnitWires {
        unit,
        left,
        right,
        signed,
        first: product,
        second: product,
    })
}

/// Whether the atom is the constant 0.
fn is_zero(atom: Atom) -> bool
    ensures { result ≡ is_unsigned atom }
{
    match atom {
        Atom::Constant { value, .. } => value == 0,
        _ => false,
    }
}

fn add_divider(
    alloc: Global,
    logic: &mut Logic,
    unit: SharedUnit,
    given: UnitInputs,
    start: Atom,
) -> Result<UnitWires, AllocError>
    ensures adds { (p : Plan) (names : List Register) → IsBegun p names (circuit logic.old) → unit.kind ≡ UnitKind.Divider → IsBetween 32 64 unit.bits → AreInputs p names (circuit logic.old) unit given
        → Tells p names (circuit logic.old) start (λ (c : Cycle). is_dividing p c unit.bits unit.number) → is_unsigned given.signed ≡ not (has_signs p unit.bits unit.number)
        → IfOk result (AddsOne p names (circuit logic.old) (circuit logic.new)) }
    ensures unit { IfOk result (λ w. w.unit ≡ unit) }
{
    let UnitInputs {
        left,
        right,
        signed,
    } = given;
    let fragment = Fragment::Divider {
        bits: unit.bits,
        signed,
        start,
        left,
        right,
    };
    let pins = logic.builder.add(alloc, fragment)?;
    Ok(UnitWires {
        unit,
        left,
        right,
        signed,
        first: pins.atoms[0],
        second: pins.atoms[1],
    })
}

/// Adds a divider. It has registers for signs if an operation divides with signs.
fn add_division(
    alloc: Global,
    logic: &mut Logic,
    groups: &Groups,
    division: UnitUse,
) -> Result<UnitWires, AllocError>
    requires { IsBetween 32 64 division.unit.bits }
    ensures adds { (p : Plan) (names : List Register) → AreDemands p names (circuit logic.old) groups.now → division.unit.kind ≡ UnitKind.Divider → division.signed ≡ signs_of p division.unit
        → IfOk result (AddsOne p names (circuit logic.old) (circuit logic.new)) }
    ensures unit { IfOk result (λ w. w.unit ≡ division.unit) }
{
    let unit = division.unit;
    let start = starts(alloc, logic, groups, unit)?;
    let given = inputs(alloc, logic, groups, unit)?;
    if is_zero(given.signed) == division.signed {
        return Err(impossible());
    }
    add_divider(alloc, logic, unit, given, start)
}

fn add_multiplication(
    alloc: Global,
    logic: &mut Logic,
    groups: &Groups,
    unit: SharedUnit,
) -> Result<UnitWires, AllocError>
    requires { IsBetween 32 64 unit.bits }
    ensures adds { (p : Plan) (names : List Register) → AreDemands p names (circuit logic.old) groups.now → unit.kind ≡ UnitKind.Multiplier
        → IfOk result (AddsOne p names (circuit logic.old) (circuit logic.new)) }
    ensures unit { IfOk result (λ w. w.unit ≡ unit) }
{
    let given = inputs(alloc, logic, groups, unit)?;
    add_multiplier(alloc, logic, unit, given)
}

fn add_unit(
    alloc: Global,
    logic: &mut Logic,
    groups: &Groups,
    shared: UnitUse,
) -> Result<UnitWires, AllocError>
    requires { IsBetween 32 64 shared.unit.bits }
    ensures adds { (p : Plan) (names : List Register) → AreDemands p names (circuit logic.old) groups.now → shared.signed ≡ signs_of p shared.unit
        → IfOk result (AddsOne p names (circuit logic.old) (circuit logic.new)) }
    ensures unit { IfOk result (λ w. w.unit ≡ shared.unit) }
{
    match shared.unit.kind {
        UnitKind::Multiplier => add_multiplication(alloc, logic, groups, shared.unit),
        UnitKind::Divider => add_division(alloc, logic, groups, shared),
    }
}

fn add_each(
    alloc: Global,
    logic: &mut Logic,
    groups: &Groups,
    units: &[SharedUnit],
    uses: &[UnitUse],
) -> Result<Vec<UnitWires>, AllocError>
    requires { All (λ (unit : SharedUnit). IsBetween 32 64 unit.bits) units.now }
    ensures adds { (p : Plan) (names : List Register) → AreDemands p names (circuit logic.old) groups.now → AreSigns p uses.now
        → IfOk result (λ wires. Adds p names (circuit logic.old) (circuit logic.new) wires.items) }
    ensures units { IfOk result (λ wires. map (λ (w : UnitWires). w.unit) wires.items ≡ units.now) }
{
    let mut wires = Vec::with_capacity(alloc, units.len())?;
    for each in units {
        let unit = *each;
        let signed = has_signs(uses, unit);
        wires.push(add_unit(alloc, logic, groups, UnitUse { unit, signed })?)?;
    }
    Ok(wires)
}

/// Adds the units of a program, which are given what is wanted of them.
pub fn add_units(
    of: &Context<'_>,
    logic: &mut Logic,
    groups: &Groups,
) -> Result<UnitTable, AllocError>
    ensures adds { (p : Plan) (names : List Register) (pushes : List Push) → IsContext p names of.now → IsBegun p names (circuit logic.old)
        → ArePushes p names (circuit logic.old) pushes (all_demands p) → ((t : Target) → given groups.now t ≡ choices_of t pushes)
        → IfOk result (λ table. AddsUnits p names (circuit logic.old) (circuit logic.new) table) }
    ensures answers { (p : Plan) (names : List Register) (pushes : List Push) → IsContext p names of.now → IsBegun p names (circuit logic.old)
        → ArePushes p names (circuit logic.old) pushes (all_demands p) → ((t : Target) → given groups.now t ≡ choices_of t pushes)
        → IfOk result (λ table. HasAnswers p (names ++ registers_of p table) (circuit logic.new) table) }
{
    let uses = uses_of(of.alloc, of.cfg)?;
    let units = units_of(of.alloc, &uses)?;
    let wires = add_each(of.alloc, logic, groups, units.as_slice(), &uses)?;
    Ok(UnitTable { wires })
}

impl UnitTable {
    /// What a unit gives.
    pub fn answer(&self, unit: SharedUnit, second: bool) -> Result<Atom, AllocError>
        ensures { (p : Plan) (names : List Register) (d : Netlist) → HasAnswers p names d self.now → IfOk result (λ a. CarriesSome p names d a (answer_of p unit second)) }
    {
        for each in &self.wires {
            if each.unit == unit {
                return Ok(if second { each.second } else { each.first });
            }
        }
        Err(impossible())
    }
}
