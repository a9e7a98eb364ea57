//! One run of a module through its pins.
ghost use Rattle.std.specs.Prelude.{◌≡◌, ◌%◌, ◌^◌, length, map, IfOk, IfSome, OnOk};
ghost use Rattle.hls_base.specs.ArrayAddress.{addresses as addresses_of};
ghost use Rattle.rtl_core.specs.Netlist.{netlist_of};
ghost use Rattle.rtl_core.specs.Valid.{IsValid};
ghost use Rattle.rtl_core.specs.Interface.{ready_of, done_of, HasPins};
ghost use Rattle.cosim_levels.specs.Pins.FunctionPins.{plain, shape_of};
ghost use Rattle.cosim_levels.specs.Pins.Host.{clocked_all, waited, first_high, HasHostInputs};
ghost use Rattle.cosim_levels.specs.Pins.ModuleRun.{write_rows, all_write_rows, read_words, behind_reads, read_arrays, started, shown_from, shown_when, run_when, module_run};

use crate::pins::address::addresses;
use crate::pins::driver::Driver;
use crate::pins::interface::{HostArray, Interface};
use hls_base::inputs::Inputs;
use hls_base::words::{Arrays, Words};
use rtl_core::design::Design;
use std::alloc::{AllocError, Global};

/// What a run of a module showed: its result as a bit pattern, where there is one, the elements of its arrays, and the number of the first cycle with `done`, counted from 1 in the cycle behind that of the start.
#[derive(Drop)]
pub struct Shown {
    pub ret: Option<u64>,
    pub arrays: Arrays,
    pub cycles: u64,
}

/// The number of the first cycle with `ready`, of so many at most.
fn first_ready(driver: &mut Driver, cycles: u64) -> Option<u64>
    ensures cycle { result ≡ first_high ready_of driver.old cycles }
    ensures after { IfSome result (λ k. driver.new ≡ waited driver.old k) }
{
    for k in 0..cycles {
        driver.wait();
        if driver.was_ready() {
            return Some(k + 1);
        }
    }
    None
}

/// The number of the first cycle with `done`, of so many at most.
fn first_done(driver: &mut Driver, cycles: u64) -> Option<u64>
    ensures cycle { result ≡ first_high done_of driver.old cycles }
    ensures after { IfSome result (λ k. driver.new ≡ waited driver.old k) }
{
    for k in 0..cycles {
        driver.wait();
        if driver.was_done() {
            return Some(k + 1);
        }
    }
    None
}

fn write_array(driver: &mut Driver, number: u64, addresses: &[u64], words: &[u64])
    ensures { driver.new ≡ clocked_all driver.old (write_rows driver.old.arguments number addresses.now words.now) }
{
    for k in 0..addresses.len().min(words.len()) {
        driver.write(number, addresses[k], words[k]);
    }
}

fn write_arrays(
    alloc: Global,
    driver: &mut Driver,
    arrays: &[HostArray],
    given: &[Words],
) -> Result<(), AllocError>
    requires { HasHostInputs driver.old.netlist }
    ensures { OnOk result (driver.new ≡ clocked_all driver.old (all_write_rows driver.old.arguments 0 (map shape_of arrays.now) given.now)) }
{
    for k in 0..arrays.len().min(given.len()) {
        let addresses = addresses(alloc, &arrays[k].lengths)?;
        write_array(driver, k as u64, &addresses, given[k].items());
    }
    Ok(())
}

/// The lowest bits of a word.
fn low_bits(word: u64, bits: u8) -> u64
    ensures { result ≡ word % 2 ^ bits }
{
    if bits < 64 { word % (1 << bits) } else { word }
}

fn read_at(
    alloc: Global,
    driver: &mut Driver,
    number: u64,
    bits: u8,
    addresses: &[u64],
) -> Result<Words, AllocError>
    ensures words { IfOk result (λ w. w ≡ read_words driver.old number bits addresses.now) }
    ensures after { OnOk result (driver.new ≡ behind_reads driver.old number addresses.now) }
{
    let mut words = Vec::with_capacity(alloc, addresses.len())?;
    for address in addresses {
        let word = driver.read(number, *address);
        words.push(low_bits(word, bits))?;
    }
    Ok(Words::new(words))
}

fn read_array(
    alloc: Global,
    driver: &mut Driver,
    number: u64,
    array: &HostArray,
) -> Result<Words, AllocError>
    requires { HasHostInputs driver.old.netlist }
    ensures words { IfOk result (λ w. w ≡ read_words driver.old number array.now.bits (addresses_of array.now.lengths.items)) }
    ensures after { OnOk result (driver.new ≡ behind_reads driver.old number (addresses_of array.now.lengths.items)) }
{
    let addresses = addresses(alloc, &array.lengths)?;
    read_at(alloc, driver, number, array.bits, &addresses)
}

fn read_arrays(
    alloc: Global,
    driver: &mut Driver,
    arrays: &[HostArray],
) -> Result<Arrays, AllocError>
    requires { HasHostInputs driver.old.netlist }
    ensures { IfOk result (λ all. all ≡ read_arrays driver.old 0 (map shape_of arrays.now)) }
{
    let mut all = Vec::with_capacity(alloc, arrays.len())?;
    for k in 0..arrays.len() {
        all.push(read_array(alloc, driver, k as u64, &arrays[k])?)?;
    }
    Ok(Arrays::new(all))
}

/// What a module shows from the first cycle with `done` on.
fn shown_words(
    alloc: Global,
    driver: &mut Driver,
    interface: &Interface,
    cycles: u64,
) -> Result<Shown, AllocError>
    requires { HasHostInputs driver.old.netlist }
    ensures { IfOk result (λ s. s ≡ shown_from (plain interface.now) driver.old cycles) }
{
    let ret = match interface.result {
        Some(bits) => Some(low_bits(driver.returned(), bits)),
        None => None,
    };
    let arrays = read_arrays(alloc, driver, &interface.arrays)?;
    Ok(Shown {
        ret,
        arrays,
        cycles,
    })
}

/// Waits so many cycles at most for `done`, and reads what is shown then.
fn finish(
    alloc: Global,
    driver: &mut Driver,
    interface: &Interface,
    cycles: u64,
) -> Result<Option<Shown>, AllocError>
    requires { HasHostInputs driver.old.netlist }
    ensures { IfOk result (λ s. s ≡ shown_when (plain interface.now) driver.old (first_high done_of driver.old cycles)) }
{
    match first_done(driver, cycles) {
        Some(count) => Ok(Some(shown_words(alloc, driver, interface, count)?)),
        None => Ok(None),
    }
}

/// Writes all elements, and starts the circuit.
fn begin(
    alloc: Global,
    driver: &mut Driver,
    interface: &Interface,
    inputs: &Inputs,
) -> Result<(), AllocError>
    requires host { HasHostInputs driver.old.netlist }
    requires scalars { length inputs.now.scalars ≡ driver.old.arguments }
    requires arguments { driver.old.arguments ≡ length interface.now.scalars.items }
    ensures { OnOk result (driver.new ≡ started (plain interface.now) driver.old inputs.now.scalars inputs.now.arrays) }
{
    write_arrays(alloc, driver, &interface.arrays, inputs.arrays.items())?;
    driver.start(inputs.scalars.items());
    Ok(())
}

/// Waits so many cycles at most for `ready`, and runs the circuit then.
fn run(
    alloc: Global,
    driver: &mut Driver,
    interface: &Interface,
    inputs: &Inputs,
    cycles: u64,
) -> Result<Option<Shown>, AllocError>
    requires host { HasHostInputs driver.old.netlist }
    requires scalars { length inputs.now.scalars ≡ driver.old.arguments }
    requires arguments { driver.old.arguments ≡ length interface.now.scalars.items }
    ensures { IfOk result (λ s. s ≡ run_when (plain interface.now) driver.old inputs.now.scalars inputs.now.arrays cycles (first_high ready_of driver.old cycles)) }
{
    match first_ready(driver, cycles) {
        Some(_) => {
            begin(alloc, driver, interface, inputs)?;
            finish(alloc, driver, interface, cycles)
        }
        None => Ok(None),
    }
}

/// Runs a circuit with the pins of this interface once. None where the pin that was waited for was low in so many cycles.
pub fn drive(
    alloc: Global,
    design: Design,
    interface: &Interface,
    inputs: &Inputs,
    cycles: u64,
) -> Result<Option<Shown>, AllocError>
    requires valid { IsValid (netlist_of design) }
    requires pins { HasPins (netlist_of design) (plain interface.now) }
    requires scalars { length inputs.now.scalars ≡ length interface.now.scalars.items }
    ensures { IfOk result (λ shown. shown ≡ module_run (netlist_of design) (plain interface.now) inputs.now.scalars inputs.now.arrays cycles) }
{
    let mut driver = Driver::new(alloc, design, interface.scalars.len())?;
    driver.reset();
    run(alloc, &mut driver, interface, inputs, cycles)
}
