//! The work of the commands on files: they are read, and the file of the outcome is written. Nothing is put.
ghost use Rattle.std.specs.Prelude.{◌≡◌, ◌⊎◌, ◌≤◌, length, map, IfOk, OnOk, OnErr, IsErrOf};
ghost use Rattle.hls_base.specs.Outside.{HasRisen, WhereTold, IsAbsent};
ghost use Rattle.command_words.specs.CommandViews.{blast_view, link_view, IsLinkable};
ghost use Rattle.module_commands.specs.Work.{IsTimingWork, IsBlastWork, IsLinkWork, AreFirstTexts, IsOneAbsent, Leaves, IsStoppedWork, CanTime, CanBlast, CanLink};

use crate::blast::blast;
use crate::link::{link, too_many_stages};
use crate::outcome::Outcome;
use crate::timing::timing;
use command_words::command::{Blast, Link};
use hls_base::outside::{Shelf, ShelfError};
use std::alloc::Global;

/// How many bytes of a module are read: one more than the largest has.
const MODULE_BYTES: u32 = 67_108_865;

/// The greatest number of stages of a chain.
const MOST_STAGES: usize = 16;

/// Reads a module, and finds its longest path.
pub fn work_timing<F: Shelf>(
    alloc: Global,
    module_file: &str,
    shelf: &mut F,
) -> Result<Outcome, ShelfError>
    ensures outcome { IfOk result (IsTimingWork module_file.now (F.files shelf.old)) }
    ensures files { F.files shelf.new ≡ F.files shelf.old }
    ensures complete { CanTime (F.files shelf.old) module_file.now → IfOk result (λ o. o.status ≡ 0) }
    ensures failed { IsErrOf result ShelfError.Failed → HasRisen (F.faults shelf.old) (F.faults shelf.new) ⊎ IsAbsent (F.files shelf.old) module_file.now }
    ensures count { F.faults shelf.old ≤ F.faults shelf.new }
{
    let text = shelf.read(alloc, module_file, MODULE_BYTES)?;
    Ok(timing(alloc, text.as_slice())?)
}

/// Writes the file of an outcome, if there is one.
fn leave<F: Shelf>(name: &str, outcome: &Outcome, shelf: &mut F) -> Result<(), ShelfError>
    ensures written { OnOk result (WhereTold (Leaves name.now outcome.now.written) (F.files shelf.old) (F.files shelf.new)) }
    ensures cut_short { OnErr result (IsStoppedWork (λ o. o ≡ outcome.now) name.now (F.files shelf.old) (F.files shelf.new)) }
    ensures failed { IsErrOf result ShelfError.Failed → HasRisen (F.faults shelf.old) (F.faults shelf.new) }
    ensures count { F.faults shelf.old ≤ F.faults shelf.new }
{
    match &outcome.written {
        Some(bytes) => shelf.write(name, bytes.items()),
        None => Ok(()),
    }
}

/// Reads a module, and writes its and-inverter graph.
pub fn work_blast<F: Shelf>(
    alloc: Global,
    command: &Blast,
    shelf: &mut F,
) -> Result<Outcome, ShelfError>
    ensures outcome { IfOk result (IsBlastWork (blast_view command.now) (F.files shelf.old)) }
    ensures files { IfOk result (λ o. WhereTold (Leaves command.now.graph.now o.written) (F.files shelf.old) (F.files shelf.new)) }
    ensures stopped { OnErr result (IsStoppedWork (IsBlastWork (blast_view command.now) (F.files shelf.old)) command.now.graph.now (F.files shelf.old) (F.files shelf.new)) }
    ensures complete { CanBlast (F.files shelf.old) command.now.module_file.now → IfOk result (λ o. o.status ≡ 0) }
    ensures failed { IsErrOf result ShelfError.Failed → HasRisen (F.faults shelf.old) (F.faults shelf.new) ⊎ IsAbsent (F.files shelf.old) command.now.module_file.now }
    ensures count { F.faults shelf.old ≤ F.faults shelf.new }
{
    let text = shelf.read(alloc, command.module_file, MODULE_BYTES)?;
    let outcome = blast(alloc, text.as_slice())?;
    leave(command.graph, &outcome, shelf)?;
    Ok(outcome)
}

/// The first bytes of these files.
fn read_all<F: Shelf>(
    alloc: Global,
    names: &[&str],
    shelf: &mut F,
) -> Result<Vec<Vec<u8>>, ShelfError>
    ensures texts { IfOk result (λ ts. AreFirstTexts (F.files shelf.old) (map (λ n. n.now) names.now) (map (λ t. t.items) ts.items)) }
    ensures files { F.files shelf.new ≡ F.files shelf.old }
    ensures failed { IsErrOf result ShelfError.Failed → HasRisen (F.faults shelf.old) (F.faults shelf.new) ⊎ IsOneAbsent (F.files shelf.old) (map (λ n. n.now) names.now) }
    ensures count { F.faults shelf.old ≤ F.faults shelf.new }
{
    let mut texts = Vec::new(alloc);
    for name in names {
        texts.push(shelf.read(alloc, name, MODULE_BYTES)?)?;
    }
    Ok(texts)
}

/// Reads the modules of the stages, and writes the module that links them.
pub fn work_link<F: Shelf>(
    alloc: Global,
    command: &Link,
    shelf: &mut F,
) -> Result<Outcome, ShelfError>
    requires { IsLinkable (link_view command.now) }
    ensures outcome { IfOk result (IsLinkWork (link_view command.now) (F.files shelf.old)) }
    ensures files { IfOk result (λ o. WhereTold (Leaves command.now.chain.now o.written) (F.files shelf.old) (F.files shelf.new)) }
    ensures stopped { OnErr result (IsStoppedWork (IsLinkWork (link_view command.now) (F.files shelf.old)) command.now.chain.now (F.files shelf.old) (F.files shelf.new)) }
    ensures complete { CanLink (F.files shelf.old) (link_view command.now).stages → IfOk result (λ o. o.status ≡ 0) }
    ensures failed { IsErrOf result ShelfError.Failed → HasRisen (F.faults shelf.old) (F.faults shelf.new) ⊎ ((length (link_view command.now).stages ≤ 16) × IsOneAbsent (F.files shelf.old) (link_view command.now).stages) }
    ensures count { F.faults shelf.old ≤ F.faults shelf.new }
{
    if command.stages.len() > MOST_STAGES {
        return Ok(too_many_stages(alloc)?);
    }
    let texts = read_all(alloc, command.stages.as_slice(), shelf)?;
    let outcome = link(alloc, texts.as_slice(), command.depth)?;
    leave(command.chain, &outcome, shelf)?;
    Ok(outcome)
}
