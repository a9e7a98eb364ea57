//! `link`: modules linked by queues, as a file.
ghost use Rattle.std.specs.Prelude.{◌≡◌, List, IfOk, map};
ghost use Rattle.hls_base.specs.Refusals.{IfRefused};
ghost use Rattle.rtl_core.specs.Netlist.{Netlist, netlist_of};
ghost use Rattle.rtl_core.specs.Valid.{IsBetween};
ghost use Rattle.chain_link.specs.Faults.{refusal_at};
ghost use Rattle.module_commands.specs.Outcomes.{texts_of, AreModules, IsFirstFault, IsRefusal, IsLink, IsLinkRefusal, AreReadAsStages};

use crate::lines::linked_line;
use crate::outcome::{Outcome, refusal, settled};
use chain_link::link as link_circuits;
use hls_base::place::Place;
use hls_base::refusal::{Fail, Refusal};
use rtl_core::design::Design;
use std::alloc::{AllocError, Global};
use verilog_print::printer::print;
use verilog_read::read;

/// The circuits of the texts, or the fault of the first text that has one.
fn read_all(alloc: Global, texts: &[Vec<u8>]) -> Result<Vec<Design>, Fail>
    ensures modules { IfOk result (λ v. AreModules (texts_of texts.now) (map netlist_of v.items)) }
    ensures only { IfOk result (λ v. (ds : List Netlist) → AreModules (texts_of texts.now) ds → ds ≡ map netlist_of v.items) }
    ensures refused { IfRefused result (IsFirstFault (texts_of texts.now)) }
    ensures no_modules { IfRefused result (λ r. (ds : List Netlist) → AreModules (texts_of texts.now) ds → ⊥) }
{
    let mut designs = Vec::new(alloc);
    for text in texts {
        designs.push(read(alloc, text)?)?;
    }
    Ok(designs)
}

fn chain_file(alloc: Global, texts: &[Vec<u8>], depth: u16) -> Result<Outcome, Fail>
    requires { IsBetween 1 1024 depth }
    ensures done { IfOk result (IsLink (texts_of texts.now) depth) }
    ensures status { IfOk result (λ o. o.status ≡ 0) }
    ensures refused { IfRefused result (IsLinkRefusal (texts_of texts.now)) }
    ensures complete { IfRefused result (λ r. AreReadAsStages (texts_of texts.now) → ⊥) }
{
    let stages = read_all(alloc, texts)?;
    let chain = link_circuits(alloc, &stages, depth)?;
    let written = print(alloc, &chain)?;
    Ok(Outcome {
        status: 0,
        line: linked_line(alloc, stages.len())?,
        written: Some(written),
    })
}

/// Links the circuits of these texts by queues of at most `depth` items. All texts are read before the stages are judged.
pub fn link(alloc: Global, texts: &[Vec<u8>], depth: u16) -> Result<Outcome, AllocError>
    requires { IsBetween 1 1024 depth }
    ensures outcome { IfOk result (IsLink (texts_of texts.now) depth) }
    ensures complete { AreReadAsStages (texts_of texts.now) → IfOk result (λ o. o.status ≡ 0) }
{
    settled(alloc, chain_file(alloc, texts, depth))
}

/// The outcome for more than 16 stages, whose texts need not be read.
pub fn too_many_stages(alloc: Global) -> Result<Outcome, AllocError>
    ensures { IfOk result (IsRefusal (refusal_at 82 1)) }
{
    let place = Place {
        line: 1,
        column: 1,
        part: 0,
    };
    refusal(alloc, Refusal { rule: 82, place })
}
