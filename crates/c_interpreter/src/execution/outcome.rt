//! What a run ended with.
ghost use Rattle.std.specs.Prelude.{◌≡◌, map, drop, IfOk};
ghost use Rattle.c_meaning.specs.Run.{patterns, result_pattern};

use c_machine::state::meter::Meter;
use c_meaning::contents::{all_patterns, result_pattern};
use c_meaning::object::Object;
use c_meaning::outcome::Final;
use c_token::ctype::CType;
use std::alloc::{AllocError, Global};

/// What a run ended with: the number that its function of this type returned, and its objects, of which those of file scope stand first.
pub fn final_of(
    alloc: Global,
    kind: Option<CType>,
    number: Option<i128>,
    objects: &[Object],
    file_count: usize,
    meter: &Meter,
) -> Result<Final, AllocError>
    ensures ret { IfOk result (λ f. f.ret ≡ result_pattern kind number) }
    ensures arrays { IfOk result (λ f. f.arrays ≡ map patterns (drop file_count objects.now)) }
    ensures tally { IfOk result (λ f. f.tally ≡ meter.now.counts) }
{
    let first = file_count.min(objects.len());
    let arrays = all_patterns(alloc, &objects[first..])?;
    let tally = meter.tally(alloc)?;
    Ok(Final {
        ret: result_pattern(kind, number),
        arrays,
        tally,
    })
}
