//! What a command on modules gives.
ghost use Rattle.std.specs.Prelude.{IfOk};
ghost use Rattle.module_commands.specs.Outcomes.{IsRefusal, IsSettled};

use crate::lines::module_refusal_line;
use hls_base::refusal::{Fail, Refusal};
use hls_base::text::Text;
use std::alloc::{AllocError, Global};

/// A status, the line that is printed, and the bytes of the file that is written, if any. The status is 0, or 8 if a module is rejected.
#[derive(Drop)]
pub struct Outcome {
    pub status: u8,
    pub line: Text,
    pub written: Option<Text>,
}

/// The outcome if a module is rejected.
pub fn refusal(alloc: Global, why: Refusal) -> Result<Outcome, AllocError>
    ensures { IfOk result (IsRefusal why) }
{
    Ok(Outcome {
        status: 8,
        line: module_refusal_line(alloc, why)?,
        written: None,
    })
}

/// The outcome of a command from that of its work: a rejection becomes an outcome.
pub fn settled(alloc: Global, work: Result<Outcome, Fail>) -> Result<Outcome, AllocError>
    ensures { IfOk result (IsSettled work) }
{
    match work {
        Ok(outcome) => Ok(outcome),
        Err(Fail::Refused(why)) => refusal(alloc, why),
        Err(Fail::Memory) => Err(AllocError),
    }
}
