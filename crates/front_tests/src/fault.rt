//! The first fault of a source.
use checked_source::read::{read_checked, read_program};
use hls_base::refusal::Fail;
use hls_base::text::Text;
use std::alloc::{AllocError, Global};
use std::test::Fail as TestFail;

/// A rule, and the line and the column where it is broken.
pub type Fault = (u8, u32, u32);

/// A source, and the fault that it has, if it has one.
pub type Case = (&'static str, Option<Fault>);

fn fault_of(fail: Fail) -> Result<Option<Fault>, AllocError> {
    match fail {
        Fail::Refused(r) => Ok(Some((r.rule, r.place.line, r.place.column))),
        Fail::Memory => Err(AllocError),
    }
}

/// The fault of a source whose tokens are no program within the limits.
pub fn syntax_fault(alloc: Global, source: &str) -> Result<Option<Fault>, AllocError> {
    match read_program(alloc, source.as_bytes()) {
        Ok(_) => Ok(None),
        Err(fail) => fault_of(fail),
    }
}

/// The fault of a source whose top function is `f`.
pub fn fault(alloc: Global, source: &str) -> Result<Option<Fault>, AllocError> {
    match read_checked(alloc, source.as_bytes(), &Text::from_slice(alloc, b"f")?) {
        Ok(_) => Ok(None),
        Err(fail) => fault_of(fail),
    }
}

/// The first of these sources that has another fault, with the fault that it has.
pub fn disagreeing(alloc: Global, cases: &[Case]) -> Result<Option<Case>, TestFail> {
    for (source, wanted) in cases {
        let found = fault(alloc, source)?;
        if found != *wanted {
            return Ok(Some((*source, found)));
        }
    }
    Ok(None)
}
