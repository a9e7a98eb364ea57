//! Limits: rules 33, 34 and 35, each at what comes behind the last that is taken.
use crate::fault::fault;
use std::alloc::{AllocError, Global};
use std::test::Fail as TestFail;

/// `before`, so many lines of a part with its number in the middle, and `behind`.
fn numbered(
    alloc: Global,
    before: &str,
    part: (&str, &str),
    times: u32,
    behind: &str,
) -> Result<String, AllocError> {
    let mut source = String::from_str(alloc, before)?;
    for i in 0..times {
        let line = format!(in alloc; "{}{i}{}\n", part.0, part.1)?;
        source.push_str(line.as_str())?;
    }
    source.push_str(behind)?;
    Ok(source)
}

#[test]
fn at_most_64_functions(rt: HostRuntime) -> Result<(), TestFail> {
    let alloc = rt.alloc();
    let part = ("int g", "(void);");
    let most = numbered(alloc, "", part, 63, "int f(void){return 1;}")?;
    assert_eq!(rt; fault(alloc, most.as_str())?, None);
    let above = numbered(alloc, "", part, 64, "int f(void){return 1;}")?;
    assert_eq!(rt; fault(alloc, above.as_str())?, Some((33, 65, 5)));
    Ok(())
}

#[test]
fn at_most_32_parameters(rt: HostRuntime) -> Result<(), TestFail> {
    let alloc = rt.alloc();
    let part = ("int p", ",");
    let most = numbered(alloc, "int f(\n", part, 31, "int p){return 1;}")?;
    assert_eq!(rt; fault(alloc, most.as_str())?, None);
    let above = numbered(alloc, "int f(\n", part, 32, "int p){return 1;}")?;
    assert_eq!(rt; fault(alloc, above.as_str())?, Some((34, 34, 5)));
    Ok(())
}

#[test]
fn at_most_32_arrays(rt: HostRuntime) -> Result<(), TestFail> {
    let alloc = rt.alloc();
    let part = ("int x", "[2];");
    let most = numbered(alloc, "", part, 32, "int f(void){return 1;}")?;
    assert_eq!(rt; fault(alloc, most.as_str())?, None);
    let above = numbered(alloc, "", part, 33, "int f(void){return 1;}")?;
    assert_eq!(rt; fault(alloc, above.as_str())?, Some((35, 33, 5)));
    let inside = numbered(alloc, "int f(void){\n", part, 33, "return 1;}")?;
    assert_eq!(rt; fault(alloc, inside.as_str())?, Some((35, 34, 5)));
    Ok(())
}
