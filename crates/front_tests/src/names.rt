//! Names that are declared: rules 7, 8 and 9.
use crate::fault::{Case, disagreeing};
use std::test::Fail as TestFail;

#[test]
fn names_that_are_not_declared(rt: HostRuntime) -> Result<(), TestFail> {
    let cases: [Case; 2] = [
        (
            "int t[4];const int c=1;int m[2][2];int f(int a){return a;}",
            None,
        ),
        (
            "int t[4];const int c=1;int m[2][2];int f(int a){return x;}",
            Some((7, 1, 56)),
        ),
    ];
    assert_eq!(rt; disagreeing(rt.alloc(), &cases)?, None);
    Ok(())
}

#[test]
fn names_that_are_declared_twice(rt: HostRuntime) -> Result<(), TestFail> {
    let cases: [Case; 2] = [
        (
            "int t[4];const int c=1;int m[2][2];int f(int a){int a;return x;}",
            Some((8, 1, 53)),
        ),
        (
            "int t[4];const int c=1;int m[2][2];int f(int a){{int a[2];}return a;}",
            None,
        ),
    ];
    assert_eq!(rt; disagreeing(rt.alloc(), &cases)?, None);
    Ok(())
}

#[test]
fn declarations_that_disagree(rt: HostRuntime) -> Result<(), TestFail> {
    let cases: [Case; 3] = [
        ("int f(const int a);int f(int a){return a;}", None),
        (
            "unsigned f(int a);int f(int a){return a;}",
            Some((8, 1, 23)),
        ),
        (
            "int f(int a){return 1;}int f(int a){return 1;}",
            Some((8, 1, 28)),
        ),
    ];
    assert_eq!(rt; disagreeing(rt.alloc(), &cases)?, None);
    Ok(())
}

#[test]
fn parameters_that_disagree(rt: HostRuntime) -> Result<(), TestFail> {
    let cases: [Case; 4] = [
        ("int f(int p[4]);int f(int q[4]){return 1;}", None),
        (
            "int f(int p[4]);int f(int q[3]){return 1;}",
            Some((8, 1, 21)),
        ),
        ("int f(int p[4]);int f(int q){return 1;}", Some((8, 1, 21))),
        (
            "int f(int p[4]);int f(const int q[4]){return 1;}",
            Some((8, 1, 21)),
        ),
    ];
    assert_eq!(rt; disagreeing(rt.alloc(), &cases)?, None);
    Ok(())
}

#[test]
fn parameters_without_names(rt: HostRuntime) -> Result<(), TestFail> {
    let cases: [Case; 2] = [
        ("int f(int){return 1;}", Some((9, 1, 7))),
        ("int f(int);int f(int a){return 1;}", None),
    ];
    assert_eq!(rt; disagreeing(rt.alloc(), &cases)?, None);
    Ok(())
}
