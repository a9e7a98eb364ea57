//! Uses of names, and what functions return: rules 9, 10, 12 and 14.
use crate::fault::{Case, disagreeing};
use std::test::Fail as TestFail;

#[test]
fn names_of_another_sort(rt: HostRuntime) -> Result<(), TestFail> {
    let cases: [Case; 5] = [
        (
            "int t[4];const int c=1;int m[2][2];int f(int a){return t;}",
            Some((9, 1, 56)),
        ),
        (
            "int t[4];const int c=1;int m[2][2];int f(int a){return a[0];}",
            Some((9, 1, 56)),
        ),
        (
            "int t[4];const int c=1;int m[2][2];int f(int a){return f;}",
            Some((9, 1, 56)),
        ),
        (
            "int t[4];const int c=1;int m[2][2];int f(int a){return a();}",
            Some((9, 1, 56)),
        ),
        (
            "int t[4];const int c=1;int m[2][2];int f(int a){return t[0][0];}",
            Some((10, 1, 56)),
        ),
    ];
    assert_eq!(rt; disagreeing(rt.alloc(), &cases)?, None);
    Ok(())
}

#[test]
fn constants_that_are_changed(rt: HostRuntime) -> Result<(), TestFail> {
    let cases: [Case; 2] = [
        (
            "int t[4];const int c=1;int m[2][2];int f(int a){return (c=1);}",
            Some((12, 1, 57)),
        ),
        (
            "int t[4];const int c=1;int m[2][2];int f(int a){(c++);return 1;}",
            Some((12, 1, 50)),
        ),
    ];
    assert_eq!(rt; disagreeing(rt.alloc(), &cases)?, None);
    Ok(())
}

#[test]
fn returns(rt: HostRuntime) -> Result<(), TestFail> {
    let cases: [Case; 2] = [
        (
            "int t[4];const int c=1;int m[2][2];int f(int a){return;}",
            Some((14, 1, 49)),
        ),
        ("void f(int a){return 1;}", Some((14, 1, 15))),
    ];
    assert_eq!(rt; disagreeing(rt.alloc(), &cases)?, None);
    Ok(())
}
