//! Lengths and initialisers: rules 13, 17, 21 and 22.
use crate::fault::{Case, disagreeing};
use std::test::Fail as TestFail;

#[test]
fn lengths_in_range(rt: HostRuntime) -> Result<(), TestFail> {
    let cases: [Case; 5] = [
        ("int x[65536];int f(int a){return a;}", None),
        ("int x[65537];int f(int a){return a;}", Some((13, 1, 5))),
        ("int x[0];int f(int a){return a;}", Some((13, 1, 5))),
        ("int x[];int f(int a){return a;}", Some((13, 1, 5))),
        ("int x[257][256];int f(int a){return a;}", Some((13, 1, 5))),
    ];
    assert_eq!(rt; disagreeing(rt.alloc(), &cases)?, None);
    Ok(())
}

#[test]
fn lengths_that_are_no_constants(rt: HostRuntime) -> Result<(), TestFail> {
    let cases: [Case; 3] = [
        ("int x[1/0];int f(int a){return a;}", Some((17, 1, 5))),
        (
            "int t[4];const int c=1;int m[2][2];int f(int a){int x[a];return 1;}",
            Some((17, 1, 53)),
        ),
        ("int x[1/0][0];int f(int a){return a;}", Some((13, 1, 5))),
    ];
    assert_eq!(rt; disagreeing(rt.alloc(), &cases)?, None);
    Ok(())
}

#[test]
fn values_of_initialisers(rt: HostRuntime) -> Result<(), TestFail> {
    let cases: [Case; 2] = [
        ("int x=1/0;int f(int a){return a;}", Some((17, 1, 5))),
        (
            "int t[4];const int c=1;int m[2][2];int f(int a){int x=a;return 1;}",
            None,
        ),
    ];
    assert_eq!(rt; disagreeing(rt.alloc(), &cases)?, None);
    Ok(())
}

#[test]
fn shapes_of_initialisers(rt: HostRuntime) -> Result<(), TestFail> {
    let cases: [Case; 5] = [
        ("int x[2]={1,1};int f(int a){return a;}", None),
        ("int x[2]={1,1,1};int f(int a){return a;}", Some((22, 1, 5))),
        ("int x[2]=1;int f(int a){return a;}", Some((22, 1, 5))),
        ("int x={1};int f(int a){return a;}", Some((22, 1, 5))),
        ("int x[]={1,1,1};int f(int a){return a;}", None),
    ];
    assert_eq!(rt; disagreeing(rt.alloc(), &cases)?, None);
    Ok(())
}

#[test]
fn words_that_are_kept(rt: HostRuntime) -> Result<(), TestFail> {
    let cases: [Case; 2] = [
        (
            "int x[40000];int y[10];int f(void){return 1;}",
            Some((21, 1, 18)),
        ),
        ("int x[40000];const int y[10];int f(void){return 1;}", None),
    ];
    assert_eq!(rt; disagreeing(rt.alloc(), &cases)?, None);
    Ok(())
}
