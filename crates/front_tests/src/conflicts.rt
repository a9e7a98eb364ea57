//! Changes in conflict: rule 24.
use crate::fault::{Case, disagreeing};
use std::test::Fail as TestFail;

#[test]
fn operands_in_conflict(rt: HostRuntime) -> Result<(), TestFail> {
    let cases: [Case; 5] = [
        (
            "int t[4];const int c=1;int m[2][2];int f(int a){return a++ + a;}",
            Some((24, 1, 57)),
        ),
        (
            "int t[4];const int c=1;int m[2][2];int f(int a){return a++ + a++;}",
            Some((24, 1, 57)),
        ),
        (
            "int t[4];const int c=1;int m[2][2];int f(int a){return a + a++;}",
            Some((24, 1, 61)),
        ),
        (
            "int t[4];const int c=1;int m[2][2];int f(int a){return a++ && a;}",
            None,
        ),
        (
            "int t[4];const int c=1;int m[2][2];int f(int a){return a + a;}",
            None,
        ),
    ];
    assert_eq!(rt; disagreeing(rt.alloc(), &cases)?, None);
    Ok(())
}

#[test]
fn subscripts_in_conflict(rt: HostRuntime) -> Result<(), TestFail> {
    let cases: [Case; 1] = [(
        "int t[4];const int c=1;int m[2][2];int f(int a){return m[a][a++];}",
        Some((24, 1, 62)),
    )];
    assert_eq!(rt; disagreeing(rt.alloc(), &cases)?, None);
    Ok(())
}

#[test]
fn arguments_in_conflict(rt: HostRuntime) -> Result<(), TestFail> {
    let cases: [Case; 2] = [
        (
            "int g(int x,int y,int z){return 1;}int f(int a){return g(a++,a,1);}",
            Some((24, 1, 59)),
        ),
        (
            "int g(int x,int y,int z){return 1;}int f(int a){return g(a,1,a++);}",
            Some((24, 1, 63)),
        ),
    ];
    assert_eq!(rt; disagreeing(rt.alloc(), &cases)?, None);
    Ok(())
}

#[test]
fn targets_and_values_in_conflict(rt: HostRuntime) -> Result<(), TestFail> {
    let cases: [Case; 1] = [(
        "int t[4];const int c=1;int m[2][2];int f(int a){return (t[a++]=a);}",
        Some((24, 1, 60)),
    )];
    assert_eq!(rt; disagreeing(rt.alloc(), &cases)?, None);
    Ok(())
}

#[test]
fn changes_inside_an_assignment(rt: HostRuntime) -> Result<(), TestFail> {
    let cases: [Case; 4] = [
        (
            "int t[4];const int c=1;int m[2][2];int f(int a){return (a=a++);}",
            Some((24, 1, 58)),
        ),
        (
            "int t[4];const int c=1;int m[2][2];int f(int a){return (a=a);}",
            None,
        ),
        (
            "int t[4];const int c=1;int m[2][2];int f(int a){return (t[(t[0]=1)]=2);}",
            Some((24, 1, 64)),
        ),
        (
            "int t[4];const int c=1;int m[2][2];int f(int a){return (t[t[0]]=2);}",
            None,
        ),
    ];
    assert_eq!(rt; disagreeing(rt.alloc(), &cases)?, None);
    Ok(())
}

#[test]
fn changes_inside_an_element(rt: HostRuntime) -> Result<(), TestFail> {
    let cases: [Case; 1] = [(
        "int t[4];const int c=1;int m[2][2];int f(int a){return t[(t[0]=1)];}",
        Some((24, 1, 63)),
    )];
    assert_eq!(rt; disagreeing(rt.alloc(), &cases)?, None);
    Ok(())
}
