//! Jumps and the labels of a switch: rules 15, 16 and 17.
use crate::fault::{Case, disagreeing};
use std::test::Fail as TestFail;

#[test]
fn jumps_and_labels_outside(rt: HostRuntime) -> Result<(), TestFail> {
    let cases: [Case; 4] = [
        (
            "int t[4];const int c=1;int m[2][2];int f(int a){break;}",
            Some((15, 1, 49)),
        ),
        (
            "int t[4];const int c=1;int m[2][2];int f(int a){default:break;}",
            Some((15, 1, 49)),
        ),
        (
            "int t[4];const int c=1;int m[2][2];int f(int a){switch(a){break;continue;}return 1;}",
            Some((15, 1, 65)),
        ),
        (
            "int t[4];const int c=1;int m[2][2];int f(int a){switch(a){if(a)case 1:break;}return 1;}",
            Some((15, 1, 64)),
        ),
    ];
    assert_eq!(rt; disagreeing(rt.alloc(), &cases)?, None);
    Ok(())
}

#[test]
fn labels_that_are_the_same(rt: HostRuntime) -> Result<(), TestFail> {
    let cases: [Case; 4] = [
        (
            "int t[4];const int c=1;int m[2][2];int f(int a){switch(a){case 1:case 1:break;}return 1;}",
            Some((16, 1, 66)),
        ),
        (
            "int t[4];const int c=1;int m[2][2];int f(int a){switch(a){default:break;default:break;}return 1;}",
            Some((16, 1, 73)),
        ),
        (
            "int t[4];const int c=1;int m[2][2];int f(int a){switch(a){case 0:break;case 4294967296:break;}return 1;}",
            Some((16, 1, 72)),
        ),
        (
            "int t[4];const int c=1;int m[2][2];int f(int a){switch((long)a){case 0:break;case 4294967296:break;}return 1;}",
            None,
        ),
    ];
    assert_eq!(rt; disagreeing(rt.alloc(), &cases)?, None);
    Ok(())
}

#[test]
fn cases_without_a_value(rt: HostRuntime) -> Result<(), TestFail> {
    let cases: [Case; 1] = [(
        "int t[4];const int c=1;int m[2][2];int f(int a){switch(a){case 1/0:break;}return 1;}",
        Some((17, 1, 59)),
    )];
    assert_eq!(rt; disagreeing(rt.alloc(), &cases)?, None);
    Ok(())
}
