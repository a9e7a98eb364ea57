//! Calls: rules 7, 9, 10, 11, 18 and 19.
use crate::fault::{Case, disagreeing};
use std::test::Fail as TestFail;

#[test]
fn functions_without_a_body(rt: HostRuntime) -> Result<(), TestFail> {
    let cases: [Case; 1] = [("int g(int a);int f(int a){return g(1);}", Some((7, 1, 34)))];
    assert_eq!(rt; disagreeing(rt.alloc(), &cases)?, None);
    Ok(())
}

#[test]
fn wrong_numbers_of_arguments(rt: HostRuntime) -> Result<(), TestFail> {
    let cases: [Case; 1] = [(
        "int t[4];const int c=1;int m[2][2];int f(int a){return f();}",
        Some((10, 1, 56)),
    )];
    assert_eq!(rt; disagreeing(rt.alloc(), &cases)?, None);
    Ok(())
}

#[test]
fn void_calls(rt: HostRuntime) -> Result<(), TestFail> {
    let cases: [Case; 3] = [
        (
            "void g(int a){}int f(int a){return g(1);}",
            Some((9, 1, 36)),
        ),
        ("void g(int a){}int f(int a){return (g(1),2);}", None),
        (
            "void g(int a){}int f(int a){return (g(1),g(1),2);}",
            Some((9, 1, 42)),
        ),
    ];
    assert_eq!(rt; disagreeing(rt.alloc(), &cases)?, None);
    Ok(())
}

#[test]
fn arguments_for_arrays(rt: HostRuntime) -> Result<(), TestFail> {
    let cases: [Case; 7] = [
        (
            "int t[4];int g(int p[4]){return 1;}int f(int a){return g(t);}",
            None,
        ),
        (
            "int t[4];int g(int p[3]){return 1;}int f(int a){return g(t);}",
            Some((11, 1, 56)),
        ),
        (
            "const int t[4];int g(int p[4]){return 1;}int f(int a){return g(t);}",
            Some((11, 1, 62)),
        ),
        (
            "int t[4];int g(const int p[4]){return 1;}int f(int a){return g(t);}",
            None,
        ),
        (
            "int t[4];int g(int p[4]){return 1;}int f(int a){return g(a);}",
            Some((11, 1, 56)),
        ),
        (
            "int t[4];int g(int p[4]){return 1;}int f(int a){return g(1);}",
            Some((11, 1, 56)),
        ),
        (
            "int t[4];int g(int p[4]){return 1;}int f(int a){return g(x);}",
            Some((11, 1, 56)),
        ),
    ];
    assert_eq!(rt; disagreeing(rt.alloc(), &cases)?, None);
    Ok(())
}

#[test]
fn functions_that_come_back(rt: HostRuntime) -> Result<(), TestFail> {
    let cases: [Case; 9] = [
        ("int f(int a){return f(a);}", Some((18, 1, 21))),
        (
            "int g(int a);int h(int a);int f(int a){return g(a);}int g(int a){return h(a);}int h(int a){return f(a);}",
            Some((18, 1, 99)),
        ),
        (
            "int c(void);int f(void){return c();}int b(void){return f();}int c(void){int b=0;return b();}",
            Some((9, 1, 88)),
        ),
        (
            "int c(void);int f(void){return c();}int b(void){return f();}int c(void){int e=0;return b();}",
            Some((18, 1, 56)),
        ),
        (
            "int c(int b);int f(void){return c(1);}int b(void){return f();}int c(int b){return b();}",
            Some((9, 1, 83)),
        ),
        (
            "int c(void);int f(void){return c();}int b(void){return f();}int c(void){for(int b=0;;)return b();}",
            Some((9, 1, 94)),
        ),
        (
            "int c(void);int f(void){return c();}int b(void){return f();}int c(void){{int b=0;}return b();}",
            Some((18, 1, 56)),
        ),
        (
            "int g(int a[2]){return 0;} int f(int x){int b[2];return g(b);} int g(int a[f(0)]);",
            Some((18, 1, 57)),
        ),
        (
            "int g(int a[2]){return 0;} int f(int x){int b[2];return g(b);} int h(int a[f(0)]);",
            Some((17, 1, 74)),
        ),
    ];
    assert_eq!(rt; disagreeing(rt.alloc(), &cases)?, None);
    Ok(())
}

#[test]
fn programs_without_a_top(rt: HostRuntime) -> Result<(), TestFail> {
    let cases: [Case; 2] = [
        ("int x;", Some((19, 1, 7))),
        ("int f(int a);", Some((19, 1, 14))),
    ];
    assert_eq!(rt; disagreeing(rt.alloc(), &cases)?, None);
    Ok(())
}
