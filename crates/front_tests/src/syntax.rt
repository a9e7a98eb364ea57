//! The first token that no program has there, and the limits of nesting and of operators.
use crate::fault::syntax_fault;
use std::alloc::{AllocError, Global};
use std::test::Fail as TestFail;

/// The rule and the column of the fault, or `ok`. `T` is a type.
fn answer(alloc: Global, line: &str) -> Result<String, AllocError> {
    let mut source = String::from_str(alloc, "#include <stdint.h>\n#define T int32_t\n")?;
    source.push_str(line)?;
    match syntax_fault(alloc, source.as_str())? {
        None => String::from_str(alloc, "ok"),
        Some((rule, _, column)) => format!(in alloc; "{rule} at {column}"),
    }
}

/// The text, so many times this part, and the end.
fn repeated(
    alloc: Global,
    text: &str,
    part: &str,
    times: usize,
    end: &str,
) -> Result<String, AllocError> {
    let mut line = String::from_str(alloc, text)?;
    for _ in 0..times {
        line.push_str(part)?;
    }
    line.push_str(end)?;
    Ok(line)
}

/// `a` in so many parentheses, in a return statement.
fn grouped(alloc: Global, times: usize) -> Result<String, AllocError> {
    let mut line = repeated(alloc, "int f(int a){return ", "(", times, "a")?;
    for _ in 0..times {
        line.push_str(")")?;
    }
    line.push_str(";}")?;
    Ok(line)
}

#[test]
fn takes_programs(rt: HostRuntime) -> Result<(), TestFail> {
    let alloc = rt.alloc();
    let sources = [
        "",
        "int a;",
        "static const int a[2][3] = {{1, 2, 3}, {4, 5, 6,},}, b = 1;",
        "void f(void);",
        "const void const f(int, unsigned char c[], T const x);",
        "int f(){ return; }",
        "inline long unsigned int long f(int a) { if (a) return 1; else { a = 2; } return (a, a ? 1, 2 : 3); }",
        "int f(int a) { for (int i = 0, j; i < 2; i++, --j) a += (T)-a[i][2]; switch (a) { case 1: default: ; } }",
        "int f(int a) { do ++a + 1; while (a = 2, 3); for (;;) { break; continue; } while (f(a, a = 1)) ; }",
        "int f(int a) { if (a) while (1) if (a) ; else ; a++, --a; a = ~!a % 2 ? 1 : a++; const T b = a << 1; }",
    ];
    for source in sources {
        assert_eq!(rt; answer(alloc, source)?.as_str(), "ok");
    }
    Ok(())
}

#[test]
fn refuses_the_first_token_that_no_program_has(rt: HostRuntime) -> Result<(), TestFail> {
    let alloc = rt.alloc();
    let sources = [
        ("enum e;", "20 at 1"),
        ("int f(int a){return 1=a;}", "23 at 22"),
        ("int f(int a){return a+b=a;}", "23 at 24"),
        ("int f(int a){return (a)=1;}", "23 at 24"),
        ("int f(int a){return -a=1;}", "23 at 23"),
        ("int f(int a){return a?b:c=1;}", "23 at 26"),
        ("int f(int a){a++ ++;}", "23 at 18"),
        ("int f(int a){f(a)++;}", "23 at 18"),
        ("int f(int a){++a++;}", "23 at 17"),
        ("void x;", "6 at 7"),
        ("void x=1;", "23 at 7"),
        ("int int x;", "6 at 5"),
        ("long long long x;", "6 at 11"),
        ("unsigned signed x;", "6 at 10"),
        ("short char x;", "6 at 7"),
        ("T int x;", "6 at 3"),
        ("const static int x;", "6 at 7"),
        ("int f(const void);", "6 at 13"),
        ("int f(void, int);", "6 at 11"),
        ("int f(int a){(void)a;}", "6 at 15"),
        ("int f(int a){return a?1:2", "6 at 26"),
        ("int f(int a){else}", "6 at 14"),
        ("int f(int a){do a;}", "6 at 19"),
        ("int f(int a){if a}", "6 at 17"),
        ("int f(int a){case a,b:;}", "6 at 20"),
        ("int f(int a){goto a;}", "20 at 14"),
        ("int a = {1,,};", "6 at 12"),
        ("int a, b();", "6 at 9"),
        ("int f(int a){a b;}", "6 at 16"),
        ("int f(int a){a[1;}", "6 at 17"),
        ("int f(int a){} ;", "6 at 16"),
        ("int", "6 at 4"),
    ];
    for (source, wanted) in sources {
        assert_eq!(rt; answer(alloc, source)?.as_str(), wanted);
    }
    Ok(())
}

#[test]
fn counts_the_constructs_that_hold_a_token(rt: HostRuntime) -> Result<(), TestFail> {
    let alloc = rt.alloc();
    let line = grouped(alloc, 63)?;
    assert_eq!(rt; answer(alloc, line.as_str())?.as_str(), "ok");
    let line = grouped(alloc, 64)?;
    assert_eq!(rt; answer(alloc, line.as_str())?.as_str(), "32 at 85");
    let line = repeated(alloc, "int f(int a){", "{", 64, ")")?;
    assert_eq!(rt; answer(alloc, line.as_str())?.as_str(), "6 at 78");
    let line = repeated(alloc, "int f(int a){return ", "(", 63, ")")?;
    assert_eq!(rt; answer(alloc, line.as_str())?.as_str(), "6 at 84");
    let line = repeated(alloc, "int f(int a){return ", "(", 64, ")")?;
    assert_eq!(rt; answer(alloc, line.as_str())?.as_str(), "32 at 85");
    let line = repeated(alloc, "int f(int a){return ", "(", 64, "")?;
    assert_eq!(rt; answer(alloc, line.as_str())?.as_str(), "6 at 85");
    Ok(())
}

#[test]
fn a_question_mark_raises_the_tokens_before_it(rt: HostRuntime) -> Result<(), TestFail> {
    let alloc = rt.alloc();
    let line = repeated(alloc, "int f(int a){return ", "(", 63, "a+(a) ? 1:2")?;
    assert_eq!(rt; answer(alloc, line.as_str())?.as_str(), "32 at 84");
    let line = repeated(alloc, "int f(int a){return ", "(", 63, "a+(a) : 1:2")?;
    assert_eq!(rt; answer(alloc, line.as_str())?.as_str(), "32 at 87");
    let line = repeated(alloc, "int f(int a){return ", "(", 62, "a+(a) : 1:2")?;
    assert_eq!(rt; answer(alloc, line.as_str())?.as_str(), "6 at 89");
    Ok(())
}

#[test]
fn counts_the_operators_of_an_expression(rt: HostRuntime) -> Result<(), TestFail> {
    let alloc = rt.alloc();
    let line = repeated(alloc, "int f(int a){return ", "a+", 256, "a;}")?;
    assert_eq!(rt; answer(alloc, line.as_str())?.as_str(), "ok");
    let line = repeated(alloc, "int f(int a){return ", "a+", 257, "a;}")?;
    assert_eq!(rt; answer(alloc, line.as_str())?.as_str(), "32 at 534");
    let line = repeated(alloc, "int f(int a){return ", "a,", 256, "(a+a)-f(a*a,a);}")?;
    assert_eq!(rt; answer(alloc, line.as_str())?.as_str(), "32 at 538");
    let line = repeated(alloc, "int f(int a){", "a,", 300, "a;}")?;
    assert_eq!(rt; answer(alloc, line.as_str())?.as_str(), "ok");
    Ok(())
}
