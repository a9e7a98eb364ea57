//! Programs whose printed text is the text that they were read from.
use c_tree::print::print;
use checked_source::read::read_program;
use hls_base::refusal::Fail;
use hls_base::text::Text;
use std::alloc::Global;
use std::test::Fail as TestFail;

/// The text of the program that a source is.
fn printed(alloc: Global, source: &[u8]) -> Result<Text, Fail> {
    let program = read_program(alloc, source)?;
    Ok(print(alloc, &program)?)
}

/// The first of these sources that is printed in another way.
fn other(alloc: Global, sources: &[&'static str]) -> Result<Option<&'static str>, TestFail> {
    for source in sources {
        let text = printed(alloc, source.as_bytes())?;
        if !text.is_same(source.as_bytes()) {
            return Ok(Some(*source));
        }
    }
    Ok(None)
}

#[test]
fn expressions(rt: HostRuntime) -> Result<(), TestFail> {
    let sources = [
        "int x = a - (b - c);\n",
        "int x = a - b - c;\n",
        "int x = - -a;\n",
        "int x = a + ++b;\n",
        "int x = ~(a + b);\n",
        "int x = b != 0 && a / b > 2;\n",
        "int x = (a ? 1 : 2) ? 5 : b ? 3 : 4;\n",
        "int x = a = b <<= 1;\n",
        "int x = g((a, b), 3);\n",
        "int x = (unsigned char)t[i][1];\n",
        "int x = 4294967295u;\n",
        "int x = 0l;\n",
        "int x = 18446744073709551615ul;\n",
    ];
    assert_eq!(rt; other(rt.alloc(), &sources)?, None);
    Ok(())
}

#[test]
fn statements(rt: HostRuntime) -> Result<(), TestFail> {
    let sources = [
        "int f(void) {\n    return 7;\n}\n",
        "void f(void) {\n    for (i = 0; i < 4; i++) {\n        if (i == x)\n            break;\n    }\n}\n",
        "void f(void) {\n    while (1)\n        do\n            (n--), n;\n        while (a);\n}\n",
        "void f(void) {\n    if (a) {\n    } else if (b)\n        continue;\n    else {\n    }\n}\n",
        "void f(void) {\n    switch (a) {\n    case 1:\n        ;\n        break;\n    default:\n        return;\n    }\n}\n",
        "const unsigned char t[2] = {1, 2}, s;\n_Bool f(int x, int[]);\n",
    ];
    assert_eq!(rt; other(rt.alloc(), &sources)?, None);
    Ok(())
}
