//! What tokens become by directives, and by the words that stand for tokens.
use c_lexer::lex;
use c_macro::replace;
use c_token::ctype::CType;
use c_token::token::{Token, TokenKind};
use hls_base::refusal::Fail;
use std::alloc::{AllocError, Global};
use std::test::Fail as TestFail;

fn replaced(alloc: Global, source: &str) -> Result<Vec<Token>, Fail> {
    let tokens = lex(alloc, source.as_bytes())?;
    replace(alloc, tokens.as_slice())
}

fn push_bytes(text: &mut String, bytes: &[u8]) -> Result<(), AllocError> {
    for byte in bytes {
        text.push(char::from(*byte))?;
    }
    Ok(())
}

fn push_type(alloc: Global, text: &mut String, kind: CType) -> Result<(), AllocError> {
    match kind {
        CType::Bool => text.push_str("bool"),
        CType::Int { signed, bits } => {
            let sign = if signed { "i" } else { "u" };
            let name = format!(in alloc; "{sign}{bits}")?;
            text.push_str(name.as_str())
        }
    }
}

fn push_kind(alloc: Global, text: &mut String, kind: &TokenKind) -> Result<(), AllocError> {
    match kind {
        TokenKind::Word(word) => push_bytes(text, word.items()),
        TokenKind::Punct(punct) => push_bytes(text, punct.spelling()),
        TokenKind::Number { value, kind } => {
            let number = format!(in alloc; "{value}")?;
            text.push_str(number.as_str())?;
            push_type(alloc, text, *kind)
        }
        TokenKind::TypeWord(kind) => {
            text.push_str("@")?;
            push_type(alloc, text, *kind)
        }
    }
}

fn refusal(alloc: Global, fail: Fail) -> Result<String, AllocError> {
    match fail {
        Fail::Refused(r) => format!(in alloc; "rule {} at {}", r.rule, r.place),
        Fail::Memory => Err(AllocError),
    }
}

/// What a source becomes, each token with its place, or its fault. A word that is a type has an `@`.
fn shown(alloc: Global, source: &str) -> Result<String, AllocError> {
    match replaced(alloc, source) {
        Ok(tokens) => {
            let mut text = String::new(alloc);
            for token in &tokens {
                let place = format!(in alloc; " {}~", token.place)?;
                text.push_str(place.as_str())?;
                push_kind(alloc, &mut text, &token.kind)?;
            }
            Ok(text)
        }
        Err(fail) => refusal(alloc, fail),
    }
}

/// How many tokens a source becomes, or its fault.
fn counted(alloc: Global, source: &str) -> Result<String, AllocError> {
    match replaced(alloc, source) {
        Ok(tokens) => format!(in alloc; "{}", tokens.len()),
        Err(fail) => refusal(alloc, fail),
    }
}

fn repeated(alloc: Global, piece: &str, times: usize) -> Result<String, AllocError> {
    let mut text = String::new(alloc);
    for _ in 0..times {
        text.push_str(piece)?;
    }
    Ok(text)
}

#[test]
fn words_stand_for_tokens(rt: HostRuntime) -> Result<(), TestFail> {
    let cases = [
        (
            "#define N 16\nint f(void){return N;}",
            " 2:1~int 2:5~f 2:6~( 2:7~void 2:11~) 2:12~{ 2:13~return 2:20.1~16i32 2:21~; 2:22~}",
        ),
        ("#define A A\nA", " 2:1.1~A"),
        (
            "#define A B 1\n#define B A B\nA B",
            " 3:1.1~A 3:1.2~B 3:1.3~1i32 3:3.1~B 3:3.2~1i32 3:3.3~B",
        ),
        (
            "#define A B B\n#define B C\n#define C 2\nA",
            " 4:1.1~2i32 4:1.2~2i32",
        ),
        ("#define E\n E x E", " 2:4~x"),
        ("#define B 2\n#define A B\n#undef B\nA B", " 4:1.1~B 4:3~B"),
        ("#define A 1\n#undef A\n#define A 2\nA", " 4:1.1~2i32"),
        ("#undef int\n#undef A\nA int", " 3:1~A 3:3~int"),
        ("#define A 16 // b\n#define A 0x10\nA", " 3:1.1~16i32"),
        ("#define f (x)\nf", " 2:1.1~( 2:1.2~x 2:1.3~)"),
        ("#\nx\n#\n", " 2:1~x"),
        ("## a\n#define A ##\nA", " 1:1~## 1:4~a 3:1.1~##"),
    ];
    for (source, wanted) in cases {
        let found = shown(rt.alloc(), source)?;
        assert_eq!(rt; found.as_str(), wanted, "at {source}");
    }
    Ok(())
}

#[test]
fn included_words_are_types(rt: HostRuntime) -> Result<(), TestFail> {
    let cases = [
        ("int8_t x", " 1:1~int8_t 1:8~x"),
        (
            "int8_t\n#define T uint64_t\n#include <stdint.h>\nT x int8_t\n#include <stdint.h>",
            " 1:1~int8_t 4:1.1~@u64 4:3~x 4:5~@i8",
        ),
        (
            "#include<stdint.h>\nint16_t int32_t int64_t uint8_t uint16_t uint32_t",
            " 2:1~@i16 2:9~@i32 2:17~@i64 2:25~@u8 2:33~@u16 2:42~@u32",
        ),
    ];
    for (source, wanted) in cases {
        let found = shown(rt.alloc(), source)?;
        assert_eq!(rt; found.as_str(), wanted, "at {source}");
    }
    Ok(())
}

#[test]
fn directives_outside_the_profile(rt: HostRuntime) -> Result<(), TestFail> {
    let cases = [
        ("#if 1", "rule 5 at 1:2"),
        ("x\n # 5", "rule 5 at 2:4"),
        ("#define", "rule 5 at 1:2"),
        ("#define 5", "rule 5 at 1:2"),
        ("#define int 5", "rule 5 at 1:9"),
        ("#define int8_t 5", "rule 5 at 1:9"),
        ("#define f(x) x", "rule 5 at 1:9"),
        ("#define A 1\n#define A 1u", "rule 5 at 2:9"),
        ("#define A 1\n#define A 1 2", "rule 5 at 2:9"),
        ("#define A 1\n#define A 1 /*", "rule 2 at 2:13"),
        ("#undef", "rule 5 at 1:2"),
        ("#undef 5", "rule 5 at 1:2"),
        ("#undef A B", "rule 5 at 1:2"),
        ("#include <stdlib.h>", "rule 5 at 1:2"),
        ("#include <stdint.h> x", "rule 5 at 1:2"),
        ("#include\n<stdint.h>", "rule 5 at 1:2"),
    ];
    for (source, wanted) in cases {
        let found = shown(rt.alloc(), source)?;
        assert_eq!(rt; found.as_str(), wanted, "at {source}");
    }
    Ok(())
}

#[test]
fn at_most_256_defines(rt: HostRuntime) -> Result<(), TestFail> {
    let mut source = repeated(rt.alloc(), "#define A 1\n", 256)?;
    let most = counted(rt.alloc(), source.as_str())?;
    assert_eq!(rt; most.as_str(), "0");
    source.push_str("#define A 1")?;
    let above = counted(rt.alloc(), source.as_str())?;
    assert_eq!(rt; above.as_str(), "rule 38 at 257:9");
    source.push_str("2")?;
    let other = counted(rt.alloc(), source.as_str())?;
    assert_eq!(rt; other.as_str(), "rule 5 at 257:9");
    Ok(())
}

#[test]
fn at_most_16384_tokens(rt: HostRuntime) -> Result<(), TestFail> {
    let mut plain = repeated(rt.alloc(), ";", 16384)?;
    let most = counted(rt.alloc(), plain.as_str())?;
    assert_eq!(rt; most.as_str(), "16384");
    plain.push_str(";")?;
    let above = counted(rt.alloc(), plain.as_str())?;
    assert_eq!(rt; above.as_str(), "rule 31 at 1:16385");
    let mut source = String::from_str(
        rt.alloc(),
        "#define S ;;;;;;;;\n#define T S S S S S S S S\n",
    )?;
    source.push_str("T")?;
    let one = counted(rt.alloc(), source.as_str())?;
    assert_eq!(rt; one.as_str(), "64");
    let more = repeated(rt.alloc(), "\nT", 255)?;
    source.push_str(more.as_str())?;
    let all = counted(rt.alloc(), source.as_str())?;
    assert_eq!(rt; all.as_str(), "16384");
    source.push_str("\n T")?;
    let passed = counted(rt.alloc(), source.as_str())?;
    assert_eq!(rt; passed.as_str(), "rule 31 at 259:2");
    Ok(())
}

#[test]
fn at_most_65536_words(rt: HostRuntime) -> Result<(), TestFail> {
    let mut source = String::from_str(rt.alloc(), "#define E\n#define D ")?;
    let words = repeated(rt.alloc(), "E ", 255)?;
    source.push_str(words.as_str())?;
    let uses = repeated(rt.alloc(), "\nD", 256)?;
    source.push_str(uses.as_str())?;
    let most = counted(rt.alloc(), source.as_str())?;
    assert_eq!(rt; most.as_str(), "0");
    source.push_str("\n  E")?;
    let above = counted(rt.alloc(), source.as_str())?;
    assert_eq!(rt; above.as_str(), "rule 31 at 259:3");
    Ok(())
}

#[test]
fn doubling_words_end(rt: HostRuntime) -> Result<(), TestFail> {
    let mut source = String::from_str(rt.alloc(), "#define A0\n")?;
    for i in 0..60u32 {
        let line = format!(in rt.alloc(); "#define A{} A{i} A{i}\n", i + 1)?;
        source.push_str(line.as_str())?;
    }
    source.push_str("A14 A60")?;
    let found = counted(rt.alloc(), source.as_str())?;
    assert_eq!(rt; found.as_str(), "rule 31 at 62:5");
    Ok(())
}

#[test]
fn definitions_through_one_another(rt: HostRuntime) -> Result<(), TestFail> {
    let mut source = String::new(rt.alloc());
    let mut wanted = String::from_str(rt.alloc(), " 257:1.1~A0")?;
    for i in 0..256u32 {
        let line = format!(in rt.alloc(); "#define A{i} A{} {i}\n", (i + 1) % 256)?;
        source.push_str(line.as_str())?;
        let token = format!(in rt.alloc(); " 257:1.{}~{}i32", i + 2, 255 - i)?;
        wanted.push_str(token.as_str())?;
    }
    source.push_str("A0")?;
    let found = shown(rt.alloc(), source.as_str())?;
    assert_eq!(rt; found.as_str(), wanted.as_str());
    Ok(())
}
