//! The tokens of sources, and their first faults.
use c_lexer::lex;
use c_token::ctype::CType;
use c_token::token::{Token, TokenKind};
use hls_base::refusal::Fail;
use std::alloc::{AllocError, Global};
use std::test::Fail as TestFail;

fn push_bytes(text: &mut String, bytes: &[u8]) -> Result<(), AllocError> {
    for byte in bytes {
        text.push(char::from(*byte))?;
    }
    Ok(())
}

fn push_kind(alloc: Global, text: &mut String, kind: &TokenKind) -> Result<(), AllocError> {
    match kind {
        TokenKind::Word(word) => push_bytes(text, word.items()),
        TokenKind::Punct(punct) => push_bytes(text, punct.spelling()),
        TokenKind::Number {
            value,
            kind: CType::Int { signed, bits },
        } => {
            let sign = if *signed { "i" } else { "u" };
            let number = format!(in alloc; "{value}{sign}{bits}")?;
            text.push_str(number.as_str())
        }
        _ => text.push_str("?"),
    }
}

/// A token with its place, `^` where it is the first of its line and `_` where it is glued.
fn push_token(alloc: Global, text: &mut String, token: &Token) -> Result<(), AllocError> {
    let first = if token.first { "^" } else { "" };
    let glued = if token.glued { "_" } else { "" };
    let place = format!(in alloc;
        " {}:{}{first}{glued}",
        token.place.line, token.place.column
    )?;
    text.push_str(place.as_str())?;
    push_kind(alloc, text, &token.kind)
}

/// The tokens of a source with their places, or its fault.
fn shown(alloc: Global, source: &[u8]) -> Result<String, AllocError> {
    match lex(alloc, source) {
        Ok(tokens) => {
            let mut text = String::new(alloc);
            for token in &tokens {
                push_token(alloc, &mut text, token)?;
            }
            Ok(text)
        }
        Err(Fail::Refused(r)) => {
            format!(in alloc;
                "rule {} at {}:{}.{}",
                r.rule, r.place.line, r.place.column, r.place.part
            )
        }
        Err(Fail::Memory) => Err(AllocError),
    }
}

#[test]
fn places_and_flags(rt: HostRuntime) -> Result<(), TestFail> {
    let cases = [
        ("", ""),
        ("a>>=b", " 1:1^_a 1:2_>>= 1:5_b"),
        ("a...b..c", " 1:1^_a 1:2_... 1:5_b 1:6_. 1:7_. 1:8_c"),
        ("a->b .5", " 1:1^_a 1:2_-> 1:4_b 1:6. 1:7_5i32"),
        (
            "#define N 16\nint f",
            " 1:1^_# 1:2_define 1:9N 1:1116i32 2:1^int 2:5f",
        ),
        ("a/*\n*/b", " 1:1^_a 2:3b"),
        ("a\\\nb", " 1:1^_a 2:1b"),
        ("a\\\r\nb", " 1:1^_a 2:1b"),
        ("a\r\nb\rc", " 1:1^_a 2:1^b 2:3c"),
        ("// x\\\n y\n z//", " 3:2^z"),
        ("// x\\\r\n y\n/**/z", " 3:5^z"),
        ("/* * / **/z", " 1:11^z"),
        ("a ## b\n##\n #", " 1:1^_a 1:3## 1:6b 2:1^## 3:2^#"),
        ("#pragma 09 @ // \\\n x\n y", " 3:2^y"),
        ("# /*\n*/ \\\n pragma/*\n*/z\ny", " 5:1^y"),
        ("#pragmax\n# pragma", " 1:1^_# 1:2_pragmax"),
        ("#\npragma x # ", "rule 1 at 2:10.0"),
        ("x #pragma", "rule 1 at 1:3.0"),
    ];
    for (source, wanted) in cases {
        let found = shown(rt.alloc(), source.as_bytes())?;
        assert_eq!(rt; found.as_str(), wanted, "at {source}");
    }
    Ok(())
}

#[test]
fn constants(rt: HostRuntime) -> Result<(), TestFail> {
    let cases = [
        ("0", " 1:1^_0i32"),
        ("010", " 1:1^_8i32"),
        ("0x10u", " 1:1^_16u32"),
        ("0XffL", " 1:1^_255i64"),
        ("2147483647", " 1:1^_2147483647i32"),
        ("2147483648", " 1:1^_2147483648i64"),
        ("0x80000000", " 1:1^_2147483648u32"),
        ("040000000000", " 1:1^_4294967296i64"),
        ("4294967295u", " 1:1^_4294967295u32"),
        ("4294967296U", " 1:1^_4294967296u64"),
        ("1ll", " 1:1^_1i64"),
        ("0x8000000000000000l", " 1:1^_9223372036854775808u64"),
        ("1uLL", " 1:1^_1u64"),
        ("1LU", " 1:1^_1u64"),
        ("9223372036854775807", " 1:1^_9223372036854775807i64"),
        ("9223372036854775808", "rule 3 at 1:1.0"),
        ("9223372036854775808l", "rule 3 at 1:1.0"),
        ("18446744073709551615u", " 1:1^_18446744073709551615u64"),
        ("0xffffffffffffffff", " 1:1^_18446744073709551615u64"),
        ("18446744073709551616", "rule 3 at 1:1.0"),
        ("18446744073709551616u", "rule 3 at 1:1.0"),
        ("1.", "rule 3 at 1:1.0"),
        ("0xe+1", "rule 3 at 1:1.0"),
        ("09", "rule 3 at 1:1.0"),
        ("0x", "rule 3 at 1:1.0"),
        ("1lL", "rule 3 at 1:1.0"),
        ("1ulu", "rule 3 at 1:1.0"),
    ];
    for (source, wanted) in cases {
        let found = shown(rt.alloc(), source.as_bytes())?;
        assert_eq!(rt; found.as_str(), wanted, "at {source}");
    }
    Ok(())
}

#[test]
fn first_faults(rt: HostRuntime) -> Result<(), TestFail> {
    let cases = [
        ("int f(void){return 1;} /*", "rule 2 at 1:24.0"),
        ("/*/", "rule 2 at 1:1.0"),
        ("#pragma @ 09 /*", "rule 2 at 1:14.0"),
        ("a\n @ /*", "rule 1 at 2:2.0"),
        ("a #", "rule 1 at 1:3.0"),
        ("\\ \n", "rule 1 at 1:1.0"),
        ("\\\r\r\n", "rule 1 at 1:1.0"),
        ("a '", "rule 1 at 1:3.0"),
    ];
    for (source, wanted) in cases {
        let found = shown(rt.alloc(), source.as_bytes())?;
        assert_eq!(rt; found.as_str(), wanted, "at {source}");
    }
    Ok(())
}

#[test]
fn limits(rt: HostRuntime) -> Result<(), TestFail> {
    let mut source = vec![in rt.alloc(); b'x'; 64]?;
    assert!(rt; lex(rt.alloc(), &source).is_ok());
    source.push(b'x')?;
    assert_eq!(rt; shown(rt.alloc(), &source)?.as_str(), "rule 4 at 1:1.0");
    let mut spaces = vec![in rt.alloc(); b' '; 65536]?;
    assert_eq!(rt; shown(rt.alloc(), &spaces)?.as_str(), "");
    spaces.push(b'@')?;
    assert_eq!(rt;
        shown(rt.alloc(), &spaces)?.as_str(),
        "rule 30 at 1:65537.0"
    );
    Ok(())
}
