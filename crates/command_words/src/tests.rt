use crate::command::{Command, Link};
use crate::reading::read_words;
use std::alloc::{AllocError, Global};

fn words_of(alloc: Global, line: &str) -> Result<Vec<String>, AllocError> {
    let mut words = Vec::new(alloc);
    for word in line.split_whitespace() {
        words.push(word.to_string(alloc)?)?;
    }
    Ok(words)
}

fn shown_link(alloc: Global, link: &Link<'_>) -> Result<String, AllocError> {
    let mut text = format!(in alloc; "link {} {}", link.chain, link.depth)?;
    for stage in &link.stages {
        text.push(' ')?;
        text.push_str(stage)?;
    }
    Ok(text)
}

/// What is read of these words, as one text.
fn shown_words(alloc: Global, words: &[String]) -> Result<String, AllocError> {
    match read_words(alloc, words)? {
        Some(Command::Synth(s)) => format!(in alloc;
            "synth {} {} {} {} {} {} {} {} {}",
            s.source, s.module_file, s.report, s.top, s.mul, s.div, s.ports, s.period, s.plain
        ),
        Some(Command::Cosim(c)) => format!(in alloc;
            "cosim {} {} {} {} {} {} {}",
            c.source, c.module_file, c.report, c.run, c.top, c.points, c.cycles
        ),
        Some(Command::Soak(number)) => format!(in alloc; "soak {number}"),
        Some(Command::Timing(module_file)) => format!(in alloc; "timing {module_file}"),
        Some(Command::Blast(b)) => format!(in alloc; "blast {} {}", b.module_file, b.graph),
        Some(Command::Link(link)) => shown_link(alloc, &link),
        None => format!(in alloc; "none"),
    }
}

fn shown(alloc: Global, line: &str) -> Result<String, AllocError> {
    let words = words_of(alloc, line)?;
    shown_words(alloc, &words)
}

#[test]
fn plain_form(rt: HostRuntime) -> Result<(), AllocError> {
    for (line, want) in [
        ("synth c v r --top f", "synth c v r f 1 1 1 0 false"),
        (
            "synth c v r --plain --mul 008 --top f",
            "synth c v r f 8 1 1 0 true",
        ),
        (
            "synth c v r --period 64 --top f",
            "synth c v r f 1 1 1 64 false",
        ),
        (
            "synth c v r --top f --ports 2 --div 4",
            "synth c v r f 1 4 2 0 false",
        ),
        (
            "cosim c v r run --cycles 10 --top f",
            "cosim c v r run f 1000000 10",
        ),
        ("soak 18446744073709551615", "soak 18446744073709551615"),
        ("soak 00", "soak 0"),
        ("timing m.v", "timing m.v"),
        ("blast m.v m.aag", "blast m.v m.aag"),
        ("link o 1 m", "link o 1 m"),
        ("link o 1024 m n p", "link o 1024 m n p"),
        ("link o 01 m", "link o 1 m"),
        (
            "link o 16 a b c d e f g h i j k l m n p q r",
            "link o 16 a b c d e f g h i j k l m n p q r",
        ),
    ] {
        assert_eq!(rt; shown(rt.alloc(), line)?.as_str(), want, "{line}");
    }
    Ok(())
}

#[test]
fn other_forms(rt: HostRuntime) -> Result<(), AllocError> {
    for (line, want) in [
        ("synth --top=f c v r", "synth c v r f 1 1 1 0 false"),
        (
            "synth c --mul=3 v --plain r --top f",
            "synth c v r f 3 1 1 0 true",
        ),
        (
            "synth --top f --ports 2 -- -c -v --top",
            "synth -c -v --top f 1 1 2 0 false",
        ),
        ("synth c v --top f -- r", "synth c v r f 1 1 1 0 false"),
        ("synth c v r --top=-f", "synth c v r -f 1 1 1 0 false"),
        (
            "cosim --points=7 c v --top=f r run",
            "cosim c v r run f 7 1000000",
        ),
        ("soak -- 5", "soak 5"),
        ("timing -- m.v", "timing m.v"),
        ("timing -- -m", "timing -m"),
        ("blast -- -m -a", "blast -m -a"),
        ("blast m -- -a", "blast m -a"),
        ("link -- -o 4 m", "link -o 4 m"),
        ("link o -- 4 -m n", "link o 4 -m n"),
        ("link o 4 -- m", "link o 4 m"),
        ("link o 4 m -- -n p", "link o 4 m -n p"),
    ] {
        assert_eq!(rt; shown(rt.alloc(), line)?.as_str(), want, "{line}");
    }
    Ok(())
}

#[test]
fn no_command(rt: HostRuntime) -> Result<(), AllocError> {
    for line in [
        "",
        "help",
        "--help",
        "-h",
        "--version",
        "help synth",
        "synth --help",
        "other c v r --top f",
        "soak",
        "soak -1",
        "soak +1",
        "soak -- -1",
        "soak 18446744073709551616",
        "soak 1 2",
        "soak 1x",
        "synth c v r",
        "synth c v --top f",
        "synth x x y --top f",
        "synth x y x --top f",
        "synth y x x --top=f",
        "synth c v r --top -f",
        "synth c v r --top",
        "synth c v r --top f --top g",
        "synth c v r --top=f --top=f",
        "synth c v r --top=f --plain --plain",
        "synth c v r --top f --plain=true",
        "synth c v r --top f --mul 9",
        "synth c v r --top f --mul=0",
        "synth c v r --top f --points 1",
        "synth c v r --top f --period 0",
        "synth c v r --top f --period 1001",
        "synth c v r --to f",
        "synth c v r --top f more",
        "--top f synth c v r",
        "cosim c v r c --top=f",
        "cosim c v r run --top f --cycles 1000000001",
        "cosim c v r run --top f --plain",
    ] {
        assert_eq!(rt; shown(rt.alloc(), line)?.as_str(), "none", "{line}");
    }
    Ok(())
}

#[test]
fn no_circuit_command(rt: HostRuntime) -> Result<(), AllocError> {
    for line in [
        "timing",
        "timing m n",
        "timing -m",
        "timing m --top f",
        "blast m",
        "blast m m",
        "blast -- -m -m",
        "blast m a x",
        "link",
        "link o",
        "link o 4",
        "link o 4 --",
        "link o m",
        "link o 0 m",
        "link o 00 m",
        "link o 1025 m",
        "link o +1 m",
        "link o -1 m",
        "link o -- +1 m",
        "link o -- -1 m",
        "link o 18446744073709551617 m",
        "link o 4 o",
        "link o 4 m o",
        "link o 4 m n m",
        "link o 4 m -- m",
        "link o 4 -m",
        "link o 4 m --top f",
    ] {
        assert_eq!(rt; shown(rt.alloc(), line)?.as_str(), "none", "{line}");
    }
    Ok(())
}

fn shown_slice(alloc: Global, words: &[&str]) -> Result<String, AllocError> {
    let mut owned = Vec::new(alloc);
    for word in words {
        owned.push(word.to_string(alloc)?)?;
    }
    shown_words(alloc, &owned)
}

/// An empty name is not in the plain form, but `clap` reads it.
#[test]
fn empty_names(rt: HostRuntime) -> Result<(), AllocError> {
    let alloc = rt.alloc();
    assert_eq!(rt; shown_slice(alloc, &["timing", ""])?.as_str(), "timing ");
    assert_eq!(rt;
        shown_slice(alloc, &["blast", "m", ""])?.as_str(),
        "blast m "
    );
    assert_eq!(rt; shown_slice(alloc, &["blast", "", ""])?.as_str(), "none");
    assert_eq!(rt;
        shown_slice(alloc, &["link", "o", "4", ""])?.as_str(),
        "link o 4 "
    );
    assert_eq!(rt;
        shown_slice(alloc, &["link", "", "4", ""])?.as_str(),
        "none"
    );
    assert_eq!(rt;
        shown_slice(alloc, &["link", "o", "", "m"])?.as_str(),
        "none"
    );
    Ok(())
}
