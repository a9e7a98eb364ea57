//! Files of the system, longer than what is read at once.
use crate::desk::{Desk, words_of};
use hls_base::memory::MemorySink;
use hls_base::outside::{Shelf, ShelfError};
use hls_base::real::RealShelf;
use hls_base::words::Words;
use hls_cli::run::run;
use std::alloc::{AllocError, Global};
use std::fs;
use std::test::Fail;

const NAMES: [&str; 3] = ["long_test.c", "long_test.v", "long_test.rep"];

const SYNTH: &str = "synth long_test.c long_test.v long_test.rep --top f";

const SUM: &[u8] = b"unsigned f(unsigned a,unsigned b){return a+b;}";

/// A sum behind so many blanks.
fn source_of(alloc: Global, blanks: usize) -> Result<Vec<u8>, AllocError> {
    let mut source = vec![in alloc; b' '; blanks]?;
    for byte in SUM {
        source.push(*byte)?;
    }
    Ok(source)
}

fn status_of<F: Shelf>(alloc: Global, shelf: &mut F) -> Result<u8, AllocError> {
    let mut out = MemorySink::new(alloc, Words::new(Vec::new(alloc)));
    let words = words_of(alloc, SYNTH)?;
    Ok(run(alloc, &words, shelf, &mut out))
}

#[test]
fn long_files_are_those_of_the_memory(rt: HostRuntime) -> Result<(), Fail> {
    let source = source_of(rt.alloc(), 10_000)?;
    let files = [(NAMES[0], source.as_slice())];
    let left = Desk::with(&files).run(rt.alloc(), SYNTH)?;
    let mut shelf = RealShelf::new(&rt);
    assert!(rt; shelf.write(NAMES[0], &source).is_ok());
    assert_eq!(rt; status_of(rt.alloc(), &mut shelf)?, 0);
    for name in NAMES {
        let written = match shelf.read(rt.alloc(), name, 100_000) {
            Ok(written) => written,
            Err(ShelfError::Failed) => return Err("a file that is there".into()),
            Err(ShelfError::Memory) => return Err("memory".into()),
        };
        assert!(rt; left.shelf.get(name) == Some(written.as_slice()));
        assert!(rt; fs::remove_file(&rt, name).is_ok());
    }
    Ok(())
}
