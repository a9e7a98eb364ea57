//! Files and an output in memory, on which the program is run.
use hls_base::memory::{MemoryShelf, MemorySink, names_differ};
use hls_base::text::Text;
use hls_base::words::Words;
use hls_cli::run::run;
use std::alloc::{AllocError, Global};
use std::test::Fail;

/// The files that a run begins with, and the calls of the shelf and of the output that fail, counted from 0.
#[derive(Clone, Copy)]
pub struct Desk<'a> {
    pub files: &'a [(&'a str, &'a [u8])],
    pub shelf_fails: &'a [u64],
    pub sink_fails: &'a [u64],
}

/// What a run leaves.
#[derive(Drop)]
pub struct Left {
    pub status: u8,
    pub shelf: MemoryShelf,
    pub out: MemorySink,
}

pub fn words_of(alloc: Global, line: &str) -> Result<Vec<String>, AllocError> {
    let mut words = Vec::new(alloc);
    for word in line.split_whitespace() {
        words.push(word.to_string(alloc)?)?;
    }
    Ok(words)
}

fn files_of(alloc: Global, given: &[(&str, &[u8])]) -> Result<Vec<(Text, Text)>, AllocError> {
    let mut files = Vec::new(alloc);
    for (name, bytes) in given {
        files.push((
            Text::from_slice(alloc, name.as_bytes())?,
            Text::from_slice(alloc, bytes)?,
        ))?;
    }
    Ok(files)
}

fn shelf_of(alloc: Global, desk: &Desk<'_>) -> Result<MemoryShelf, Fail> {
    let files = files_of(alloc, desk.files)?;
    if !names_differ(&files) {
        return Err("files with names of their own".into());
    }
    let fails = Words::new(Vec::from_slice(alloc, desk.shelf_fails)?);
    Ok(MemoryShelf::new(alloc, files, fails))
}

impl<'a> Desk<'a> {
    /// A desk where no call fails.
    pub fn with(files: &'a [(&'a str, &'a [u8])]) -> Desk<'a> {
        Desk {
            files,
            shelf_fails: &[],
            sink_fails: &[],
        }
    }

    /// Runs the program once on the words of this line.
    pub fn run(&self, alloc: Global, line: &str) -> Result<Left, Fail> {
        let mut shelf = shelf_of(alloc, self)?;
        let fails = Words::new(Vec::from_slice(alloc, self.sink_fails)?);
        let mut out = MemorySink::new(alloc, fails);
        let words = words_of(alloc, line)?;
        let status = run(alloc, &words, &mut shelf, &mut out);
        Ok(Left { status, shelf, out })
    }
}

impl Left {
    /// Runs the program again on the files that are there.
    pub fn then(self, alloc: Global, line: &str) -> Result<Left, Fail> {
        let mut shelf = self.shelf;
        let mut out = MemorySink::new(alloc, Words::new(Vec::new(alloc)));
        let words = words_of(alloc, line)?;
        let status = run(alloc, &words, &mut shelf, &mut out);
        Ok(Left { status, shelf, out })
    }
}
