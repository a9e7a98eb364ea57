//! A shelf and a sink in memory. Calls whose numbers are given beforehand fail, so that every fault can be tried.
ghost use Rattle.std.specs.Prelude.{◌≡◌, ◌≤◌, ◌∷◌, ◌++◌, ◌/◌, ◌⊎◌, ◌↔◌, [], Option, List, ℕ, Bool, true, false, IsTrue, IfOk, OnOk, OnErr, IsErrOf, MatchOption, length, take, position, vec_len, is_some, ◌&&◌, Some, None};
ghost use Rattle.std.specs.Option.{option_copied};
ghost use Rattle.std.specs.Str.{bytes_eq};
ghost use Rattle.hls_base.specs.Memory.{file_named, with_file, HasDistinctNames, is_due, one_more, count_after, read_fails, after_read, after_write, after_put};
ghost use Rattle.hls_base.specs.Outside.{HasRisen, NeverFalls, WhereTold, AreFirstBytes, IsAbsent, IsWritten, IsCutShort, PutsAll, PutsPrefix};

use crate::outside::{Shelf, ShelfError, Sink, SinkError};
use crate::text::Text;
use crate::words::Words;
use std::alloc::{AllocError, Global};
use std::marker::Model;

/// Files in memory. Its calls are numbered from 0, over reads and writes.
#[derive(Drop)]
pub struct MemoryShelf {
    alloc: Global,
    files: Vec<(Text, Text)>,
    fails: Words,
    calls: u64,
    faults: u64,
}

impl Model for MemoryShelf {
    ghost use Rattle.hls_base.specs.Memory.{HeldFiles, HasDistinctNames};

    ghost Value = { HeldFiles };

    ghost view = { λ s. record { files = s.files.items; fails = s.fails; calls = s.calls; faults = s.faults } };

    ghost invariant = { λ s. HasDistinctNames s.files.items };
}

fn is_named(file: &(Text, Text), name: &[u8]) -> bool
    ensures { result ≡ bytes_eq file.now.0 name.now }
{
    file.0.items() == name
}

// The place of the first file of this name.
fn place_of(files: &[(Text, Text)], name: &[u8]) -> Option<usize>
    ensures { result ≡ position (λ file. bytes_eq file.0 name.now) files.now }
{
    files.iter().position(|file| is_named(file, name))
}

// The bytes of the first file of this name.
fn find_file<'a>(files: &'a [(Text, Text)], name: &[u8]) -> Option<&'a [u8]>
    ensures { option_copied result ≡ file_named files.now name.now }
{
    match place_of(files, name) {
        Some(i) => {
            let file = &files[i];
            Some(file.1.items())
        }
        None => None,
    }
}

/// Whether no two of these files have one name.
pub fn names_differ(files: &[(Text, Text)]) -> bool
    ensures { IsTrue result ↔ HasDistinctNames files.now }
{
    for i in 0..files.len() {
        let file = &files[i];
        if find_file(&files[i + 1..], file.0.items()).is_some() {
            return false;
        }
    }
    true
}

// Makes these bytes the file of this name.
fn set_file(
    alloc: Global,
    files: &mut Vec<(Text, Text)>,
    name: &[u8],
    bytes: &[u8],
) -> Result<(), AllocError>
    ensures ok { OnOk result (files.new.items ≡ with_file files.old.items name.now bytes.now) }
    ensures err { OnErr result (files.new.items ≡ files.old.items) }
{
    let file = (
        Text::from_slice(alloc, name)?,
        Text::from_slice(alloc, bytes)?,
    );
    match place_of(files.as_slice(), name) {
        Some(i) => files[i] = file,
        None => files.push(file)?,
    }
    Ok(())
}

// The count after a call.
fn count_after_call(fault: bool, count: u64) -> u64
    ensures { result ≡ count_after fault count }
{
    if fault {
        count.saturating_add(1)
    } else {
        count
    }
}

fn fails_at(fails: &Words, call: u64) -> bool
    ensures { result ≡ is_due fails.now call }
{
    fails.items().contains(&call)
}

// The first `most` bytes, or all where there are fewer.
fn first_bytes(alloc: Global, bytes: &[u8], most: u32) -> Result<Vec<u8>, AllocError>
    ensures { IfOk result (λ v. v.items ≡ take most bytes.now) }
{
    let count = bytes.len().min(most as usize);
    Vec::from_slice(alloc, &bytes[..count])
}

impl MemoryShelf {
    ghost use Rattle.std.specs.Prelude.{MatchOption, ◌≡◌, Some, None};
    ghost use Rattle.hls_base.specs.Memory.{HeldFiles, file_named, HasDistinctNames};

    /// Takes no memory.
    pub fn new(alloc: Global, files: Vec<(Text, Text)>, fails: Words) -> MemoryShelf
        requires { HasDistinctNames files.items }
        ensures { result ≡ record { files = files.items; fails = fails; calls = 0; faults = 0 } }
    {
        MemoryShelf {
            alloc,
            files,
            fails,
            calls: 0,
            faults: 0,
        }
    }

    /// The bytes of the file of this name. Takes no memory.
    pub fn get(&self, name: &str) -> Option<&[u8]>
        ensures { option_copied result ≡ file_named self.now.files name.now }
    {
        find_file(self.files.as_slice(), name.as_bytes())
    }

    /// How often a call failed because its number is among `fails`.
    pub fn faults(&self) -> u64
        ensures { result ≡ self.now.faults }
    {
        self.faults
    }
}

impl Shelf for MemoryShelf {
    ghost files = { λ s. Some (file_named s.files) };

    ghost faults = { λ s. s.faults };

    fn read(&mut self, alloc: Global, name: &str, most: u32) -> Result<Vec<u8>, ShelfError>
        ensures bytes { IfOk result
            (λ v. AreFirstBytes (Some (file_named self.old.files)) name.now most v.items) }
        ensures bound { IfOk result (λ v. vec_len v ≤ most) }
        ensures files { Some (file_named self.new.files) ≡ Some (file_named self.old.files) }
        ensures failed { IsErrOf result ShelfError.Failed →
            HasRisen self.old.faults self.new.faults ⊎ IsAbsent (Some (file_named self.old.files)) name.now }
        ensures absent { IsAbsent (Some (file_named self.old.files)) name.now →
            self.new.faults ≡ self.old.faults }
        ensures count { NeverFalls self.old.faults self.new.faults }

        ensures fails { IsErrOf result ShelfError.Failed ↔ IsTrue (read_fails self.old name.now) }
        ensures after { self.new ≡ after_read self.old name.now }
    {
        let call = self.calls;
        self.calls = count_after_call(true, call);
        let found = find_file(self.files.as_slice(), name.as_bytes());
        let fault = found.is_some() && fails_at(&self.fails, call);
        self.faults = count_after_call(fault, self.faults);
        match found {
            Some(bytes) if !fault => Ok(first_bytes(alloc, bytes, most)?),
            _ => Err(ShelfError::Failed),
        }
    }

    fn write(&mut self, name: &str, bytes: &[u8]) -> Result<(), ShelfError>
        ensures written { OnOk result (WhereTold (IsWritten name.now bytes.now)
            (Some (file_named self.old.files)) (Some (file_named self.new.files))) }
        ensures cut_short { OnErr result (WhereTold (IsCutShort name.now bytes.now)
            (Some (file_named self.old.files)) (Some (file_named self.new.files))) }
        ensures failed { IsErrOf result ShelfError.Failed → HasRisen self.old.faults self.new.faults }
        ensures count { NeverFalls self.old.faults self.new.faults }

        ensures ok { OnOk result (is_due self.old.fails self.old.calls ≡ false) }
        ensures due { IsErrOf result ShelfError.Failed → is_due self.old.fails self.old.calls ≡ true }
        ensures whole { OnOk result
            (self.new ≡ after_write self.old (with_file self.old.files name.now bytes.now)) }
        ensures half { IsErrOf result ShelfError.Failed → self.new ≡ after_write self.old
            (with_file self.old.files name.now (take (length bytes.now / 2) bytes.now)) }
        ensures memory { IsErrOf result ShelfError.Memory →
            self.new ≡ after_write self.old self.old.files }
    {
        let fault = fails_at(&self.fails, self.calls);
        self.calls = count_after_call(true, self.calls);
        self.faults = count_after_call(fault, self.faults);
        let kept = if fault {
            &bytes[..bytes.len() / 2]
        } else {
            bytes
        };
        set_file(self.alloc, &mut self.files, name.as_bytes(), kept)?;
        if fault {
            return Err(ShelfError::Failed);
        }
        Ok(())
    }
}

/// Bytes that are put into memory. Its calls are numbered from 0.
#[derive(Drop)]
pub struct MemorySink {
    bytes: Vec<u8>,
    fails: Words,
    calls: u64,
    faults: u64,
}

impl Model for MemorySink {
    ghost use Rattle.hls_base.specs.Memory.{HeldBytes};

    ghost Value = { HeldBytes };

    ghost view = { λ s. record { written = s.bytes.items; fails = s.fails; calls = s.calls; faults = s.faults } };
}

impl MemorySink {
    ghost use Rattle.std.specs.Prelude.{◌≡◌, []};

    /// Takes no memory.
    pub fn new(alloc: Global, fails: Words) -> MemorySink
        ensures { result ≡ record { written = []; fails = fails; calls = 0; faults = 0 } }
    {
        MemorySink {
            bytes: Vec::new(alloc),
            fails,
            calls: 0,
            faults: 0,
        }
    }

    /// The bytes put so far. Takes no memory.
    pub fn written(&self) -> &[u8]
        ensures { result.now ≡ self.now.written }
    {
        self.bytes.as_slice()
    }

    /// How often a call failed because its number is among `fails`.
    pub fn faults(&self) -> u64
        ensures { result ≡ self.now.faults }
    {
        self.faults
    }
}

impl Sink for MemorySink {
    ghost written = { λ s. Some s.written };

    ghost faults = { λ s. s.faults };

    fn put(&mut self, bytes: &[u8]) -> Result<(), SinkError>
        ensures all { OnOk result
            (WhereTold (PutsAll bytes.now) (Some self.old.written) (Some self.new.written)) }
        ensures prefix { OnErr result
            (WhereTold (PutsPrefix bytes.now) (Some self.old.written) (Some self.new.written)) }
        ensures failed { IsErrOf result SinkError.Failed → HasRisen self.old.faults self.new.faults }
        ensures count { NeverFalls self.old.faults self.new.faults }

        ensures ok { OnOk result (is_due self.old.fails self.old.calls ≡ false) }
        ensures due { IsErrOf result SinkError.Failed → is_due self.old.fails self.old.calls ≡ true }
        ensures whole { OnOk result (self.new ≡ after_put self.old bytes.now) }
        ensures half { IsErrOf result SinkError.Failed →
            self.new ≡ after_put self.old (take (length bytes.now / 2) bytes.now) }
        ensures memory { IsErrOf result SinkError.Memory → self.new ≡ after_put self.old [] }
    {
        let fault = fails_at(&self.fails, self.calls);
        self.calls = count_after_call(true, self.calls);
        self.faults = count_after_call(fault, self.faults);
        let kept = if fault {
            &bytes[..bytes.len() / 2]
        } else {
            bytes
        };
        self.bytes.extend_from_slice(kept)?;
        if fault {
            return Err(SinkError::Failed);
        }
        Ok(())
    }
}
