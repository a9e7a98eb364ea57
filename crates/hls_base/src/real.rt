//! The shelf and the sink over the system's files and standard output. What they read and write no contract can tell, so they tell nothing.
ghost use Rattle.std.specs.Prelude.{◌≡◌, ◌≤◌, ◌+◌, ◌^◌, ◌-◌, ◌⊎◌, ℕ, None, IfOk, OnOk, OnErr, IsErrOf, min, vec_len};
ghost use Rattle.hls_base.specs.Outside.{HasRisen, NeverFalls};

use crate::outside::{Shelf, ShelfError, Sink, SinkError};
use std::alloc::Global;
use std::fs;
use std::io::{Read, Write};
use std::rt::Files;

/// How many bytes are read at a time.
const CHUNK: usize = 4096;

/// The system's files.
#[derive(Drop)]
pub struct RealShelf<'a, R: Files> {
    rt: &'a R,
    faults: u64,
}

impl<'a, R: Files> RealShelf<'a, R> {
    /// Takes no memory.
    pub fn new(rt: &'a R) -> RealShelf<'a, R>
        ensures { result.faults ≡ 0 }
    {
        RealShelf { rt, faults: 0 }
    }
}

// At most `most` bytes from here on. A read of nothing is the end.
fn read_bytes<F: Read>(alloc: Global, file: &mut F, most: usize) -> Result<Vec<u8>, ShelfError>
    ensures { IfOk result (λ v. vec_len v ≤ most) }
{
    let mut bytes = Vec::new(alloc);
    let mut chunk = [0u8; CHUNK];
    let mut left = most;
    while left > 0 {
        let wanted = left.min(CHUNK);
        let count = match file.read(&mut chunk[..wanted]) {
            Ok(0) => return Ok(bytes),
            Ok(count) => count,
            Err(_) => return Err(ShelfError::Failed),
        };
        bytes.extend_from_slice(&chunk[..count])?;
        left -= count;
    }
    Ok(bytes)
}

// All of these bytes. A write of nothing is a fault.
fn write_bytes<F: Write>(file: &mut F, bytes: &[u8]) -> Result<(), ShelfError>
    ensures { IsErrOf result ShelfError.Memory → ⊥ }
{
    let mut done = 0;
    while done < bytes.len() {
        match file.write(&bytes[done..]) {
            Ok(0) => return Err(ShelfError::Failed),
            Ok(count) => done += count,
            Err(_) => return Err(ShelfError::Failed),
        }
    }
    Ok(())
}

impl<R: Files> Shelf for RealShelf<'_, R> {
    ghost files = { λ _. None };

    ghost faults = { λ s. s.faults };

    fn read(&mut self, alloc: Global, name: &str, most: u32) -> Result<Vec<u8>, ShelfError> {
        let faults = self.faults;
        let result = match fs::open(self.rt, name) {
            Ok(mut file) => read_bytes(alloc, &mut file, most as usize),
            Err(_) => Err(ShelfError::Failed),
        };
        if let Err(ShelfError::Failed) = &result {
            self.faults = faults.saturating_add(1);
        }
        result
    }

    fn write(&mut self, name: &str, bytes: &[u8]) -> Result<(), ShelfError> {
        let faults = self.faults;
        let result = match fs::create(self.rt, name) {
            Ok(mut file) => write_bytes(&mut file, bytes),
            Err(_) => Err(ShelfError::Failed),
        };
        if let Err(ShelfError::Failed) = &result {
            self.faults = faults.saturating_add(1);
        }
        result
    }
}

/// Standard output.
#[derive(Drop)]
pub struct RealSink<'a, R: Print> {
    rt: &'a R,
    faults: u64,
}

impl<'a, R: Print> RealSink<'a, R> {
    /// Takes no memory.
    pub fn new(rt: &'a R) -> RealSink<'a, R>
        ensures { result.faults ≡ 0 }
    {
        RealSink { rt, faults: 0 }
    }
}

// All of these bytes. A write of nothing is a fault.
fn put_bytes<R: Print>(rt: &R, bytes: &[u8]) -> Result<(), SinkError> {
    let mut done = 0;
    while done < bytes.len() {
        match rt.write_some(&bytes[done..]) {
            Ok(0) => return Err(SinkError::Failed),
            Ok(count) => done += count,
            Err(_) => return Err(SinkError::Failed),
        }
    }
    Ok(())
}

impl<R: Print> Sink for RealSink<'_, R> {
    ghost written = { λ _. None };

    ghost faults = { λ s. s.faults };

    fn put(&mut self, bytes: &[u8]) -> Result<(), SinkError> {
        let faults = self.faults;
        let result = put_bytes(self.rt, bytes);
        if let Err(SinkError::Failed) = &result {
            self.faults = faults.saturating_add(1);
        }
        result
    }
}
