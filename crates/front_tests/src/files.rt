//! What no clause says: that calls succeed where there is memory, and the values of worked examples.
use hls_base::memory::{MemoryShelf, MemorySink, names_differ};
use hls_base::outside::{Shelf, ShelfError, Sink, SinkError};
use hls_base::place::{Path, Place, TEXT_START, place_after};
use hls_base::point::{Point, PointKind};
use hls_base::real::{RealShelf, RealSink};
use hls_base::text::Text;
use hls_base::words::{Arrays, Words};
use std::alloc::{AllocError, Global};
use std::fs;

fn text(alloc: Global, s: &str) -> Result<Text, AllocError> {
    Text::from_slice(alloc, s.as_bytes())
}

fn words(alloc: Global, items: &[u64]) -> Result<Words, AllocError> {
    Ok(Words::new(Vec::from_slice(alloc, items)?))
}

fn is(bytes: &[u8], s: &str) -> bool {
    bytes == s.as_bytes()
}

fn holds(shelf: &MemoryShelf, name: &str, s: &str) -> bool {
    shelf.get(name).is_some_and(|bytes| is(bytes, s))
}

// A shelf with the files `a` and `b`. None does not come: their names differ.
fn two_files(alloc: Global, fails: &[u64]) -> Result<Option<MemoryShelf>, AllocError> {
    let mut files = Vec::new(alloc);
    files.push((text(alloc, "a")?, text(alloc, "first")?))?;
    files.push((text(alloc, "b")?, text(alloc, "second")?))?;
    if !names_differ(files.as_slice()) {
        return Ok(None);
    }
    Ok(Some(MemoryShelf::new(alloc, files, words(alloc, fails)?)))
}

#[test]
fn shelf_without_faults(rt: HostRuntime) {
    let made = two_files(rt.alloc(), &[]).expect(&rt, "memory");
    let mut shelf = made.expect(&rt, "the names differ");
    let front = shelf.read(rt.alloc(), "b", 3).expect(&rt, "it is there");
    assert!(rt; is(front.as_slice(), "sec"));
    let whole = shelf.read(rt.alloc(), "b", 100).expect(&rt, "it is there");
    assert!(rt; is(whole.as_slice(), "second"));
    assert!(rt; shelf.write("c", b"third").is_ok());
    assert!(rt; shelf.write("a", b"").is_ok());
    assert!(rt; holds(&shelf, "a", ""));
    assert!(rt; holds(&shelf, "b", "second"));
    assert!(rt; holds(&shelf, "c", "third"));
    assert!(rt; shelf.get("d").is_none());
    assert_eq!(rt; shelf.faults(), 0);
}

#[test]
fn absent_name_leaves_the_count(rt: HostRuntime) {
    let made = two_files(rt.alloc(), &[0, 1]).expect(&rt, "memory");
    let mut shelf = made.expect(&rt, "the names differ");
    let absent = shelf.read(rt.alloc(), "c", 100);
    assert!(rt; matches!(absent, Err(ShelfError::Failed)));
    assert_eq!(rt; shelf.faults(), 0);
    let fault = shelf.read(rt.alloc(), "a", 100);
    assert!(rt; matches!(fault, Err(ShelfError::Failed)));
    assert_eq!(rt; shelf.faults(), 1);
    assert!(rt; shelf.read(rt.alloc(), "a", 100).is_ok());
}

// A read of `a`, then a write of `c`, then a write of `b`, of which the call of this number fails.
fn one_fault(alloc: Global, call: u64) -> Result<Option<MemoryShelf>, ShelfError> {
    let Some(mut shelf) = two_files(alloc, &[call])? else {
        return Ok(None);
    };
    let read = shelf.read(alloc, "a", 100);
    let new = shelf.write("c", b"third");
    let old = shelf.write("b", b"other");
    if read.is_err() == (call == 0) && new.is_err() == (call == 1) && old.is_err() == (call == 2) {
        Ok(Some(shelf))
    } else {
        Ok(None)
    }
}

#[test]
fn failing_write_leaves_half(rt: HostRuntime) {
    for (call, new, old) in [
        (0, "third", "other"),
        (1, "th", "other"),
        (2, "third", "ot"),
    ] {
        let made = one_fault(rt.alloc(), call).expect(&rt, "memory");
        let shelf = made.expect(&rt, "one call fails");
        assert!(rt; holds(&shelf, "a", "first"), "{call}");
        assert!(rt; holds(&shelf, "b", old), "{call}");
        assert!(rt; holds(&shelf, "c", new), "{call}");
        assert_eq!(rt; shelf.faults(), 1);
    }
}

#[test]
fn failing_put_adds_half(rt: HostRuntime) {
    let fails = words(rt.alloc(), &[1]).expect(&rt, "memory");
    let mut sink = MemorySink::new(rt.alloc(), fails);
    assert!(rt; sink.put(b"made f\n").is_ok());
    assert!(rt; matches!(sink.put(b"fault\n"), Err(SinkError::Failed)));
    assert_eq!(rt; sink.faults(), 1);
    assert!(rt; sink.put(b"!").is_ok());
    assert!(rt; is(sink.written(), "made f\nfau!"));
}

#[test]
fn real_file_is_read_back(rt: HostRuntime) {
    let mut shelf = RealShelf::new(&rt);
    assert!(rt; shelf.write("shelf_test.txt", b"some bytes").is_ok());
    let front = shelf
        .read(rt.alloc(), "shelf_test.txt", 4)
        .expect(&rt, "it is there");
    assert!(rt; is(front.as_slice(), "some"));
    let whole = shelf
        .read(rt.alloc(), "shelf_test.txt", 100)
        .expect(&rt, "it is there");
    assert!(rt; is(whole.as_slice(), "some bytes"));
    assert!(rt; fs::remove_file(&rt, "shelf_test.txt").is_ok());
    let gone = shelf.read(rt.alloc(), "shelf_test.txt", 100);
    assert!(rt; matches!(gone, Err(ShelfError::Failed)));
}

#[test]
fn real_line_is_put(rt: HostRuntime) {
    let mut sink = RealSink::new(&rt);
    assert!(rt; sink.put(b"a line\n").is_ok());
}

#[test]
fn text_of_a_place(rt: HostRuntime) {
    for (line, column, part, want) in [(2, 20, 1, "2:20.1"), (1, 10, 0, "1:10")] {
        let place = Place { line, column, part };
        let shown = place.to_string(rt.alloc()).expect(&rt, "memory");
        assert_eq!(rt; shown.as_str(), want);
    }
}

#[test]
fn place_behind_two_lines(rt: HostRuntime) {
    let place = place_after(TEXT_START, b"ab\ncd");
    assert_eq!(rt; (place.line, place.column, place.part), (2, 3, 0));
}

#[test]
fn copies_are_made(rt: HostRuntime) {
    let alloc = rt.alloc();
    let at = Place {
        line: 1,
        column: 5,
        part: 0,
    };
    let calls = Vec::from_slice(alloc, &[at]).expect(&rt, "memory");
    let point = Point {
        path: Path::new(calls),
        at,
        kind: PointKind::Begin,
    };
    let copy = point.copy(alloc).expect(&rt, "memory");
    assert_eq!(rt; copy.path.items().len(), 1);
    let mut rows = Vec::new(alloc);
    rows.push(words(alloc, &[5, 9]).expect(&rt, "memory"))
        .expect(&rt, "memory");
    let copy = Arrays::new(rows).copy(alloc).expect(&rt, "memory");
    assert!(rt; copy.items().iter().all(|row| row.items().len() == 2));
    let copy = text(alloc, "f")
        .and_then(|name| name.copy(alloc))
        .expect(&rt, "memory");
    assert!(rt; copy.is_same(b"f"));
}
