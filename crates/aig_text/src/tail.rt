//! Readers of what stands behind a graph: symbol lines and a comment.

ghost use Rattle.std.specs.Prelude.{IsTrue, ◌≡◌, ◌≤◌, true, length, take, drop};
ghost use Rattle.std.specs.List.{list_all};
ghost use Rattle.aig_text.specs.TextForm as form;
ghost use Rattle.aig_text.specs.TextForm.{in_line};
ghost use Rattle.aig_text.specs.Reading.{Follows, begins_with};
ghost use Rattle.aig_text.specs.Views.{ReadsSymbol, ReadsTail};

use crate::cursor::{Cursor, Stop};

fn begins_symbol(bytes: &[u8]) -> bool
    ensures { result ≡ begins_with form.begins_symbol bytes.now }
{
    match bytes.first() {
        Some(byte) => *byte == b'i' || *byte == b'l' || *byte == b'o',
        None => false,
    }
}

/// Whether the byte is no LF.
fn in_line(byte: u8) -> bool
    ensures { result ≡ in_line byte }
{
    byte != b'\n'
}

/// How many bytes stand before the first LF, or before the end.
fn line_length(bytes: &[u8]) -> usize
    ensures within { result ≤ length bytes.now }
    ensures line { IsTrue (list_all in_line (take result bytes.now)) }
    ensures ends { Follows in_line (drop result bytes.now) }
{
    let mut n = 0;
    while n < bytes.len() && in_line(bytes[n]) {
        n += 1;
    }
    n
}

/// Takes a line of a symbol, whose first byte has been looked at.
fn symbol_line(cursor: &mut Cursor) -> Result<(), Stop>
    requires { begins_with form.begins_symbol cursor.old ≡ true }
    ensures { ReadsSymbol result cursor.old cursor.new }
{
    let n = line_length(cursor.left());
    cursor.advance(n);
    if cursor.left().is_empty() {
        return Err(Stop::Refused);
    }
    cursor.advance(1);
    Ok(())
}

/// Takes all that is left, if it may stand behind a graph.
pub fn tail(cursor: &mut Cursor) -> Result<(), Stop>
    ensures { ReadsTail result cursor.old cursor.new }
{
    'symbols: while begins_symbol(cursor.left()) {
        symbol_line(cursor)?;
    }
    if cursor.left().is_empty() {
        return Ok(());
    }
    cursor.word(b"c\n")
}
