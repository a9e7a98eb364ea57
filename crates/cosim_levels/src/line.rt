//! The lines of a text.
ghost use Rattle.std.specs.Prelude.{◌≡◌, ◌∷◌, [], ◌<◌, ◌≤◌, ◌==◌, length, IfSome, IfNone};
ghost use Rattle.std.specs.List.{position_or_len};
ghost use Rattle.std.specs.Str.Lines.{lines, strip_carriage_return};
ghost use Rattle.cosim_levels.specs.Rows.{is_blank};

/// The line without a CR at its end.
fn without_return(line: &[u8]) -> &[u8]
    ensures { result.now ≡ strip_carriage_return line.now }
{
    if line.is_empty() || line[line.len() - 1] != b'\r' {
        line
    } else {
        &line[..line.len() - 1]
    }
}

/// The number of bytes before the first LF, or of all where there is none.
fn line_length(bytes: &[u8]) -> usize
    ensures value { result ≡ position_or_len (λ b. b == 10) bytes.now }
    ensures inside { result ≤ length bytes.now }
{
    for i in 0..bytes.len() {
        if bytes[i] == b'\n' {
            return i;
        }
    }
    bytes.len()
}

/// The first line of a text, and the text behind its end.
pub fn first_line(bytes: &[u8]) -> Option<(&[u8], &[u8])>
    ensures some { IfSome result (λ p. lines bytes.now ≡ p.0.now ∷ lines p.1.now) }
    ensures shorter { IfSome result (λ p. length p.1.now < length bytes.now) }
    ensures none { IfNone result (lines bytes.now ≡ []) }
{
    if bytes.is_empty() {
        return None;
    }
    let end = line_length(bytes);
    if end < bytes.len() {
        Some((without_return(&bytes[..end]), &bytes[end + 1..]))
    } else {
        Some((bytes, &bytes[end..]))
    }
}

/// Whether a line gives nothing: it is empty, or begins with `#`.
pub fn is_blank(line: &[u8]) -> bool
    ensures { result ≡ is_blank line.now }
{
    match line.first() {
        Some(byte) => *byte == b'#',
        None => true,
    }
}
