//! The words of a line.
ghost use Rattle.std.specs.Prelude.{◌≡◌, ◌==◌, IfOk, map};
ghost use Rattle.std.specs.List.{slice_split};
ghost use Rattle.std.specs.Option.{option_map};
ghost use Rattle.cosim_levels.specs.Rows.{has_loose_space, words_between, words_of, texts_of};

use std::alloc::{AllocError, Global};

/// Whether a space stands before the first word or behind the last.
fn has_loose_space(line: &[u8]) -> bool
    ensures { result ≡ has_loose_space line.now }
{
    !line.is_empty() && (line[0] == b' ' || line[line.len() - 1] == b' ')
}

/// The parts between spaces. Two spaces side by side have an empty part between them.
fn parts<'a>(alloc: Global, line: &'a [u8]) -> Result<Vec<&'a [u8]>, AllocError>
    ensures { IfOk result (λ v. texts_of v.items ≡ slice_split (λ b. b == 32) line.now) }
{
    line.split(|byte| *byte == b' ').collect(alloc)
}

fn words_between<'a>(alloc: Global, line: &'a [u8]) -> Result<Vec<&'a [u8]>, AllocError>
    ensures { IfOk result (λ v. texts_of v.items ≡ words_between line.now) }
{
    let mut words = Vec::new(alloc);
    for part in parts(alloc, line)? {
        if !part.is_empty() {
            words.push(part)?;
        }
    }
    Ok(words)
}

/// The words of a line, with one or more spaces between them. None where a space stands before or behind them.
pub fn words<'a>(alloc: Global, line: &'a [u8]) -> Result<Option<Vec<&'a [u8]>>, AllocError>
    ensures { IfOk result (λ found. option_map (λ v. texts_of v.items) found ≡ words_of line.now) }
{
    if has_loose_space(line) {
        return Ok(None);
    }
    Ok(Some(words_between(alloc, line)?))
}
