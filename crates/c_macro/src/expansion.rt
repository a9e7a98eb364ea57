ghost use Rattle.std.specs.Prelude.{◌≡◌, ◌≤◌, length, OnOk};
ghost use Rattle.c_macro.specs.Views.{visible, IsWithin, Expands};

use crate::macros::Macros;
use crate::output::{Invocation, Output};
use c_token::token::Token;
use hls_base::refusal::Fail;
use std::alloc::Global;

/// A replacement that waits for one inside it: the number of the macro that is replaced there, and its own tokens behind that word.
#[derive(Clone, Copy)]
struct Suspended<'a> {
    index: usize,
    left: &'a [Token],
}

/// Puts out what the tokens stand for, in the place of a word, while some macros are hidden.
/// Each defined word is hidden until its replacement has ended. Replacements that wait for one inside them stand on a stack, so nothing recurses.
pub fn expand<'a>(
    alloc: Global,
    macros: &Macros<'a>,
    hidden: &mut [bool],
    word: Invocation,
    tokens: &'a [Token],
    output: &mut Output,
) -> Result<(), Fail>
    requires hidden { length macros.now ≤ length hidden.old }
    requires before { word.before ≤ length output.old.tokens }
    requires within { IsWithin output.old }
    ensures hidden { OnOk result (hidden.new ≡ hidden.old) }
    ensures expanded { Expands (visible hidden.old macros.now) word tokens.now result output.old output.new }
{
    let mut suspended = Vec::new(alloc);
    let mut left = tokens;
    loop {
        if let Some((token, rest)) = left.split_first() {
            match macros.visible(hidden, &token.kind) {
                None => {
                    output.push_part(alloc, word, token)?;
                    left = rest;
                }
                Some((index, body)) => {
                    output.count_word(word.place)?;
                    hidden[index] = true;
                    suspended.push(Suspended { index, left: rest })?;
                    left = body;
                }
            }
        } else if let Some(outer) = suspended.pop() {
            hidden[outer.index] = false;
            left = outer.left;
        } else {
            return Ok(());
        }
    }
}
