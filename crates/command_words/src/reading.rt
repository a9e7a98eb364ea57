//! The command that words are.
ghost use Rattle.std.specs.Prelude.{◌≡◌, map, IfOk, IfSome};
ghost use Rattle.std.specs.Option.{option_map};
ghost use Rattle.std.specs.String.{string_bytes};
ghost use Rattle.command_words.specs.Reading.{command_of};
ghost use Rattle.command_words.specs.CommandViews.{view, IsInRange};

use crate::clap_matches::clap_command;
use crate::command::Command;
use crate::plain_form::plain_command;
use std::alloc::{AllocError, Global};

/// The command that these words are: in the plain form, or as `clap` reads them. None where they are no command, or name one file twice.
pub fn read_words<'a>(alloc: Global, words: &'a [String]) -> Result<Option<Command<'a>>, AllocError>
    ensures value { IfOk result (λ o. option_map view o ≡ command_of (map string_bytes words.now)) }
    ensures range { IfOk result (λ o. IfSome o IsInRange) }
{
    match plain_command(alloc, words)? {
        Some(command) => Ok(Some(command)),
        None => clap_command(alloc, words),
    }
}
