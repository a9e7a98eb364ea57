//! Words in the plain form: the command, its files and numbers, and then its options.
ghost use Rattle.std.specs.Prelude.{◌≡◌, map, [], ◌∷◌, IfOk, IfSome};
ghost use Rattle.std.specs.List.{list_all};
ghost use Rattle.std.specs.Option.{option_map};
ghost use Rattle.std.specs.String.{string_bytes};
ghost use Rattle.command_words.specs.Commands as spec;
ghost use Rattle.command_words.specs.CommandViews.{view, synth_view, cosim_view, blast_view, link_view, HasRange, HasLimits, NamesThreeFiles, NamesTwoFiles, IsLinkable, IsInRange};
ghost use Rattle.command_words.specs.Words.{is_plain};

use crate::command::{
    Blast, Command, Cosim, Link, Synth, blast_with, cosim_with, link_with, synth_with,
};
use crate::names::{are_four_different, are_three_different};
use crate::number::number_in;
use crate::options::options_of;
use crate::word::{is_plain, is_word};
use std::alloc::{AllocError, Global};

/// Whether none of these words is empty or begins with `-`.
fn are_all_plain(words: &[String]) -> bool
    ensures { result ≡ list_all is_plain (map string_bytes words.now) }
{
    for word in words {
        if !is_plain(word.as_str()) {
            return false;
        }
    }
    true
}

/// Whether none of these names is empty or begins with `-`.
fn are_plain(source: &str, module_file: &str, report: &str) -> bool
    ensures { result ≡ list_all is_plain (source.now ∷ module_file.now ∷ report.now ∷ []) }
{
    is_plain(source) && is_plain(module_file) && is_plain(report)
}

fn synth_of<'a>(words: &'a [String]) -> Option<Synth<'a>>
    ensures value { option_map spec.synth (option_map synth_view result) ≡ spec.synth_of (map string_bytes words.now) }
    ensures range { IfSome result (λ s. HasRange (synth_view s)) }
    ensures names { IfSome result (λ s. NamesThreeFiles (synth_view s)) }
{
    if words.len() < 3 {
        return None;
    }
    let source = words[0].as_str();
    let module_file = words[1].as_str();
    let report = words[2].as_str();
    if !are_plain(source, module_file, report)
        || !are_three_different(source, module_file, report)
    {
        return None;
    }
    let options = options_of(&words[3..])?;
    synth_with(source, module_file, report, &options)
}

fn cosim_of<'a>(words: &'a [String]) -> Option<Cosim<'a>>
    ensures value { option_map spec.cosim (option_map cosim_view result) ≡ spec.cosim_of (map string_bytes words.now) }
    ensures limits { IfSome result (λ c. HasLimits (cosim_view c)) }
{
    if words.len() < 4 {
        return None;
    }
    let source = words[0].as_str();
    let module_file = words[1].as_str();
    let report = words[2].as_str();
    let run = words[3].as_str();
    if !are_plain(source, module_file, report)
        || !is_plain(run)
        || !are_four_different(source, module_file, report, run)
    {
        return None;
    }
    let options = options_of(&words[4..])?;
    cosim_with(source, module_file, report, run, &options)
}

fn soak_of(words: &[String]) -> Option<u64>
    ensures { option_map spec.soak result ≡ spec.soak_of (map string_bytes words.now) }
{
    if words.len() != 1 {
        return None;
    }
    number_in(0, u64::MAX, words[0].as_str())
}

fn timing_of<'a>(words: &'a [String]) -> Option<&'a str>
    ensures { option_map spec.timing (option_map (λ m. m.now) result) ≡ spec.timing_of (map string_bytes words.now) }
{
    if words.len() != 1 || !is_plain(words[0].as_str()) {
        return None;
    }
    Some(words[0].as_str())
}

fn blast_of<'a>(words: &'a [String]) -> Option<Blast<'a>>
    ensures value { option_map spec.blast (option_map blast_view result) ≡ spec.blast_of (map string_bytes words.now) }
    ensures names { IfSome result (λ b. NamesTwoFiles (blast_view b)) }
{
    if words.len() != 2 || !are_all_plain(words) {
        return None;
    }
    blast_with(words[0].as_str(), words[1].as_str())
}

fn texts_of<'a>(alloc: Global, words: &'a [String]) -> Result<Vec<&'a str>, AllocError>
    ensures { IfOk result (λ texts. map (λ s. s.now) texts.items ≡ map string_bytes words.now) }
{
    let mut texts = Vec::with_capacity(alloc, words.len())?;
    for word in words {
        texts.push(word.as_str())?;
    }
    Ok(texts)
}

fn link_of<'a>(alloc: Global, words: &'a [String]) -> Result<Option<Link<'a>>, AllocError>
    ensures value { IfOk result (λ o. option_map spec.link (option_map link_view o) ≡ spec.link_of (map string_bytes words.now)) }
    ensures range { IfOk result (λ o. IfSome o (λ l. IsLinkable (link_view l))) }
{
    if words.len() < 2 || !are_all_plain(words) {
        return Ok(None);
    }
    let stages = texts_of(alloc, &words[2..])?;
    link_with(alloc, words[0].as_str(), words[1].as_str(), stages)
}

/// The command of this name other than `link`, if these words are its arguments.
fn fixed_command<'a>(name: &str, words: &'a [String]) -> Option<Command<'a>>
    ensures value { option_map view result ≡ spec.fixed_command_of name.now (map string_bytes words.now) }
    ensures range { IfSome result IsInRange }
{
    if is_word(name, "synth") {
        Some(Command::Synth(synth_of(words)?))
    } else if is_word(name, "cosim") {
        Some(Command::Cosim(cosim_of(words)?))
    } else if is_word(name, "soak") {
        Some(Command::Soak(soak_of(words)?))
    } else if is_word(name, "timing") {
        Some(Command::Timing(timing_of(words)?))
    } else if is_word(name, "blast") {
        Some(Command::Blast(blast_of(words)?))
    } else {
        None
    }
}

fn with_name<'a>(
    alloc: Global,
    name: &str,
    words: &'a [String],
) -> Result<Option<Command<'a>>, AllocError>
    ensures value { IfOk result (λ o. option_map view o ≡ spec.plain_command_of (name.now ∷ map string_bytes words.now)) }
    ensures range { IfOk result (λ o. IfSome o IsInRange) }
{
    if !is_word(name, "link") {
        return Ok(fixed_command(name, words));
    }
    match link_of(alloc, words)? {
        Some(link) => Ok(Some(Command::Link(link))),
        None => Ok(None),
    }
}

/// The command that these words are in the plain form.
pub fn plain_command<'a>(
    alloc: Global,
    words: &'a [String],
) -> Result<Option<Command<'a>>, AllocError>
    ensures value { IfOk result (λ o. option_map view o ≡ spec.plain_command_of (map string_bytes words.now)) }
    ensures range { IfOk result (λ o. IfSome o IsInRange) }
{
    match words.split_first() {
        Some((name, rest)) => with_name(alloc, name.as_str(), rest),
        None => Ok(None),
    }
}
