//! Commands by the matches of the `clap` command.
ghost use Rattle.std.specs.Prelude.{◌≡◌, map, IfOk, IfSome};
ghost use Rattle.std.specs.Option.{option_map, option_and_then};
ghost use Rattle.std.specs.String.{string_bytes};
ghost use Rattle.clap.specs.Words.{all_of, first_of, found_of, rows_of, subcommand_rows_of};
ghost use Rattle.command_words.specs.OptionViews.{options_view};
ghost use Rattle.command_words.specs.Commands as command;
ghost use Rattle.command_words.specs.ClapMatches as spec;
ghost use Rattle.command_words.specs.CommandViews.{view, synth_view, cosim_view, blast_view, link_view, HasRange, HasLimits, NamesThreeFiles, NamesTwoFiles, IsLinkable, IsInRange};

use crate::clap_command::hls_app;
use crate::command::{
    Blast, Command, Cosim, Link, Synth, blast_with, cosim_with, link_with, synth_with,
};
use crate::names::{are_four_different, are_three_different};
use crate::number::number_in;
use crate::options::Options;
use crate::word::is_word;
use clap::ArgMatches;
use clap::error::ErrorKind;
use std::alloc::{AllocError, Global};

fn value_of<'a>(matches: &ArgMatches<'a>, name: &str) -> Option<&'a str>
    ensures { option_map (λ w. w.now) result ≡ first_of name.now (rows_of (found_of matches.now)) }
{
    matches.get_str(name)
}

fn is_set(matches: &ArgMatches<'_>, name: &str) -> bool
    ensures { result ≡ spec.is_set name.now (rows_of (found_of matches.now)) }
{
    match value_of(matches, name) {
        Some(value) => is_word(value, "true"),
        None => false,
    }
}

fn options_in<'a>(matches: &ArgMatches<'a>) -> Options<'a>
    ensures { options_view result ≡ spec.options_in (rows_of (found_of matches.now)) }
{
    Options {
        top: value_of(matches, "top"),
        mul: value_of(matches, "mul"),
        div: value_of(matches, "div"),
        ports: value_of(matches, "ports"),
        period: value_of(matches, "period"),
        points: value_of(matches, "points"),
        cycles: value_of(matches, "cycles"),
        plain: is_set(matches, "plain"),
    }
}

fn synth_in<'a>(matches: &ArgMatches<'a>) -> Option<Synth<'a>>
    ensures value { option_map command.synth (option_map synth_view result) ≡ spec.synth_in (rows_of (found_of matches.now)) }
    ensures range { IfSome result (λ s. HasRange (synth_view s)) }
    ensures names { IfSome result (λ s. NamesThreeFiles (synth_view s)) }
{
    let source = value_of(matches, "source")?;
    let module_file = value_of(matches, "module")?;
    let report = value_of(matches, "report")?;
    if !are_three_different(source, module_file, report) {
        return None;
    }
    let options = options_in(matches);
    synth_with(source, module_file, report, &options)
}

fn cosim_in<'a>(matches: &ArgMatches<'a>) -> Option<Cosim<'a>>
    ensures value { option_map command.cosim (option_map cosim_view result) ≡ spec.cosim_in (rows_of (found_of matches.now)) }
    ensures limits { IfSome result (λ c. HasLimits (cosim_view c)) }
{
    let source = value_of(matches, "source")?;
    let module_file = value_of(matches, "module")?;
    let report = value_of(matches, "report")?;
    let run = value_of(matches, "run")?;
    if !are_four_different(source, module_file, report, run) {
        return None;
    }
    let options = options_in(matches);
    cosim_with(source, module_file, report, run, &options)
}

fn soak_in(matches: &ArgMatches<'_>) -> Option<u64>
    ensures { option_map command.soak result ≡ spec.soak_in (rows_of (found_of matches.now)) }
{
    let number = value_of(matches, "number")?;
    number_in(0, u64::MAX, number)
}

fn blast_in<'a>(matches: &ArgMatches<'a>) -> Option<Blast<'a>>
    ensures value { option_map command.blast (option_map blast_view result) ≡ spec.blast_in (rows_of (found_of matches.now)) }
    ensures names { IfSome result (λ b. NamesTwoFiles (blast_view b)) }
{
    let module_file = value_of(matches, "module")?;
    let graph = value_of(matches, "graph")?;
    blast_with(module_file, graph)
}

fn values_of<'m, 'a>(matches: &'m ArgMatches<'a>, name: &str) -> Option<&'m [&'a str]>
    ensures { option_map (λ s. map (λ w. w.now) s.now) result ≡ all_of name.now (rows_of (found_of matches.now)) }
{
    matches.get_strs(name)
}

fn link_in<'a>(alloc: Global, matches: &ArgMatches<'a>) -> Result<Option<Link<'a>>, AllocError>
    ensures value { IfOk result (λ o. option_map command.link (option_map link_view o) ≡ spec.link_in (rows_of (found_of matches.now))) }
    ensures range { IfOk result (λ o. IfSome o (λ l. IsLinkable (link_view l))) }
{
    let Some(chain) = value_of(matches, "chain") else {
        return Ok(None);
    };
    let Some(depth) = value_of(matches, "depth") else {
        return Ok(None);
    };
    let Some(stages) = values_of(matches, "stages") else {
        return Ok(None);
    };
    link_with(alloc, chain, depth, Vec::from_slice(alloc, stages)?)
}

/// The command of this name other than `link`, if these matches are its arguments.
fn fixed_command_in<'a>(name: &str, matches: &ArgMatches<'a>) -> Option<Command<'a>>
    ensures value { option_map view result ≡ spec.fixed_command_in name.now (rows_of (found_of matches.now)) }
    ensures range { IfSome result IsInRange }
{
    if is_word(name, "synth") {
        Some(Command::Synth(synth_in(matches)?))
    } else if is_word(name, "cosim") {
        Some(Command::Cosim(cosim_in(matches)?))
    } else if is_word(name, "soak") {
        Some(Command::Soak(soak_in(matches)?))
    } else if is_word(name, "timing") {
        Some(Command::Timing(value_of(matches, "module")?))
    } else if is_word(name, "blast") {
        Some(Command::Blast(blast_in(matches)?))
    } else {
        None
    }
}

fn command_in<'a>(
    alloc: Global,
    name: &str,
    matches: &ArgMatches<'a>,
) -> Result<Option<Command<'a>>, AllocError>
    ensures value { IfOk result (λ o. option_map view o ≡ spec.command_in name.now (rows_of (found_of matches.now))) }
    ensures range { IfOk result (λ o. IfSome o IsInRange) }
{
    if !is_word(name, "link") {
        return Ok(fixed_command_in(name, matches));
    }
    match link_in(alloc, matches)? {
        Some(link) => Ok(Some(Command::Link(link))),
        None => Ok(None),
    }
}

fn subcommand_in<'a>(
    alloc: Global,
    matches: &ArgMatches<'a>,
) -> Result<Option<Command<'a>>, AllocError>
    ensures value { IfOk result (λ o. option_map view o ≡ option_and_then (λ p. spec.command_in p.0 p.1) (subcommand_rows_of matches.now)) }
    ensures range { IfOk result (λ o. IfSome o IsInRange) }
{
    match matches.subcommand() {
        Some((name, found)) => command_in(alloc, name, found),
        None => Ok(None),
    }
}

/// The matches, where the command takes the words.
fn matches_of<'a>(alloc: Global, words: &'a [String]) -> Result<Option<ArgMatches<'a>>, AllocError>
    ensures { IfOk result (λ o. option_and_then subcommand_rows_of o ≡ spec.matches_of_words (map string_bytes words.now)) }
{
    match hls_app(alloc)?.try_get_matches_from(words) {
        Ok(matches) => Ok(Some(matches)),
        Err(error) => match error.kind() {
            ErrorKind::OutOfMemory => Err(AllocError),
            _ => Ok(None),
        },
    }
}

/// The command that `clap` makes of the words. None where they are no command, or name one file twice.
pub fn clap_command<'a>(
    alloc: Global,
    words: &'a [String],
) -> Result<Option<Command<'a>>, AllocError>
    ensures value { IfOk result (λ o. option_map view o ≡ spec.clap_command_of (map string_bytes words.now)) }
    ensures range { IfOk result (λ o. IfSome o IsInRange) }
{
    match matches_of(alloc, words)? {
        Some(matches) => subcommand_in(alloc, &matches),
        None => Ok(None),
    }
}
