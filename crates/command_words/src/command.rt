//! The commands of the program, with the files, the numbers and the options that each has.
ghost use Rattle.std.specs.Prelude.{◌≡◌, ◌≤◌, map, IfOk, IfSome};
ghost use Rattle.std.specs.Option.{option_map};
ghost use Rattle.command_words.specs.Words.{number_in, number_or};
ghost use Rattle.command_words.specs.OptionViews.{options_view};
ghost use Rattle.command_words.specs.Commands as spec;
ghost use Rattle.command_words.specs.CommandViews.{synth_view, cosim_view, blast_view, link_view, HasRange, HasLimits, NamesTwoFiles, IsLinkable};

use crate::names::are_all_different;
use crate::number::{number_in, number_or};
use crate::options::Options;
use crate::word::is_word;
use std::alloc::{AllocError, Global};

/// The names of the three files of `synth`, that of the top function, and what is asked for.
#[derive(Clone, Copy)]
pub struct Synth<'a> {
    pub source: &'a str,
    pub module_file: &'a str,
    pub report: &'a str,
    pub top: &'a str,
    pub mul: u8,
    pub div: u8,
    pub ports: u8,
    /// 1 to 1,000, and 0 where no operators are to be fused.
    pub period: u32,
    pub plain: bool,
}

/// The names of the four files of `cosim`, that of the top function, and the limits.
#[derive(Clone, Copy)]
pub struct Cosim<'a> {
    pub source: &'a str,
    pub module_file: &'a str,
    pub report: &'a str,
    pub run: &'a str,
    pub top: &'a str,
    pub points: u64,
    pub cycles: u64,
}

/// The names of the two files of `blast`: the module that is read, and the graph that is written.
#[derive(Clone, Copy)]
pub struct Blast<'a> {
    pub module_file: &'a str,
    pub graph: &'a str,
}

/// The name of the file that `link` writes, the items that each queue holds, and the names of the modules in order.
#[derive(Drop)]
pub struct Link<'a> {
    pub chain: &'a str,
    pub depth: u16,
    pub stages: Vec<&'a str>,
}

/// What the words ask for.
#[derive(Drop)]
pub enum Command<'a> {
    Synth(Synth<'a>),
    Cosim(Cosim<'a>),
    Soak(u64),
    Timing(&'a str),
    Blast(Blast<'a>),
    Link(Link<'a>),
}

/// How many points a run passes at most, and how many cycles a wait takes, where the words do not say it.
const LIMIT: u64 = 1_000_000;

/// The greatest limit.
const GREATEST_LIMIT: u64 = 1_000_000_000;

/// The greatest depth of a queue.
const GREATEST_DEPTH: u64 = 1_024;

/// The number of an option of at most 8 bits, 1 where it is not there.
fn small_or_one(high: u8, word: Option<&str>) -> Option<u8>
    requires { 1 ≤ high }
    ensures value { result ≡ number_or 1 high 1 (option_map (λ w. w.now) word.entry) }
    ensures range { IfSome result (λ n. (1 ≤ n) × (n ≤ high)) }
{
    match number_or(1, u64::from(high), 1, word) {
        Some(n) => Some(n as u8),
        None => None,
    }
}

fn limit(word: Option<&str>) -> Option<u64>
    ensures value { result ≡ number_or 1 spec.greatest_limit 1000000 (option_map (λ w. w.now) word.entry) }
    ensures range { IfSome result (λ n. (1 ≤ n) × (n ≤ spec.greatest_limit)) }
{
    number_or(1, GREATEST_LIMIT, LIMIT, word)
}

/// The greatest period.
const GREATEST_PERIOD: u64 = 1_000;

fn period_of(word: Option<&str>) -> Option<u32>
    ensures value { result ≡ spec.period_of (option_map (λ w. w.now) word.entry) }
    ensures range { IfSome result (λ n. n ≤ 1000) }
{
    match word {
        None => Some(0),
        Some(word) => match number_in(1, GREATEST_PERIOD, word) {
            Some(n) => Some(n as u32),
            None => None,
        },
    }
}

fn depth_of(word: &str) -> Option<u16>
    ensures value { result ≡ number_in 1 spec.greatest_depth word.now }
    ensures range { IfSome result (λ n. (1 ≤ n) × (n ≤ spec.greatest_depth)) }
{
    match number_in(1, GREATEST_DEPTH, word) {
        Some(n) => Some(n as u16),
        None => None,
    }
}

/// The command with the numbers that the options give.
fn synth_numbers<'a>(command: Synth<'a>, options: &Options<'a>) -> Option<Synth<'a>>
    ensures value { option_map synth_view result ≡ spec.synth_numbers (synth_view command.entry) (options_view options.now) }
    ensures range { IfSome result (λ s. HasRange (synth_view s)) }
    ensures names { IfSome result (λ s. (s.source.now ≡ command.entry.source.now) × (s.module_file.now ≡ command.entry.module_file.now) × (s.report.now ≡ command.entry.report.now)) }
{
    let mul = small_or_one(8, options.mul)?;
    let div = small_or_one(4, options.div)?;
    let ports = small_or_one(2, options.ports)?;
    let period = period_of(options.period)?;
    let mut all = command;
    all.mul = mul;
    all.div = div;
    all.ports = ports;
    all.period = period;
    Some(all)
}

/// The command with the limits that the options give.
fn cosim_numbers<'a>(command: Cosim<'a>, options: &Options<'a>) -> Option<Cosim<'a>>
    ensures value { option_map cosim_view result ≡ spec.cosim_numbers (cosim_view command.entry) (options_view options.now) }
    ensures limits { IfSome result (λ c. HasLimits (cosim_view c)) }
{
    let points = limit(options.points)?;
    let cycles = limit(options.cycles)?;
    let mut all = command;
    all.points = points;
    all.cycles = cycles;
    Some(all)
}

/// `synth` of these files with these options.
pub(crate) fn synth_with<'a>(
    source: &'a str,
    module_file: &'a str,
    report: &'a str,
    options: &Options<'a>,
) -> Option<Synth<'a>>
    ensures value { option_map spec.synth (option_map synth_view result) ≡ spec.synth_with source.now module_file.now report.now (options_view options.now) }
    ensures range { IfSome result (λ s. HasRange (synth_view s)) }
    ensures names { IfSome result (λ s. (s.source.now ≡ source.now) × (s.module_file.now ≡ module_file.now) × (s.report.now ≡ report.now)) }
{
    if options.points.is_some() || options.cycles.is_some() {
        return None;
    }
    let top = options.top?;
    let command = Synth {
        source,
        module_file,
        report,
        top,
        mul: 1,
        div: 1,
        ports: 1,
        period: 0,
        plain: options.plain,
    };
    synth_numbers(command, options)
}

/// `cosim` of these files with these options.
pub(crate) fn cosim_with<'a>(
    source: &'a str,
    module_file: &'a str,
    report: &'a str,
    run: &'a str,
    options: &Options<'a>,
) -> Option<Cosim<'a>>
    ensures value { option_map spec.cosim (option_map cosim_view result) ≡ spec.cosim_with source.now module_file.now report.now run.now (options_view options.now) }
    ensures limits { IfSome result (λ c. HasLimits (cosim_view c)) }
{
    if options.mul.is_some()
        || options.div.is_some()
        || options.ports.is_some()
        || options.period.is_some()
        || options.plain
    {
        return None;
    }
    let top = options.top?;
    let command = Cosim {
        source,
        module_file,
        report,
        run,
        top,
        points: 1,
        cycles: 1,
    };
    cosim_numbers(command, options)
}

/// `blast` of these files, which must differ.
pub(crate) fn blast_with<'a>(module_file: &'a str, graph: &'a str) -> Option<Blast<'a>>
    ensures value { option_map spec.blast (option_map blast_view result) ≡ spec.blast_with module_file.now graph.now }
    ensures names { IfSome result (λ b. NamesTwoFiles (blast_view b)) }
{
    if is_word(module_file, graph) {
        return None;
    }
    Some(Blast { module_file, graph })
}

/// `link` of this chain with these words for its depth and its stages.
pub(crate) fn link_with<'a>(
    alloc: Global,
    chain: &'a str,
    depth: &str,
    stages: Vec<&'a str>,
) -> Result<Option<Link<'a>>, AllocError>
    ensures value { IfOk result (λ o. option_map spec.link (option_map link_view o) ≡ spec.link_with chain.now depth.now (map (λ s. s.now) stages.entry.items)) }
    ensures range { IfOk result (λ o. IfSome o (λ l. IsLinkable (link_view l))) }
{
    if stages.is_empty() || !are_all_different(alloc, chain, &stages)? {
        return Ok(None);
    }
    match depth_of(depth) {
        Some(depth) => Ok(Some(Link {
            chain,
            depth,
            stages,
        })),
        None => Ok(None),
    }
}
