//! The options of a command.
ghost use Rattle.std.specs.Prelude.{◌≡◌, ℕ, List, ◌∷◌, map, Some};
ghost use Rattle.std.specs.Option.{option_map};
ghost use Rattle.std.specs.String.{string_bytes};
ghost use Rattle.command_words.specs.Options as spec;
ghost use Rattle.command_words.specs.OptionViews.{options_view, reading_behind};

use crate::word::{is_plain, is_word};

/// What the options give, each where it is there.
#[derive(Clone, Copy)]
pub struct Options<'a> {
    pub top: Option<&'a str>,
    pub mul: Option<&'a str>,
    pub div: Option<&'a str>,
    pub ports: Option<&'a str>,
    pub period: Option<&'a str>,
    pub points: Option<&'a str>,
    pub cycles: Option<&'a str>,
    pub plain: bool,
}

const NONE: Options<'static> = Options {
    top: None,
    mul: None,
    div: None,
    ports: None,
    period: None,
    points: None,
    cycles: None,
    plain: false,
};

/// The options where the one of this name gets this value, if there is such an option, and it has none.
fn given<'a>(options: Options<'a>, name: &str, value: &'a str) -> Option<Options<'a>>
    ensures { option_map options_view result ≡ spec.given (options_view options.entry) name.now value.now }
{
    let mut all = options;
    let old = if is_word(name, "--top") {
        all.top = Some(value);
        options.top
    } else if is_word(name, "--mul") {
        all.mul = Some(value);
        options.mul
    } else if is_word(name, "--div") {
        all.div = Some(value);
        options.div
    } else if is_word(name, "--ports") {
        all.ports = Some(value);
        options.ports
    } else if is_word(name, "--period") {
        all.period = Some(value);
        options.period
    } else if is_word(name, "--points") {
        all.points = Some(value);
        options.points
    } else if is_word(name, "--cycles") {
        all.cycles = Some(value);
        options.cycles
    } else {
        return None;
    };
    match old {
        Some(_) => None,
        None => Some(all),
    }
}

/// The options with `--plain`, if it is not there yet.
fn flagged<'a>(options: Options<'a>) -> Option<Options<'a>>
    ensures { option_map options_view result ≡ spec.flagged (options_view options.entry) }
{
    if options.plain {
        return None;
    }
    let mut all = options;
    all.plain = true;
    Some(all)
}

/// How far options were read: what was given, and the name of the option whose value comes next.
#[derive(Clone, Copy)]
struct Reading<'a> {
    options: Options<'a>,
    name: Option<&'a str>,
}

/// The reading behind one word more.
fn read_on<'a>(reading: Reading<'a>, word: &'a str) -> Option<Reading<'a>>
    ensures { (ws : List (List ℕ)) → reading_behind result ws ≡ reading_behind (Some reading.entry) (word.now ∷ ws) }
{
    let (options, name) = match reading.name {
        Some(name) if is_plain(word) => (given(reading.options, name, word), None),
        Some(_) => (None, None),
        None if is_word(word, "--plain") => (flagged(reading.options), None),
        None => (Some(reading.options), Some(word)),
    };
    match options {
        Some(options) => Some(Reading { options, name }),
        None => None,
    }
}

/// The options that these words give.
pub fn options_of<'a>(words: &'a [String]) -> Option<Options<'a>>
    ensures { option_map options_view result ≡ spec.options_of (map string_bytes words.now) }
{
    let mut reading = Reading {
        options: NONE,
        name: None,
    };
    for word in words {
        match read_on(reading, word.as_str()) {
            Some(next) => reading = next,
            None => return None,
        }
    }
    match reading.name {
        Some(_) => None,
        None => Some(reading.options),
    }
}
