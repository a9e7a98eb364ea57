//! The lines that say what a comparison came to.
ghost use Rattle.std.specs.Prelude.{◌≡◌, ◌++◌, codes, map, IfOk, OnOk};
ghost use Rattle.std.specs.String.{string_bytes};
ghost use Rattle.std.specs.Fmt.{decimal, signed_decimal};
ghost use Rattle.cosim_levels.specs.Verdicts.{shown_of, verdict_of};
ghost use Rattle.hls_cli.specs.VerdictLines as line;
ghost use Rattle.hls_cli.specs.Work.{IsVerdictStatus};

use cosim_levels::verdict::{Item, Level, Shown, Verdict};
use hls_base::place::Place;
use hls_base::refusal::{Refusal, UbRule};
use std::alloc::{AllocError, Global};

/// The name of a rule on undefined behaviour.
fn rule_name(rule: UbRule) -> &'static str
    ensures { result.now ≡ line.rule_name rule }
{
    match rule {
        UbRule::Overflow => "Overflow",
        UbRule::DivideByZero => "DivideByZero",
        UbRule::QuotientRange => "QuotientRange",
        UbRule::ShiftCount => "ShiftCount",
        UbRule::ShiftLeft => "ShiftLeft",
        UbRule::Index => "Index",
        UbRule::Unset => "Unset",
        UbRule::UnsetElement => "UnsetElement",
        UbRule::NoReturn => "NoReturn",
    }
}

fn level_name(level: Level) -> &'static str
    ensures { result.now ≡ line.level_name level }
{
    match level {
        Level::C => "c",
        Level::Verilog => "verilog",
    }
}

fn undefined_line(alloc: Global, rule: UbRule, at: Place) -> Result<String, AllocError>
    ensures { IfOk result (λ s. string_bytes s ≡ line.undefined_line rule at) }
{
    let name = rule_name(rule);
    format!(in alloc; "undefined {name} at {at}\n")
}

fn waiting_line(alloc: Global, level: Level, limit: u64) -> Result<String, AllocError>
    ensures { IfOk result (λ s. string_bytes s ≡ line.waiting_line level limit) }
{
    let name = level_name(level);
    format!(in alloc; "running {name} {limit}\n")
}

fn module_line(alloc: Global, refusal: Refusal) -> Result<String, AllocError>
    ensures { IfOk result (λ s. string_bytes s ≡ line.file_line (codes "module") refusal) }
{
    let rule = refusal.rule;
    let place = refusal.place;
    format!(in alloc; "module rule {rule} at {place}\n")
}

fn report_line(alloc: Global, refusal: Refusal) -> Result<String, AllocError>
    ensures { IfOk result (λ s. string_bytes s ≡ line.file_line (codes "report") refusal) }
{
    let rule = refusal.rule;
    let place = refusal.place;
    format!(in alloc; "report rule {rule} at {place}\n")
}

/// A blank and the number.
fn number_word(alloc: Global, number: i128) -> Result<String, AllocError>
    ensures { IfOk result (λ s. string_bytes s ≡ codes " " ++ signed_decimal number) }
{
    format!(in alloc; " {number}")
}

fn element_words(alloc: Global, name: &[u8], index: u32) -> Result<Vec<u8>, AllocError>
    ensures { IfOk result (λ v. v.items ≡ name.now ++ (codes " " ++ decimal index)) }
{
    let mut words = Vec::from_slice(alloc, name)?;
    let number = format!(in alloc; " {index}")?;
    words.extend_from_slice(number.as_bytes())?;
    Ok(words)
}

fn item_words(alloc: Global, item: &Item) -> Result<Vec<u8>, AllocError>
    ensures { IfOk result (λ v. v.items ≡ line.item_words item.now) }
{
    match item {
        Item::Ret => Vec::from_slice(alloc, b"ret"),
        Item::Cycles => Vec::from_slice(alloc, b"cycles"),
        Item::Element { name, index } => element_words(alloc, name.items(), *index),
    }
}

/// Two numbers, each behind a blank, and the end of the line.
fn number_words(alloc: Global, expected: i128, found: i128) -> Result<String, AllocError>
    ensures { IfOk result (λ s. string_bytes s ≡ codes " " ++ (signed_decimal expected ++ (codes " " ++ (signed_decimal found ++ codes "\n")))) }
{
    format!(in alloc; " {expected} {found}\n")
}

fn differ_line(
    alloc: Global,
    item: &Item,
    expected: i128,
    found: i128,
) -> Result<Vec<u8>, AllocError>
    ensures { IfOk result (λ v. v.items ≡ line.differ_line (record { item = item.now; expected = expected; found = found })) }
{
    let mut line = Vec::from_slice(alloc, b"differ verilog ")?;
    line.extend_from_slice(&item_words(alloc, item)?)?;
    line.extend_from_slice(number_words(alloc, expected, found)?.as_bytes())?;
    Ok(line)
}

fn result_line(alloc: Global, ret: Option<i128>) -> Result<String, AllocError>
    ensures { IfOk result (λ s. string_bytes s ≡ line.result_line ret) }
{
    match ret {
        Some(number) => format!(in alloc; "c ret {number}\n"),
        None => format!(in alloc; "c ret -\n"),
    }
}

fn push_numbers(alloc: Global, lines: &mut Vec<u8>, values: &[i128]) -> Result<(), AllocError>
    ensures { OnOk result (lines.new.items ≡ lines.old.items ++ line.numbers values.now) }
{
    for value in values {
        lines.extend_from_slice(number_word(alloc, *value)?.as_bytes())?;
    }
    Ok(())
}

fn push_array(alloc: Global, lines: &mut Vec<u8>, array: &Shown) -> Result<(), AllocError>
    ensures { OnOk result (lines.new.items ≡ lines.old.items ++ line.array_line (shown_of array.now)) }
{
    lines.extend_from_slice(b"array ")?;
    lines.extend_from_slice(array.name.items())?;
    push_numbers(alloc, lines, &array.values)?;
    lines.push(b'\n')?;
    Ok(())
}

fn push_arrays(alloc: Global, lines: &mut Vec<u8>, arrays: &[Shown]) -> Result<(), AllocError>
    ensures { OnOk result (lines.new.items ≡ lines.old.items ++ line.array_lines (map shown_of arrays.now)) }
{
    for array in arrays {
        push_array(alloc, lines, array)?;
    }
    Ok(())
}

fn count_lines(alloc: Global, cycles: u128, clock: u128) -> Result<String, AllocError>
    ensures { IfOk result (λ s. string_bytes s ≡ line.count_lines cycles clock) }
{
    format!(in alloc; "formula {cycles}\nclock {clock}\nverilog {cycles}\nagree\n")
}

fn agree_lines(
    alloc: Global,
    ret: Option<i128>,
    arrays: &[Shown],
    cycles: u128,
    clock: u128,
) -> Result<Vec<u8>, AllocError>
    ensures { IfOk result (λ v. v.items ≡ line.result_line ret ++ (line.array_lines (map shown_of arrays.now) ++ line.count_lines cycles clock)) }
{
    let mut lines = result_line(alloc, ret)?.into_bytes();
    push_arrays(alloc, &mut lines, arrays)?;
    lines.extend_from_slice(count_lines(alloc, cycles, clock)?.as_bytes())?;
    Ok(lines)
}

/// The status of a verdict.
pub fn verdict_status(verdict: &Verdict) -> u8
    ensures value { result ≡ line.verdict_status (verdict_of verdict.now) }
    ensures range { IsVerdictStatus result }
{
    match verdict {
        Verdict::Agree { .. } => 0,
        Verdict::Differ { .. } => 5,
        Verdict::Waiting { .. } => 6,
        Verdict::RunLine(_) => 7,
        Verdict::ModuleBad(_) | Verdict::ReportBad(_) => 8,
        Verdict::Undefined(..) => 9,
    }
}

/// Says what a comparison came to.
pub fn verdict_lines(alloc: Global, verdict: &Verdict) -> Result<Vec<u8>, AllocError>
    ensures { IfOk result (λ v. v.items ≡ line.verdict_lines (verdict_of verdict.now)) }
{
    match verdict {
        Verdict::Agree {
            ret,
            arrays,
            cycles,
            clock,
        } => agree_lines(alloc, *ret, arrays, *cycles, *clock),
        Verdict::Differ {
            item,
            expected,
            found,
        } => differ_line(alloc, item, *expected, *found),
        Verdict::Waiting { level, limit } => {
            Ok(waiting_line(alloc, *level, *limit)?.into_bytes())
        }
        Verdict::RunLine(line) => Ok(format!(in alloc; "run line {line}\n")?.into_bytes()),
        Verdict::ModuleBad(refusal) => Ok(module_line(alloc, *refusal)?.into_bytes()),
        Verdict::ReportBad(refusal) => Ok(report_line(alloc, *refusal)?.into_bytes()),
        Verdict::Undefined(rule, at) => Ok(undefined_line(alloc, *rule, *at)?.into_bytes()),
    }
}
