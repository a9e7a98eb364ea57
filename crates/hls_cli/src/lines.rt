//! Lines that the program puts.
ghost use Rattle.std.specs.Prelude.{◌≡◌, IfOk};
ghost use Rattle.std.specs.String.{string_bytes};
ghost use Rattle.command_words.specs.CommandViews.{synth_view};
ghost use Rattle.hls_cli.specs.Lines as line;

use command_words::command::Synth;
use hls_base::refusal::Refusal;
use hls_base::text::Text;
use hls_flow::soak::Summary;
use std::alloc::{AllocError, Global};

pub const USAGE: &[u8] = b"usage: hls COMMAND ARGUMENTS\n";

pub const FAULT: &[u8] = b"fault\n";

pub const MEMORY: &[u8] = b"memory\n";

fn text_of(line: String) -> Text
    ensures { result ≡ string_bytes line }
{
    Text::new(line.into_bytes())
}

/// Says that a module was made.
pub fn made_line(alloc: Global, command: &Synth) -> Result<Text, AllocError>
    ensures { IfOk result (λ t. t ≡ line.made_line (synth_view command.now)) }
{
    let top = command.top;
    Ok(text_of(format!(in alloc; "made hls_{top}\n")?))
}

/// Says which rule a source breaks, and where.
pub fn refusal_line(alloc: Global, refusal: Refusal) -> Result<Text, AllocError>
    ensures { IfOk result (λ t. t ≡ line.refusal_line refusal) }
{
    let rule = refusal.rule;
    let place = refusal.place;
    Ok(text_of(format!(in alloc; "rule {rule} at {place}\n")?))
}

/// Says what a made program came to.
pub fn soak_line(alloc: Global, number: u64, summary: Summary) -> Result<Text, AllocError>
    ensures { IfOk result (λ t. t ≡ line.soak_line number summary) }
{
    let muls = summary.muls;
    let cycles = summary.cycles;
    let ret = summary.ret;
    let line = format!(in alloc; "soak {number} muls {muls} cycles {cycles} ret {ret} agree\n")?;
    Ok(text_of(line))
}
