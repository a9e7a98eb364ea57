//! The `clap` command of the program.
ghost use Rattle.std.specs.Prelude.{◌≡◌, false, IfOk};
ghost use Rattle.clap.specs.Words.{app_of, rule_of};
ghost use Rattle.clap.specs.declared.builder.command.Command.TheViews.{out-Command};
ghost use Rattle.command_words.specs.ClapCommand as spec;

use clap::{Arg, ArgAction, Command};
use std::alloc::{AllocError, Global};

fn positional<'a>(alloc: Global, name: &'a str) -> Arg<'a>
    ensures rule { rule_of result ≡ spec.positional name.now }
    ensures local { result.global ≡ false }
{
    Arg::new(alloc, name).action(ArgAction::Set).required(true)
}

fn one_or_more<'a>(alloc: Global, name: &'a str) -> Arg<'a>
    ensures rule { rule_of result ≡ spec.one_or_more name.now }
    ensures local { result.global ≡ false }
{
    positional(alloc, name).num_args(1..)
}

fn option<'a>(alloc: Global, name: &'a str) -> Arg<'a>
    ensures rule { rule_of result ≡ spec.option name.now }
    ensures local { result.global ≡ false }
{
    Arg::new(alloc, name).long(name).action(ArgAction::Set)
}

fn required_option<'a>(alloc: Global, name: &'a str) -> Arg<'a>
    ensures rule { rule_of result ≡ spec.required_option name.now }
    ensures local { result.global ≡ false }
{
    option(alloc, name).required(true)
}

fn flag<'a>(alloc: Global, name: &'a str) -> Arg<'a>
    ensures rule { rule_of result ≡ spec.flag name.now }
    ensures local { result.global ≡ false }
{
    Arg::new(alloc, name).long(name).action(ArgAction::SetTrue)
}

fn synth_app<'a>(alloc: Global) -> Result<Command<'a>, AllocError>
    ensures app { IfOk result (λ c. app_of c ≡ spec.synth_app) }
    ensures local { IfOk result (λ c. (out-Command c).has_globals ≡ false) }
{
    Command::new(alloc, "synth")
        .arg(positional(alloc, "source"))?
        .arg(positional(alloc, "module"))?
        .arg(positional(alloc, "report"))?
        .arg(required_option(alloc, "top"))?
        .arg(option(alloc, "mul"))?
        .arg(option(alloc, "div"))?
        .arg(option(alloc, "ports"))?
        .arg(option(alloc, "period"))?
        .arg(flag(alloc, "plain"))
}

fn cosim_app<'a>(alloc: Global) -> Result<Command<'a>, AllocError>
    ensures app { IfOk result (λ c. app_of c ≡ spec.cosim_app) }
    ensures local { IfOk result (λ c. (out-Command c).has_globals ≡ false) }
{
    Command::new(alloc, "cosim")
        .arg(positional(alloc, "source"))?
        .arg(positional(alloc, "module"))?
        .arg(positional(alloc, "report"))?
        .arg(positional(alloc, "run"))?
        .arg(required_option(alloc, "top"))?
        .arg(option(alloc, "points"))?
        .arg(option(alloc, "cycles"))
}

fn soak_app<'a>(alloc: Global) -> Result<Command<'a>, AllocError>
    ensures app { IfOk result (λ c. app_of c ≡ spec.soak_app) }
    ensures local { IfOk result (λ c. (out-Command c).has_globals ≡ false) }
{
    Command::new(alloc, "soak").arg(positional(alloc, "number"))
}

fn timing_app<'a>(alloc: Global) -> Result<Command<'a>, AllocError>
    ensures app { IfOk result (λ c. app_of c ≡ spec.timing_app) }
    ensures local { IfOk result (λ c. (out-Command c).has_globals ≡ false) }
{
    Command::new(alloc, "timing").arg(positional(alloc, "module"))
}

fn blast_app<'a>(alloc: Global) -> Result<Command<'a>, AllocError>
    ensures app { IfOk result (λ c. app_of c ≡ spec.blast_app) }
    ensures local { IfOk result (λ c. (out-Command c).has_globals ≡ false) }
{
    Command::new(alloc, "blast")
        .arg(positional(alloc, "module"))?
        .arg(positional(alloc, "graph"))
}

fn link_app<'a>(alloc: Global) -> Result<Command<'a>, AllocError>
    ensures app { IfOk result (λ c. app_of c ≡ spec.link_app) }
    ensures local { IfOk result (λ c. (out-Command c).has_globals ≡ false) }
{
    Command::new(alloc, "link")
        .arg(positional(alloc, "chain"))?
        .arg(positional(alloc, "depth"))?
        .arg(one_or_more(alloc, "stages"))
}

/// The command with a subcommand for each command of the program, and with no help and no version.
pub fn hls_app<'a>(alloc: Global) -> Result<Command<'a>, AllocError>
    ensures { IfOk result (λ c. app_of c ≡ spec.hls_app) }
{
    Command::new(alloc, "hls")
        .no_binary_name(true)
        .disable_help_flag(true)
        .disable_help_subcommand(true)
        .subcommand(synth_app(alloc)?)?
        .subcommand(cosim_app(alloc)?)?
        .subcommand(soak_app(alloc)?)?
        .subcommand(timing_app(alloc)?)?
        .subcommand(blast_app(alloc)?)?
        .subcommand(link_app(alloc)?)
}
