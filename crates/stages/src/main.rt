//! The program `stages`.
#![tactic(auto)]

use stage_runs::start::start;
use std::process::ExitCode;

fn main(rt: HostRuntime) -> ExitCode {
    ExitCode::from(start(&rt))
}
