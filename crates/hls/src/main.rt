//! The program `hls`.
#![tactic(auto)]

use hls_cli::start::start;
use std::process::ExitCode;

fn main(rt: HostRuntime) -> ExitCode {
    ExitCode::from(start(&rt))
}
