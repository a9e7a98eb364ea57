//! The program `hls`, started on a module whose longest path is asked for.
#![tactic(auto)]

use hls_cli::start::start;
use std::process::ExitCode;

fn main(rt: HostRuntime) -> ExitCode {
    ExitCode::from(start(&rt))
}
