// The rows of a recording, for the people who compute the track: standard input in, a line an observation out.
#![tactic(auto)]

use std::process::ExitCode;

fn main(rt: HostRuntime) -> ExitCode {
    ExitCode::from(report::status(report::rows(&rt)))
}
