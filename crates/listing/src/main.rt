// The listing of a recording: standard input in, a line a message out.
#![tactic(auto)]

use std::process::ExitCode;

fn main(rt: HostRuntime) -> ExitCode {
    ExitCode::from(report::status(report::listing(&rt)))
}
