// Why each byte of a short recording is or is not the first of a message: standard input in, a line a position out.
#![tactic(auto)]

use std::process::ExitCode;

fn main(rt: HostRuntime) -> ExitCode {
    ExitCode::from(report::status(report::reasons(&rt)))
}
