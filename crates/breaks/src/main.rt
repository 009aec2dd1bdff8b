// Where lock broke in the messages of one TYPE: a recording on standard input, a line a break out.
#![tactic(auto)]

use std::process::ExitCode;

fn main(rt: HostRuntime) -> ExitCode {
    ExitCode::from(report::status(report::breaks(&rt)))
}
