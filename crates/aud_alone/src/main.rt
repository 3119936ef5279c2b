// A private server on standard input and output, without the server for many: small enough to be tried at once.
#![tactic(auto)]

use aud_solo::ended::run_standard;
use std::process::ExitCode;

fn main(rt: HostRuntime) -> ExitCode {
    ExitCode::from(run_standard(&rt))
}
