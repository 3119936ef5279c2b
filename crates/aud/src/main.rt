// An interpreter of Ada tasking programs, as a server.
#![tactic(auto)]

use aud_server::program::{ProgramFault, program, refuse};
use aud_solo::serving::ServeFault;
use std::process::ExitCode;
use std::rt::Env;
use std::{env, io};

fn main(rt: HostRuntime) -> ExitCode {
    let status = match words(&rt) {
        Ok(words) => program(&rt, &words),
        Err(error) if error.kind() == io::ErrorKind::OutOfMemory => {
            refuse(&rt, ProgramFault::Server(ServeFault::Memory))
        }
        Err(_) => refuse(&rt, ProgramFault::Arguments),
    };
    ExitCode::from(status)
}

// The words of the command line. One that is not UTF-8 is an error.
fn words(rt: &(impl Env + AllocGlobal)) -> io::Result<Vec<String>> {
    Ok(env::args(rt)?.collect(rt.alloc())?)
}
