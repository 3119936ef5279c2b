// Makes the calls of rows in halls, prints programs, sends sessions to servers in memory, and tells where something
// else comes than must come; it also times halls.
#![tactic(auto)]

mod arguments;
mod fault;
mod files;
mod halls;
mod repeated;
mod reread;
mod rows;
mod server;
mod session;

use crate::arguments::{Files, Task, task_of};
use crate::fault::Fault;
use crate::files::look_at_files;
use crate::halls::speed::{idle_hall, work_off};
use crate::rows::{Rows, look_at_rows};
use std::env;
use std::process::ExitCode;

fn main(rt: HostRuntime) -> ExitCode {
    match run(&rt) {
        Ok(0) => ExitCode::SUCCESS,
        Ok(_) => ExitCode::FAILURE,
        Err(fault) => {
            // Nothing is left to be done where the message cannot be written.
            let _ = eprintln!(&rt; "aud_session_tests: {fault}");
            ExitCode::from(fault.status())
        }
    }
}

// How many rows and sessions come to something else than is written, or programs are read otherwise.
fn run(rt: &HostRuntime) -> Result<usize, Fault> {
    let words: Vec<String> = env::args(rt)?.collect(rt.alloc())?;
    match task_of(&words)? {
        Task::Look(files) => return look_at(rt, files),
        Task::Work(measure) => {
            let units = work_off(rt.alloc(), measure)?;
            println!(rt; "{units} units")?;
        }
        Task::Idle { seats } => stay_idle(rt, seats)?,
    }
    Ok(0)
}

fn look_at(rt: &HostRuntime, files: Files) -> Result<usize, Fault> {
    let halls = look_at_rows(rt, Rows::Halls, files.halls)?;
    let programs = look_at_rows(rt, Rows::Programs, files.programs)?;
    let sessions = look_at_files(rt, files.sessions)?;
    Ok(halls.saturating_add(programs).saturating_add(sessions))
}

// Has so many seats stay idle until a line of the input comes or its end.
fn stay_idle(rt: &HostRuntime, seats: u32) -> Result<(), Fault> {
    let _hall = idle_hall(rt.alloc(), seats as usize)?;
    println!(rt; "{seats} seats are idle")?;
    let mut line = String::new(rt.alloc());
    let _length = rt.read_line(&mut line)?;
    Ok(())
}
