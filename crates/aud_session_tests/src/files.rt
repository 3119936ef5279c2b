// The sessions of files, what servers in memory answer, and what is read from the canonical texts of what they load.

use crate::fault::Fault;
use crate::reread::{Reread, read_back};
use crate::server::answers;
use crate::session::{Session, sessions};
use std::alloc::Global;
use std::{fs, io};

/// How many sessions of these files are answered otherwise than their file says, programs are read otherwise from their
/// canonical texts, and files cannot be looked at. Tells of each file.
pub fn look_at_files(rt: &HostRuntime, files: &[String]) -> io::Result<usize> {
    let mut others = 0usize;
    for file in files {
        let found = match look_at_file(rt, file.as_str()) {
            Ok(found) => found,
            Err(fault) => {
                println!(rt; "{file}: {fault}")?;
                1
            }
        };
        others = others.saturating_add(found);
    }
    Ok(others)
}

// How many sessions of a file are answered otherwise, and its programs read otherwise.
fn look_at_file(rt: &HostRuntime, file: &str) -> Result<usize, Fault> {
    let text = fs::read_to_string(rt, file)?;
    let sessions = sessions(rt.alloc(), text.as_str())?;
    let found = look_at(rt, sessions.as_slice())?;
    let count = sessions.len();
    let Reread { programs, others } = read_all_back(rt.alloc(), sessions.as_slice())?;
    println!(rt;
        "{file}: {count} sessions, {found} answered otherwise; {programs} programs, {others} read otherwise"
    )?;
    Ok(found.saturating_add(others))
}

// A server reads what a session sends whole, and in pieces of so many bytes.
const PIECES: [usize; 4] = [usize::MAX, 1, 2, 7];

// How many of the sessions are answered otherwise.
fn look_at(rt: &HostRuntime, sessions: &[Session]) -> Result<usize, Fault> {
    let mut others = 0usize;
    for session in sessions {
        let mut is_same = true;
        for most in PIECES {
            is_same &= is_answered(rt, rt.alloc(), session, most)?;
        }
        others = others.saturating_add(usize::from(!is_same));
    }
    Ok(others)
}

fn read_all_back(alloc: Global, sessions: &[Session]) -> Result<Reread, Fault> {
    let mut all = Reread {
        programs: 0,
        others: 0,
    };
    for session in sessions {
        all = all.with(read_back(alloc, session.sent.as_slice())?);
    }
    Ok(all)
}

// Whether the session is answered as its file says, where a server reads it in pieces of so many bytes at most.
fn is_answered(
    rt: &HostRuntime,
    alloc: Global,
    session: &Session,
    most: usize,
) -> Result<bool, Fault> {
    let written = answers(alloc, session.sent.as_slice(), most)?;
    if written.as_slice() == session.written.as_slice() {
        return Ok(true);
    }
    let found = String::from_utf8_lossy(alloc, written.as_slice())?;
    println!(rt; "{}, in pieces of {most}:\n{found}", session.name)?;
    Ok(false)
}
