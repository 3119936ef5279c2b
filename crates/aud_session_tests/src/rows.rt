// Files of rows, each of which is looked at by itself: calls of a hall, or a program and its canonical text.

use crate::fault::Fault;
use crate::halls::compared;
use crate::reread;
use crate::session::{Session, sessions};
use std::alloc::Global;
use std::fs;

/// What the rows of a file are.
#[derive(Clone, Copy)]
pub enum Rows {
    /// Calls of a hall, and their replies.
    Halls,
    /// Programs, and their canonical texts.
    Programs,
}

/// How many rows of these files come to something else than is written. Tells of each file.
///
/// # Errors
///
/// `Stream` where a file cannot be read, and those of `sessions` and of what is done with a row.
pub fn look_at_rows(rt: &HostRuntime, rows: Rows, files: &[String]) -> Result<usize, Fault> {
    let mut others = 0usize;
    for file in files {
        let text = fs::read_to_string(rt, file)?;
        let sessions = sessions(rt.alloc(), text.as_str())?;
        let found = look_at_all(rt, rows, sessions.as_slice())?;
        others = others.saturating_add(found);
        let count = sessions.len();
        println!(rt; "{file}: {count} rows, {found} otherwise")?;
    }
    Ok(others)
}

// How many of them come to something else.
fn look_at_all(rt: &HostRuntime, rows: Rows, sessions: &[Session]) -> Result<usize, Fault> {
    let mut others = 0usize;
    for session in sessions {
        if let Some(found) = look_at(rt.alloc(), rows, session)? {
            println!(rt; "{}: {found}", session.name)?;
            others = others.saturating_add(1);
        }
    }
    Ok(others)
}

// What it comes to, where that is not what is written.
fn look_at(alloc: Global, rows: Rows, row: &Session) -> Result<Option<String>, Fault> {
    match rows {
        Rows::Halls => compared::look_at(alloc, row),
        Rows::Programs => reread::look_at(alloc, row),
    }
}
