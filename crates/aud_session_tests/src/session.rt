// Sessions as files have them. A line that begins with `=` names the session that follows, one that begins with `>` is sent,
// and one that begins with `<` must be written for what is sent. Behind these two signs stands
//
// - a space and the line, as it is;
// - `* 127 ` and a line that is sent or written so many times, itself a text as `repeated` has it;
// - `- ` and such a text, which no line feed ends.
//
// Empty lines, and those that begin with `#`, are for the reader. A session that sends no byte says so by a line that
// sends an empty text.

use crate::repeated::{TextFault, push_lines, push_text};
use std::alloc::{AllocError, Global};

/// What is sent, and what must be written for it.
#[derive(Drop)]
pub struct Session {
    pub name: String,
    pub sent: Vec<u8>,
    pub written: Vec<u8>,
    // The line of its name, and whether it has a line that is sent.
    line: usize,
    sends: bool,
}

/// Why a text has no sessions. Its lines are counted from 1.
#[derive(Clone, Copy)]
pub enum LineFault {
    Memory,
    /// The line of this number begins with none of these signs, or no session was named before it.
    Line(usize),
    /// What stands behind the sign of this line has none of these forms.
    Form(usize),
    /// The session that this line names has no line that is sent.
    Silent(usize),
    NoSession,
}

impl From<AllocError> for LineFault {
    fn from(_error: AllocError) -> LineFault {
        LineFault::Memory
    }
}

/// The sessions of a file's text, in its order.
///
/// # Errors
///
/// `Line` or `Form` with the first line that is none of a session, `Silent` with the first session that sends nothing,
/// and `NoSession` where there is none; `Memory` where memory is refused.
pub fn sessions(alloc: Global, text: &str) -> Result<Vec<Session>, LineFault> {
    let mut sessions = Vec::new(alloc);
    let mut number = 0usize;
    for line in text.lines() {
        number = number.saturating_add(1);
        if let Some(name) = line.strip_prefix("= ") {
            sessions
                .push(named(alloc, name, number)?)
                .map_err(|_| LineFault::Memory)?;
        } else if !adds(alloc, sessions.last_mut(), line).map_err(|fault| at(number, fault))? {
            return Err(LineFault::Line(number));
        }
    }
    look_at_silent(&sessions)?;
    Ok(sessions)
}

// Nothing is tested where there is no session, or one that sends nothing.
fn look_at_silent(sessions: &[Session]) -> Result<(), LineFault> {
    if sessions.is_empty() {
        return Err(LineFault::NoSession);
    }
    for session in sessions {
        if !session.sends {
            return Err(LineFault::Silent(session.line));
        }
    }
    Ok(())
}

fn at(number: usize, fault: TextFault) -> LineFault {
    match fault {
        TextFault::Memory => LineFault::Memory,
        TextFault::Form => LineFault::Form(number),
    }
}

fn named(alloc: Global, name: &str, line: usize) -> Result<Session, AllocError> {
    Ok(Session {
        name: String::from_str(alloc, name)?,
        sent: Vec::new(alloc),
        written: Vec::new(alloc),
        line,
        sends: false,
    })
}

// Adds a line to the session, or tells that it is none of a session.
fn adds(alloc: Global, session: Option<&mut Session>, line: &str) -> Result<bool, TextFault> {
    if line.is_empty() || line.starts_with('#') {
        return Ok(true);
    }
    let Some(session) = session else {
        return Ok(false);
    };
    if let Some(sent) = line.strip_prefix('>') {
        push_line(alloc, &mut session.sent, sent)?;
        session.sends = true;
        return Ok(true);
    }
    if let Some(written) = line.strip_prefix('<') {
        push_line(alloc, &mut session.written, written)?;
        return Ok(true);
    }
    Ok(false)
}

// Appends what stands behind the sign of a line.
fn push_line(alloc: Global, out: &mut Vec<u8>, line: &str) -> Result<(), TextFault> {
    if let Some(repeated) = line.strip_prefix("* ") {
        return push_lines(alloc, out, repeated);
    }
    if let Some(text) = line.strip_prefix("- ") {
        return push_text(out, text);
    }
    if !line.is_empty() {
        let plain = line.strip_prefix(' ').ok_or(TextFault::Form)?;
        out.extend_from_slice(plain.as_bytes())?;
    }
    out.extend_from_slice(b"\n")?;
    Ok(())
}
