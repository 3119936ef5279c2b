// The server where a stream fails.

use crate::tests::finds;
use aud_solo::serving::ServeFault;
use aud_solo::solo::solo;
use aud_solo::streams::Stream;
use std::alloc::Global;
use std::io::{self, ErrorKind, Read, Write};
use std::process::Abort;

const ASKED: &[u8] = b"RUN 1\nQUIT\n";

// The first read has an error, if there is one; the next one gives all.
#[derive(Drop)]
struct Late<'a> {
    error: Option<ErrorKind>,
    rest: &'a [u8],
}

impl Read for Late<'_> {
    fn read(&mut self, buf: &mut [u8]) -> io::Result<usize> {
        match self.error.take() {
            Some(kind) => Err(io::Error::from(kind)),
            None => self.rest.read(buf),
        }
    }
}

// What is wrong with a writer.
#[derive(Clone, Copy)]
enum Flaw {
    Nothing,
    // It takes no byte, with an error or without one.
    Full,
    Idle,
    // It takes all, and cannot hand it on.
    Stuck,
    // The first write is interrupted.
    Late,
}

// Writes a `!` for each call of `write` that takes nothing.
#[derive(Drop)]
struct Flawed<'a> {
    written: &'a mut Vec<u8>,
    flaw: Flaw,
}

impl Write for Flawed<'_> {
    fn write(&mut self, buf: &[u8]) -> io::Result<usize> {
        match self.flaw {
            Flaw::Full => {
                self.written.push(b'!')?;
                Err(io::Error::from(ErrorKind::StorageFull))
            }
            Flaw::Idle => {
                self.written.push(b'!')?;
                Ok(0)
            }
            Flaw::Late => {
                self.flaw = Flaw::Nothing;
                self.written.push(b'!')?;
                Err(io::Error::from(ErrorKind::Interrupted))
            }
            Flaw::Nothing | Flaw::Stuck => {
                self.written.extend_from_slice(buf)?;
                Ok(buf.len())
            }
        }
    }

    fn flush(&mut self) -> io::Result<()> {
        match self.flaw {
            Flaw::Stuck => Err(io::Error::from(ErrorKind::BrokenPipe)),
            _ => Ok(()),
        }
    }
}

// The error of the first read, the writer's flaw, how the session ends, and what is written.
type Row = (
    Option<ErrorKind>,
    Flaw,
    Result<(), ServeFault>,
    &'static [u8],
);

const READ: Result<(), ServeFault> = Err(ServeFault::Read);

const WRITE: Result<(), ServeFault> = Err(ServeFault::Write);

const ROWS: [Row; 6] = [
    // That a read fails is told from memory that is refused, whatever its error says.
    (Some(ErrorKind::OutOfMemory), Flaw::Nothing, READ, b""),
    // Nothing more is written once an answer has failed.
    (None, Flaw::Full, WRITE, b"!"),
    (None, Flaw::Idle, WRITE, b"!"),
    (None, Flaw::Stuck, WRITE, b"- E14 no program\n"),
    // What is interrupted is tried again.
    (
        Some(ErrorKind::Interrupted),
        Flaw::Nothing,
        Ok(()),
        b"- E14 no program\n+ 0\n",
    ),
    (None, Flaw::Late, Ok(()), b"!- E14 no program\n+ 0\n"),
];

#[test]
fn each_row(rt: HostRuntime) {
    for row in ROWS {
        meets(&rt, rt.alloc(), row);
    }
}

fn meets(rt: &impl Abort, alloc: Global, row: Row) {
    let (error, flaw, wanted, answers) = row;
    let mut written = Vec::new(alloc);
    let mut reader = Stream::new(Late { error, rest: ASKED });
    let mut writer = Stream::new(Flawed {
        written: &mut written,
        flaw,
    });
    let ended = solo(alloc, &mut reader, &mut writer);
    assert!(rt; ended == wanted);
    finds(rt, "answers", &written, answers);
}
