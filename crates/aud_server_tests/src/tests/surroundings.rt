// A runtime with standard streams of its own, for tests of what the program writes there.

use std::alloc::{Allocator, Global};
use std::fmt::Display;
use std::io::{self, BufRead, ErrorKind, Lines, Read};
use std::net::{Net, SocketAddr};
use std::sync::{Mutex, Wait};
use std::thread::Threads;

// Bytes to be read, behind which a read fails, or tells the end.
#[derive(Clone, Copy, Drop)]
pub struct Sent {
    pub rest: &'static [u8],
    pub fails: bool,
}

impl Read for Sent {
    fn read(&mut self, buf: &mut [u8]) -> io::Result<usize> {
        if self.fails && self.rest.is_empty() {
            return Err(io::Error::from(ErrorKind::ConnectionReset));
        }
        self.rest.read(buf)
    }
}

impl BufRead for Sent {
    fn fill_buf(&mut self) -> io::Result<&[u8]> {
        if self.fails && self.rest.is_empty() {
            return Err(io::Error::from(ErrorKind::ConnectionReset));
        }
        Ok(self.rest)
    }

    fn consume(&mut self, amount: usize) {
        self.rest = &self.rest[amount.min(self.rest.len())..];
    }
}

// The runtime that a test has, but for its standard streams: `sent` is the input, and what is written is kept, in the output
// as long as there is room.
pub struct Surroundings<'a, R> {
    rt: &'a R,
    sent: Sent,
    room: usize,
    written: Mutex<Vec<u8>>,
    said: Mutex<Vec<u8>>,
}

impl<'a, R: AllocGlobal> Surroundings<'a, R> {
    // A write fails where so many bytes stand in the output, or more.
    pub fn new(rt: &'a R, sent: Sent, room: usize) -> Surroundings<'a, R> {
        let (written, said) = (Vec::new(rt.alloc()), Vec::new(rt.alloc()));
        Surroundings {
            rt,
            sent,
            room,
            written: Mutex::new(written),
            said: Mutex::new(said),
        }
    }

    // What stands in the output, and on the standard error.
    pub fn told(self) -> (Vec<u8>, Vec<u8>) {
        let Surroundings {
            rt: _,
            sent: _,
            room: _,
            written,
            said,
        } = self;
        (written.into_inner(), said.into_inner())
    }
}

fn unasked<T>() -> io::Result<T> {
    Err(io::Error::from(ErrorKind::Unsupported))
}

impl<R> Input for Surroundings<'_, R> {
    type Reader = Sent;

    fn read_line<A: Allocator + Clone>(&self, _buf: &mut String<A>) -> io::Result<usize> {
        Err(io::Error::from(ErrorKind::Unsupported))
    }

    fn lines<A: Allocator>(&self, alloc: A) -> Lines<Sent, A> {
        self.sent.lines(alloc)
    }

    fn reader(&self) -> Sent {
        self.sent
    }
}

impl<R: Wait> Print for Surroundings<'_, R> {
    fn print<D: Display + Drop>(&self, _value: D) -> io::Result<()> {
        unasked()
    }

    fn println<D: Display + Drop>(&self, _value: D) -> io::Result<()> {
        unasked()
    }

    fn write_all(&self, bytes: &[u8]) -> io::Result<()> {
        let mut written = self.written.lock(self.rt);
        if self.room <= written.len() {
            return Err(io::Error::from(ErrorKind::StorageFull));
        }
        Ok(written.extend_from_slice(bytes)?)
    }
}

impl<R: Wait + AllocGlobal> Eprint for Surroundings<'_, R> {
    fn eprint<D: Display + Drop>(&self, value: D) -> io::Result<()> {
        let text = format!(in self.rt.alloc(); "{value}")?;
        Ok(self.said.lock(self.rt).extend_from_slice(text.as_bytes())?)
    }

    fn eprintln<D: Display + Drop>(&self, value: D) -> io::Result<()> {
        self.eprint(value)?;
        self.eprint("\n")
    }
}

impl<R: AllocGlobal> Alloc for Surroundings<'_, R> {
    type A = Global;

    fn alloc(&self) -> Global {
        self.rt.alloc()
    }
}

impl<R: Net> Net for Surroundings<'_, R> {
    type Stream = R::Stream;

    type Listener = R::Listener;

    fn bind(&self, addr: SocketAddr) -> io::Result<R::Listener> {
        self.rt.bind(addr)
    }

    fn connect(&self, addr: SocketAddr) -> io::Result<R::Stream> {
        self.rt.connect(addr)
    }
}

impl<R: Wait> Wait for Surroundings<'_, R> {}

impl<R: Threads> Threads for Surroundings<'_, R> {}
