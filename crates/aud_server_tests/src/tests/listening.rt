// The listening program over TCP.

use crate::tests::connections::{Turn, asked, told};
use crate::tests::statuses::words_of;
use aud_server::program::program;
use std::alloc::Global;
use std::io::{self, Read, Write};
use std::net::{Ipv4Addr, Net, TcpListener, TcpStream};
use std::test::*;
use std::thread;
use std::time::{Clock, Duration};

// A client that has asked nothing is told so.
const GREETING_OF_TWO: &[u8] =
    b"+ 3\naud 2\nseat 1 tasks 64 source 32768\nseat 2 tasks 64 source 32768\n";

const GREETING_WITH_LARGE: &[u8] =
    b"+ 3\naud 2\nseat 1 tasks 256 source 65536\nseat 2 tasks 64 source 32768\n";

const GREETING_OF_EIGHT: &[u8] =
    b"+ 9\naud 2\nseat 1 tasks 64 source 32768\nseat 2 tasks 64 source 32768\nseat 3 tasks 64 source 32768\nseat 4 tasks 64 source 32768\nseat 5 tasks 64 source 32768\nseat 6 tasks 64 source 32768\nseat 7 tasks 64 source 32768\nseat 8 tasks 64 source 32768\n";

// At a small seat: 64 tasks, a source of 32,768 bytes, and one of a byte more.
const FIRST: &[Turn] = &[
    (
        1,
        b"LOAD 1\nprocedure M is procedure R is task T; task body T is begin null; end T; begin R; end R; begin R; exception when Storage_Error => Put (\"full\"); end M;\n",
        b"+ 1\nloaded M\n",
    ),
    (1, b"RUN 1000\n", b"+ 1\nran 511 ended\n"),
    (1, b"OUTPUT\n", b"+ 2\nbytes 4\nfull\n"),
    (1, b"LOAD 32735\nprocedure M is begin null; end M;\n", b""),
    (32_733, b"\n", b""),
    (1, b"\n", b"+ 1\nloaded M\n"),
    (1, b"LOAD 32736\nprocedure M is begin null; end M;\n", b""),
    (32_734, b"\n", b""),
    (1, b"\n", b"- E22 source too long\n"),
    (1, b"QUIT\n", b"+ 0\n"),
];

const HYPHENS: &[u8] = b"---------------------------------------------------------------\n";

// At a large seat: 64 tasks beside main, a source of 65,536 bytes, and one of a byte more.
const FIRST_OF_LARGE: &[Turn] = &[
    (
        1,
        b"LOAD 1\nprocedure M is task type T; task body T is begin null; end T; begin declare A : array (1 .. 64) of T; begin Put (\"in\"); end; exception when Storage_Error => Put (\"full\"); end M;\n",
        b"+ 1\nloaded M\n",
    ),
    (1, b"RUN 1000\n", b"+ 1\nran 263 ended\n"),
    (1, b"OUTPUT\n", b"+ 2\nbytes 2\nin\n"),
    (1, b"LOAD 1025\nprocedure M is begin null; end M;\n", b""),
    (1_023, HYPHENS, b""),
    (1, b"-----------------------------\n", b"+ 1\nloaded M\n"),
    (1, b"LOAD 1025\nprocedure M is begin null; end M;\n", b""),
    (1_023, HYPHENS, b""),
    (
        1,
        b"------------------------------\n",
        b"- E22 source too long\n",
    ),
    (1, b"QUIT\n", b"+ 0\n"),
];

const OF_TWO: &[Turn] = &[
    (1, b"SEAT 3\n", b"- E92 no such seat\n"),
    (1, b"SEAT 1\n", b"- E91 seat in use\n"),
    (1, b"SEAT 2\n", b"+ 0\n"),
    (
        1,
        b"LOAD 1\nprocedure M is task A; task B; task body A is begin Put (\"a\"); end A; task body B is begin Put (\"b\"); end B; begin null; end M;\n",
        b"+ 1\nloaded M\n",
    ),
    (1, b"CHOOSE 1 1\n", b"+ 1\nchoices 2\n"),
    (1, b"RUN 100\n", b"+ 1\nran 14 ended\n"),
    (1, b"OUTPUT\n", b"+ 2\nbytes 2\nba\n"),
    (1, b"QUIT\n", b"+ 0\n"),
];

const OF_EIGHT: &[Turn] = &[
    (1, b"SEAT 9\n", b"- E92 no such seat\n"),
    (1, b"SEAT 8\n", b"+ 0\n"),
    (1, b"QUIT\n", b"+ 0\n"),
];

// What both clients are told at once, the first one for its seat, and the second one.
type Told = (&'static [u8], &'static [Turn], &'static [Turn]);

const RUNS: [(&str, Told); 3] = [
    (
        "aud --port PORT --seats 2 --workers 2 --connections 2",
        (GREETING_OF_TWO, FIRST, OF_TWO),
    ),
    (
        "aud --port PORT --seats 2 --large 1 --connections 2",
        (GREETING_WITH_LARGE, FIRST_OF_LARGE, OF_TWO),
    ),
    (
        "aud --port PORT --connections 2",
        (GREETING_OF_EIGHT, FIRST, OF_EIGHT),
    ),
];

#[test]
fn serves_two_clients(rt: HostRuntime) -> Result<(), Fail> {
    for run in 0..RUNS.len() {
        let line = RUNS[run].0;
        let mut status = 3;
        // Again, where another program has taken the port.
        for _ in 0..3 {
            let port = free_port(&rt)?;
            let words = words_of(rt.alloc(), line, port)?;
            let (ended, answered) = thread::join(
                &rt,
                || program(&rt, &words),
                || two_clients(&rt, rt.alloc(), port, run),
            );
            drop(words);
            let is_told = answered.unwrap_or(false);
            status = ended;
            if status != 3 {
                assert!(rt; is_told, "{line}");
                break;
            }
        }
        assert!(rt; status == 0);
    }
    Ok(())
}

// A port that nobody listens on.
fn free_port<R: Net<Listener = TcpListener, Stream = TcpStream>>(rt: &R) -> io::Result<u16> {
    let listener = TcpListener::bind(rt, (Ipv4Addr::LOCALHOST, 0u16))?;
    Ok(listener.local_addr()?.port())
}

// Whether two clients are told what is due in the run of this number.
fn two_clients<R: Net<Stream = TcpStream> + Clock>(
    rt: &R,
    alloc: Global,
    port: u16,
    run: usize,
) -> io::Result<bool> {
    let mut first = connect(rt, port)?;
    let mut second = connect(rt, port)?;
    match RUNS.get(run) {
        Some((_, told)) => both(alloc, &mut first, &mut second, *told),
        None => Ok(false),
    }
}

// Connects once the port is listened on.
fn connect<R: Net<Stream = TcpStream> + Clock>(rt: &R, port: u16) -> io::Result<TcpStream> {
    for _ in 0..10_000 {
        if let Ok(stream) = TcpStream::connect(rt, (Ipv4Addr::LOCALHOST, port)) {
            stream.set_read_timeout(Some(Duration::from_secs(10)))?;
            return Ok(stream);
        }
        thread::sleep(rt, Duration::from_millis(1));
    }
    TcpStream::connect(rt, (Ipv4Addr::LOCALHOST, port))
}

// Both clients are greeted; the first one is told for its seat, then the second one, then the first one for the rest.
fn both(
    alloc: Global,
    first: &mut TcpStream,
    second: &mut TcpStream,
    (greeting, turns, others): Told,
) -> io::Result<bool> {
    Ok(
        hears(alloc, first, greeting)?
            && hears(alloc, second, greeting)?
            && takes_seat(alloc, first)?
            && is_told(alloc, second, others)?
            && is_told(alloc, first, turns)?,
    )
}

fn takes_seat(alloc: Global, stream: &mut TcpStream) -> io::Result<bool> {
    stream.write_all(b"SEAT 1\n")?;
    hears(alloc, stream, b"+ 0\n")
}

// Reads so many bytes, and tells whether they are these.
fn hears(alloc: Global, stream: &mut TcpStream, wanted: &[u8]) -> io::Result<bool> {
    let mut found = vec![in alloc; 0; wanted.len()]?;
    stream.read_exact(&mut found)?;
    Ok(found.as_slice() == wanted)
}

// Asks these turns, reads to the end, and tells whether that is what is due.
fn is_told(alloc: Global, stream: &mut TcpStream, turns: &[Turn]) -> io::Result<bool> {
    stream.write_all(&asked(alloc, turns)?)?;
    let mut found = Vec::new(alloc);
    stream.read_to_end(&mut found)?;
    Ok(found == told(alloc, turns)?)
}
