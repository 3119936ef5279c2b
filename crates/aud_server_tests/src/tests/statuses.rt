// The words that the program takes, the status with which it ends, and what it says on the standard error.

use crate::tests::finds;
use crate::tests::surroundings::{Sent, Surroundings};
use aud_server::program::{ProgramFault, program, refuse};
use aud_solo::serving::ServeFault;
use std::alloc::{AllocError, Global};
use std::net::{Ipv4Addr, Net, TcpListener, TcpStream};
use std::process::Abort;
use std::sync::Wait;
use std::test::*;
use std::thread::Threads;

const ANSWER: &[u8] = b"- E14 no program\n";

const READ: &[u8] = b"aud: read failed\n";

const WRITE: &[u8] = b"aud: write failed\n";

// Of a session of one user: what is sent, whether a read fails behind it, and how many bytes of answers are taken.
type Given = (&'static [u8], bool, usize);

// Its status, its answers, and the line on the standard error.
type Wanted = (u8, &'static [u8], &'static [u8]);

const SESSIONS: [(Given, Wanted); 9] = [
    ((b"", false, 0), (0, b"", b"")),
    ((b"RUN 1\n", false, 99), (0, ANSWER, b"")),
    (
        (b"RUN 1\nQUIT\nRUN 1\n", false, 99),
        (0, b"- E14 no program\n+ 0\n", b""),
    ),
    // Nothing is read behind a QUIT.
    ((b"QUIT\n", true, 99), (0, b"+ 0\n", b"")),
    ((b"", true, 99), (1, b"", READ)),
    ((b"RUN 1\nRUN 1", true, 99), (1, ANSWER, READ)),
    ((b"RUN 1\n", false, 0), (1, b"", WRITE)),
    ((b"RUN 1\nRUN 1\n", false, 17), (1, ANSWER, WRITE)),
    // The write comes before the read that fails.
    ((b"RUN 1\n", true, 0), (1, b"", WRITE)),
];

#[test]
fn ends_as_its_session_did(rt: HostRuntime) -> Result<(), AllocError> {
    for ((rest, fails, room), wanted) in SESSIONS {
        let words = words_of(rt.alloc(), "aud --solo", 0)?;
        ends_so(&rt, words, Sent { rest, fails }, room, wanted);
    }
    Ok(())
}

// Command lines. Where PORT stands, there is a port that is taken: 3 where the words are accepted.
const LINES: [(&str, u8); 57] = [
    ("aud --port PORT", 3),
    ("aud --port PORT --seats 8", 3),
    ("aud --seats 8 --port PORT", 3),
    ("aud --port PORT --seats 1 --workers 1 --connections 0", 3),
    ("aud --port PORT --seats 64 --workers 16", 3),
    ("aud --port PORT --connections 18446744073709551615", 3),
    ("aud --port PORT --large 0", 3),
    ("aud --port PORT --large 8", 3),
    ("aud --port PORT --large=1", 3),
    ("aud --port PORT --large 64 --seats 64", 3),
    ("aud --port PORT --seats 1 --large 1", 3),
    ("aud --port PORT --large 9", 2),
    ("aud --port PORT --large 9 --seats 8", 2),
    ("aud --port PORT --large 2 --seats 1", 2),
    ("aud --port PORT --large 65 --seats 64", 2),
    ("aud --port PORT --large x", 2),
    ("aud --port PORT --large -1", 2),
    ("aud --port PORT --large", 2),
    ("aud --port PORT --large 1 --large 1", 2),
    ("aud --port PORT --seats 0", 2),
    ("aud --seats 0 --port PORT", 2),
    ("aud --port PORT --seats 65", 2),
    ("aud --port PORT --seats 18446744073709551617", 2),
    ("aud --port PORT --seats +8", 2),
    ("aud --port PORT --seats -8", 2),
    ("aud --port PORT --seats x", 2),
    ("aud --port PORT --seats 8x", 2),
    ("aud --port PORT --seats", 2),
    ("aud --port PORT --seats 8 --seats 8", 2),
    ("aud --port PORT --seats 8 8", 2),
    ("aud --port PORT --workers 0", 2),
    ("aud --port PORT --workers 17", 2),
    ("aud --port PORT --workers 4294967297", 2),
    ("aud --port PORT --connections x", 2),
    ("aud --port PORT --connections -1", 2),
    ("aud --port PORT --connections 18446744073709551616", 2),
    ("aud --port PORT --port 7070", 2),
    ("aud --port PORT --solo", 2),
    ("aud --port PORT --solo=1", 2),
    ("aud --port PORT --help", 2),
    ("aud --port PORT -h", 2),
    ("aud --port PORT --version", 2),
    ("aud --port PORT --other 1", 2),
    ("aud --port PORT solo", 2),
    ("aud --port PORT --", 2),
    ("aud --port PORT -- --seats 8", 2),
    ("aud --solo --port PORT", 2),
    ("aud --solo --large 0", 2),
    ("aud --port 0", 2),
    ("aud --port 65536", 2),
    ("aud --port +7070", 2),
    ("aud --port", 2),
    ("aud --help", 2),
    ("aud solo", 2),
    ("aud --solo=1", 2),
    ("aud --solo x", 2),
    ("aud --solo --", 2),
];

const CANNOT_LISTEN: &[u8] = b"aud: cannot listen\n";

const BAD_ARGUMENTS: &[u8] = b"aud: bad arguments\n";

const NOTHING: Sent = Sent {
    rest: b"",
    fails: false,
};

#[test]
fn takes_its_own_words_alone(rt: HostRuntime) -> Result<(), Fail> {
    let listener = TcpListener::bind(&rt, (Ipv4Addr::LOCALHOST, 0u16))?;
    let taken = listener.local_addr()?.port();
    for (line, status) in LINES {
        let words = words_of(rt.alloc(), line, taken)?;
        let said = if status == 3 {
            CANNOT_LISTEN
        } else {
            BAD_ARGUMENTS
        };
        ends_so(&rt, words, NOTHING, 0, (status, b"", said));
    }
    Ok(())
}

// Tests how the program ends where so much is sent, and so many bytes of answers are taken.
fn ends_so<R>(rt: &R, words: Vec<String>, sent: Sent, room: usize, wanted: Wanted)
where
    R: Abort
        + AllocGlobal
        + Net<Listener = TcpListener, Stream = TcpStream>
        + Threads
        + Wait
        + Sync,
{
    let surroundings = Surroundings::new(rt, sent, room);
    let status = program(&surroundings, &words);
    let (written, said) = surroundings.told();
    assert!(rt; status == wanted.0);
    finds(rt, "answers", &written, wanted.1);
    finds(rt, "a line", &said, wanted.2);
}

// The words of a command line, of which PORT stands for this port.
pub fn words_of(alloc: Global, line: &str, port: u16) -> Result<Vec<String>, AllocError> {
    let mut words = Vec::new(alloc);
    for word in line.split(' ') {
        let text = if word == "PORT" {
            format!(in alloc; "{port}")?
        } else {
            String::from_str(alloc, word)?
        };
        words.push(text)?;
    }
    Ok(words)
}

// A test has no memory that is refused: this is what is said of it.
#[test]
fn says_that_memory_is_out(rt: HostRuntime) {
    let surroundings = Surroundings::new(&rt, NOTHING, 0);
    let status = refuse(&surroundings, ProgramFault::Server(ServeFault::Memory));
    let (_, said) = surroundings.told();
    assert!(rt; status == 4);
    finds(&rt, "a line", &said, b"aud: out of memory\n");
}
