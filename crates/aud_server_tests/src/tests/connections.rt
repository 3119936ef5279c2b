// Connections at a desk: what they are told, and that seat 1 is free behind them, wherever they end.

ghost use Rattle.std.specs.Prelude.{replicate};
ghost use Rattle.aud_text.specs.declared.limits.TheConstants.{STANDARD};

use crate::tests::counted::{Counted, Noted};
use crate::tests::finds;
use aud_bench::bench::Work;
use aud_connection::serve::serve;
use aud_desk::desk::Desk;
use aud_desk::gate::{Direct, Gate};
use aud_desk::seating::Seating;
use aud_hall::hall::Hall;
use aud_hall::parcel::Parcel;
use aud_pass::fault::DeskFault;
use aud_pass::pass::Pass;
use aud_server::host::Host;
use aud_solo::serving::ServeFault;
use aud_solo::streams::{Fused, Stream};
use aud_text::limits::STANDARD;
use std::alloc::{AllocError, Global};
use std::cell::Cell;
use std::io::Read;
use std::process::Abort;
use std::sync::Wait;
use std::sync::atomic::{AtomicU64, Ordering};
use std::thread;
use std::thread::Threads;

// So many times this is asked, and that is told for it.
pub type Turn = (usize, &'static [u8], &'static [u8]);

// How a connection ends, and what it is told.
type Served<'a> = (Result<(), ServeFault>, &'a [u8]);

// What is told before anything is asked.
const GREETING: &[u8] =
    b"+ 9\naud 2\nseat 1 tasks 64 source 32768\nseat 2 tasks 64 source 32768\nseat 3 tasks 64 source 32768\nseat 4 tasks 64 source 32768\nseat 5 tasks 64 source 32768\nseat 6 tasks 64 source 32768\nseat 7 tasks 64 source 32768\nseat 8 tasks 64 source 32768\n";

// Each is asked once: `is_cut_short` counts on it.
const SESSION: &[Turn] = &[
    (1, b"", GREETING),
    (1, b"SEAT 9\n", b"- E92 no such seat\n"),
    (1, b"RUN 1\n", NOT_CLAIMED),
    (1, b"SEAT 1\n", b"+ 0\n"),
    (
        1,
        b"LOAD 1\nprocedure M is begin null; end M;\n",
        b"+ 1\nloaded M\n",
    ),
    (1, b"TASKS\n", b"+ 1\n1 M ready 1\n"),
    (1, b"RUN 10\n", b"+ 1\nran 3 ended\n"),
    (1, b"SEAT 1\n", b"- E10 unknown command\n"),
    (1, b"QUIT\n", b"+ 0\n"),
];

const NOT_CLAIMED: &[u8] = b"- E93 seat not claimed\n";

// A pass holds seat 2.
const SEATS: &[Turn] = &[
    (1, b"", GREETING),
    (1, b"SEAT 2\n", b"- E91 seat in use\n"),
    (1, b"SEAT 0\n", b"- E92 no such seat\n"),
    (1, b"SEAT 9999\n", b"- E92 no such seat\n"),
    (1, b"SEAT 10000\n", NOT_CLAIMED),
    (1, b"SEAT x\n", NOT_CLAIMED),
    (1, b"SEAT\n", NOT_CLAIMED),
    (1, b"QUIT\n", NOT_CLAIMED),
    (1, b"LOAD 2\nSEAT 1\nQUIT\n", NOT_CLAIMED),
    (1, b"FOO\n", NOT_CLAIMED),
    (1, b"\n", NOT_CLAIMED),
    (1, b"\xC8\n", NOT_CLAIMED),
    (1, b"  SEAT  01 \r\n", b"+ 0\n"),
    (1, b"SEAT 1\n", b"- E10 unknown command\n"),
    (1, b"SEAT x\n", b"- E11 bad argument\n"),
    (1, b"\xC8\n", b"- E19 not ASCII\n"),
    (1, b"QUIT\n", b"+ 0\n"),
    (1, b"RUN 1\nSEAT 3\nQUIT\n", b""),
];

const SESSIONS: [(&str, &[Turn]); 4] = [
    ("one program", SESSION),
    ("seats", SEATS),
    (
        "a LOAD that lacks lines",
        &[
            (1, b"", GREETING),
            (1, b"SEAT 1\n", b"+ 0\n"),
            (1, b"LOAD 5\nprocedure M is\nbegin null; end M;\n", b""),
        ],
    ),
    (
        "lines that are too long",
        &[
            (1, b"", GREETING),
            (3_000, b"x", b""),
            (1, b"\n", NOT_CLAIMED),
            (1, b"SEAT 1\n", b"+ 0\n"),
            (3_000, b"x", b""),
            (1, b"\n", b"- E12 line too long\n"),
            (1, b"RUN 1\n", b"- E14 no program\n"),
        ],
    ),
];

// One request more than a journal holds.
const JOURNAL: &[Turn] = &[
    (1, b"", GREETING),
    (1, b"SEAT 1\n", b"+ 0\n"),
    (4_096, b"RUN 1\n", b"- E14 no program\n"),
    (1, b"RUN 1\n", b"- E13 journal full\n"),
    (1, b"QUIT\n", b"+ 0\n"),
];

// Eight seats.
struct Eight;

impl Seating for Eight {
    ghost limits = { replicate 8 STANDARD };
}

fn desk_of_eight(alloc: Global) -> Result<Desk<Eight>, AllocError> {
    Desk::new(alloc, Hall::new(alloc, vec![in alloc; STANDARD; 8]?)?)
}

// What is asked in these turns.
pub fn asked(alloc: Global, turns: &[Turn]) -> Result<Vec<u8>, AllocError> {
    let mut text = Vec::new(alloc);
    for &(times, request, _) in turns {
        for _ in 0..times {
            text.extend_from_slice(request)?;
        }
    }
    Ok(text)
}

// What is told for it.
pub fn told(alloc: Global, turns: &[Turn]) -> Result<Vec<u8>, AllocError> {
    let mut text = Vec::new(alloc);
    for &(times, _, answer) in turns {
        for _ in 0..times {
            text.extend_from_slice(answer)?;
        }
    }
    Ok(text)
}

// Tests that a connection ends so and is told this where the write of this number fails, none for 0; and that it leaves its seat.
// The greeting is one write.
fn is_served<R: Abort + Wait, S: Read + Drop>(
    rt: &R,
    alloc: Global,
    desk: &Desk<Eight>,
    name: &str,
    reader: S,
    failing: u64,
    wanted: Served,
) {
    let mut written = Vec::new(alloc);
    let mut reader = Stream::new(reader);
    let mut writer = Stream::new(Fused::new(&mut written, failing));
    let ended = serve(rt, alloc, desk, &mut reader, &mut writer);
    assert!(rt; ended == wanted.0);
    finds(rt, name, &written, wanted.1);
    assert!(rt; is_free(rt, alloc, desk));
}

// Whether seat 1 can be opened, with nothing stored there, and closed.
fn is_free<R: Wait>(rt: &R, alloc: Global, desk: &Desk<Eight>) -> bool {
    match desk.open(rt, alloc, 1) {
        Ok(pass) => desk.close(rt, pass).is_ok(),
        Err(_) => false,
    }
}

// Each session whole, while a worker works, and behind it at the same desk byte by byte, without one.
#[test]
fn tells_what_is_due(rt: HostRuntime) -> Result<(), AllocError> {
    for (name, turns) in SESSIONS {
        let desk = desk_of_eight(rt.alloc())?;
        let told = at_desk(&rt, rt.alloc(), &desk, &desk, name, turns);
        drop(desk);
        told?;
    }
    Ok(())
}

fn at_desk<R: Abort + Threads + Wait + Sync, H: Host + Sync>(
    rt: &R,
    alloc: Global,
    host: &H,
    desk: &Desk<Eight>,
    name: &str,
    turns: &[Turn],
) -> Result<(), AllocError> {
    let asked = asked(alloc, turns)?;
    let told = told(alloc, turns)?;
    let held = desk.open(rt, alloc, 2);
    with_worker(rt, alloc, host, desk, name, &asked, &told);
    let given = Cell::new(0);
    let reader = Counted {
        rest: asked.as_slice(),
        given: &given,
    };
    is_served(rt, alloc, desk, name, reader, 0, (Ok(()), &told));
    closes(rt, desk, held);
    Ok(())
}

// Tests that a seat was opened, and is closed.
fn closes<R: Abort + Wait>(rt: &R, desk: &Desk<Eight>, held: Result<Pass, DeskFault>) {
    match held {
        Ok(pass) => assert!(rt; desk.close(rt, pass).is_ok()),
        Err(_) => assert!(rt; false, "not opened"),
    }
}

// The session while a worker of the host, which is the desk, works; it stops then.
fn with_worker<R: Abort + Threads + Wait + Sync, H: Host + Sync>(
    rt: &R,
    alloc: Global,
    host: &H,
    desk: &Desk<Eight>,
    name: &str,
    asked: &[u8],
    told: &[u8],
) {
    thread::scope(thread::scope_env(), rt, |scope| {
        // Without a worker whoever asks works.
        if scope.spawn(|| host.work(rt, alloc, &Direct)).is_err() {
            desk.stop(rt);
        }
        is_served(rt, alloc, desk, name, asked, 0, (Ok(()), told));
        desk.stop(rt);
    })
}

// At a desk without workers, as those that follow.
#[test]
fn fills_its_journal(rt: HostRuntime) -> Result<(), AllocError> {
    let desk = desk_of_eight(rt.alloc())?;
    desk.stop(&rt);
    let filled = is_filled(&rt, rt.alloc(), &desk, JOURNAL);
    drop(desk);
    filled
}

fn is_filled<R: Abort + Wait>(
    rt: &R,
    alloc: Global,
    desk: &Desk<Eight>,
    turns: &[Turn],
) -> Result<(), AllocError> {
    let asked = asked(alloc, turns)?;
    let told = told(alloc, turns)?;
    is_served(
        rt,
        alloc,
        desk,
        "a full journal",
        asked.as_slice(),
        0,
        (Ok(()), &told),
    );
    Ok(())
}

// A session that is cut short at any byte, and of whose answers each is not taken in turn.
#[test]
fn frees_its_seat(rt: HostRuntime) -> Result<(), AllocError> {
    let desk = desk_of_eight(rt.alloc())?;
    desk.stop(&rt);
    let cut = is_cut_short(&rt, rt.alloc(), &desk, SESSION);
    drop(desk);
    cut
}

fn is_cut_short<R: Abort + Wait>(
    rt: &R,
    alloc: Global,
    desk: &Desk<Eight>,
    turns: &[Turn],
) -> Result<(), AllocError> {
    let asked = asked(alloc, turns)?;
    let mut told = Vec::new(alloc);
    let mut read = 0usize;
    let mut failing = 0u64;
    for &(_, request, answer) in turns {
        for _ in request {
            ends_behind(rt, alloc, desk, &asked, read, &told);
            read = read.saturating_add(1);
        }
        failing = failing.saturating_add(1);
        let wanted = (Err(ServeFault::Write), told.as_slice());
        is_served(
            rt,
            alloc,
            desk,
            "no answer",
            asked.as_slice(),
            failing,
            wanted,
        );
        told.extend_from_slice(answer)?;
    }
    Ok(())
}

// The connection ends behind so many bytes, and then a read fails there.
fn ends_behind<R: Abort + Wait>(
    rt: &R,
    alloc: Global,
    desk: &Desk<Eight>,
    asked: &[u8],
    read: usize,
    told: &[u8],
) {
    let front = &asked[..read.min(asked.len())];
    is_served(rt, alloc, desk, "its end", front, 0, (Ok(()), told));
    let given = Cell::new(0);
    let bytes = Counted {
        rest: asked,
        given: &given,
    };
    let reader = Fused::new(bytes, (read as u64).saturating_add(1));
    let wanted = (Err(ServeFault::Read), told);
    is_served(rt, alloc, desk, "a read that fails", reader, 0, wanted);
}

// What is asked, and how many slices workers do for it: one for each request that a seat stores, the QUIT of who leaves among them,
// for which alone a full journal has room.
const LEAVING: [(&[Turn], u64); 4] = [
    (&[(1, b"", GREETING), (1, b"RUN 1\n", NOT_CLAIMED)], 0),
    (&[(1, b"", GREETING), (1, b"SEAT 1\n", b"+ 0\n")], 1),
    (
        &[
            (1, b"", GREETING),
            (1, b"SEAT 1\n", b"+ 0\n"),
            (1, b"QUIT\n", b"+ 0\n"),
        ],
        1,
    ),
    (
        &[
            (1, b"", GREETING),
            (1, b"SEAT 1\n", b"+ 0\n"),
            (4_096, b"RUN 1\n", b"- E14 no program\n"),
        ],
        4_097,
    ),
];

// Counts the slices.
#[derive(Drop)]
struct Counting {
    slices: AtomicU64,
}

impl Gate for Counting {
    fn slice(&self, alloc: Global, parcel: &mut Parcel, units: u64) -> Work {
        self.slices.fetch_add(1, Ordering::SeqCst);
        parcel.slice(alloc, units)
    }
}

#[test]
fn quits_where_it_ends(rt: HostRuntime) -> Result<(), AllocError> {
    for (turns, wanted) in LEAVING {
        let desk = desk_of_eight(rt.alloc())?;
        let gate = Counting {
            slices: AtomicU64::new(0),
        };
        let left = leaves(&rt, rt.alloc(), &desk, &gate, &desk, turns);
        drop(desk);
        assert!(rt; gate.slices.load(Ordering::SeqCst) == wanted);
        left?;
    }
    Ok(())
}

// The session while a worker of the host, which is the desk, works through the gate until nothing is left.
fn leaves<R: Abort + Threads + Wait + Sync, H: Host + Sync, G: Gate + Sync>(
    rt: &R,
    alloc: Global,
    host: &H,
    gate: &G,
    desk: &Desk<Eight>,
    turns: &[Turn],
) -> Result<(), AllocError> {
    let asked = asked(alloc, turns)?;
    let told = told(alloc, turns)?;
    through_gate(rt, alloc, host, gate, desk, &asked, &told);
    Ok(())
}

fn through_gate<R: Abort + Threads + Wait + Sync, H: Host + Sync, G: Gate + Sync>(
    rt: &R,
    alloc: Global,
    host: &H,
    gate: &G,
    desk: &Desk<Eight>,
    asked: &[u8],
    told: &[u8],
) {
    thread::scope(thread::scope_env(), rt, |scope| {
        // Without a worker there is no slice.
        if scope.spawn(|| host.work(rt, alloc, gate)).is_err() {
            desk.stop(rt);
        }
        is_served(rt, alloc, desk, "who leaves", asked, 0, (Ok(()), told));
        desk.stop(rt);
    })
}

// The requests of `SESSION`, whose ends stand in the answers below, and one that is not read.
const SENT: &[u8] =
    b"SEAT 9\nRUN 1\nSEAT 1\nLOAD 1\nprocedure M is begin null; end M;\nTASKS\nRUN 10\nSEAT 1\nQUIT\nOUTPUT\n";

// Each answer is written when the last byte of its request was read, and nothing is read behind a QUIT with a seat.
#[test]
fn answers_before_it_reads_on(rt: HostRuntime) -> Result<(), AllocError> {
    let desk = desk_of_eight(rt.alloc())?;
    desk.stop(&rt);
    is_answered_first(&rt, rt.alloc(), &desk);
    drop(desk);
    Ok(())
}

fn is_answered_first<R: Abort + Wait>(rt: &R, alloc: Global, desk: &Desk<Eight>) {
    let given = Cell::new(0);
    let mut written = Vec::new(alloc);
    let mut reader = Stream::new(Counted {
        rest: SENT,
        given: &given,
    });
    let mut writer = Stream::new(Noted {
        written: &mut written,
        given: &given,
    });
    let ended = serve(rt, alloc, desk, &mut reader, &mut writer);
    assert!(rt; ended.is_ok());
    let wanted =
        b"0: + 9\naud 2\nseat 1 tasks 64 source 32768\nseat 2 tasks 64 source 32768\nseat 3 tasks 64 source 32768\nseat 4 tasks 64 source 32768\nseat 5 tasks 64 source 32768\nseat 6 tasks 64 source 32768\nseat 7 tasks 64 source 32768\nseat 8 tasks 64 source 32768\n7: - E92 no such seat\n13: - E93 seat not claimed\n20: + 0\n61: + 1\nloaded M\n67: + 1\n1 M ready 1\n74: + 1\nran 3 ended\n81: - E10 unknown command\n86: + 0\n";
    finds(rt, "answers", &written, wanted);
    assert!(rt; given.get() == 86);
}
