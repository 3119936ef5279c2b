// The server where it reads and writes by turns, and where its session is cut short.

use crate::tests::connections::{Turn, asked};
use crate::tests::counted::{Counted, Noted};
use crate::tests::finds;
use aud_solo::serving::ServeFault;
use aud_solo::solo::solo;
use aud_solo::streams::{Fused, Stream};
use std::alloc::{AllocError, Global};
use std::cell::Cell;
use std::io::{Read, Write};
use std::process::Abort;

// A LOAD of 41 bytes, RUNs of 7 and 6, a QUIT of 5, and a request that is not read.
const SENT: &[u8] = b"LOAD 1\nprocedure M is begin null; end M;\nRUN 10\nRUN x\nQUIT\nOUTPUT\n";

// Each answer is written when the last byte of its request was read, and nothing is read behind a QUIT.
#[test]
fn answers_before_it_reads_on(rt: HostRuntime) {
    let given = Cell::new(0);
    let mut written = Vec::new(rt.alloc());
    let mut reader = Stream::new(Counted {
        rest: SENT,
        given: &given,
    });
    let mut writer = Stream::new(Noted {
        written: &mut written,
        given: &given,
    });
    let ended = solo(rt.alloc(), &mut reader, &mut writer);
    assert!(rt; ended == Ok(()));
    let wanted = b"41: + 1\nloaded M\n48: + 1\nran 3 ended\n54: - E11 bad argument\n59: + 0\n";
    finds(&rt, "answers", &written, wanted);
    assert!(rt; given.get() == 59);
}

// Of three calls the second fails, and no other.
#[test]
fn fails_at_one_call(rt: HostRuntime) {
    reads_but_once(&rt);
    writes_but_once(&rt, rt.alloc());
}

fn reads_but_once(rt: &impl Abort) {
    let mut piece = [0; 1];
    let mut reader = Fused::new(b"abc".as_slice(), 2);
    for succeeds in [true, false, true] {
        assert!(rt; reader.read(&mut piece).is_ok() == succeeds);
    }
    assert!(rt; piece[0] == b'b');
}

fn writes_but_once(rt: &impl Abort, alloc: Global) {
    let mut written = Vec::new(alloc);
    let mut writer = Fused::new(&mut written, 2);
    for (text, succeeds) in [("a", true), ("b", false), ("c", true)] {
        assert!(rt; writer.write(text.as_bytes()).is_ok() == succeeds);
    }
    finds(rt, "what is written", &written, b"ac");
}

// How a session ends, and what is written.
type Served<'a> = (Result<(), ServeFault>, &'a [u8]);

// Two accepts with a call each. Each request is sent once: `is_cut_short` counts on it.
const SESSION: &[Turn] = &[
    (
        1,
        b"LOAD 1\nprocedure M is task S is entry A; entry B; end S; task body S is begin delay 1.0; select accept A do Put (\"a\"); end A; or accept B do Put (\"b\"); end B; end select; select accept A do Put (\"a\"); end A; or accept B do Put (\"b\"); end B; end select; end S; task P; task body P is begin S.A; end P; begin S.B; end M;\n",
        b"+ 1\nloaded M\n",
    ),
    (1, b"RUN 100\n", b"+ 1\nran 8 waiting 1000\n"),
    (1, b"ADVANCE 1000\n", b"+ 1\nclock 1000\n"),
    (1, b"RUN 1\n", b"+ 1\nran 1 more\n"),
    (1, b"MOVES\n", b"+ 2\n0 2 S 1 select 1\n1 2 S 1 select 2\n"),
    (1, b"CHOOSE 1\n", b"+ 1\nchoices 1\n"),
    (1, b"RUN 100\n", b"+ 1\nran 12 ended\n"),
    (1, b"OUTPUT\n", b"+ 2\nbytes 2\nba\n"),
];

// A session that ends behind any byte, of which a read fails there, or of whose answers each is not taken in turn.
#[test]
fn is_served_as_far_as_it_goes(rt: HostRuntime) -> Result<(), AllocError> {
    is_cut_short(&rt, rt.alloc(), SESSION)
}

fn is_cut_short(rt: &impl Abort, alloc: Global, turns: &[Turn]) -> Result<(), AllocError> {
    let asked = asked(alloc, turns)?;
    let mut told = Vec::new(alloc);
    let mut read = 0usize;
    let mut failing = 0u64;
    for &(_, request, answer) in turns {
        for _ in request {
            ends_behind(rt, alloc, &asked, read, &told);
            read = read.saturating_add(1);
        }
        failing = failing.saturating_add(1);
        let wanted = (Err(ServeFault::Write), told.as_slice());
        ends_so(rt, alloc, "no answer", asked.as_slice(), failing, wanted);
        told.extend_from_slice(answer)?;
    }
    ends_behind(rt, alloc, &asked, read, &told);
    Ok(())
}

// The session ends behind so many bytes, and then a read fails there.
fn ends_behind(rt: &impl Abort, alloc: Global, asked: &[u8], read: usize, told: &[u8]) {
    let front = &asked[..read.min(asked.len())];
    ends_so(rt, alloc, "its end", front, 0, (Ok(()), told));
    let given = Cell::new(0);
    let bytes = Counted {
        rest: asked,
        given: &given,
    };
    let reader = Fused::new(bytes, (read as u64).saturating_add(1));
    let wanted = (Err(ServeFault::Read), told);
    ends_so(rt, alloc, "a read that fails", reader, 0, wanted);
}

// Tests that a session ends so and this is written where the write of this number fails, none for 0.
fn ends_so<R: Abort, S: Read + Drop>(
    rt: &R,
    alloc: Global,
    name: &str,
    reader: S,
    failing: u64,
    wanted: Served,
) {
    let mut written = Vec::new(alloc);
    let mut reader = Stream::new(reader);
    let mut writer = Stream::new(Fused::new(&mut written, failing));
    let ended = solo(alloc, &mut reader, &mut writer);
    assert!(rt; ended == wanted.0);
    finds(rt, name, &written, wanted.1);
}
