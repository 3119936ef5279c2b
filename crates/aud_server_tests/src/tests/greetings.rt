// What a desk with a small and a large seat tells a connection first of all, and what its seats take.

ghost use Rattle.std.specs.Prelude.{[], ◌∷◌};
ghost use Rattle.aud_text.specs.declared.limits.TheConstants.{STANDARD, LARGE};

use crate::tests::counted::{Counted, Roomy};
use crate::tests::desks::{Two, desk_of_two};
use crate::tests::finds;
use aud_bench::request::Request;
use aud_connection::serve::serve;
use aud_desk::desk::Desk;
use aud_desk::seating::Seating;
use aud_hall::hall::Hall;
use aud_pass::fault::DeskFault;
use aud_pass::got::Got;
use aud_pass::pass::Pass;
use aud_solo::serving::ServeFault;
use aud_solo::streams::Stream;
use aud_text::limits::{LARGE, STANDARD};
use std::alloc::{AllocError, Global};
use std::cell::Cell;
use std::process::Abort;
use std::sync::Wait;

// A small seat and a large one.
struct Both;

impl Seating for Both {
    ghost limits = { STANDARD ∷ LARGE ∷ [] };
}

fn desk_of_both(alloc: Global) -> Result<Desk<Both>, AllocError> {
    Desk::new(alloc, Hall::new(alloc, vec![in alloc; STANDARD, LARGE]?)?)
}

const GREETING: &[u8] =
    b"+ 3\naud 2\nseat 1 tasks 64 source 32768\nseat 2 tasks 256 source 65536\n";

// Behind the greeting: an array of 64 tasks, and main.
const TASKS: [(&[u8], &[u8]); 2] = [
    (
        b"SEAT 1\nLOAD 1\nprocedure M is task type T; task body T is begin null; end T; begin declare A : array (1 .. 64) of T; begin Put (\"in\"); end; exception when Storage_Error => Put (\"full\"); end M;\nRUN 1000\nOUTPUT\nQUIT\n",
        b"+ 0\n+ 1\nloaded M\n+ 1\nran 7 ended\n+ 2\nbytes 4\nfull\n+ 0\n",
    ),
    (
        b"SEAT 2\nLOAD 1\nprocedure M is task type T; task body T is begin null; end T; begin declare A : array (1 .. 64) of T; begin Put (\"in\"); end; exception when Storage_Error => Put (\"full\"); end M;\nRUN 1000\nOUTPUT\nQUIT\n",
        b"+ 0\n+ 1\nloaded M\n+ 1\nran 263 ended\n+ 2\nbytes 2\nin\n+ 0\n",
    ),
];

#[test]
fn greets_and_keeps_limits(rt: HostRuntime) -> Result<(), AllocError> {
    let desk = desk_of_both(rt.alloc())?;
    desk.stop(&rt);
    let limits = desk.limits(&rt, rt.alloc());
    cut_anywhere(&rt, rt.alloc(), &desk);
    for (asked, answers) in TASKS {
        takes_as_many(&rt, rt.alloc(), &desk, asked, answers);
    }
    drop(desk);
    assert!(&rt; limits?.as_slice() == [STANDARD, LARGE].as_slice());
    Ok(())
}

// A connection that takes so many bytes, and sends nothing or more than is read.
fn cut_anywhere<R: Abort + Wait>(rt: &R, alloc: Global, desk: &Desk<Both>) {
    for room in 0..GREETING.len() {
        let wanted = (Err(ServeFault::Write), &GREETING[..room]);
        assert!(rt; is_told(rt, alloc, desk, b"SEAT 1\n", room, wanted) == 0);
    }
    assert!(rt; is_told(rt, alloc, desk, b"", GREETING.len(), (Ok(()), GREETING)) == 0);
}

fn takes_as_many<R: Abort + Wait>(
    rt: &R,
    alloc: Global,
    desk: &Desk<Both>,
    asked: &[u8],
    answers: &[u8],
) {
    let mut told = Vec::new(alloc);
    let filled = told.extend_from_slice(GREETING).is_ok()
        && told.extend_from_slice(answers).is_ok();
    assert!(rt; filled);
    let read = is_told(rt, alloc, desk, asked, told.len(), (Ok(()), &told));
    assert!(rt; read == asked.len() as u64);
}

// Tests how a connection ends that takes so many bytes, and what it is told; gives how many bytes were read.
fn is_told<R: Abort + Wait>(
    rt: &R,
    alloc: Global,
    desk: &Desk<Both>,
    asked: &[u8],
    room: usize,
    wanted: (Result<(), ServeFault>, &[u8]),
) -> u64 {
    let given = Cell::new(0);
    let mut written = Vec::new(alloc);
    let mut reader = Stream::new(Counted {
        rest: asked,
        given: &given,
    });
    let mut writer = Stream::new(Roomy {
        written: &mut written,
        room,
    });
    let ended = serve(rt, alloc, desk, &mut reader, &mut writer);
    assert!(rt; ended == wanted.0);
    finds(rt, "what is told", &written, wanted.1);
    given.get()
}

// A pass of a small seat is none of a large one, also where nothing was sent at either, and goes on at its own.
#[test]
fn refuses_passes_with_other_limits(rt: HostRuntime) -> Result<(), DeskFault> {
    let both = desk_of_both(rt.alloc())?;
    let met = beside_small_seats(&rt, rt.alloc(), &both);
    drop(both);
    met
}

fn beside_small_seats<R: Abort + Wait>(
    rt: &R,
    alloc: Global,
    both: &Desk<Both>,
) -> Result<(), DeskFault> {
    let two = desk_of_two(alloc)?;
    two.stop(rt);
    let met = at_desks(rt, alloc, both, &two);
    drop(two);
    met
}

fn at_desks<R: Abort + Wait>(
    rt: &R,
    alloc: Global,
    both: &Desk<Both>,
    two: &Desk<Two>,
) -> Result<(), DeskFault> {
    let large = both.open(rt, alloc, 2)?;
    let met = with_small_pass(rt, alloc, both, two);
    drop(large);
    met
}

fn with_small_pass<R: Abort + Wait>(
    rt: &R,
    alloc: Global,
    both: &Desk<Both>,
    two: &Desk<Two>,
) -> Result<(), DeskFault> {
    let mut pass = two.open(rt, alloc, 2)?;
    is_refused_at_both(rt, alloc, both, &mut pass);
    let asked = two.submit(rt, alloc, &mut pass, Request::Output);
    let got = two.collect(rt, alloc, &mut pass);
    drop(pass);
    assert!(rt; asked.is_ok() && got == Ok(Got::New(1)));
    Ok(())
}

fn is_refused_at_both<R: Abort + Wait>(rt: &R, alloc: Global, both: &Desk<Both>, pass: &mut Pass) {
    let fault = DeskFault::NotThisDesk(0);
    assert!(rt; both.submit(rt, alloc, pass, Request::Output) == Err(fault));
    assert!(rt; both.collect(rt, alloc, pass) == Err(fault));
    assert!(rt; both.wait(rt, alloc, pass) == Err(fault));
}
