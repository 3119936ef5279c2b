// Desks: that slices are done without the lock, by workers on threads; and where requests and passes are refused.

ghost use Rattle.std.specs.Prelude.{replicate};
ghost use Rattle.aud_text.specs.declared.limits.TheConstants.{STANDARD};

use crate::tests::finds;
use aud_bench::bench::Work;
use aud_bench::request::Request;
use aud_desk::desk::Desk;
use aud_desk::gate::Gate;
use aud_desk::seating::Seating;
use aud_hall::hall::Hall;
use aud_hall::parcel::Parcel;
use aud_lines::answers::answer_text;
use aud_pass::fault::DeskFault;
use aud_pass::got::Got;
use aud_pass::pass::Pass;
use aud_server::host::Host;
use aud_text::limits::STANDARD;
use aud_text::text::Text;
use std::alloc::{AllocError, Global};
use std::process::Abort;
use std::sync::Wait;
use std::sync::atomic::{AtomicBool, AtomicU64, Ordering};
use std::thread;
use std::thread::Threads;
use std::time::{Clock, Duration};

const PROGRAM: &[u8] = b"procedure M is begin null; end M;\n";

// Holds the first slice of seat 1 until seat 2 has its answers, and counts the slices of both.
#[derive(Drop)]
struct Holding<'a, R: Clock> {
    rt: &'a R,
    answered: AtomicBool,
    late: AtomicBool,
    first: AtomicU64,
    second: AtomicU64,
}

impl<'a, R: Clock> Gate for Holding<'a, R> {
    fn slice(&self, alloc: Global, parcel: &mut Parcel, units: u64) -> Work {
        if parcel.seat() == 1 {
            if self.first.fetch_add(1, Ordering::SeqCst) == 0 {
                self.hold();
            }
        } else {
            self.second.fetch_add(1, Ordering::SeqCst);
        }
        parcel.slice(alloc, units)
    }
}

impl<'a, R: Clock> Holding<'a, R> {
    fn new(rt: &'a R) -> Self {
        Holding {
            rt,
            answered: AtomicBool::new(false),
            late: AtomicBool::new(false),
            first: AtomicU64::new(0),
            second: AtomicU64::new(0),
        }
    }

    fn hold(&self) {
        for _ in 0..10_000 {
            if self.answered.load(Ordering::SeqCst) {
                return;
            }
            thread::sleep(self.rt, Duration::from_millis(1));
        }
        self.late.store(true, Ordering::SeqCst);
    }
}

// Two seats.
pub struct Two;

impl Seating for Two {
    ghost limits = { replicate 2 STANDARD };
}

pub fn desk_of_two(alloc: Global) -> Result<Desk<Two>, AllocError> {
    Desk::new(alloc, Hall::new(alloc, vec![in alloc; STANDARD; 2]?)?)
}

// Sends what loads the program and runs it.
fn ask<R: Wait>(rt: &R, alloc: Global, desk: &Desk<Two>, pass: &mut Pass) -> Result<(), DeskFault> {
    let source = Text::from_slice(alloc, PROGRAM)?;
    desk.submit(rt, alloc, pass, Request::Load(source))?;
    desk.submit(rt, alloc, pass, Request::Run(10))
}

// Tests that these are all answers, once none is to come.
fn is_told<R: Abort + Wait>(
    rt: &R,
    alloc: Global,
    desk: &Desk<Two>,
    pass: &mut Pass,
    wanted: &[&[u8]],
) -> Result<(), DeskFault> {
    for _ in rt.forever() {
        if desk.wait(rt, alloc, pass)? == Got::Idle {
            break;
        }
    }
    assert!(rt; pass.got().len() == wanted.len());
    for (answer, &line) in pass.got().iter().zip(wanted) {
        let text = answer_text(alloc, answer)?;
        finds(rt, "answer", &text, line);
    }
    Ok(())
}

// Tests that what the program tells is told.
fn has_run<R: Abort + Wait>(
    rt: &R,
    alloc: Global,
    desk: &Desk<Two>,
    pass: &mut Pass,
) -> Result<(), DeskFault> {
    let wanted = [
        b"+ 1\nloaded M\n".as_slice(),
        b"+ 1\nran 3 ended\n".as_slice(),
    ];
    is_told(rt, alloc, desk, pass, &wanted)
}

// Seat 1 asks first, and seat 2 is told first.
fn both_seats<R: Abort + Clock + Wait>(
    rt: &R,
    alloc: Global,
    desk: &Desk<Two>,
    gate: &Holding<R>,
) -> Result<(), DeskFault> {
    let mut first = desk.open(rt, alloc, 1)?;
    let told = beside(rt, alloc, desk, gate, &mut first);
    drop(first);
    told
}

fn beside<R: Abort + Clock + Wait>(
    rt: &R,
    alloc: Global,
    desk: &Desk<Two>,
    gate: &Holding<R>,
    first: &mut Pass,
) -> Result<(), DeskFault> {
    ask(rt, alloc, desk, first)?;
    second_seat(rt, alloc, desk)?;
    gate.answered.store(true, Ordering::SeqCst);
    has_run(rt, alloc, desk, first)
}

fn second_seat<R: Abort + Wait>(rt: &R, alloc: Global, desk: &Desk<Two>) -> Result<(), DeskFault> {
    let mut second = desk.open(rt, alloc, 2)?;
    let asked = ask(rt, alloc, desk, &mut second);
    let told = has_run(rt, alloc, desk, &mut second);
    drop(second);
    asked.and(told)
}

// The same, while two workers of the host, which is the desk, work through the gate, which holds; they stop then.
fn held<R: Abort + Threads + Clock + Wait + Sync, H: Host + Sync, G: Gate + Sync>(
    rt: &R,
    alloc: Global,
    host: &H,
    gate: &G,
    desk: &Desk<Two>,
    holding: &Holding<R>,
) -> Result<(), DeskFault> {
    thread::scope(thread::scope_env(), rt, |scope| {
        for _ in 0..2 {
            if scope.spawn(|| host.work(rt, alloc, gate)).is_err() {
                desk.stop(rt);
                return Err(DeskFault::Memory);
            }
        }
        let told = both_seats(rt, alloc, desk, holding);
        desk.stop(rt);
        told
    })
}

#[test]
fn a_slice_of_one_seat_is_held(rt: HostRuntime) -> Result<(), DeskFault> {
    let desk = desk_of_two(rt.alloc())?;
    let gate = Holding::new(&rt);
    let told = held(&rt, rt.alloc(), &desk, &gate, &desk, &gate);
    drop(desk);
    assert!(rt; !gate.late.load(Ordering::SeqCst));
    assert!(rt; 0 < gate.first.load(Ordering::SeqCst));
    assert!(rt; 0 < gate.second.load(Ordering::SeqCst));
    told
}

// A worker that cannot hand a parcel over, since the desk has stopped, works it off itself, through its gate.
#[test]
fn a_parcel_is_kept(rt: HostRuntime) -> Result<(), DeskFault> {
    let desk = desk_of_two(rt.alloc())?;
    let gate = Holding::new(&rt);
    let told = kept(&rt, rt.alloc(), &desk, &gate, &desk, &gate);
    drop(desk);
    assert!(rt; gate.first.load(Ordering::SeqCst) == 2);
    told
}

fn kept<R: Abort + Threads + Clock + Wait + Sync, H: Host + Sync, G: Gate + Sync>(
    rt: &R,
    alloc: Global,
    host: &H,
    gate: &G,
    desk: &Desk<Two>,
    holding: &Holding<R>,
) -> Result<(), DeskFault> {
    thread::scope(thread::scope_env(), rt, |scope| {
        if scope.spawn(|| host.work(rt, alloc, gate)).is_err() {
            return Err(DeskFault::Memory);
        }
        let told = as_it_stops(rt, alloc, desk, holding);
        desk.stop(rt);
        told
    })
}

fn as_it_stops<R: Abort + Clock + Wait>(
    rt: &R,
    alloc: Global,
    desk: &Desk<Two>,
    holding: &Holding<R>,
) -> Result<(), DeskFault> {
    let mut pass = desk.open(rt, alloc, 1)?;
    // The parcel is out with the first request when the second one is sent.
    let asked = ask(rt, alloc, desk, &mut pass);
    desk.stop(rt);
    holding.answered.store(true, Ordering::SeqCst);
    let told = is_told_in_time(rt, alloc, desk, &mut pass);
    drop(pass);
    asked.and(told)
}

// Where a parcel is lost, this does not wait for ever.
fn is_told_in_time<R: Abort + Clock + Wait>(
    rt: &R,
    alloc: Global,
    desk: &Desk<Two>,
    pass: &mut Pass,
) -> Result<(), DeskFault> {
    for _ in 0..10_000 {
        let _ = desk.collect(rt, alloc, pass)?;
        if pass.has_all() {
            return has_run(rt, alloc, desk, pass);
        }
        thread::sleep(rt, Duration::from_millis(1));
    }
    assert!(rt; false, "a parcel is lost");
    Ok(())
}

// The bench of seat 1 closes where `tools/check refused-desk` refuses memory to it, which this tells then.
#[test]
fn a_bench_closes(rt: HostRuntime) -> Result<(), DeskFault> {
    let desk = desk_of_two(rt.alloc())?;
    desk.stop(&rt);
    let closed = closes_alone(&rt, rt.alloc(), &desk);
    drop(desk);
    if closed? {
        let _ = eprintln!(&rt; "a bench has closed");
    }
    Ok(())
}

// Whether the bench of seat 1 closes. The other seat is told all, and so is the next one who takes seat 1.
fn closes_alone<R: Abort + Wait>(
    rt: &R,
    alloc: Global,
    desk: &Desk<Two>,
) -> Result<bool, DeskFault> {
    let mut first = desk.open(rt, alloc, 1)?;
    let closed = is_closed(rt, alloc, desk, &mut first);
    closes(rt, desk, first);
    let closed = closed?;
    for seat in [2, 1] {
        is_told_at(rt, alloc, desk, seat)?;
    }
    Ok(closed)
}

fn is_told_at<R: Abort + Wait>(
    rt: &R,
    alloc: Global,
    desk: &Desk<Two>,
    seat: usize,
) -> Result<(), DeskFault> {
    let mut pass = desk.open(rt, alloc, seat)?;
    let told = asks_and_is_told(rt, alloc, desk, &mut pass);
    drop(pass);
    told
}

fn asks_and_is_told<R: Abort + Wait>(
    rt: &R,
    alloc: Global,
    desk: &Desk<Two>,
    pass: &mut Pass,
) -> Result<(), DeskFault> {
    ask(rt, alloc, desk, pass)?;
    has_run(rt, alloc, desk, pass)
}

// Whether the bench of a pass closes, all calls of which are refused then.
fn is_closed<R: Abort + Wait>(
    rt: &R,
    alloc: Global,
    desk: &Desk<Two>,
    pass: &mut Pass,
) -> Result<bool, DeskFault> {
    let asked = ask(rt, alloc, desk, pass);
    let _ = desk.wait(rt, alloc, pass)?;
    if !pass.is_over() {
        asked?;
        has_run(rt, alloc, desk, pass)?;
        return Ok(false);
    }
    let refused = desk.submit(rt, alloc, pass, Request::Output);
    assert!(rt; refused == Err(DeskFault::Memory));
    assert!(rt; desk.collect(rt, alloc, pass) == Err(DeskFault::Memory));
    assert!(rt; desk.wait(rt, alloc, pass) == Err(DeskFault::Memory));
    Ok(true)
}

// At desks without workers, which do what is sent at once.
#[test]
fn passes(rt: HostRuntime) -> Result<(), DeskFault> {
    let one = desk_of_two(rt.alloc())?;
    one.stop(&rt);
    let met = at_desk(&rt, rt.alloc(), &one);
    drop(one);
    met
}

fn at_desk<R: Abort + Wait>(rt: &R, alloc: Global, one: &Desk<Two>) -> Result<(), DeskFault> {
    let other = desk_of_two(alloc)?;
    let met = at_desks(rt, alloc, one, &other);
    drop(other);
    met
}

fn at_desks<R: Abort + Wait>(
    rt: &R,
    alloc: Global,
    one: &Desk<Two>,
    other: &Desk<Two>,
) -> Result<(), DeskFault> {
    let pass = one.open(rt, alloc, 2)?;
    refuses_seats(rt, alloc, one);
    closes(rt, one, pass);
    is_answered(rt, alloc, one)?;
    is_refused_elsewhere(rt, alloc, one, other)
}

fn closes<R: Abort + Wait>(rt: &R, desk: &Desk<Two>, pass: Pass) {
    assert!(rt; desk.close(rt, pass).is_ok());
}

fn refuses_seats<R: Abort + Wait>(rt: &R, alloc: Global, desk: &Desk<Two>) {
    for (seat, fault) in [
        (2, DeskFault::SeatInUse),
        (0, DeskFault::NoSuchSeat),
        (3, DeskFault::NoSuchSeat),
    ] {
        assert!(rt; desk.open(rt, alloc, seat).err() == Some(fault));
    }
}

fn is_answered<R: Abort + Wait>(rt: &R, alloc: Global, desk: &Desk<Two>) -> Result<(), DeskFault> {
    let mut pass = desk.open(rt, alloc, 2)?;
    let told = asks_to_its_end(rt, alloc, desk, &mut pass);
    closes(rt, desk, pass);
    told
}

fn asks_to_its_end<R: Abort + Wait>(
    rt: &R,
    alloc: Global,
    desk: &Desk<Two>,
    pass: &mut Pass,
) -> Result<(), DeskFault> {
    desk.submit(rt, alloc, pass, Request::Output)?;
    assert!(rt; desk.collect(rt, alloc, pass)? == Got::New(1));
    assert!(rt; desk.collect(rt, alloc, pass)? == Got::Idle);
    desk.submit(rt, alloc, pass, Request::Quit)?;
    let refused = desk.submit(rt, alloc, pass, Request::Output);
    assert!(rt; refused == Err(DeskFault::NotClaimed));
    let wanted = [b"- E14 no program\n".as_slice(), b"+ 0\n".as_slice()];
    is_told(rt, alloc, desk, pass, &wanted)
}

// A pass is refused at another desk, which stores nothing, and goes on at its own.
fn is_refused_elsewhere<R: Abort + Wait>(
    rt: &R,
    alloc: Global,
    desk: &Desk<Two>,
    other: &Desk<Two>,
) -> Result<(), DeskFault> {
    let there = other.open(rt, alloc, 1)?;
    let told = asks_at_both(rt, alloc, desk, other);
    closes(rt, other, there);
    told
}

fn asks_at_both<R: Abort + Wait>(
    rt: &R,
    alloc: Global,
    desk: &Desk<Two>,
    other: &Desk<Two>,
) -> Result<(), DeskFault> {
    let mut pass = desk.open(rt, alloc, 1)?;
    let asked = desk.submit(rt, alloc, &mut pass, Request::Output);
    let refused = other.submit(rt, alloc, &mut pass, Request::Output);
    assert!(rt; refused == Err(DeskFault::NotThisDesk(0)));
    let told = is_not_closed(rt, alloc, desk, other, pass);
    asked.and(told)
}

fn is_not_closed<R: Abort + Wait>(
    rt: &R,
    alloc: Global,
    desk: &Desk<Two>,
    other: &Desk<Two>,
    pass: Pass,
) -> Result<(), DeskFault> {
    match other.close(rt, pass) {
        Ok(()) => {
            assert!(rt; false, "closed at another desk");
            Ok(())
        }
        Err((pass, fault)) => {
            assert!(rt; fault == DeskFault::NotThisDesk(0));
            goes_on(rt, alloc, desk, pass)
        }
    }
}

fn goes_on<R: Abort + Wait>(
    rt: &R,
    alloc: Global,
    desk: &Desk<Two>,
    pass: Pass,
) -> Result<(), DeskFault> {
    let mut pass = pass;
    let wanted = [b"- E14 no program\n".as_slice()];
    let told = is_told(rt, alloc, desk, &mut pass, &wanted);
    closes(rt, desk, pass);
    told
}
