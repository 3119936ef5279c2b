// How fast halls and benches work, and halls in which nothing is to be done.

use crate::fault::Fault;
use aud_bench::bench::{Bench, GiveFault};
use aud_bench::request::Request;
use aud_text::limits::{Limits, RUN, STANDARD};
use aud_text::text::Text;
use aud_worlds::hall::Hall;
use std::alloc::{AllocError, Global};

const LOOPS: &[u8] = b"procedure M is begin loop null; end loop; end M;\n";

const ENDS: &[u8] = b"procedure M is begin null; end M;\n";

// So many RUNs use up the steps of a LOAD.
const RUNS: u64 = 10;

// More requests than these are not made at a seat.
const MOST: u64 = 4_000;

/// What is worked off: so many steps at each of the seats, behind so many requests that cost a unit each, in slices of so
/// many units; with none, on one bench.
#[derive(Clone, Copy)]
pub struct Measure {
    pub seats: usize,
    pub before: u32,
    pub steps: u32,
    pub slice: u32,
}

/// Works that off; how many units were done.
///
/// # Errors
///
/// `Memory` where memory is refused; what a call is refused for that must succeed.
pub fn work_off(alloc: Global, measure: Measure) -> Result<u64, Fault> {
    if measure.slice == 0 {
        return work_alone(alloc, measure);
    }
    let seats = measure.seats;
    let mut hall = hall(alloc, seats)?;
    for seat in 1..=seats {
        open(alloc, &mut hall, seat, measure)?;
    }
    work(alloc, &mut hall, seats, u64::from(measure.slice))
}

// A hall of so many seats.
fn hall(alloc: Global, seats: usize) -> Result<Hall, AllocError> {
    let mut limits: Vec<Limits> = Vec::new(alloc);
    for _ in 0..seats {
        limits.push(STANDARD)?;
    }
    Hall::new(alloc, limits)
}

// Claims a seat, and asks for so many steps of a program that loops.
fn open(alloc: Global, hall: &mut Hall, seat: usize, measure: Measure) -> Result<(), Fault> {
    hall.claim(alloc, seat)?;
    for _ in 0..measure.before {
        hall.submit(seat, Request::Output)?;
    }
    for request in requests(alloc, u64::from(measure.steps))? {
        hall.submit(seat, request)?;
    }
    Ok(())
}

// LOADs, and RUNs of so many steps together.
fn requests(alloc: Global, steps: u64) -> Result<Vec<Request>, AllocError> {
    let mut requests = Vec::new(alloc);
    let mut left = steps;
    for number in 0..MOST {
        if left == 0 {
            return Ok(requests);
        }
        if number % (RUNS + 1) == 0 {
            requests.push(Request::Load(Text::from_slice(alloc, LOOPS)?))?;
        } else {
            let steps = u32::try_from(left).unwrap_or(RUN).min(RUN);
            requests.push(Request::Run(steps))?;
            left = left.saturating_sub(u64::from(steps));
        }
    }
    Ok(requests)
}

// Slices at each seat in turn, until none sends a parcel out; how many units they did.
fn work(alloc: Global, hall: &mut Hall, seats: usize, slice: u64) -> Result<u64, Fault> {
    let mut units = 0u64;
    for _ in 0..u64::MAX {
        let done = work_once(alloc, hall, seats, slice)?;
        if done == 0 {
            return Ok(units);
        }
        units = units.saturating_add(done);
    }
    Ok(units)
}

// A slice at each seat.
fn work_once(alloc: Global, hall: &mut Hall, seats: usize, slice: u64) -> Result<u64, Fault> {
    let mut units = 0u64;
    for seat in 1..=seats {
        units = units.saturating_add(turn(alloc, hall, seat, slice)?);
    }
    Ok(units)
}

/// A hall of so many claimed seats, each of which has loaded a small program.
///
/// # Errors
///
/// `Memory` where memory is refused; what a call is refused for that must succeed.
pub fn idle_hall(alloc: Global, seats: usize) -> Result<Hall, Fault> {
    let mut hall = hall(alloc, seats)?;
    for seat in 1..=seats {
        hall.claim(alloc, seat)?;
        hall.submit(seat, Request::Load(Text::from_slice(alloc, ENDS)?))?;
        if turn(alloc, &mut hall, seat, 1)? != 1 {
            return Err(Fault::Undone);
        }
    }
    Ok(hall)
}

/// Sends the parcel of a seat out, if it can go out, does so many units of work on it, and takes it in; how many were done.
///
/// # Errors
///
/// `Stranger` where it is not taken in.
pub fn turn(alloc: Global, hall: &mut Hall, seat: usize, slice: u64) -> Result<u64, Fault> {
    let Some(mut parcel) = hall.send_out(alloc, seat) else {
        return Ok(0);
    };
    let work = parcel.slice(alloc, slice);
    match hall.check_in(parcel.seat(), parcel) {
        Ok(_) => Ok(work.done),
        Err(_) => Err(Fault::Stranger),
    }
}

// Works the steps of all seats off on one bench, a request at a time.
fn work_alone(alloc: Global, measure: Measure) -> Result<u64, Fault> {
    let steps = (measure.seats as u64).saturating_mul(u64::from(measure.steps));
    let mut bench = Bench::new(alloc, STANDARD)?;
    let mut units = 0u64;
    for _ in 0..measure.before {
        units = units.saturating_add(serve(alloc, &mut bench, Request::Output)?);
    }
    for request in requests(alloc, steps)? {
        units = units.saturating_add(serve(alloc, &mut bench, request)?);
    }
    Ok(units)
}

fn serve(alloc: Global, bench: &mut Bench, request: Request) -> Result<u64, Fault> {
    match bench.give(request) {
        Ok(()) => Ok(bench.slice(alloc, u64::MAX).done),
        Err(GiveFault::Memory) => Err(Fault::Memory),
        Err(_) => Err(Fault::Stranger),
    }
}
