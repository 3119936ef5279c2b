// What the calls of a desk do under its lock.

ghost use Rattle.std.specs.Prelude.{◌≡◌, ◌<◌, ◌++◌, [], ◌∷◌, Option, Some, None, Err, vec_len, vec_capacity, IfOk, IfErr, IfSome, OnOk, OnErr};
ghost use Rattle.aud_hall.specs.Halls.{place_at, limits_of};
ghost use Rattle.aud_hall.specs.Parcels.{bench_of};
ghost use Rattle.aud_hall.specs.Told.{IsToldAt};
ghost use Rattle.aud_hall.specs.Ties.Said.{said};
ghost use Rattle.aud_pass.specs.Replies.{Collects, Tells};
ghost use Rattle.aud_pass.specs.Sections.{parted, not_there, in_turn, submit_fault, CollectsIn, StoresAndSends, Returns, Opens, Closes};
ghost use Rattle.aud_pass.specs.declared.fault.DeskFault.{DeskFault};
ghost use Rattle.aud_pass.specs.declared.fault.DeskFault.TheVariants as fault;

use crate::fault::DeskFault;
use crate::got::Got;
use crate::pass::Pass;
use aud_bench::request::Request;
use aud_hall::difference::first_difference;
use aud_hall::fault::HallFault;
use aud_hall::hall::Hall;
use aud_hall::next::Next;
use aud_hall::parcel::Parcel;
use std::alloc::{AllocError, Global};

/// Stores a request of a pass at its seat, and sends the bench of the seat out, where it is at home and open. The parcel is for a
/// worker.
///
/// # Errors
///
/// The first that holds of: there is no such seat; it is not claimed, or a QUIT was stored; what the pass has sent is not what is
/// stored there; the request does not fit behind the others; memory is refused, or was to the bench that is at home. The pass and
/// the hall are as they were.
pub fn submit_in(
    alloc: Global,
    hall: &mut Hall,
    pass: &mut Pass,
    request: Request,
) -> Result<Option<Parcel>, DeskFault>
    ensures refused { (f : DeskFault) → submit_fault request pass.old hall.old ≡ Some f →
        result ≡ Err f }
    ensures memory { submit_fault request pass.old hall.old ≡ None →
        IfErr result (λ f. f ≡ fault.Memory) }
    ensures err { OnErr result ((hall.new ≡ hall.old) × (pass.new ≡ pass.old)) }
    ensures pass { OnOk result
        (pass.new ≡ record pass.old { sent = pass.old.sent ++ request ∷ [] }) }
    ensures sends { IfOk result (λ parcel.
        StoresAndSends pass.old.seat request hall.old (bench_of parcel) hall.new) }
    ensures seat { IfOk result (λ parcel. IfSome parcel (λ p. p.seat ≡ pass.old.seat)) }
    ensures fits { Tells result pass.old request }
    ensures limits { limits_of hall.new ≡ limits_of hall.old }
{
    if let Some(fault) = submit_fault(hall, pass, &request) {
        return Err(fault);
    }
    let kept = prepare(alloc, &mut pass.sent, &request)?;
    // Nothing but want of memory keeps it back.
    let Ok(()) = hall.submit(pass.seat, request) else {
        return Err(DeskFault::Memory);
    };
    add(&mut pass.sent, kept);
    Ok(hall.send_out(alloc, pass.seat))
}

/// Takes the answers of a seat that its pass has not got.
///
/// # Errors
///
/// The first that holds of: there is no such seat; it is not claimed; what the pass has sent is not what is stored there; that
/// memory is out was got as the last answer; memory is refused. The pass is as it was.
pub fn collect_in(alloc: Global, hall: &Hall, pass: &mut Pass) -> Result<Got, DeskFault>
    ensures exact { CollectsIn pass.old hall.now result pass.new }
    ensures told { Collects pass.old result pass.new }
{
    let _ = pass.got();
    look(alloc, hall, pass)
}

/// Takes a parcel in at the seat that sent it out, and sends the bench out again, where a stored request is unanswered. A parcel
/// that the seat does not take in is dropped.
pub fn return_in(alloc: Global, hall: &mut Hall, parcel: Parcel) -> Option<Parcel>
    ensures returns { Returns parcel.seat parcel.bench hall.old (bench_of result) hall.new }
    ensures seat { IfSome result (λ p. p.seat ≡ parcel.seat) }
    ensures limits { limits_of hall.new ≡ limits_of hall.old }
{
    let seat = parcel.seat();
    match hall.check_in(seat, parcel) {
        Ok(Next::More) => hall.send_out(alloc, seat),
        Ok(Next::Idle) => None,
        Err(_) => None,
    }
}

/// Begins a session at a seat, and gives a pass of it.
///
/// # Errors
///
/// The first that holds of: there is no such seat; a session is under way there; memory is refused. The hall is as it was.
pub fn open_in(alloc: Global, hall: &mut Hall, seat: usize) -> Result<Pass, DeskFault>
    ensures opens { Opens seat hall.old result hall.new }
    ensures limits { limits_of hall.new ≡ limits_of hall.old }
{
    let Some(limits) = hall.limits_at(seat) else {
        return Err(DeskFault::NoSuchSeat);
    };
    match hall.claim(alloc, seat) {
        Ok(()) => Ok(Pass::new(alloc, seat, limits)),
        Err(fault) => Err(DeskFault::from(fault)),
    }
}

/// Ends the session of a pass. No memory is taken.
///
/// # Errors
///
/// The first that holds of: there is no such seat; it is not claimed; what the pass has sent is not what is stored
/// there. The hall is as it was.
pub fn close_in(hall: &mut Hall, pass: &Pass) -> Result<(), DeskFault>
    ensures closes { Closes pass.now hall.old result hall.new }
    ensures limits { limits_of hall.new ≡ limits_of hall.old }
{
    if let Some(fault) = not_there(hall, pass) {
        return Err(fault);
    }
    hall.free(pass.seat)?;
    Ok(())
}

// The same, as a section of the hall alone.
fn look(alloc: Global, hall: &Hall, pass: &mut Pass) -> Result<Got, DeskFault>
    ensures exact { CollectsIn pass.old hall.now result pass.new }
    ensures answers { IsToldAt (place_at hall.now pass.old.seat) }
{
    if let Some(fault) = not_there(hall, pass) {
        return Err(fault);
    }
    if pass.is_over() {
        return Err(DeskFault::Memory);
    }
    if pass.has_all() {
        return Ok(Got::Idle);
    }
    let new = hall.collect(alloc, pass.seat(), pass.got().len())?;
    let count = new.len();
    if count == 0 {
        return Ok(Got::Busy);
    }
    pass.take(new)?;
    Ok(Got::New(count))
}

// Why a request of a pass is refused, memory that it takes apart.
fn submit_fault(hall: &Hall, pass: &Pass, request: &Request) -> Option<DeskFault>
    ensures { result ≡ submit_fault request.now pass.now hall.now }
{
    in_turn(hall.admit(pass.seat, request), not_there(hall, pass))
}

// What the hall says of a request and what is wrong with the pass, in their order.
fn in_turn(admitted: Result<(), HallFault>, not_there: Option<DeskFault>) -> Option<DeskFault>
    ensures { result ≡ in_turn (said admitted) not_there }
{
    match admitted {
        Err(HallFault::NoSuchSeat) => Some(DeskFault::NoSuchSeat),
        Err(HallFault::NotClaimed) => Some(DeskFault::NotClaimed),
        Err(fault) => match not_there {
            Some(other) => Some(other),
            None => Some(DeskFault::from(fault)),
        },
        Ok(()) => not_there,
    }
}

// Why a pass is none of its seat's: the first reason that holds.
fn not_there(hall: &Hall, pass: &Pass) -> Option<DeskFault>
    ensures why { result ≡ not_there pass.now (place_at hall.now pass.now.seat) }
    ensures answers { IsToldAt (place_at hall.now pass.now.seat) }
{
    let asked = hall.asked(pass.seat);
    let Some(limits) = hall.limits_at(pass.seat) else {
        return Some(DeskFault::NoSuchSeat);
    };
    let Some(stored) = asked else {
        return Some(DeskFault::NotClaimed);
    };
    if limits != pass.limits {
        return Some(DeskFault::NotThisDesk(0));
    }
    match parted(&pass.sent, stored) {
        Some(place) => Some(DeskFault::NotThisDesk(place)),
        None => None,
    }
}

// The first place where what was sent and what is stored part, or where the shorter one ends; none where they are the same.
fn parted(sent: &[Request], stored: &[Request]) -> Option<usize>
    ensures { result ≡ parted sent.now stored.now }
{
    if let Some(place) = first_difference(sent, stored) {
        return Some(place);
    }
    if sent.len() < stored.len() {
        return Some(sent.len());
    }
    None
}

// Another owner of a request, and room for it behind those that were sent.
fn prepare(alloc: Global, sent: &mut Vec<Request>, request: &Request) -> Result<Request, AllocError>
    ensures items { sent.new.items ≡ sent.old.items }
    ensures kept { IfOk result (λ kept. kept ≡ request.now) }
    ensures room { OnOk result (vec_len sent.new < vec_capacity sent.new) }
{
    sent.reserve(1)?;
    request.try_clone(alloc)
}

// Adds a request for which there is room.
fn add(sent: &mut Vec<Request>, request: Request)
    requires { vec_len sent.old < vec_capacity sent.old }
    ensures { sent.new.items ≡ sent.old.items ++ request ∷ [] }
{
    match sent.push(request) {
        Ok(()) => {}
        Err(_) => unreachable!(),
    }
}
