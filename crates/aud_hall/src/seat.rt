// A seat that is claimed.

ghost use Rattle.std.specs.Prelude.{◌≡◌, ℕ, ◌-◌, ◌<◌, ◌++◌, ◌||◌, nat_lt, nat_le, length, take, drop, true, false, None, Option, MatchOption, IfOk, OnOk, OnErr};
ghost use Rattle.aud_bench.specs.Alone.{fits};
ghost use Rattle.aud_bench.specs.Seen.{has_quit};
ghost use Rattle.aud_bench.specs.Size.{bytes_of};
ghost use Rattle.aud_bench.specs.Ties.Kept.{is_kept};
ghost use Rattle.aud_hall.specs.Slices.{answered, given};
ghost use Rattle.aud_hall.specs.Seats.{claimed, stored, submitted, has_closed, taken_in, sent, collected};
ghost use Rattle.aud_hall.specs.CheckIns.{first_difference, not_awaited, or_differs, next};
ghost use Rattle.aud_hall.specs.Ties.Said.{is_memory, said, said_answers};
ghost use Rattle.aud_hall.specs.Ties.Places.{IsRightThere, unboxed};
ghost use Rattle.aud_hall.specs.Ties.Right.{IsTrue};

use crate::difference::first_difference;
use crate::fault::HallFault;
use crate::next::Next;
use crate::parcel::Parcel;
use crate::why::Why;
use aud_bench::bench::{Bench, GiveFault};
use aud_bench::journal::{fits, is_quit, size};
use aud_bench::request::{Answer, Request};
use aud_text::limits::Limits;
use std::alloc::{AllocError, Global};
use std::marker::Model;

/// A claimed seat: what its user asked, what was answered, and the bench, where it is at home.
#[derive(Drop)]
pub struct Seat {
    requests: Vec<Request>,
    bytes: usize,
    quit: bool,
    // There is room for an answer to each request.
    outbox: Vec<Answer>,
    // In a box, so that a bench goes out and comes in by a pointer.
    home: Option<Box<Bench>>,
}

impl Model for Seat {
    ghost use Rattle.std.specs.Prelude.{◌≡◌, ◌≤◌, length, false, vec_capacity};
    ghost use Rattle.aud_text.specs.declared.limits.TheConstants.{REQUEST_BYTES};
    ghost use Rattle.aud_bench.specs.Seen.{has_quit};
    ghost use Rattle.aud_bench.specs.Size.{bytes_of};
    ghost use Rattle.aud_hall.specs.Seats as seats;
    ghost use Rattle.aud_hall.specs.Ties.Places.{unboxed};

    ghost Value = { seats.Seat };

    ghost view = { λ s. record {
      requests = s.requests.items;
      outbox = s.outbox.items;
      home = unboxed s.home;
    } };

    ghost invariant = { λ s.
        (length s.requests.items ≤ vec_capacity s.outbox)
        × (s.quit ≡ false → (s.bytes ≡ bytes_of s.requests.items) × (s.bytes ≤ REQUEST_BYTES))
        × (s.quit ≡ has_quit s.requests.items) };
}

impl Seat {
    /// A seat with a new bench and empty lists.
    ///
    /// # Errors
    ///
    /// Where memory is refused.
    pub fn new(alloc: Global, limits: Limits) -> Result<Self, AllocError>
        ensures { IfOk result (λ s. s ≡ claimed limits) }
    {
        let bench = Box::new(alloc, Bench::new(alloc, limits)?)?;
        Ok(Seat {
            requests: Vec::new(alloc),
            bytes: 0,
            quit: false,
            outbox: Vec::new(alloc),
            home: Some(bench),
        })
    }

    /// The stored requests.
    pub fn requests(&self) -> &[Request]
        ensures { result.now ≡ self.now.requests }
    {
        &self.requests
    }

    // Whether the bench is at home and has closed.
    fn has_closed(&self) -> bool
        ensures { result ≡ has_closed self.now.home }
    {
        match &self.home {
            Some(bench) => bench.is_spent(),
            None => false,
        }
    }

    /// Whether a request would be stored, memory that it takes apart: not behind a QUIT, nor where it does not fit behind the
    /// others, nor while the bench at home has closed.
    pub fn admit(&self, request: &Request) -> Result<(), HallFault>
        ensures said { (submitted request.now false self.now).reply ≡ said result }
        ensures refused { OnErr result (submitted request.now (is_memory result) self.now
            ≡ record { now = self.now; reply = said result }) }
        ensures open { OnOk result (has_quit self.now.requests ≡ false) }
        ensures fits { OnOk result
            (fits (length self.now.requests) (bytes_of self.now.requests) request.now ≡ true) }
        ensures home { OnOk result (has_closed self.now.home ≡ false) }
    {
        if self.quit {
            return Err(HallFault::NotClaimed);
        }
        if !fits(self.requests.len(), self.bytes, request) {
            return Err(HallFault::Full);
        }
        if self.has_closed() {
            return Err(HallFault::Memory);
        }
        Ok(())
    }

    /// Stores a request that no QUIT stands before, and that fits behind the others.
    pub fn submit(&mut self, request: Request) -> Result<(), HallFault>
        ensures submits { submitted request (is_memory result) self.old
            ≡ record { now = self.new; reply = said result } }
        ensures err { OnErr result (self.new ≡ self.old) }
    {
        if let Err(fault) = self.admit(&request) {
            return Err(fault);
        }
        match self.store(request) {
            Ok(()) => Ok(()),
            Err(_) => Err(HallFault::Memory),
        }
    }

    // Stores a request that fits, and keeps room for its answer.
    fn store(&mut self, request: Request) -> Result<(), AllocError>
        requires open { has_quit self.old.requests ≡ false }
        requires fits { fits (length self.old.requests) (bytes_of self.old.requests) request
            ≡ true }
        ensures ok { OnOk result (self.new ≡ stored self.old request) }
        ensures err { OnErr result (self.new ≡ self.old) }
    {
        let room = (self.requests.len() + 1).saturating_sub(self.outbox.len());
        self.outbox.reserve(room)?;
        let quit = is_quit(&request);
        let size = size(&request);
        self.requests.push(request)?;
        self.bytes += size;
        self.quit = quit;
        Ok(())
    }

    /// Sends the bench out with all stored requests, where it is at home and open and a request is unanswered. Where memory
    /// is refused, it closes and stays, and the last answer tells it.
    pub fn send_out(&mut self, alloc: Global) -> Option<Box<Bench>>
        requires { IsRightThere self.old }
        ensures { (refused : Option ℕ) × (sent refused self.old
            ≡ record { seat = self.new; gone = unboxed result }) }
    {
        if self.stays() {
            return None;
        }
        let Some(mut home) = self.home.take() else {
            return None;
        };
        let bench: &mut Bench = &mut home;
        if give_rest(alloc, bench, &self.requests) {
            return Some(home);
        }
        bench.close();
        let known = self.outbox.len();
        bench.take_answers(&mut self.outbox, known);
        self.home = Some(home);
        None
    }

    // Whether the bench is out or has closed, or each request is answered.
    fn stays(&self) -> bool
        ensures { MatchOption self.now.home (result ≡ true) (λ b. result
            ≡ (b.spent || nat_le (length self.now.requests) (length self.now.outbox))) }
    {
        match &self.home {
            Some(bench) => bench.is_spent() || self.requests.len() <= self.outbox.len(),
            None => true,
        }
    }

    /// Why the bench of a parcel with the seat's limits is not to be taken in, if it is not.
    pub fn judge(&self, parcel: &Parcel) -> Option<Why>
        ensures { result
            ≡ or_differs (first_difference parcel.now.bench.journal self.now.requests)
            (not_awaited parcel.now.bench self.now.outbox self.now.home) }
    {
        if let Some(place) = first_difference(parcel.journal(), &self.requests) {
            return Some(Why::Differs(place));
        }
        if self.home.is_some() {
            return Some(Why::NotOut);
        }
        let known = self.outbox.len();
        if is_behind(parcel, known) {
            return Some(Why::Behind(known));
        }
        None
    }

    /// Takes a bench in, and its answers past those that the seat has. No memory is taken.
    pub fn take_in(&mut self, parcel: Parcel) -> Next
        requires { or_differs (first_difference parcel.bench.journal self.old.requests)
            (not_awaited parcel.bench self.old.outbox self.old.home) ≡ None }
        ensures seat { self.new ≡ taken_in parcel.bench self.old }
        ensures next { result ≡ next parcel.bench self.old }
        ensures right { IsTrue parcel.bench }
    {
        let next = self.next(&parcel);
        let mut home = parcel.into_bench();
        let bench: &mut Bench = &mut home;
        let from = self.outbox.len();
        bench.take_answers(&mut self.outbox, from);
        self.home = Some(home);
        next
    }

    // Whether there is more to do, once the bench of this parcel is at home.
    fn next(&self, parcel: &Parcel) -> Next
        ensures { result ≡ next parcel.now.bench self.now }
    {
        if parcel.is_spent() || self.requests.len() <= parcel.answered() {
            Next::Idle
        } else {
            Next::More
        }
    }

    /// The answers from this number on; none where it is past the last, and then no memory is taken.
    pub fn collect(&self, alloc: Global, from: usize) -> Result<Vec<Answer>, HallFault>
        ensures collects { collected from (is_memory result) self.now ≡ said_answers result }
        ensures some { is_memory result ≡ true → from < length self.now.outbox }
    {
        match copied(alloc, &self.outbox, from) {
            Ok(answers) => Ok(answers),
            Err(_) => Err(HallFault::Memory),
        }
    }
}

// Whether the bench has made fewer answers than the seat knows, or holds none but such as begin after these.
fn is_behind(parcel: &Parcel, known: usize) -> bool
    ensures { result ≡ (nat_lt (answered parcel.now.bench) known
        || nat_lt known parcel.now.bench.taken) }
{
    parcel.answered() < known || known < parcel.taken()
}

// Gives the requests that are not yet given, and tells whether all are. They fit behind one another, so nothing but want of
// memory keeps one back.
fn give_rest(alloc: Global, bench: &mut Bench, requests: &[Request]) -> bool
    requires open { bench.old.spent ≡ false }
    requires kept { is_kept (bench.old.journal
        ++ drop (length bench.old.journal) requests.now) ≡ true }
    ensures all { result ≡ true → bench.new ≡ given requests.now None bench.old }
    ensures cut { result ≡ false → (n : ℕ)
        × (n < length requests.now - length bench.old.journal)
        × (bench.new ≡ record bench.old {
          journal = bench.old.journal ++ take n (drop (length bench.old.journal) requests.now);
        }) }
{
    let mut next = bench.journal().len();
    while next < requests.len() {
        let Ok(request) = requests[next].try_clone(alloc) else {
            return false;
        };
        match bench.give(request) {
            Ok(()) => next += 1,
            Err(GiveFault::Memory) => return false,
            Err(GiveFault::Full) => unreachable!(),
            Err(GiveFault::Closed) => unreachable!(),
        }
    }
    true
}

// Other owners of the answers from this number on.
fn copied(alloc: Global, answers: &[Answer], from: usize) -> Result<Vec<Answer>, AllocError>
    ensures items { IfOk result (λ copy. copy.items ≡ drop from answers.now) }
    ensures some { OnErr result (from < length answers.now) }
{
    let mut copy = Vec::new(alloc);
    if answers.len() <= from {
        return Ok(copy);
    }
    for answer in &answers[from..] {
        copy.push(answer.try_clone(alloc)?)?;
    }
    Ok(copy)
}
