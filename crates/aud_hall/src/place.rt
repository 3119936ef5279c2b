// A place of the hall, claimed or not.

ghost use Rattle.std.specs.Prelude.{◌≡◌, ℕ, ◌<◌, length, true, false, Some, None, Option, IfErr, IfSome, OnErr, MatchOption};
ghost use Rattle.aud_hall.specs.Seats.{submitted, collected};
ghost use Rattle.aud_hall.specs.Halls.{at_seat, claiming, freeing};
ghost use Rattle.aud_hall.specs.Told.{IsToldIn};
ghost use Rattle.aud_hall.specs.Ties.Places.{SentFrom, judged_at, checked_at, asked_in, outbox_in};
ghost use Rattle.aud_hall.specs.Ties.Said.{is_memory, said, said_answers, said_next};
ghost use Rattle.aud_hall.specs.Parcels.{bench_of};

use crate::fault::HallFault;
use crate::next::Next;
use crate::parcel::Parcel;
use crate::seat::Seat;
use crate::stranger::Stranger;
use crate::why::Why;
use aud_bench::request::{Answer, Request};
use aud_text::limits::Limits;
use std::alloc::Global;
use std::marker::Model;

/// A place of the hall: its limits, and the seat there, where it is claimed.
#[derive(Drop)]
pub struct Place {
    limits: Limits,
    seat: Option<Seat>,
}

impl Model for Place {
    ghost use Rattle.aud_hall.specs.Halls as halls;
    ghost use Rattle.aud_hall.specs.Ties.Right.{IsRightSeat};

    ghost Value = { halls.Place };

    ghost view = { λ p. record { limits = p.limits; seat = p.seat } };

    ghost invariant = { λ p. ∥ IsRightSeat p.limits p.seat ∥₁ };
}

impl Place {
    /// A place that nobody has claimed.
    pub fn new(limits: Limits) -> Self
        ensures { result ≡ record { limits = limits; seat = None } }
    {
        Place { limits, seat: None }
    }

    /// Begins a session.
    pub fn claim(&mut self, alloc: Global) -> Result<(), HallFault>
        ensures claims { claiming (is_memory result) self.old self.old.seat
            ≡ record { now = self.new; reply = said result } }
        ensures err { OnErr result (self.new ≡ self.old) }
        ensures limits { self.new.limits ≡ self.old.limits }
    {
        if self.seat.is_some() {
            return Err(HallFault::SeatInUse);
        }
        let Ok(seat) = Seat::new(alloc, self.limits) else {
            return Err(HallFault::Memory);
        };
        self.seat = Some(seat);
        Ok(())
    }

    /// Whether a request would be stored, memory that it takes apart.
    pub fn admit(&self, request: &Request) -> Result<(), HallFault>
        ensures { said result
            ≡ (at_seat (submitted request.now false) self.now self.now.seat).reply }
    {
        match &self.seat {
            Some(seat) => seat.admit(request),
            None => Err(HallFault::NotClaimed),
        }
    }

    /// Stores a request.
    pub fn submit(&mut self, request: Request) -> Result<(), HallFault>
        ensures submits { at_seat (submitted request (is_memory result)) self.old self.old.seat
            ≡ record { now = self.new; reply = said result } }
        ensures err { OnErr result (self.new ≡ self.old) }
        ensures limits { self.new.limits ≡ self.old.limits }
    {
        let Some(seat) = &mut self.seat else {
            return Err(HallFault::NotClaimed);
        };
        seat.submit(request)
    }

    /// Sends the bench out as a parcel of the seat of this number.
    pub fn send_out(&mut self, alloc: Global, number: usize) -> Option<Parcel>
        ensures sends { (refused : Option ℕ)
            × SentFrom refused self.old self.old.seat self.new (bench_of result) }
        ensures seat { IfSome result (λ p. p.seat ≡ number) }
        ensures limits { self.new.limits ≡ self.old.limits }
    {
        let Some(seat) = &mut self.seat else {
            return None;
        };
        match seat.send_out(alloc) {
            Some(bench) => Some(Parcel::new(number, bench)),
            None => None,
        }
    }

    /// Takes a parcel in, or hands it back. No memory is taken.
    pub fn check_in(&mut self, parcel: Parcel) -> Result<Next, Stranger>
        ensures checks { checked_at parcel.bench self.old self.old.seat
            ≡ record { now = self.new; reply = said_next result } }
        ensures err { IfErr result (λ stranger. (stranger.parcel ≡ parcel)
            × (self.new ≡ self.old)) }
        ensures limits { self.new.limits ≡ self.old.limits }
    {
        if let Some(why) = self.judge(&parcel) {
            return Err(Stranger { parcel, why });
        }
        match &mut self.seat {
            Some(seat) => Ok(seat.take_in(parcel)),
            None => unreachable!(),
        }
    }

    // Why the bench of a parcel is not to be taken in, if it is not: the first reason that holds.
    fn judge(&self, parcel: &Parcel) -> Option<Why>
        ensures { result ≡ judged_at self.now self.now.seat parcel.now.bench }
    {
        if parcel.limits() != self.limits {
            return Some(Why::OtherLimits);
        }
        match &self.seat {
            Some(seat) => seat.judge(parcel),
            None if parcel.journal().is_empty() => Some(Why::NotOut),
            None => Some(Why::Differs(0)),
        }
    }

    /// The answers from this number on; none where it is past the last, and then no memory is taken.
    pub fn collect(&self, alloc: Global, from: usize) -> Result<Vec<Answer>, HallFault>
        ensures collects { at_seat
            (λ s. record { now = s; reply = collected from (is_memory result) s })
            self.now self.now.seat ≡ record { now = self.now; reply = said_answers result } }
        ensures some { is_memory result ≡ true → from < length (outbox_in self.now.seat) }
    {
        match &self.seat {
            Some(seat) => seat.collect(alloc, from),
            None => Err(HallFault::NotClaimed),
        }
    }

    /// Ends a session. No memory is taken.
    pub fn free(&mut self) -> Result<(), HallFault>
        ensures frees { freeing self.old self.old.seat
            ≡ record { now = self.new; reply = said result } }
        ensures err { OnErr result (self.new ≡ self.old) }
        ensures limits { self.new.limits ≡ self.old.limits }
    {
        if self.seat.is_none() {
            return Err(HallFault::NotClaimed);
        }
        self.seat = None;
        Ok(())
    }

    /// The limits of the place. No memory is taken.
    pub fn limits(&self) -> Limits
        ensures { result ≡ self.now.limits }
    {
        self.limits
    }

    /// The stored requests, where the place is claimed. No memory is taken. Its answers are those of a private server to them.
    pub fn asked(&self) -> Option<&[Request]>
        ensures requests { MatchOption result (asked_in self.now.seat ≡ None)
            (λ requests. asked_in self.now.seat ≡ Some requests.now) }
        ensures answers { IsToldIn self.now.limits self.now.seat }
    {
        match &self.seat {
            Some(seat) => Some(seat.requests()),
            None => None,
        }
    }
}
