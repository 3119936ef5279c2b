// The hall: the seats of all users.

ghost use Rattle.std.specs.Prelude.{◌≡◌, ℕ, ◌<◌, suc, length, true, false, Some, None, Option, IfOk, IfErr, IfSome, OnErr, MatchOption};
ghost use Rattle.aud_hall.specs.Halls.{nobodys, place_at, limits_of, claims, submits, sends_out, checks_in, collects, frees};
ghost use Rattle.aud_hall.specs.Ties.Said.{is_memory, said, said_answers, said_next};
ghost use Rattle.aud_hall.specs.Parcels.{bench_of};
ghost use Rattle.aud_hall.specs.Told.{IsToldAt};
ghost use Rattle.aud_hall.specs.Ties.Places.{asked_at, outbox_at, limits_at};

use crate::fault::HallFault;
use crate::next::Next;
use crate::parcel::Parcel;
use crate::place::Place;
use crate::stranger::Stranger;
use crate::why::Why;
use aud_bench::request::{Answer, Request};
use aud_text::limits::Limits;
use std::alloc::{AllocError, Global};
use std::marker::Model;

/// Seats, numbered from 1, each with limits of its own.
///
/// A session lasts from a claim to the next free. Its requests are stored, and its bench goes out as a parcel, on which anybody
/// may work; once that is checked in, its answers can be collected. The answers of each session are a prefix of those of a
/// private server to its own requests, whatever else happens in the hall; where memory is refused, its last answer may say so.
#[derive(Drop)]
pub struct Hall {
    limits: Vec<Limits>,
    places: Vec<Place>,
}

impl Model for Hall {
    ghost use Rattle.std.specs.Prelude.{◌≡◌, List};
    ghost use Rattle.aud_hall.specs.Halls as halls;

    ghost Value = { List halls.Place };

    ghost view = { λ h. h.places.items };

    ghost invariant = { λ h. h.limits.items ≡ halls.limits_of h.places.items };
}

impl Hall {
    /// A hall with a seat for each of these limits, which nobody has claimed. From 1 to 64 seats are meant, each with 64 to 256
    /// tasks and 32,768 to 65,536 bytes of source; nothing of that is asked.
    ///
    /// # Errors
    ///
    /// Where memory is refused.
    pub fn new(alloc: Global, limits: Vec<Limits>) -> Result<Self, AllocError>
        ensures { IfOk result (λ h. h ≡ nobodys limits.items) }
    {
        let mut places = Vec::with_capacity(alloc, limits.len())?;
        for each in &limits {
            places.push(Place::new(*each))?;
        }
        Ok(Hall { limits, places })
    }

    // Where the place of this seat is kept, if there is one.
    fn index_of(&self, seat: usize) -> Option<usize>
        ensures { MatchOption result (place_at self.now seat ≡ None)
            (λ i. (seat ≡ suc i) × (i < length self.now)) }
    {
        if seat == 0 || self.places.len() < seat {
            return None;
        }
        Some(seat - 1)
    }

    /// Begins a session at a seat, with a new bench and no requests.
    ///
    /// # Errors
    ///
    /// The first that holds of: the hall has no such seat; a session is under way there; memory is refused. Nothing has changed
    /// then.
    pub fn claim(&mut self, alloc: Global, seat: usize) -> Result<(), HallFault>
        ensures claims { claims seat (is_memory result) self.old
            ≡ record { now = self.new; reply = said result } }
        ensures err { OnErr result (self.new ≡ self.old) }
        ensures limits { limits_of self.new ≡ limits_of self.old }
    {
        let Some(index) = self.index_of(seat) else {
            return Err(HallFault::NoSuchSeat);
        };
        let place = &mut self.places[index];
        place.claim(alloc)
    }

    /// Whether a request would be stored at a seat, memory that it takes apart. No memory is taken.
    ///
    /// # Errors
    ///
    /// The first that holds of: the hall has no such seat; it is not claimed, or a QUIT was stored; the request does not fit
    /// behind the others; memory was refused to the bench that is at home.
    pub fn admit(&self, seat: usize, request: &Request) -> Result<(), HallFault>
        ensures { said result ≡ (submits seat request.now false self.now).reply }
    {
        let Some(index) = self.index_of(seat) else {
            return Err(HallFault::NoSuchSeat);
        };
        self.places[index].admit(request)
    }

    /// Stores a request of the session at a seat.
    ///
    /// # Errors
    ///
    /// The first that holds of: the hall has no such seat; it is not claimed, or a QUIT was stored; the request does not fit
    /// behind the others; memory is refused, or was to the bench that is at home. Nothing has changed then.
    pub fn submit(&mut self, seat: usize, request: Request) -> Result<(), HallFault>
        ensures submits { submits seat request (is_memory result) self.old
            ≡ record { now = self.new; reply = said result } }
        ensures err { OnErr result (self.new ≡ self.old) }
        ensures limits { limits_of self.new ≡ limits_of self.old }
    {
        let Some(index) = self.index_of(seat) else {
            return Err(HallFault::NoSuchSeat);
        };
        let place = &mut self.places[index];
        place.submit(request)
    }

    /// Sends the bench of a seat out with all stored requests, where it is at home and has not closed, and a request is
    /// unanswered. Where memory is refused meanwhile, it closes and stays: the last answer tells that memory is out.
    pub fn send_out(&mut self, alloc: Global, seat: usize) -> Option<Parcel>
        ensures sends { (refused : Option ℕ) × (sends_out seat refused self.old
            ≡ record { hall = self.new; gone = bench_of result }) }
        ensures seat { IfSome result (λ p. p.seat ≡ seat) }
        ensures limits { limits_of self.new ≡ limits_of self.old }
    {
        let Some(index) = self.index_of(seat) else {
            return None;
        };
        let place = &mut self.places[index];
        place.send_out(alloc, seat)
    }

    /// Takes a parcel in at a seat whose bench is out and which it fits, and tells whether a stored request is unanswered. No
    /// memory is taken.
    ///
    /// # Errors
    ///
    /// The parcel comes back with the first that holds of: there is no such seat; its limits are others; the parcel's requests
    /// are no prefix of the stored ones, at the first place where they part (a seat that nobody has claimed has none); its bench
    /// is not out; the parcel has fewer answers than the seat has, or no longer holds some of those past them. Nothing has
    /// changed then.
    pub fn check_in(&mut self, seat: usize, parcel: Parcel) -> Result<Next, Stranger>
        ensures checks { checks_in seat parcel.bench self.old
            ≡ record { now = self.new; reply = said_next result } }
        ensures err { IfErr result (λ stranger. (stranger.parcel ≡ parcel)
            × (self.new ≡ self.old)) }
        ensures limits { limits_of self.new ≡ limits_of self.old }
    {
        let Some(index) = self.index_of(seat) else {
            return Err(Stranger {
                parcel,
                why: Why::NoSeat,
            });
        };
        let place = &mut self.places[index];
        place.check_in(parcel)
    }

    /// The answers of the session at a seat from this number on; none where it is past the last.
    ///
    /// # Errors
    ///
    /// The first that holds of: the hall has no such seat; it is not claimed; memory is refused, which is taken only where there
    /// are answers from that number on.
    pub fn collect(&self, alloc: Global, seat: usize, from: usize) -> Result<Vec<Answer>, HallFault>
        ensures collects { collects seat from (is_memory result) self.now
            ≡ record { now = self.now; reply = said_answers result } }
        ensures some { is_memory result ≡ true →
            from < length (outbox_at (place_at self.now seat)) }
    {
        let Some(index) = self.index_of(seat) else {
            return Err(HallFault::NoSuchSeat);
        };
        self.places[index].collect(alloc, from)
    }

    /// Ends the session at a seat. A parcel of it that is out is judged when it comes: a later session that asked the same
    /// takes it in. No memory is taken.
    ///
    /// # Errors
    ///
    /// The first that holds of: the hall has no such seat; it is not claimed. Nothing has changed then.
    pub fn free(&mut self, seat: usize) -> Result<(), HallFault>
        ensures frees { frees seat self.old ≡ record { now = self.new; reply = said result } }
        ensures err { OnErr result (self.new ≡ self.old) }
        ensures limits { limits_of self.new ≡ limits_of self.old }
    {
        let Some(index) = self.index_of(seat) else {
            return Err(HallFault::NoSuchSeat);
        };
        let place = &mut self.places[index];
        place.free()
    }

    /// The limits of the seats, in the order of their numbers. They never change. No memory is taken.
    pub fn limits(&self) -> &[Limits]
        ensures { result.now ≡ limits_of self.now }
    {
        &self.limits
    }

    /// The limits of a seat, where there is one. No memory is taken.
    pub fn limits_at(&self, seat: usize) -> Option<Limits>
        ensures { result ≡ limits_at (place_at self.now seat) }
    {
        let index = self.index_of(seat)?;
        Some(self.places[index].limits())
    }

    /// The stored requests of the session at a seat, where there is one. No memory is taken. The answers there are
    /// those of a private server to them: so many of the first ones, and behind them, where memory was refused to the
    /// bench at home, that it is.
    pub fn asked(&self, seat: usize) -> Option<&[Request]>
        ensures requests { MatchOption result (asked_at (place_at self.now seat) ≡ None)
            (λ r. asked_at (place_at self.now seat) ≡ Some r.now) }
        ensures answers { IsToldAt (place_at self.now seat) }
    {
        let index = self.index_of(seat)?;
        self.places[index].asked()
    }
}
