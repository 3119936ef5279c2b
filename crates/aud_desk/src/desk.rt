// The desk: what many threads share.

ghost use Rattle.std.specs.Prelude.{◌≡◌, ◌++◌, [], ◌∷◌, IfOk, IfErr, OnOk, OnErr};
ghost use Rattle.aud_hall.specs.Halls.{limits_of};
ghost use Rattle.aud_pass.specs.Passed.{IsGot};
ghost use Rattle.aud_pass.specs.Replies.{Collects, IsNotBusy, IsLost, Tells};
ghost use Rattle.aud_desk.specs.Opened.{Opens};

use crate::gate::{Direct, Gate, work_off};
use crate::seating::{Seated, Seating};
use aud_bench::request::Request;
use aud_hall::hall::Hall;
use aud_hall::parcel::Parcel;
use aud_pass::fault::DeskFault;
use aud_pass::got::Got;
use aud_pass::pass::Pass;
use aud_pass::sections::{close_in, collect_in, open_in, return_in, submit_in};
use aud_text::limits::Limits;
use crossbeam_channel::{Receiver, Sender};
use std::alloc::{AllocError, Global};
use std::array;
use std::marker::PhantomData;
use std::sync::{Condvar, Mutex, Wait};

// A change at one seat wakes nobody who waits at another, in a hall of at most so many seats.
const BELLS: usize = 64;

/// A hall that many threads share, and the parcels that wait for a worker.
///
/// Its type says which limits its seats have (`Seating`). A user opens a seat and has a pass then, by which requests are sent and answers are got. Workers work on parcels without the
/// lock. What of it all a user is told is right whatever the others do; nothing is promised of when, or whether, it is told.
#[derive(Drop)]
pub struct Desk<D: Seating> {
    hall: Mutex<Seated<D>>,
    // None once the desk has stopped. Never locked together with the hall.
    orders: Mutex<Option<Sender<Parcel>>>,
    parcels: Receiver<Parcel>,
    // Each is told whenever answers may have come to its seats, or a session there have ended.
    changed: [Condvar; BELLS],
}

impl<D: Seating> Desk<D> {
    /// A desk of this hall, whose seats have the limits that the desk's type says, without workers.
    ///
    /// # Errors
    ///
    /// Where memory is refused.
    pub fn new(alloc: Global, hall: Hall) -> Result<Desk<D>, AllocError>
        requires { limits_of hall ≡ D.limits }
    {
        let (orders, parcels) = crossbeam_channel::unbounded(alloc)?;
        Ok(Desk {
            hall: Mutex::new(Seated {
                hall,
                of: PhantomData,
            }),
            orders: Mutex::new(Some(orders)),
            parcels,
            changed: array::from_fn(|_| Condvar::new()),
        })
    }

    /// The limits of its seats, in the order of their numbers.
    ///
    /// # Errors
    ///
    /// Where memory is refused.
    pub fn limits<R: Wait>(&self, rt: &R, alloc: Global) -> Result<Vec<Limits>, AllocError>
        ensures { IfOk result (λ limits. limits.items ≡ D.limits) }
    {
        Vec::from_slice(alloc, self.hall.lock(rt).hall.limits())
    }

    /// Begins a session at a seat, and gives a pass of it, with the limits of the seat.
    ///
    /// # Errors
    ///
    /// The first that holds of: the desk has no such seat; a session is under way there; memory is refused.
    pub fn open<R: Wait>(&self, rt: &R, alloc: Global, seat: usize) -> Result<Pass, DeskFault>
        ensures { Opens D.limits seat result }
    {
        let opened = open_in(alloc, &mut self.hall.lock(rt).hall, seat);
        self.changed_at(seat).notify_all();
        opened
    }

    /// Ends the session of a pass. No memory is taken.
    ///
    /// # Errors
    ///
    /// The first that holds of: the desk has no such seat; it is not claimed; what the pass has sent is not what is stored there.
    /// The pass comes back, and nothing is freed.
    pub fn close<R: Wait>(&self, rt: &R, pass: Pass) -> Result<(), (Pass, DeskFault)>
        ensures { IfErr result (λ refused. (refused.0 ≡ pass) × IsLost refused.1) }
    {
        let closed = close_in(&mut self.hall.lock(rt).hall, &pass);
        self.changed_at(pass.seat()).notify_all();
        match closed {
            Ok(()) => Ok(()),
            Err(fault) => Err((pass, fault)),
        }
    }

    /// Sends a request. Where no worker can be told, the work is done before this returns; no clause says so.
    ///
    /// # Errors
    ///
    /// The first that holds of: the desk has no such seat; it is not claimed, or a QUIT was sent; what the pass has sent is not
    /// what is stored there; the request does not fit behind the others; memory is refused, or was to the bench of the seat. The
    /// pass is as it was, and by `submit_in` the seat.
    pub fn submit<R: Wait>(
        &self,
        rt: &R,
        alloc: Global,
        pass: &mut Pass,
        request: Request,
    ) -> Result<(), DeskFault>
        ensures ok { OnOk result
            (pass.new ≡ record pass.old { sent = pass.old.sent ++ request ∷ [] }) }
        ensures err { OnErr result (pass.new ≡ pass.old) }
        ensures fits { Tells result pass.old request }
    {
        let parcel = submit_in(alloc, &mut self.hall.lock(rt).hall, pass, request)?;
        self.changed_at(pass.seat()).notify_all();
        self.hand_over(rt, alloc, &Direct, parcel);
        Ok(())
    }

    /// Takes the answers that are there and were not got before.
    ///
    /// # Errors
    ///
    /// The first that holds of: the desk has no such seat; it is not claimed; what the pass has sent is not what is stored there;
    /// that memory is out was got as the last answer; memory is refused. The pass is as it was.
    pub fn collect<R: Wait>(&self, rt: &R, alloc: Global, pass: &mut Pass) -> Result<Got, DeskFault>
        ensures got { Collects pass.old result pass.new }
        ensures right { IsGot pass.new.limits pass.new.sent pass.new.got }
    {
        let found = collect_in(alloc, &self.hall.lock(rt).hall, pass);
        let _ = pass.got();
        found
    }

    /// Takes answers once some are there, or there are none to come.
    ///
    /// # Errors
    ///
    /// As `collect`.
    pub fn wait<R: Wait>(&self, rt: &R, alloc: Global, pass: &mut Pass) -> Result<Got, DeskFault>
        ensures got { Collects pass.old result pass.new }
        ensures right { IsGot pass.new.limits pass.new.sent pass.new.got }
        ensures waited { IfOk result IsNotBusy }
    {
        let mut seated = self.hall.lock(rt);
        for _ in rt.forever() {
            let found = collect_in(alloc, &seated.hall, pass);
            let _ = pass.got();
            match found? {
                Got::Busy => seated = self.changed_at(pass.seat()).wait(rt, seated),
                found => return Ok(found),
            }
        }
        unreachable!()
    }

    /// Works on parcels through a gate, until the desk has stopped and none is left. Nothing is promised of it but that it is
    /// safe.
    pub fn work<R: Wait, G: Gate>(&self, rt: &R, alloc: Global, gate: &G) {
        for _ in rt.forever() {
            let Ok(mut parcel) = self.parcels.recv(rt) else {
                return;
            };
            work_off(alloc, gate, &mut parcel);
            let next = self.take_back(rt, alloc, parcel);
            self.hand_over(rt, alloc, gate, next);
        }
        unreachable!()
    }

    /// From now on no worker is told of parcels: whoever sends one out works it off. No memory is taken. Nothing is promised
    /// of it but that it is safe.
    pub fn stop<R: Wait>(&self, rt: &R) {
        let _ = self.orders.lock(rt).take();
    }

    // Tells a worker of a parcel. Where that is refused, works it off here, and so those that follow it.
    fn hand_over<R: Wait, G: Gate>(&self, rt: &R, alloc: Global, gate: &G, parcel: Option<Parcel>) {
        let mut next = parcel;
        for _ in rt.forever() {
            let Some(parcel) = next else {
                return;
            };
            let Err(mut refused) = self.send(rt, parcel) else {
                return;
            };
            work_off(alloc, gate, &mut refused);
            next = self.take_back(rt, alloc, refused);
        }
        unreachable!()
    }

    // Takes a parcel in at its seat, and gives the one that goes out from there next.
    fn take_back<R: Wait>(&self, rt: &R, alloc: Global, parcel: Parcel) -> Option<Parcel> {
        let seat = parcel.seat();
        let next = return_in(alloc, &mut self.hall.lock(rt).hall, parcel);
        self.changed_at(seat).notify_all();
        next
    }

    fn changed_at(&self, seat: usize) -> &Condvar {
        &self.changed[seat % BELLS]
    }

    // Sends a parcel to the workers, or hands it back.
    fn send<R: Wait>(&self, rt: &R, parcel: Parcel) -> Result<(), Parcel>
        ensures { IfErr result (λ p. p ≡ parcel) }
    {
        match &*self.orders.lock(rt) {
            Some(orders) => match orders.send(rt, parcel) {
                Ok(()) => Ok(()),
                Err(refused) => Err(refused.into_inner()),
            },
            None => Err(parcel),
        }
    }
}
