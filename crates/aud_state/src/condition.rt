// How far a task is, and until when it rests.

ghost use Rattle.std.specs.Prelude.{◌≡◌, ◌<◌, ℕ, None, false, true, IsTrue};
ghost use Rattle.aud_meaning.specs.Parts.{any, no_waits};
ghost use Rattle.aud_state.specs.Condition.{has_come, plain_waits, RestsAt, RestsUntil};

use crate::task::Waits;
use aud_meaning::state::{OpenAccept, OpenDelay, Serving, Status};
use std::marker::Model;

/// How far a task is, at what it is blocked besides an entry call, the servicing of an object, and whether it is abnormal.
// With them goes the time until which it surely rests, so that a run tells by one comparison of most tasks that have no move.
#[derive(Drop)]
pub(crate) struct Condition {
    status: Status,
    waits: Waits,
    serving: Option<Serving>,
    abnormal: bool,
    wakes: u64,
}

impl Model for Condition {
    ghost use Rattle.aud_state.specs.Condition.{Condition as Plain, RestsUntil, plain_waits};

    ghost Value = { Plain };

    ghost view = { λ c. record {
      status = c.status;
      waits = plain_waits c.waits;
      serving = c.serving;
      abnormal = c.abnormal;
    } };

    ghost invariant = { λ c. RestsUntil c.wakes (record {
      status = c.status;
      waits = plain_waits c.waits;
      serving = c.serving;
      abnormal = c.abnormal;
    }) };
}

impl Condition {
    /// So far, blocked at these, servicing nothing, and not abnormal.
    pub(crate) fn new(status: Status, waits: Waits) -> Self
        ensures { result ≡ record {
          status = status;
          waits = plain_waits waits;
          serving = None;
          abnormal = false;
        } }
    {
        let wakes = time_to_wake(status, &waits, None, false);
        Condition {
            status,
            waits,
            serving: None,
            abnormal: false,
            wakes,
        }
    }

    /// How far it is.
    #[inline(always)]
    pub(crate) fn status(&self) -> Status
        ensures { result ≡ self.now.status }
    {
        self.status
    }

    /// The accepts that it waits at.
    pub(crate) fn accepts(&self) -> &[OpenAccept]
        ensures { result.now ≡ self.now.waits.accepts }
    {
        &self.waits.accepts
    }

    /// The delays that it waits for.
    pub(crate) fn delays(&self) -> &[OpenDelay]
        ensures { result.now ≡ self.now.waits.delays }
    {
        &self.waits.delays
    }

    /// Whether a terminate alternative is open.
    pub(crate) fn has_terminate(&self) -> bool
        ensures { result ≡ self.now.waits.terminate }
    {
        self.waits.terminate
    }

    /// The object that it services.
    #[inline(always)]
    pub(crate) fn serving(&self) -> Option<Serving>
        ensures { result ≡ self.now.serving }
    {
        self.serving
    }

    /// Whether it is abnormal.
    #[inline(always)]
    pub(crate) fn is_abnormal(&self) -> bool
        ensures { result ≡ self.now.abnormal }
    {
        self.abnormal
    }

    /// Whether it rests at this time, whatever other tasks do. It may in other cases, too.
    #[inline(always)]
    pub(crate) fn rests(&self, clock: u64) -> bool
        ensures { IsTrue result → RestsAt self.now.status clock self.now }
    {
        clock < self.wakes
    }

    /// It comes so far.
    pub(crate) fn come_to(&mut self, status: Status)
        ensures { self.new ≡ record self.old { status = status } }
    {
        self.status = status;
        self.wakes = time_to_wake(status, &self.waits, self.serving, self.abnormal);
    }

    /// It comes so far, and is blocked at nothing.
    pub(crate) fn come_free_to(&mut self, status: Status)
        ensures { self.new ≡ record self.old { status = status; waits = no_waits } }
    {
        self.status = status;
        self.waits.clear();
        self.wakes = time_to_wake(status, &self.waits, self.serving, self.abnormal);
    }

    /// It comes so far, and is blocked at these.
    pub(crate) fn wait(&mut self, status: Status, waits: Waits)
        ensures { self.new ≡ record self.old { status = status; waits = plain_waits waits } }
    {
        self.status = status;
        self.wakes = time_to_wake(status, &waits, self.serving, self.abnormal);
        self.waits = waits;
    }

    /// It services this, or nothing.
    pub(crate) fn serve(&mut self, serving: Option<Serving>)
        ensures { self.new ≡ record self.old { serving = serving } }
    {
        self.serving = serving;
        self.wakes = time_to_wake(self.status, &self.waits, serving, self.abnormal);
    }

    /// It is abnormal.
    pub(crate) fn make_abnormal(&mut self)
        ensures { self.new ≡ record self.old { abnormal = true } }
    {
        self.abnormal = true;
        self.wakes = time_to_wake(self.status, &self.waits, self.serving, true);
    }
}

// The time until which such a task surely rests: 0 of one that may have a move now.
fn time_to_wake(status: Status, waits: &Waits, serving: Option<Serving>, abnormal: bool) -> u64
    ensures { RestsUntil result (record {
      status = status;
      waits = plain_waits waits.now;
      serving = serving;
      abnormal = abnormal;
    }) }
{
    match status {
        Status::Created | Status::Terminated => u64::MAX,
        Status::Running | Status::Calling | Status::Completed => 0,
        Status::Activating | Status::Accepting | Status::Delaying => {
            if abnormal || serving.is_some() {
                0
            } else {
                soonest(&waits.delays)
            }
        }
    }
}

// The soonest of the times of these delays.
fn soonest(delays: &[OpenDelay]) -> u64
    ensures { (clock : ℕ) → clock < result → any (has_come clock) delays.now ≡ false }
{
    let mut first = u64::MAX;
    for delay in delays {
        first = first.min(delay.time);
    }
    first
}
