// A bench that is out.

ghost use Rattle.std.specs.Prelude.{◌≡◌, ◌≤◌};
ghost use Rattle.aud_bench.specs.Seen.{unanswered};
ghost use Rattle.aud_hall.specs.Slices.{answered, done, sliced};
ghost use Rattle.aud_hall.specs.Ties.Right.{IsTrue};
ghost use Rattle.aud_hall.specs.Ties.Said.{cut_in};

use aud_bench::bench::{Bench, Work};
use aud_bench::request::Request;
use aud_text::limits::Limits;
use std::alloc::Global;
use std::marker::Model;

/// A bench that is out, and the seat that sent it.
///
/// Any seat takes it in where it fits. Where it is dropped, or taken in elsewhere, the seat that sent it stays without a bench
/// until it is freed, or takes in another parcel that fits.
#[derive(Drop)]
pub struct Parcel {
    seat: usize,
    bench: Box<Bench>,
}

impl Model for Parcel {
    ghost use Rattle.aud_hall.specs.Parcels as parcels;
    ghost use Rattle.aud_hall.specs.Ties.Right.{IsTrue};

    ghost Value = { parcels.Parcel };

    ghost view = { λ p. record { seat = p.seat; bench = p.bench.value } };

    ghost invariant = { λ p. IsTrue p.bench.value };
}

impl Parcel {
    // A bench that this seat sends out.
    pub(crate) fn new(seat: usize, bench: Box<Bench>) -> Self
        requires { IsTrue bench.value }
        ensures { result ≡ record { seat = seat; bench = bench.value } }
    {
        Parcel { seat, bench }
    }

    /// The seat that sent it out. No memory is taken.
    pub fn seat(&self) -> usize
        ensures { result ≡ self.now.seat }
    {
        self.seat
    }

    /// Does this many units of work on the bench, or all that is left, and tells how many, and how many requests are given
    /// and unanswered. Where memory is refused, the bench closes, and works no more.
    pub fn slice(&mut self, alloc: Global, units: u64) -> Work
        ensures done { result.done
            ≡ done units (cut_in self.new.bench.spent result.done) self.old.bench }
        ensures parcel { self.new ≡ record self.old {
          bench = sliced units (cut_in self.new.bench.spent result.done) self.old.bench;
        } }
        ensures left { result.left ≡ unanswered self.new.bench }
        ensures within { result.done ≤ units }
    {
        self.bench.slice(alloc, units)
    }

    pub(crate) fn limits(&self) -> Limits
        ensures { result ≡ self.now.bench.limits }
    {
        self.bench.limits()
    }

    pub(crate) fn journal(&self) -> &[Request]
        ensures { result.now ≡ self.now.bench.journal }
    {
        self.bench.journal()
    }

    pub(crate) fn is_spent(&self) -> bool
        ensures { result ≡ self.now.bench.spent }
    {
        self.bench.is_spent()
    }

    // How many requests are answered.
    pub(crate) fn answered(&self) -> usize
        ensures { result ≡ answered self.now.bench }
    {
        let count = self.bench.answered();
        if self.bench.is_spent() {
            count - 1
        } else {
            count
        }
    }

    // How many answers were taken out.
    pub(crate) fn taken(&self) -> usize
        ensures { result ≡ self.now.bench.taken }
    {
        self.bench.answered() - self.bench.answers().len()
    }

    pub(crate) fn into_bench(self) -> Box<Bench>
        ensures bench { result.value ≡ self.bench }
        ensures right { IsTrue result.value }
    {
        self.bench
    }
}
