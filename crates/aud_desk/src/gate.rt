// The gate, through which every slice of a worker goes.

ghost use Rattle.std.specs.Prelude.{◌≡◌, ◌≤◌, false};
ghost use Rattle.aud_bench.specs.Seen.{unanswered};
ghost use Rattle.aud_hall.specs.Slices.{done, sliced};
ghost use Rattle.aud_hall.specs.Ties.Said.{cut_in};

use aud_bench::bench::Work;
use aud_hall::parcel::Parcel;
use std::alloc::Global;

/// The units of a slice.
pub const SLICE: u64 = 1_000;

/// Does slices of parcels.
pub trait Gate {
    /// Does this many units of work on a parcel, or all that is left, as `Parcel::slice` does.
    fn slice(&self, alloc: Global, parcel: &mut Parcel, units: u64) -> Work
        ensures done { result.done
            ≡ done units (cut_in parcel.new.bench.spent result.done) parcel.old.bench }
        ensures parcel { parcel.new ≡ record parcel.old {
          bench = sliced units (cut_in parcel.new.bench.spent result.done) parcel.old.bench;
        } }
        ensures left { result.left ≡ unanswered parcel.new.bench }
        ensures within { result.done ≤ units };
}

/// The gate that does each slice at once.
#[derive(Clone, Copy)]
pub struct Direct;

impl Gate for Direct {
    fn slice(&self, alloc: Global, parcel: &mut Parcel, units: u64) -> Work {
        parcel.slice(alloc, units)
    }
}

/// Does slices of a parcel until all its requests are answered, or memory is refused, which closes its bench.
pub fn work_off<G: Gate>(alloc: Global, gate: &G, parcel: &mut Parcel)
    ensures seat { parcel.new.seat ≡ parcel.old.seat }
    ensures given { (parcel.new.bench.limits ≡ parcel.old.bench.limits)
        × (parcel.new.bench.journal ≡ parcel.old.bench.journal) }
    ensures answered { parcel.new.bench.spent ≡ false → unanswered parcel.new.bench ≡ 0 }
{
    loop {
        let work = gate.slice(alloc, parcel, SLICE);
        if work.left == 0 || work.done == 0 {
            return;
        }
    }
}
