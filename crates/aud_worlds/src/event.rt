// The calls of a hall, and of the parcels that are out, as a caller makes a list of them.

use aud_bench::request::Request;

/// A call. Seats are numbered from 1, and parcels from 0, in the order in which they go out.
#[derive(Drop)]
pub enum Event {
    Claim { seat: usize },
    Submit { seat: usize, request: Request },
    SendOut { seat: usize },
    Slice { parcel: usize, units: u64 },
    CheckIn { parcel: usize, seat: usize },
    Collect { seat: usize, from: usize },
    Free { seat: usize },
}
