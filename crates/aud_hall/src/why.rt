// Why a parcel is not taken in.

use thiserror::Error;

/// Why a parcel is no seat's own: the first of these that holds.
#[derive(Clone, Copy, PartialEq, Eq, Debug, Error)]
pub enum Why {
    /// The hall has no seat of this number.
    #[error("no such seat")]
    NoSeat,
    /// The seat has other limits.
    #[error("other limits")]
    OtherLimits,
    /// At this place, counted from 0, the parcel's requests and the seat's stored ones part, or these end.
    #[error("request {0} differs")]
    Differs(usize),
    /// The seat's bench is at home.
    #[error("no parcel is out")]
    NotOut,
    /// The seat has so many answers, and the parcel fewer, or it no longer holds some of those past them.
    #[error("behind {0} answers")]
    Behind(usize),
}
