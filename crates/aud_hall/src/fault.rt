// Why a call of the hall is refused.

use thiserror::Error;

/// Why a call at a seat is refused. Nothing has changed then.
#[derive(Clone, Copy, PartialEq, Eq, Debug, Error)]
pub enum HallFault {
    /// The hall has no seat of this number.
    #[error("E92 no such seat")]
    NoSuchSeat,
    /// A session is under way there.
    #[error("E91 seat in use")]
    SeatInUse,
    /// No session is under way there, or it takes no further request.
    #[error("E93 seat not claimed")]
    NotClaimed,
    /// The request does not fit the journal.
    #[error("E13 journal full")]
    Full,
    /// Memory is refused, or the bench at home has closed.
    #[error("E90 out of memory")]
    Memory,
}
