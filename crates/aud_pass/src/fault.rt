// Why a call of the desk is refused.

ghost use Rattle.std.specs.Prelude.{◌≡◌};
ghost use Rattle.aud_pass.specs.Faults.{of_hall};
ghost use Rattle.aud_pass.specs.declared.fault.DeskFault.TheVariants as fault;

use aud_hall::fault::HallFault;
use std::alloc::AllocError;
use thiserror::Error;

/// Why a call of the desk is refused. The pass has not changed then, nor has its seat in the section that refuses.
#[derive(Clone, Copy, PartialEq, Eq, Debug, Error)]
pub enum DeskFault {
    /// The desk has no seat of this number.
    #[error("E92 no such seat")]
    NoSuchSeat,
    /// A session is under way there.
    #[error("E91 seat in use")]
    SeatInUse,
    /// Memory is refused, or was to the bench of the seat.
    #[error("E90 out of memory")]
    Memory,
    /// No session is under way there, or it takes no further request.
    #[error("E93 seat not claimed")]
    NotClaimed,
    /// The pass has other limits than its seat, at place 0; or what it has sent is not what is stored there: at this place, counted
    /// from 0, the two part, or the shorter one ends.
    #[error("E95 not this desk")]
    NotThisDesk(usize),
    /// The request does not fit the journal.
    #[error("E13 journal full")]
    Full,
}

impl From<HallFault> for DeskFault {
    ghost from_gives = { λ f e. e ≡ of_hall f };

    fn from(fault: HallFault) -> DeskFault {
        match fault {
            HallFault::NoSuchSeat => DeskFault::NoSuchSeat,
            HallFault::SeatInUse => DeskFault::SeatInUse,
            HallFault::NotClaimed => DeskFault::NotClaimed,
            HallFault::Full => DeskFault::Full,
            HallFault::Memory => DeskFault::Memory,
        }
    }
}

impl From<AllocError> for DeskFault {
    ghost from_gives = { λ _ e. e ≡ fault.Memory };

    fn from(_error: AllocError) -> DeskFault {
        DeskFault::Memory
    }
}
