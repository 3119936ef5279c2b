// Why a program is not accepted.

ghost use Rattle.std.specs.Prelude.{◌≡◌};

use aud_fault::fault::Fault;
use std::alloc::{AllocError, AllocFailed};
use thiserror::Error;

/// Why a program is not accepted.
#[derive(Debug, Drop, Error)]
pub enum CheckFault {
    #[error("out of memory")]
    Memory,
    #[error("the program has a fault: {0:?}")]
    Wrong(Fault),
}

impl From<AllocError> for CheckFault {
    ghost use Rattle.aud_check.specs.declared.fault.CheckFault.TheVariants.{Memory};

    ghost from_gives = { λ _ fault. fault ≡ Memory };

    fn from(_error: AllocError) -> CheckFault {
        CheckFault::Memory
    }
}

impl<T: Drop> From<AllocFailed<T>> for CheckFault {
    ghost use Rattle.aud_check.specs.declared.fault.CheckFault.TheVariants.{Memory};

    ghost from_gives = { λ _ fault. fault ≡ Memory };

    fn from(_error: AllocFailed<T>) -> CheckFault {
        CheckFault::Memory
    }
}
