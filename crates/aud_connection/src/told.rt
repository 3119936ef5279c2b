// The text of what a desk refuses.

ghost use Rattle.std.specs.Prelude.{◌≡◌, IfOk};
ghost use Rattle.aud_connection.specs.Told.{fault_text};

use aud_pass::fault::DeskFault;
use std::alloc::{AllocError, Global};

/// The text of a fault: `-`, its code and why.
///
/// # Errors
///
/// Where memory is refused.
pub fn fault_text(alloc: Global, fault: DeskFault) -> Result<Vec<u8>, AllocError>
    ensures { IfOk result (λ text. text.items ≡ fault_text fault) }
{
    Vec::from_slice(alloc, line_of(fault))
}

fn line_of(fault: DeskFault) -> &'static [u8]
    ensures { result.now ≡ fault_text fault }
{
    match fault {
        DeskFault::NoSuchSeat => b"- E92 no such seat\n",
        DeskFault::SeatInUse => b"- E91 seat in use\n",
        DeskFault::Memory => b"- E90 out of memory\n",
        DeskFault::NotClaimed => b"- E93 seat not claimed\n",
        DeskFault::NotThisDesk(_) => b"- E95 not this desk\n",
        DeskFault::Full => b"- E13 journal full\n",
    }
}
