// Listings.

ghost use Rattle.std.specs.Prelude.{◌≡◌, true, IfOk, IsErr};
ghost use Rattle.aud_meaning.specs.Listings.{view};
ghost use Rattle.aud_machine.specs.Shown.{program_in};
ghost use Rattle.aud_machine.specs.Shows.{IfShows};
ghost use Rattle.aud_debug.specs.Listed.{listed};

use crate::lines::Lines;
use crate::moves::moves;
use crate::objects::objects;
use crate::queues::queues;
use crate::tasks::tasks;
use crate::variables::variables;
use crate::waits::waits;
use aud_machine::machine::Machine;
use std::alloc::{AllocError, Global};

/// What is listed.
#[derive(Clone, Copy, PartialEq, Eq)]
pub enum Listing {
    /// The enabled moves.
    Moves,
    /// The tasks, and how far they are.
    Tasks,
    /// The entries on which calls are queued.
    Queues,
    /// The variables in the open frames of the task of this number. Tasks are numbered from 1.
    Variables(u32),
    /// The protected objects: who acts on them, their components, their barriers.
    Objects,
    /// Why tasks wait, and for whom.
    Waits,
}

/// The lines of a listing. None where the task that it names was never created.
///
/// # Errors
///
/// Where memory is refused, or the machine is spent.
pub fn list(machine: &Machine, alloc: Global, listing: Listing) -> Result<Option<Lines>, AllocError>
    ensures shown { IfOk result (λ lines. IfShows machine.now (λ c.
        lines ≡ listed listing (view (program_in machine.now) c))) }
    ensures refuses { machine.now.spent ≡ true → IsErr result }
{
    if machine.is_spent() {
        return Err(AllocError);
    }
    match listing {
        Listing::Moves => Ok(Some(moves(machine, alloc)?)),
        Listing::Tasks => Ok(Some(tasks(machine, alloc)?)),
        Listing::Queues => Ok(Some(queues(machine, alloc)?)),
        Listing::Variables(task) => variables(machine, alloc, task),
        Listing::Objects => Ok(Some(objects(machine, alloc)?)),
        Listing::Waits => Ok(Some(waits(machine, alloc)?)),
    }
}
