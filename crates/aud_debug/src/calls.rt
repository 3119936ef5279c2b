// What is shown, by a call for each.

ghost use Rattle.std.specs.Prelude.{◌≡◌, true, IfOk, IsErr};
ghost use Rattle.aud_meaning.specs.Listings.{view};
ghost use Rattle.aud_machine.specs.Shown.{program_in};
ghost use Rattle.aud_machine.specs.Shows.{IfShows};
ghost use Rattle.aud_debug.specs.Listed.{as_lines, variables_of};

use crate::lines::Lines;
use crate::listing::{Listing, list};
use aud_machine::machine::Machine;
use std::alloc::{AllocError, Global};

/// The tasks, and how far they are.
///
/// # Errors
///
/// Where memory is refused, or the machine is spent.
pub fn tasks(machine: &Machine, alloc: Global) -> Result<Lines, AllocError>
    ensures shown { IfOk result (λ lines. IfShows machine.now (λ c.
        lines ≡ as_lines (view (program_in machine.now) c).tasks)) }
    ensures refuses { machine.now.spent ≡ true → IsErr result }
{
    list(machine, alloc, Listing::Tasks)?.ok_or(AllocError)
}

/// The entries on which calls are queued.
///
/// # Errors
///
/// Where memory is refused, or the machine is spent.
pub fn queues(machine: &Machine, alloc: Global) -> Result<Lines, AllocError>
    ensures shown { IfOk result (λ lines. IfShows machine.now (λ c.
        lines ≡ as_lines (view (program_in machine.now) c).queues)) }
    ensures refuses { machine.now.spent ≡ true → IsErr result }
{
    list(machine, alloc, Listing::Queues)?.ok_or(AllocError)
}

/// The variables in the open frames of the task of this number, counted from 1. None where there is no such task.
///
/// # Errors
///
/// Where memory is refused, or the machine is spent.
pub fn vars(machine: &Machine, alloc: Global, task: u32) -> Result<Option<Lines>, AllocError>
    ensures shown { IfOk result (λ lines. IfShows machine.now (λ c.
        lines ≡ variables_of task (view (program_in machine.now) c))) }
    ensures refuses { machine.now.spent ≡ true → IsErr result }
{
    list(machine, alloc, Listing::Variables(task))
}

/// The enabled moves.
///
/// # Errors
///
/// Where memory is refused, or the machine is spent.
pub fn moves(machine: &Machine, alloc: Global) -> Result<Lines, AllocError>
    ensures shown { IfOk result (λ lines. IfShows machine.now (λ c.
        lines ≡ as_lines (view (program_in machine.now) c).moves)) }
    ensures refuses { machine.now.spent ≡ true → IsErr result }
{
    list(machine, alloc, Listing::Moves)?.ok_or(AllocError)
}

/// The time on the clock, in milliseconds.
pub fn clock(machine: &Machine) -> u64
    ensures { IfShows machine.now (λ c. result ≡ (view (program_in machine.now) c).clock) }
{
    machine.clock()
}

/// The protected objects: who acts on them, their components, what their barriers come to.
///
/// # Errors
///
/// Where memory is refused, or the machine is spent.
pub fn objects(machine: &Machine, alloc: Global) -> Result<Lines, AllocError>
    ensures shown { IfOk result (λ lines. IfShows machine.now (λ c.
        lines ≡ as_lines (view (program_in machine.now) c).objects)) }
    ensures refuses { machine.now.spent ≡ true → IsErr result }
{
    list(machine, alloc, Listing::Objects)?.ok_or(AllocError)
}

/// Why tasks wait, and for whom.
///
/// # Errors
///
/// Where memory is refused, or the machine is spent.
pub fn waits(machine: &Machine, alloc: Global) -> Result<Lines, AllocError>
    ensures shown { IfOk result (λ lines. IfShows machine.now (λ c.
        lines ≡ as_lines (view (program_in machine.now) c).waits)) }
    ensures refuses { machine.now.spent ≡ true → IsErr result }
{
    list(machine, alloc, Listing::Waits)?.ok_or(AllocError)
}
