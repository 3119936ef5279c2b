// The entries of objects, and their barriers (RM 9.5.2(7)).

ghost use Rattle.std.specs.Prelude.{◌≡◌, ◌+◌, ◌≤◌, ℕ, Bool, Result, IfOk};
ghost use Rattle.aud_text.specs.declared.raise.Raise.{Raise as RaiseOf};
ghost use Rattle.aud_typed.specs.Tree.{Plan};
ghost use Rattle.aud_meaning.specs.Evaluation.{Sight};
ghost use Rattle.aud_meaning.specs.Parts.{entry_plan, object_plan, queue, unit_of};
ghost use Rattle.aud_meaning.specs.Tasks as effect;
ghost use Rattle.aud_sequential.specs.Shown.{plans_of};
ghost use Rattle.aud_protected.specs.Eligible.{asked, plain_eligible};
ghost use Rattle.aud_protected.specs.Counting.{costs, most_asked};

use aud_state::state::State;
use aud_text::raise::Raise;
use aud_typed::program::Unit;
use std::alloc::{AllocError, Global};

/// What a program says of its protected objects, and what the barriers of their entries are now.
pub trait Barriers {
    ghost plan: { Self → Plan };

    ghost barrier: { Self → ℕ → Sight → Result Bool RaiseOf };

    // How many instructions the barrier of an entry has, and how many were executed so far.
    ghost cost: { Self → ℕ → ℕ };

    ghost spent: { Self → ℕ };

    /// The bodies of the program, by their numbers.
    fn units(&self) -> &[Unit]
        ensures { (plan self.now).units ≡ plans_of result.now };

    /// Whether a body is a function's.
    fn is_function(&self, unit: usize) -> bool
        ensures { result ≡ (unit_of (plan self.now) unit).is_function };

    /// The entries of the objects of a declaration, in the order of the text.
    fn entries(&self, declaration: usize) -> &[usize]
        ensures { result.now ≡ (object_plan (plan self.now) declaration).entries };

    /// The body of an entry.
    fn body(&self, entry: usize) -> usize
        ensures { result ≡ (entry_plan (plan self.now) entry).unit };

    /// The barrier of an object's entry now, or the exception that its evaluation raises.
    ///
    /// # Errors
    ///
    /// Where memory is refused.
    fn barrier(
        &mut self,
        state: &State,
        object: usize,
        entry: usize,
    ) -> Result<Result<bool, Raise>, AllocError>
        ensures of_one { plan self.new ≡ plan self.old }
        ensures kept { barrier self.new ≡ barrier self.old }
        ensures costs { cost self.new ≡ cost self.old }
        ensures few { IfOk result (λ _. spent self.new ≤ spent self.old + cost self.old entry) }
        ensures value { IfOk result (λ met. met ≡
            effect.barrier_of (plan self.old) (barrier self.old) object entry state.now) };
}

/// Which entries of an object are eligible for service (RM 9.5.3(13)).
#[derive(Drop)]
pub enum EligibleEntries {
    /// A barrier raises this.
    Raises(Raise),
    /// Those of these indexes in the order of the text, from 1.
    Are(Vec<usize>),
}

/// The entries of an object that have a queued call and whose barrier holds. Each barrier is evaluated anew, up to the first that
/// raises an exception.
///
/// # Errors
///
/// Where memory is refused.
pub fn eligible<B: Barriers>(
    state: &State,
    alloc: Global,
    barriers: &mut B,
    object: usize,
) -> Result<EligibleEntries, AllocError>
    ensures of_one { B.plan barriers.new ≡ B.plan barriers.old }
    ensures kept { B.barrier barriers.new ≡ B.barrier barriers.old }
    ensures costs { B.cost barriers.new ≡ B.cost barriers.old }
    ensures few { IfOk result (λ _. B.spent barriers.new ≤ B.spent barriers.old
        + most_asked (B.cost barriers.old) (B.plan barriers.old)) }
    ensures told { IfOk result (λ found. plain_eligible found ≡
        effect.eligible (B.plan barriers.old) (B.barrier barriers.old) object state.now) }
{
    let entries = entries_of(state, alloc, barriers, object)?;
    let found = eligible_among(state, alloc, barriers, &entries, object)?;
    Ok(found)
}

/// The entries of an object, in the order of the text.
///
/// # Errors
///
/// Where memory is refused.
pub(crate) fn entries_of<B: Barriers>(
    state: &State,
    alloc: Global,
    barriers: &B,
    object: usize,
) -> Result<Vec<usize>, AllocError>
    ensures { IfOk result (λ entries. entries.items ≡
        effect.entries_of (B.plan barriers.now) (B.barrier barriers.now) object state.now) }
{
    let entries = barriers.entries(state.declaration(object));
    let entries = Vec::from_slice(alloc, entries)?;
    Ok(entries)
}

// Of these entries of an object those that are eligible.
fn eligible_among<B: Barriers>(
    state: &State,
    alloc: Global,
    barriers: &mut B,
    entries: &[usize],
    object: usize,
) -> Result<EligibleEntries, AllocError>
    ensures of_one { B.plan barriers.new ≡ B.plan barriers.old }
    ensures kept { B.barrier barriers.new ≡ B.barrier barriers.old }
    ensures costs { B.cost barriers.new ≡ B.cost barriers.old }
    ensures few { IfOk result (λ _. B.spent barriers.new ≤ B.spent barriers.old
        + costs (B.cost barriers.old) entries.now) }
    ensures told { IfOk result (λ found. plain_eligible found ≡ effect.eligible_from
        (B.plan barriers.old) (B.barrier barriers.old) 1 entries.now object state.now) }
{
    let mut found = Vec::new(alloc);
    for (n, entry) in entries.iter().enumerate() {
        match is_eligible(state, barriers, object, *entry)? {
            Ok(met) => {
                if met {
                    found.push(n + 1)?;
                }
            }
            Err(raise) => return Ok(EligibleEntries::Raises(raise)),
        }
    }
    Ok(EligibleEntries::Are(found))
}

// Whether an entry of an object has a queued call and its barrier holds. Without a call it is not evaluated.
fn is_eligible<B: Barriers>(
    state: &State,
    barriers: &mut B,
    object: usize,
    entry: usize,
) -> Result<Result<bool, Raise>, AllocError>
    ensures of_one { B.plan barriers.new ≡ B.plan barriers.old }
    ensures kept { B.barrier barriers.new ≡ B.barrier barriers.old }
    ensures costs { B.cost barriers.new ≡ B.cost barriers.old }
    ensures few { IfOk result (λ _. B.spent barriers.new ≤ B.spent barriers.old
        + B.cost barriers.old entry) }
    ensures told { IfOk result (λ met. met ≡ asked (queue object entry state.now.shared.calls)
        (effect.barrier_of (B.plan barriers.old) (B.barrier barriers.old) object entry state.now)) }
{
    match state.first_queued(object, entry) {
        None => Ok(Ok(false)),
        Some(_) => barriers.barrier(state, object, entry),
    }
}
