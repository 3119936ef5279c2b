// Objects are serviced at the end of an action that may change what barriers say (RM 9.5.3(13 to 17)).

ghost use Rattle.std.specs.Prelude.{◌≡◌, ◌+◌, ◌≤◌, ◌∷◌, ℕ, Bool, Result, OnOk, slice_index_or, IfOk};
ghost use Rattle.aud_text.specs.declared.raise.Raise.{Raise as RaiseOf};
ghost use Rattle.aud_text.specs.declared.raise.Raise.TheVariants.{Program};
ghost use Rattle.aud_typed.specs.Tree.{Plan};
ghost use Rattle.aud_meaning.specs.Evaluation.{Sight};
ghost use Rattle.aud_meaning.specs.Parts.{calls_on_object, queue};
ghost use Rattle.aud_meaning.specs.Tasks as effect;
ghost use Rattle.aud_code.specs.Control.{going};
ghost use Rattle.aud_protected.specs.Counting.{most_asked};

use crate::barriers::{Barriers, EligibleEntries, eligible, entries_of};
use crate::entering::enter_entry;
use aud_code::sound_code::SoundCode;
use aud_meaning::state::Serving;
use aud_state::state::State;
use aud_text::place::Pos;
use aud_text::raise::Raise;
use std::alloc::{AllocError, Global};

/// A task that has an object's action services it: where an entry is eligible, the task stands where it serves, else
/// the action ends. Where a barrier raises an exception, all calls that are queued on the object have Program_Error (RM
/// 9.5.3(7)).
///
/// # Errors
///
/// Where memory is refused. Nothing is said of the state then.
pub fn service<B: Barriers>(
    state: &mut State,
    alloc: Global,
    code: &SoundCode,
    barriers: &mut B,
    object: usize,
    at: Pos,
    n: usize,
) -> Result<(), AllocError>
    ensures of_one { B.plan barriers.new ≡ B.plan barriers.old }
    ensures kept { B.barrier barriers.new ≡ B.barrier barriers.old }
    ensures costs { B.cost barriers.new ≡ B.cost barriers.old }
    ensures few { IfOk result (λ _. B.spent barriers.new ≤ B.spent barriers.old
        + most_asked (B.cost barriers.old) (B.plan barriers.old)) }
    ensures does { OnOk result (state.new ≡ effect.serviced (going code.now) (B.plan barriers.old)
        (B.barrier barriers.old) object at n state.old) }
{
    match eligible(state, alloc, barriers, object)? {
        EligibleEntries::Raises(_) => {
            refuse_all(state, alloc, code, object)?;
            state.end_action(n, object);
            Ok(())
        }
        EligibleEntries::Are(entries) => {
            if entries.is_empty() {
                state.end_action(n, object);
            } else {
                state.serve(n, Serving { object, at });
            }
            Ok(())
        }
    }
}

// Program_Error in all calls that are queued on an object.
fn refuse_all(
    state: &mut State,
    alloc: Global,
    code: &SoundCode,
    object: usize,
) -> Result<(), AllocError>
    ensures { OnOk result ((plan : Plan) → (barrier : ℕ → Sight → Result Bool RaiseOf) →
        state.new ≡ effect.refuse (going code.now) plan barrier Program
        (calls_on_object object state.old.shared.calls) state.old) }
{
    let calls = state.queued_on_object(alloc, object)?;
    state.refuse(code, Raise::Program, &calls);
    Ok(())
}

/// The step serve of a task that services an object: it enters the body of the entry of this index in the order of the
/// text, from 1, for the call that waits there for longest; or none is left, and the object is serviced anew (RM
/// 9.5.3(14)).
///
/// # Errors
///
/// Where memory is refused. Nothing is said of the state then.
pub fn serve<B: Barriers>(
    state: &mut State,
    alloc: Global,
    code: &SoundCode,
    barriers: &mut B,
    index: Option<usize>,
    serving: Serving,
    n: usize,
) -> Result<(), AllocError>
    ensures of_one { B.plan barriers.new ≡ B.plan barriers.old }
    ensures kept { B.barrier barriers.new ≡ B.barrier barriers.old }
    ensures costs { B.cost barriers.new ≡ B.cost barriers.old }
    ensures few { IfOk result (λ _. B.spent barriers.new ≤ B.spent barriers.old
        + most_asked (B.cost barriers.old) (B.plan barriers.old)) }
    ensures does { OnOk result (state.new ≡ effect.serves (going code.now) (B.plan barriers.old)
        (B.barrier barriers.old) index serving n state.old) }
{
    let object = serving.object;
    match index {
        None => service(state, alloc, code, barriers, object, serving.at, n),
        Some(index) => {
            let entries = entries_of(state, alloc, barriers, object)?;
            let entry = numbered(&entries, index);
            serve_oldest(state, alloc, code, barriers, entry, serving, n)
        }
    }
}

// The body of an entry is entered for the call that waits there for longest, if one does.
fn serve_oldest<B: Barriers>(
    state: &mut State,
    alloc: Global,
    code: &SoundCode,
    barriers: &B,
    entry: usize,
    serving: Serving,
    n: usize,
) -> Result<(), AllocError>
    ensures { OnOk result (state.new ≡ effect.serves_oldest (going code.now)
        (B.plan barriers.now) (B.barrier barriers.now)
        (queue serving.object entry state.old.shared.calls) serving n state.old) }
{
    match state.first_queued(serving.object, entry) {
        None => Ok(()),
        Some(id) => {
            let object = serving.object;
            enter_entry(
                state, alloc, code, barriers, true, serving.at, object, id, n,
            )
        }
    }
}

// The entry of an index in the order of the text, from 1; 0 where there is none.
fn numbered(entries: &[usize], index: usize) -> usize
    ensures { result ≡ slice_index_or (0 ∷ entries.now) index 0 }
{
    if index == 0 {
        return 0;
    }
    match entries.get(index - 1) {
        Some(entry) => *entry,
        None => 0,
    }
}
