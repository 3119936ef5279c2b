// Accepts that end (RM 9.5.2), and calls that they make again (RM 9.5.4).

ghost use Rattle.std.specs.Prelude.{◌≡◌, ℕ, List, Bool, Result, OnOk};
ghost use Rattle.aud_text.specs.declared.place.Pos.{Pos as PosOf};
ghost use Rattle.aud_text.specs.declared.raise.Raise.{Raise as RaiseOf};
ghost use Rattle.aud_typed.specs.Tree.{Plan};
ghost use Rattle.aud_meaning.specs.Configuration.{Back as BackOf};
ghost use Rattle.aud_meaning.specs.declared.state.Owner.TheVariants as owner;
ghost use Rattle.aud_meaning.specs.Evaluation.{Sight};
ghost use Rattle.aud_meaning.specs.Tasks as effect;
ghost use Rattle.aud_code.specs.Control.{going};
ghost use Rattle.aud_store.specs.Ties.Stored.{plain_open};

use crate::accepting::meet;
use crate::cancelling::cancel;
use aud_code::sound_code::SoundCode;
use aud_meaning::state::{Again, Owner, Pending, Restart};
use aud_state::state::State;
use aud_store::stack::Open;
use aud_text::int32::Int32;
use aud_text::place::Pos;
use aud_text::raise::Raise;
use aud_typed::program::Exception;
use std::alloc::{AllocError, Global};

/// The end of what an accept does for a call: both tasks go on behind it, or both have the exception that was pending
/// (RM 9.5.2(24), 11.4(7)). Or the call is made again: where a task's entry is open, it is selected at once, at the alternative of
/// this number or else at the first (RM 9.5.4). The frame is that of the accept, the innermost one of the task.
///
/// # Errors
///
/// Where memory is refused. Nothing is said of the state then.
pub fn finish(
    state: &mut State,
    alloc: Global,
    code: &SoundCode,
    alternative: Option<usize>,
    pending: Option<Pending>,
    id: usize,
    inner: Open,
    n: usize,
) -> Result<(), AllocError>
    ensures { OnOk result ((plan : Plan) → (barrier : ℕ → Sight → Result Bool RaiseOf) →
        (saved : List ℕ) → (backs : List BackOf) →
        state.new ≡ effect.at_accept_end (going code.now) plan barrier alternative pending id
        (plain_open inner saved backs) n state.old) }
{
    match pending {
        None => {
            let again = state.again(n);
            let values = state.formals(alloc, id, inner.frame)?;
            state.close_accept(n);
            end(state, alloc, code, alternative, again, values, id, n)?;
            Ok(())
        }
        Some(pending) => {
            state.close_accept_raising(n, pending.exception, inner.at);
            state.caller_fails(code, id, pending.exception);
            Ok(())
        }
    }
}

// A call ends normally with these values of its formals, or is made again with them.
fn end(
    state: &mut State,
    alloc: Global,
    code: &SoundCode,
    alternative: Option<usize>,
    again: Option<Again>,
    values: Vec<Int32>,
    id: usize,
    n: usize,
) -> Result<(), AllocError>
    ensures { OnOk result ((plan : Plan) → (barrier : ℕ → Sight → Result Bool RaiseOf) →
        state.new ≡ effect.accept_ended (going code.now) plan barrier alternative again
        values.items id n state.old) }
{
    match again {
        None => {
            state.succeed(code, &values, id);
            Ok(())
        }
        Some(again) => {
            state.retarget_call(id, again, values)?;
            requeue(
                state,
                alloc,
                code,
                alternative,
                again.owner,
                again.at,
                id,
                n,
            )?;
            Ok(())
        }
    }
}

// A call that an accept of a task makes again goes to an entry of a task, or to one of an object, as the accepting task's next step.
fn requeue(
    state: &mut State,
    alloc: Global,
    code: &SoundCode,
    alternative: Option<usize>,
    owner: Owner,
    at: Pos,
    id: usize,
    n: usize,
) -> Result<(), AllocError>
    ensures { OnOk result ((plan : Plan) → (barrier : ℕ → Sight → Result Bool RaiseOf) →
        state.new ≡ effect.requeued_on (going code.now) plan barrier alternative owner at id n
        state.old) }
{
    match owner {
        Owner::Task(task) => {
            requeue_on_task(state, alloc, code, alternative, task, id)?;
            Ok(())
        }
        Owner::Object(object) => {
            let call = id;
            state.set_restart(n, Restart { call, object, at });
            Ok(())
        }
    }
}

// It is cancelled where its caller is abnormal and it does not stay; it has Tasking_Error where the task's entries can't be called.
fn requeue_on_task(
    state: &mut State,
    alloc: Global,
    code: &SoundCode,
    alternative: Option<usize>,
    task: usize,
    id: usize,
) -> Result<(), AllocError>
    ensures { OnOk result ((plan : Plan) → (barrier : ℕ → Sight → Result Bool RaiseOf) →
        (at : PosOf) → (n : ℕ) → state.new ≡ effect.requeued_on (going code.now) plan barrier
        alternative (owner.Task task) at id n state.old) }
{
    if state.is_lost(id) {
        cancel(state, id);
        return Ok(());
    }
    if !state.is_callable(task) {
        state.caller_fails(code, id, Exception::Predefined(Raise::Tasking));
        return Ok(());
    }
    let accept = state.open_alternative(task, state.call_entry(id), alternative);
    state.call_on(id, Owner::Task(task))?;
    match accept {
        None => {
            state.arrive(id)?;
            Ok(())
        }
        Some(accept) => {
            meet(state, alloc, code, accept, id, task)?;
            Ok(())
        }
    }
}
