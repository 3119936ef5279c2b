// The ends of the bodies of objects (RM 9.5.1, 9.5.2(24), 9.5.3).

ghost use Rattle.std.specs.Prelude.{◌≡◌, ◌+◌, ◌≤◌, ℕ, None, Bool, List, Result, OnOk, IfOk};
ghost use Rattle.aud_text.specs.declared.raise.Raise.{Raise as RaiseOf};
ghost use Rattle.aud_typed.specs.Tree.{Plan};
ghost use Rattle.aud_meaning.specs.Configuration.{Back as BackOf};
ghost use Rattle.aud_meaning.specs.Evaluation.{Sight};
ghost use Rattle.aud_meaning.specs.Parts.{own_of};
ghost use Rattle.aud_meaning.specs.Tasks as effect;
ghost use Rattle.aud_code.specs.Control.{going};
ghost use Rattle.aud_store.specs.Ties.Stored.{innermost_backs, plain_open, returning_by};
ghost use Rattle.aud_protected.specs.Counting.{most_asked};

use crate::barriers::Barriers;
use crate::servicing::service;
use aud_code::sound_code::SoundCode;
use aud_meaning::state::{Again, Owner, Pending, Resumed};
use aud_state::state::State;
use aud_store::purpose::Returns;
use aud_store::stack::Open;
use aud_store::target::Back;
use aud_text::int32::Int32;
use std::alloc::{AllocError, Global};

/// The end of a procedure or function of an object, whose frame is the innermost one of the task: the caller goes on
/// behind the call, or has the exception pending there. A function's action ends; else the object is serviced (RM
/// 9.5.1(3), 9.5.3(13)).
///
/// # Errors
///
/// Where memory is refused. Nothing is said of the state then.
pub fn finish<B: Barriers>(
    state: &mut State,
    alloc: Global,
    code: &SoundCode,
    barriers: &mut B,
    pending: Option<Pending>,
    object: usize,
    returns: Returns,
    inner: Open,
    n: usize,
) -> Result<(), AllocError>
    ensures of_one { B.plan barriers.new ≡ B.plan barriers.old }
    ensures kept { B.barrier barriers.new ≡ B.barrier barriers.old }
    ensures costs { B.cost barriers.new ≡ B.cost barriers.old }
    ensures few { IfOk result (λ _. B.spent barriers.new ≤ B.spent barriers.old
        + most_asked (B.cost barriers.old) (B.plan barriers.old)) }
    ensures does { OnOk result ((saved : List ℕ) → (backs : List BackOf) →
        state.new ≡ effect.at_operation_end (going code.now) (B.plan barriers.old)
        (B.barrier barriers.old) pending object
        (returning_by returns (innermost_backs (own_of n state.old).opened))
        (plain_open inner saved backs) n state.old) }
{
    let is_function = returns.is_function;
    let at = inner.at;
    let backs = state.backs(alloc, n)?;
    state.close(n);
    return_from(
        state,
        alloc,
        code,
        pending,
        returns,
        backs.as_slice(),
        inner,
        n,
    )?;
    if is_function {
        state.end_action(n, object);
        return Ok(());
    }
    service(state, alloc, code, barriers, object, at, n)
}

// What the caller has then: what is given back, or the exception that was pending.
fn return_from(
    state: &mut State,
    alloc: Global,
    code: &SoundCode,
    pending: Option<Pending>,
    returns: Returns,
    backs: &[Back],
    inner: Open,
    n: usize,
) -> Result<(), AllocError>
    ensures { OnOk result ((plan : Plan) → (barrier : ℕ → Sight → Result Bool RaiseOf) →
        state.new ≡ effect.returned_or (going code.now) plan barrier pending
        (returning_by returns backs.now) inner.frame inner.at n state.old) }
{
    match pending {
        None => {
            state.return_from(alloc, code, returns, backs, inner.frame, inner.at, n)?;
            Ok(())
        }
        Some(pending) => {
            state.raise(n, pending.exception, inner.at);
            Ok(())
        }
    }
}

/// The end of an entry body for a call, whose frame is the innermost one of the task: the caller goes on behind the
/// call, or has the exception pending there, whichever task has done the body; or the call is queued again, on an entry of the same
/// object (RM 9.5.4(12)). The task goes back to what it was at, and services the object (RM 9.5.2(24), 9.5.3(13, 16)).
///
/// # Errors
///
/// Where memory is refused. Nothing is said of the state then.
pub fn finish_entry<B: Barriers>(
    state: &mut State,
    alloc: Global,
    code: &SoundCode,
    barriers: &mut B,
    pending: Option<Pending>,
    object: usize,
    id: usize,
    resumed: Resumed,
    inner: Open,
    n: usize,
) -> Result<(), AllocError>
    ensures of_one { B.plan barriers.new ≡ B.plan barriers.old }
    ensures kept { B.barrier barriers.new ≡ B.barrier barriers.old }
    ensures costs { B.cost barriers.new ≡ B.cost barriers.old }
    ensures few { IfOk result (λ _. B.spent barriers.new ≤ B.spent barriers.old
        + most_asked (B.cost barriers.old) (B.plan barriers.old)) }
    ensures does { OnOk result ((saved : List ℕ) → (backs : List BackOf) →
        state.new ≡ effect.at_entry_end (going code.now) (B.plan barriers.old)
        (B.barrier barriers.old) pending object id resumed (plain_open inner saved backs) n
        state.old) }
{
    let again = state.again(n);
    let values = state.formals(alloc, id, inner.frame)?;
    state.go_back(n, resumed);
    end_call(state, code, pending, again, values, object, id)?;
    service(state, alloc, code, barriers, object, inner.at, n)?;
    Ok(())
}

// The call of an entry body that has ended is over, or is made again.
fn end_call(
    state: &mut State,
    code: &SoundCode,
    pending: Option<Pending>,
    again: Option<Again>,
    values: Vec<Int32>,
    object: usize,
    id: usize,
) -> Result<(), AllocError>
    ensures { OnOk result ((plan : Plan) → (barrier : ℕ → Sight → Result Bool RaiseOf) →
        state.new ≡ effect.entry_ended (going code.now) plan barrier pending again values.items
        object id state.old) }
{
    match pending {
        None => {
            end_normally(state, code, again, values, object, id)?;
            Ok(())
        }
        Some(pending) => {
            state.caller_fails(code, id, pending.exception);
            Ok(())
        }
    }
}

// The same, where nothing is pending.
fn end_normally(
    state: &mut State,
    code: &SoundCode,
    again: Option<Again>,
    values: Vec<Int32>,
    object: usize,
    id: usize,
) -> Result<(), AllocError>
    ensures { OnOk result ((plan : Plan) → (barrier : ℕ → Sight → Result Bool RaiseOf) →
        state.new ≡ effect.entry_ended (going code.now) plan barrier None again values.items
        object id state.old) }
{
    match again {
        None => {
            state.succeed(code, &values, id);
            Ok(())
        }
        Some(again) => {
            state.retarget_call(id, again, values)?;
            queue_again(state, code, object, id)?;
            Ok(())
        }
    }
}

// A call that is made again arrives on an entry of the object; it is cancelled where its caller is abnormal and it does not stay.
fn queue_again(
    state: &mut State,
    code: &SoundCode,
    object: usize,
    id: usize,
) -> Result<(), AllocError>
    ensures { OnOk result ((plan : Plan) → (barrier : ℕ → Sight → Result Bool RaiseOf) →
        state.new ≡ effect.queued_again (going code.now) plan barrier object id state.old) }
{
    let _ = code;
    if state.is_lost(id) {
        state.cancel_call(id);
        return Ok(());
    }
    state.call_on(id, Owner::Object(object))?;
    state.arrive(id)?;
    Ok(())
}
