// The step that leaves the innermost construct.

ghost use Rattle.std.specs.Prelude.{◌≡◌, ℕ, Bool, List, Some, Result, ◌≤◌, IfOk, OnOk};
ghost use Rattle.aud_text.specs.declared.raise.Raise.{Raise as RaiseOf};
ghost use Rattle.aud_typed.specs.Tree.{Plan};
ghost use Rattle.aud_typed.specs.Ties.View.{plain_program};
ghost use Rattle.aud_meaning.specs.Configuration.{Back as BackOf};
ghost use Rattle.aud_meaning.specs.Control.{ends, is_left_by};
ghost use Rattle.aud_meaning.specs.Effects.{out_of_loops};
ghost use Rattle.aud_meaning.specs.Evaluation.{Sight};
ghost use Rattle.aud_meaning.specs.Parts.{exception_of, on_own, own_of};
ghost use Rattle.aud_meaning.specs.Tasks as effect;
ghost use Rattle.aud_code.specs.Control.{going};
ghost use Rattle.aud_code.specs.Flat.{barrier_at};
ghost use Rattle.aud_store.specs.Ties.Stored.{innermost_backs, plain_open, returning_by, IsInnermost};
ghost use Rattle.aud_tasks.specs.Counting.{most_of_barriers};
ghost use Rattle.aud_tasks.specs.Acting.{DoesAsked};
ghost use Rattle.aud_tasks.specs.Leaving.{closed_by, returns_of};

use crate::barriers::Evaluator;
use crate::compiled::Compiled;
use aud_code::sound_code::SoundCode;
use aud_masters::{completion, ending};
use aud_meaning::state::{Pending, Resumed};
use aud_protected::finishing;
use aud_rendezvous::ending::finish;
use aud_state::state::State;
use aud_store::purpose::{Purpose, Returns};
use aud_store::stack::Open;
use aud_text::place::Pos;
use aud_typed::program::Exception;
use std::alloc::{AllocError, Global};

/// The task leaves its innermost construct at the end of it, with so many loops around it (RM 5.7, 6.5, 9.3). Where its accept
/// makes the call again, the call takes the alternative that the move picks (RM 9.5.4). It gives the instructions of barriers
/// that were executed.
pub(crate) fn leave(
    state: &mut State,
    alloc: Global,
    compiled: Compiled<'_>,
    alternative: Option<usize>,
    n: usize,
    loops: usize,
) -> Result<u64, AllocError>
    ensures does { OnOk result (DoesAsked (plain_program compiled.entry.program.now).plan
        compiled.entry.code.now compiled.entry.limits alternative n (ends loops) state.old state.new) }
    ensures few { IfOk result (λ ticks. ticks ≤ most_of_barriers
        (plain_program compiled.entry.program.now).plan compiled.entry.code.now) }
{
    state.pass_end(compiled.code, n);
    let ticks = end_construct(state, alloc, compiled, alternative, n, None)?;
    state.out_of(n, loops);
    Ok(ticks)
}

/// The exception that is pending leaves its innermost construct (RM 11.4(7)).
pub(crate) fn leave_by(
    state: &mut State,
    alloc: Global,
    compiled: Compiled<'_>,
    alternative: Option<usize>,
    n: usize,
    pending: Pending,
) -> Result<u64, AllocError>
    ensures does { OnOk result (DoesAsked (plain_program compiled.entry.program.now).plan
        compiled.entry.code.now compiled.entry.limits alternative n (is_left_by pending) state.old state.new) }
    ensures few { IfOk result (λ ticks. ticks ≤ most_of_barriers
        (plain_program compiled.entry.program.now).plan compiled.entry.code.now) }
{
    state.leave_by(compiled.code, n, pending.exception);
    let ticks = end_construct(state, alloc, compiled, alternative, n, Some(pending))?;
    Ok(ticks)
}

// The innermost construct but for loops ends, by the exception that was pending or without one. Where the task goes on
// is said already.
fn end_construct(
    state: &mut State,
    alloc: Global,
    compiled: Compiled<'_>,
    alternative: Option<usize>,
    n: usize,
    pending: Option<Pending>,
) -> Result<u64, AllocError>
    ensures does { OnOk result (state.new ≡ effect.at_end (going compiled.entry.code.now)
        (plain_program compiled.entry.program.now).plan (barrier_at compiled.entry.code.now) alternative
        pending n state.old) }
    ensures few { IfOk result (λ ticks. ticks ≤ most_of_barriers
        (plain_program compiled.entry.program.now).plan compiled.entry.code.now) }
{
    match state.construct(n) {
        Some(inner) => end_inner(state, alloc, compiled, alternative, n, inner, pending),
        None => Ok(0),
    }
}

// It is the one with this frame.
fn end_inner(
    state: &mut State,
    alloc: Global,
    compiled: Compiled<'_>,
    alternative: Option<usize>,
    n: usize,
    inner: Open,
    pending: Option<Pending>,
) -> Result<u64, AllocError>
    requires { IsInnermost (Some inner) (out_of_loops (own_of n state.old)).opened }
    ensures does { OnOk result (state.new ≡ effect.at_end (going compiled.entry.code.now)
        (plain_program compiled.entry.program.now).plan (barrier_at compiled.entry.code.now) alternative
        pending n state.old) }
    ensures few { IfOk result (λ ticks. ticks ≤ most_of_barriers
        (plain_program compiled.entry.program.now).plan compiled.entry.code.now) }
{
    let code = compiled.code;
    let returns = returns_of(&inner.purpose);
    match inner.purpose {
        Purpose::Body => end_body(state, alloc, code, n, pending)?,
        Purpose::Block => end_block(state, alloc, code, n, inner, pending)?,
        Purpose::Loop => {}
        Purpose::Procedure { .. } => {
            end_procedure(state, alloc, code, n, returns, inner, pending)?;
        }
        Purpose::Operation { object, .. } => {
            return end_operation(state, alloc, compiled, n, object, returns, inner, pending);
        }
        Purpose::Entry {
            object,
            call,
            resumed,
            ..
        } => {
            return end_entry(
                state, alloc, compiled, n, object, call, resumed, inner, pending,
            );
        }
        Purpose::Accept { call } => {
            end_accept(state, alloc, code, alternative, n, call, inner, pending)?;
        }
    }
    Ok(0)
}

// What the end of a procedure or function does that a frame was opened for; that of any other frame does nothing.
fn returns_of(purpose: &Purpose) -> Returns
    ensures { result ≡ returns_of purpose.now }
{
    match purpose {
        Purpose::Procedure { returns, .. } => *returns,
        Purpose::Operation { returns, .. } => *returns,
        Purpose::Body
        | Purpose::Block
        | Purpose::Loop
        | Purpose::Entry { .. }
        | Purpose::Accept { .. } => Returns {
            is_function: false,
            backs: 0,
            into: None,
            value: None,
        },
    }
}

// A body is completed.
fn end_body(
    state: &mut State,
    alloc: Global,
    code: &SoundCode,
    n: usize,
    pending: Option<Pending>,
) -> Result<(), AllocError>
    ensures { OnOk result ((plan : Plan) → (barrier : ℕ → Sight → Result Bool RaiseOf) →
        state.new ≡ effect.completes (going code.now) plan barrier (exception_of pending) n state.old) }
{
    completion::complete(state, alloc, code, n, exception_of(pending))
}

// A block is left, with the loops within it.
fn end_block(
    state: &mut State,
    alloc: Global,
    code: &SoundCode,
    n: usize,
    inner: Open,
    pending: Option<Pending>,
) -> Result<(), AllocError>
    ensures { OnOk result ((plan : Plan) → (barrier : ℕ → Sight → Result Bool RaiseOf) →
        (saved : List ℕ) → (backs : List BackOf) →
        state.new ≡ effect.at_block_end (going code.now) plan barrier pending
        (plain_open inner saved backs) n (on_own n out_of_loops state.old)) }
{
    state.out_of_loops(n);
    close(state, n, inner.at, pending);
    ending::leave(state, alloc, code, inner.frame)
}

// What an accept does has ended, with the loops within it.
fn end_accept(
    state: &mut State,
    alloc: Global,
    code: &SoundCode,
    alternative: Option<usize>,
    n: usize,
    call: usize,
    inner: Open,
    pending: Option<Pending>,
) -> Result<(), AllocError>
    ensures { OnOk result ((plan : Plan) → (barrier : ℕ → Sight → Result Bool RaiseOf) →
        (saved : List ℕ) → (backs : List BackOf) →
        state.new ≡ effect.at_accept_end (going code.now) plan barrier alternative pending call
        (plain_open inner saved backs) n (on_own n out_of_loops state.old)) }
{
    state.out_of_loops(n);
    finish(state, alloc, code, alternative, pending, call, inner, n)
}

// The innermost frame is left; what was pending is pending behind it.
fn close(state: &mut State, n: usize, at: Pos, pending: Option<Pending>)
    ensures { state.new ≡ on_own n (closed_by pending at) state.old }
{
    match pending {
        None => state.close(n),
        Some(pending) => state.close_raising(n, pending.exception, at),
    }
}

// A procedure is left, with the loops within it: its caller goes on behind the call, or has the exception pending at it.
fn end_procedure(
    state: &mut State,
    alloc: Global,
    code: &SoundCode,
    n: usize,
    returns: Returns,
    inner: Open,
    pending: Option<Pending>,
) -> Result<(), AllocError>
    ensures { OnOk result ((plan : Plan) → (barrier : ℕ → Sight → Result Bool RaiseOf) →
        (saved : List ℕ) → (backs : List BackOf) →
        state.new ≡ effect.at_procedure_end (going code.now) plan barrier pending
        (returning_by returns (innermost_backs (out_of_loops (own_of n state.old)).opened))
        (plain_open inner saved backs) n (on_own n out_of_loops state.old)) }
{
    state.out_of_loops(n);
    let backs = state.backs(alloc, n)?;
    state.close(n);
    ending::leave(state, alloc, code, inner.frame)?;
    match pending {
        None => state.return_from(
            alloc,
            code,
            returns,
            backs.as_slice(),
            inner.frame,
            inner.at,
            n,
        ),
        Some(pending) => {
            state.raise(n, pending.exception, inner.at);
            Ok(())
        }
    }
}

// A procedure or function of an object is left, with the loops within it.
fn end_operation(
    state: &mut State,
    alloc: Global,
    compiled: Compiled<'_>,
    n: usize,
    object: usize,
    returns: Returns,
    inner: Open,
    pending: Option<Pending>,
) -> Result<u64, AllocError>
    ensures does { OnOk result ((saved : List ℕ) → (backs : List BackOf) →
        state.new ≡ effect.at_operation_end (going compiled.entry.code.now)
        (plain_program compiled.entry.program.now).plan (barrier_at compiled.entry.code.now) pending object
        (returning_by returns (innermost_backs (out_of_loops (own_of n state.old)).opened))
        (plain_open inner saved backs) n (on_own n out_of_loops state.old)) }
    ensures few { IfOk result (λ ticks. ticks ≤ most_of_barriers
        (plain_program compiled.entry.program.now).plan compiled.entry.code.now) }
{
    let code = compiled.code;
    let mut barriers = Evaluator::new(alloc, compiled);
    state.out_of_loops(n);
    finishing::finish(
        state,
        alloc,
        code,
        &mut barriers,
        pending,
        object,
        returns,
        inner,
        n,
    )?;
    Ok(barriers.ticks())
}

// An entry body is left, with the loops within it.
fn end_entry(
    state: &mut State,
    alloc: Global,
    compiled: Compiled<'_>,
    n: usize,
    object: usize,
    call: usize,
    resumed: Resumed,
    inner: Open,
    pending: Option<Pending>,
) -> Result<u64, AllocError>
    ensures does { OnOk result ((saved : List ℕ) → (backs : List BackOf) →
        state.new ≡ effect.at_entry_end (going compiled.entry.code.now)
        (plain_program compiled.entry.program.now).plan (barrier_at compiled.entry.code.now) pending object
        call resumed (plain_open inner saved backs) n (on_own n out_of_loops state.old)) }
    ensures few { IfOk result (λ ticks. ticks ≤ most_of_barriers
        (plain_program compiled.entry.program.now).plan compiled.entry.code.now) }
{
    let code = compiled.code;
    let mut barriers = Evaluator::new(alloc, compiled);
    state.out_of_loops(n);
    finishing::finish_entry(
        state,
        alloc,
        code,
        &mut barriers,
        pending,
        object,
        call,
        resumed,
        inner,
        n,
    )?;
    Ok(barriers.ticks())
}

// The exception of what was pending.
fn exception_of(pending: Option<Pending>) -> Option<Exception>
    ensures { result ≡ exception_of pending }
{
    pending.map(|pending| pending.exception)
}
