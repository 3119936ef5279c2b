// Selective accepts (RM 9.7.1).

ghost use Rattle.std.specs.Prelude.{◌≡◌, None, ℕ, Bool, Result, IfOk, OnOk, filter, find, map, nat_eq};
ghost use Rattle.aud_text.specs.declared.raise.Raise.{Raise as RaiseOf};
ghost use Rattle.aud_typed.specs.Tree.{Plan};
ghost use Rattle.aud_meaning.specs.Evaluation.{Sight};
ghost use Rattle.aud_meaning.specs.Run.{alternatives_of, has_queue, seen};
ghost use Rattle.aud_meaning.specs.Tasks as effect;
ghost use Rattle.aud_code.specs.Control.{going};
ghost use Rattle.aud_code.specs.Flat.{barrier_at, flat_controls, Flat};
ghost use Rattle.aud_state.specs.View.{plain_waits};
ghost use Rattle.aud_select.specs.Selecting.{has_call, is_none_open};

use aud_code::sound_code::SoundCode;
use aud_meaning::state::{OpenAccept, Status};
use aud_rendezvous::accepting::accept;
use aud_state::state::State;
use aud_state::task::Waits;
use aud_text::place::Pos;
use aud_text::raise::Raise;
use aud_typed::program::Exception;
use std::alloc::{AllocError, Global};

/// The step select, with its open alternatives. Where the move picks one, that accepts a call. Where it picks none, the else part
/// follows, if there is one; else the task waits, or Program_Error is raised where no alternative is open.
///
/// # Errors
///
/// Where memory is refused. Nothing is said of the state then.
pub fn select(
    state: &mut State,
    alloc: Global,
    code: &SoundCode,
    alternative: Option<usize>,
    has_else: bool,
    waits: Waits,
    at: Pos,
    n: usize,
) -> Result<(), AllocError>
    ensures { OnOk result ((plan : Plan) → (barrier : ℕ → Sight → Result Bool RaiseOf) →
        state.new ≡ effect.selects (going code.now) plan barrier alternative has_else
        (plain_waits waits) at n state.old) }
{
    match alternative {
        None => {
            wait(state, code, has_else, waits, at, n);
            Ok(())
        }
        Some(number) => {
            accept_picked(state, alloc, code, number, &waits.accepts, n)?;
            Ok(())
        }
    }
}

// No call is accepted at once.
fn wait(state: &mut State, code: &SoundCode, has_else: bool, waits: Waits, at: Pos, n: usize)
    ensures { (plan : Plan) → (barrier : ℕ → Sight → Result Bool RaiseOf) →
        state.new ≡ effect.selects (going code.now) plan barrier None has_else
        (plain_waits waits) at n state.old }
{
    if has_else {
        state.take(code, n, 0);
        return;
    }
    if is_none_open(&waits) {
        state.raise(n, Exception::Predefined(Raise::Program), at);
        return;
    }
    state.wait(n, Status::Accepting, at, waits);
}

// Whether no alternative is open.
fn is_none_open(waits: &Waits) -> bool
    ensures { result ≡ is_none_open (plain_waits waits.now) }
{
    waits.accepts.is_empty() && waits.delays.is_empty() && !waits.terminate
}

// Of these open alternatives the first of this number accepts a call.
fn accept_picked(
    state: &mut State,
    alloc: Global,
    code: &SoundCode,
    number: usize,
    accepts: &[OpenAccept],
    n: usize,
) -> Result<(), AllocError>
    ensures { OnOk result ((plan : Plan) → (barrier : ℕ → Sight → Result Bool RaiseOf) →
        state.new ≡ effect.selected_first (going code.now) plan barrier
        (filter (λ o. nat_eq o.alternative number) accepts.now) n state.old) }
{
    match numbered(accepts, number) {
        None => Ok(()),
        Some(picked) => {
            accept(state, alloc, code, picked, n)?;
            Ok(())
        }
    }
}

// The first of these that has a number.
fn numbered(accepts: &[OpenAccept], number: usize) -> Option<OpenAccept>
    ensures { result ≡ find (λ o. nat_eq o.alternative number) accepts.now }
{
    accepts
        .iter()
        .find(|accept| accept.alternative == number)
        .copied()
}

/// The numbers of those open alternatives of a task on whose entries a call is queued.
///
/// # Errors
///
/// Where memory is refused.
pub fn open_set(
    state: &State,
    alloc: Global,
    n: usize,
    accepts: &[OpenAccept],
) -> Result<Vec<usize>, AllocError>
    ensures { IfOk result (λ numbers. (plan : Plan) → (code : Flat) → numbers.items ≡
        alternatives_of plan (barrier_at code) (filter (has_queue plan (barrier_at code) n
        (seen plan (flat_controls plan code) state.now)) accepts.now)) }
{
    let numbers = called(state, alloc, n, accepts)?;
    Ok(numbers)
}

// The numbers of those of a task's alternatives that have a call.
fn called(
    state: &State,
    alloc: Global,
    n: usize,
    accepts: &[OpenAccept],
) -> Result<Vec<usize>, AllocError>
    ensures { IfOk result (λ numbers. numbers.items ≡
        map (λ a. a.alternative) (filter (has_call n state.now.shared.calls) accepts.now)) }
{
    accepts
        .iter()
        .filter(|accept| has_call(state, n, accept))
        .map(|accept| accept.alternative)
        .collect(alloc)
}

// Whether a call is queued on the entry of a task's alternative.
fn has_call(state: &State, n: usize, accept: &OpenAccept) -> bool
    ensures { result ≡ has_call n state.now.shared.calls accept.now }
{
    state.first_queued(n, accept.entry).is_some()
}
