// What tasks are doing.

ghost use Rattle.std.specs.Prelude.{◌≡◌, ◌&&◌, not, true, false, Bool, Result, ℕ};
ghost use Rattle.aud_text.specs.declared.raise.Raise.{Raise as RaiseOf};
ghost use Rattle.aud_typed.specs.Tree.{Plan};
ghost use Rattle.aud_typed.specs.Ties.View.{plain_program};
ghost use Rattle.aud_meaning.specs.Evaluation.{Sight};
ghost use Rattle.aud_meaning.specs.Listings.{call_word, is_done, ready_or, running_word, turn_leaves};
ghost use Rattle.aud_meaning.specs.Parts.{call_of, own_of};
ghost use Rattle.aud_code.specs.Flat.{barrier_at, Flat};
ghost use Rattle.aud_tasks.specs.Moving.{moves_of};
ghost use Rattle.aud_tasks.specs.Shown.{status_if, status_in, words_of};
ghost use Rattle.aud_tasks.specs.Turning.{turn_in};

use crate::compiled::Compiled;
use crate::moves::has_move;
use crate::turn::{Turn, turn_of};
use aud_code::sound_code::SoundCode;
use aud_meaning::state::{CallState, Status};
use aud_state::state::State;

/// What a task is doing: it isn't activated yet; it has a move, or services an object; it waits for activations, at an accept, or
/// for a delay; its entry call is queued, or accepted; it waits for those that depend on a master, or for an object; it is
/// completed, or terminated.
#[derive(Clone, Copy)]
pub enum Shown {
    Created,
    Ready,
    Activation,
    Accept,
    Delay,
    Queued,
    Rendezvous,
    Master,
    Object,
    Completed,
    Terminated,
}

/// What the task of this number, counted from 0, is doing.
pub fn status_of(state: &State, compiled: Compiled<'_>, task: usize) -> Shown
    ensures { words_of result ≡ status_in (plain_program compiled.entry.program.now).plan
        compiled.entry.code.now task state.now }
{
    if state.is_servicing(task) {
        servicing(state, task)
    } else {
        otherwise(state, compiled, task)
    }
}

/// Whether it is abnormal and not completed yet (RM 9.8).
pub fn is_abnormal(state: &State, task: usize) -> bool
    ensures { (plan : Plan) → (barrier : ℕ → Sight → Result Bool RaiseOf) → result
        ≡ ((own_of task state.now).abnormal && not (is_done plan barrier (own_of task state.now).status)) }
{
    state.is_abnormal(task) && !is_done(state.status(task))
}

// Whether that is completed or terminated.
fn is_done(status: Status) -> bool
    ensures { (plan : Plan) → (barrier : ℕ → Sight → Result Bool RaiseOf) →
        result ≡ is_done plan barrier status }
{
    match status {
        Status::Completed | Status::Terminated => true,
        Status::Created
        | Status::Running
        | Status::Activating
        | Status::Accepting
        | Status::Delaying
        | Status::Calling => false,
    }
}

// What one is doing that services an object.
fn servicing(state: &State, task: usize) -> Shown
    ensures { (plan : Plan) → (code : Flat) →
        words_of result ≡ status_if true plan code task state.now }
{
    match state.status(task) {
        Status::Created => Shown::Created,
        Status::Completed => Shown::Completed,
        Status::Terminated => Shown::Terminated,
        Status::Running
        | Status::Activating
        | Status::Accepting
        | Status::Delaying
        | Status::Calling => Shown::Ready,
    }
}

// What any other is doing.
fn otherwise(state: &State, compiled: Compiled<'_>, task: usize) -> Shown
    ensures { words_of result ≡ status_if false (plain_program compiled.entry.program.now).plan
        compiled.entry.code.now task state.now }
{
    match state.status(task) {
        Status::Created => Shown::Created,
        Status::Running => running(state, compiled, task),
        Status::Activating => Shown::Activation,
        Status::Accepting => Shown::Accept,
        Status::Delaying => Shown::Delay,
        Status::Calling => calling(state, compiled, task),
        Status::Completed => Shown::Completed,
        Status::Terminated => Shown::Terminated,
    }
}

// What one is doing that runs.
fn running(state: &State, compiled: Compiled<'_>, task: usize) -> Shown
    ensures { let plan = (plain_program compiled.entry.program.now).plan in
        let code = compiled.entry.code.now in words_of result ≡ running_word plan (barrier_at code)
        (turn_leaves plan (barrier_at code) (turn_in plan code task state.now) (own_of task state.now))
        (moves_of plan code task state.now) }
{
    if leaves(state, compiled.code, task) {
        ready_or(state, compiled, task, Shown::Master)
    } else {
        ready_or(state, compiled, task, Shown::Object)
    }
}

// What one is doing that is blocked at an entry call.
fn calling(state: &State, compiled: Compiled<'_>, task: usize) -> Shown
    ensures { let plan = (plain_program compiled.entry.program.now).plan in
        let code = compiled.entry.code.now in words_of result ≡ call_word plan (barrier_at code)
        (call_of (own_of task state.now).call state.now).state (moves_of plan code task state.now) }
{
    match state.call_state(state.call(task)) {
        CallState::Queued => Shown::Queued,
        CallState::Selected => Shown::Rendezvous,
        CallState::Done | CallState::Cancelled => ready_or(state, compiled, task, Shown::Object),
    }
}

// Ready where it has a move.
fn ready_or(state: &State, compiled: Compiled<'_>, task: usize, other: Shown) -> Shown
    ensures { let plan = (plain_program compiled.entry.program.now).plan in
        let code = compiled.entry.code.now in words_of result ≡ ready_or plan (barrier_at code)
        (words_of other) (moves_of plan code task state.now) }
{
    if has_move(state, compiled, task) {
        Shown::Ready
    } else {
        other
    }
}

// Whether its next step is the end of a block or procedure.
fn leaves(state: &State, code: &SoundCode, task: usize) -> bool
    ensures { (plan : Plan) → result ≡ turn_leaves plan (barrier_at code.now)
        (turn_in plan code.now task state.now) (own_of task state.now) }
{
    match turn_of(state, code, task) {
        Turn::Acting => state.master_left(code, task).is_some(),
        _ => false,
    }
}
