// Tasks that become abnormal (RM 9.8(4, 13)).

ghost use Rattle.std.specs.Prelude.{◌≡◌, ℕ, Bool, Result, IfOk, OnOk};
ghost use Rattle.aud_text.specs.declared.raise.Raise.{Raise as RaiseOf};
ghost use Rattle.aud_typed.specs.Tree.{Plan};
ghost use Rattle.aud_meaning.specs.Evaluation.{Sight};
ghost use Rattle.aud_meaning.specs.Orders.{Orders};
ghost use Rattle.aud_meaning.specs.Parts.{call_of, cancels, on_own};
ghost use Rattle.aud_meaning.specs.Tasks as effect;
ghost use Rattle.aud_code.specs.Control.{going};
ghost use Rattle.aud_code.specs.Places.{Spot};
ghost use Rattle.aud_abort.specs.Aborting.{each_abnormal, each_cancelled};

use aud_code::sound_code::SoundCode;
use aud_masters::ending::terminate;
use aud_masters::mark::{Change, mark};
use aud_meaning::state::{Owner, Status};
use aud_rendezvous::cancelling::cancel;
use aud_state::state::State;
use aud_text::place::Pos;
use aud_text::raise::Raise;
use aud_typed::program::Exception;
use std::alloc::{AllocError, Global};

/// The step abort of a task: these tasks, and those that depend on them, become abnormal; within a protected action
/// Program_Error is raised (RM 9.5.1(8 to 16)).
///
/// # Errors
///
/// Where memory is refused. Nothing is said of the state then.
pub fn abort(
    state: &mut State,
    alloc: Global,
    code: &SoundCode,
    named: &[usize],
    at: Pos,
    n: usize,
) -> Result<(), AllocError>
    ensures { OnOk result ((plan : Plan) → (barrier : ℕ → Sight → Result Bool RaiseOf) →
        state.new ≡ effect.aborts (going code.now) plan barrier named.now at n state.old) }
{
    if state.in_action(n) {
        state.raise(n, Exception::Predefined(Raise::Program), at);
        return Ok(());
    }
    let bodies = bodies(state, alloc, named)?;
    let hit = state.hit(alloc, named, &bodies)?;
    state.take(code, n, 0);
    abort_all(state, alloc, code, &hit)?;
    Ok(())
}

// The bodies of the named tasks that have begun.
fn bodies(state: &State, alloc: Global, named: &[usize]) -> Result<Vec<usize>, AllocError>
    ensures { IfOk result (λ frames. (go : Orders Spot) → (plan : Plan) →
        (barrier : ℕ → Sight → Result Bool RaiseOf) →
        frames.items ≡ effect.bodies_of go plan barrier named.now state.now) }
{
    let mut frames = Vec::new(alloc);
    for task in named {
        if let Some(frame) = state.body_frame(*task) {
            frames.push(frame)?;
        }
    }
    Ok(frames)
}

// Tasks become abnormal: their queued calls are cancelled, but for those that stay, calls queued on their entries get Tasking_Error, and those
// that are not yet activated are terminated.
fn abort_all(
    state: &mut State,
    alloc: Global,
    code: &SoundCode,
    hit: &[usize],
) -> Result<(), AllocError>
    ensures { OnOk result ((plan : Plan) → (barrier : ℕ → Sight → Result Bool RaiseOf) →
        state.new ≡ effect.aborted (going code.now) plan barrier hit.now state.old) }
{
    mark_all(state, hit);
    cancel_all(state, alloc, hit)?;
    refuse_all(state, alloc, code, hit)?;
    terminate_created(state, alloc, code, hit)?;
    Ok(())
}

fn mark_all(state: &mut State, hit: &[usize])
    ensures { (go : Orders Spot) → (plan : Plan) → (barrier : ℕ → Sight → Result Bool RaiseOf) →
        state.new ≡ each_abnormal go plan barrier hit.now state.old }
{
    for task in hit {
        mark(state, *task, Change::Abnormal);
    }
}

// The calls that they have queued are cancelled, but for those that stay.
fn cancel_all(state: &mut State, alloc: Global, hit: &[usize]) -> Result<(), AllocError>
    ensures { OnOk result ((go : Orders Spot) → (plan : Plan) →
        (barrier : ℕ → Sight → Result Bool RaiseOf) →
        state.new ≡ each_cancelled go plan barrier hit.now state.old) }
{
    for task in hit {
        let calls = state.queued_by(alloc, *task)?;
        lose_calls(state, *task, &calls);
    }
    Ok(())
}

fn lose_calls(state: &mut State, task: usize, calls: &[usize])
    ensures { (go : Orders Spot) → (plan : Plan) → (barrier : ℕ → Sight → Result Bool RaiseOf) →
        state.new ≡ effect.loses_call go plan barrier task calls.now state.old }
{
    for id in calls {
        lose_call(state, task, *id);
    }
}

// A queued call of a task is cancelled; from an object the task withdraws when it comes to that.
fn lose_call(state: &mut State, task: usize, id: usize)
    ensures { (go : Orders Spot) → (plan : Plan) → (barrier : ℕ → Sight → Result Bool RaiseOf) →
        state.new ≡ cancels id (on_own task
        (effect.withdraws_from go plan barrier (call_of id state.old).owner) state.old) }
{
    match state.call_owner(id) {
        Owner::Task(_) => {}
        Owner::Object(object) => state.set_withdraw(task, object),
    }
    cancel(state, id);
}

// The calls queued on their entries get Tasking_Error.
fn refuse_all(
    state: &mut State,
    alloc: Global,
    code: &SoundCode,
    hit: &[usize],
) -> Result<(), AllocError>
    ensures { OnOk result ((plan : Plan) → (barrier : ℕ → Sight → Result Bool RaiseOf) →
        state.new ≡ effect.each (going code.now) plan barrier
        (effect.refuse_queues (going code.now) plan barrier) hit.now state.old) }
{
    for task in hit {
        state.refuse_queues(alloc, code, *task)?;
    }
    Ok(())
}

// Those of them that are not yet activated are terminated.
fn terminate_created(
    state: &mut State,
    alloc: Global,
    code: &SoundCode,
    hit: &[usize],
) -> Result<(), AllocError>
    ensures { OnOk result ((plan : Plan) → (barrier : ℕ → Sight → Result Bool RaiseOf) →
        state.new ≡ effect.each (going code.now) plan barrier
        (effect.terminates_created (going code.now) plan barrier) hit.now state.old) }
{
    for task in hit {
        terminate_if_created(state, alloc, code, *task)?;
    }
    Ok(())
}

fn terminate_if_created(
    state: &mut State,
    alloc: Global,
    code: &SoundCode,
    task: usize,
) -> Result<(), AllocError>
    ensures { OnOk result ((plan : Plan) → (barrier : ℕ → Sight → Result Bool RaiseOf) →
        state.new ≡ effect.terminates_created (going code.now) plan barrier task state.old) }
{
    if matches!(state.status(task), Status::Created) {
        terminate(state, alloc, code, task)?;
    }
    Ok(())
}
