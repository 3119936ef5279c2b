// Tasks that end, and masters that are left.

ghost use Rattle.std.specs.Prelude.{◌≡◌, ℕ, Bool, Result, OnOk, slice_get};
ghost use Rattle.aud_text.specs.declared.raise.Raise.{Raise as RaiseOf};
ghost use Rattle.aud_typed.specs.Tree.{Plan};
ghost use Rattle.aud_meaning.specs.Evaluation.{Sight};
ghost use Rattle.aud_meaning.specs.Tasks as effect;
ghost use Rattle.aud_meaning.specs.Parts.{Closable, own_of};
ghost use Rattle.aud_code.specs.Control.{going};
ghost use Rattle.aud_state.specs.Reads.{coming_by};
ghost use Rattle.aud_masters.specs.Leaving.{leaves_freely};

use aud_code::sound_code::SoundCode;
use aud_state::state::State;
use std::alloc::{AllocError, Global};

/// Whether nothing keeps a master from being left (RM 9.3(5)).
pub fn closable(state: &State, master: usize) -> bool
    ensures { result ≡ Closable master state.now }
{
    state.closable(master)
}

/// Whether nothing keeps the master from being left that a task leaves at its next step, if it leaves one (RM 9.3(5)).
pub fn can_leave(state: &State, code: &SoundCode, task: usize) -> bool
    ensures { (plan : Plan) → (s : Sight) → result ≡ leaves_freely (own_of task state.now)
        (coming_by code.now plan s (slice_get state.now.tasks task)) state.now }
{
    match state.master_left(code, task) {
        Some(master) => closable(state, master),
        None => true,
    }
}

/// A master is left: what waits at a terminate alternative is terminated with it (RM 9.7.1(16)).
///
/// # Errors
///
/// Where memory is refused. Nothing is said of the state then.
pub fn leave(
    state: &mut State,
    alloc: Global,
    code: &SoundCode,
    master: usize,
) -> Result<(), AllocError>
    ensures { OnOk result ((plan : Plan) → (barrier : ℕ → Sight → Result Bool RaiseOf) →
        state.new ≡ effect.close_master (going code.now) plan barrier master state.old) }
{
    let dependents = state.dependents(alloc, master)?;
    terminate_all(state, alloc, code, &dependents)?;
    Ok(())
}

/// The step close: a completed task is terminated, and what depends on its body with it.
///
/// # Errors
///
/// Where memory is refused. Nothing is said of the state then.
pub fn close(
    state: &mut State,
    alloc: Global,
    code: &SoundCode,
    task: usize,
) -> Result<(), AllocError>
    ensures { OnOk result ((plan : Plan) → (barrier : ℕ → Sight → Result Bool RaiseOf) →
        state.new ≡ effect.closes (going code.now) plan barrier task state.old) }
{
    let master = state.body_master(task);
    leave(state, alloc, code, master)?;
    terminate(state, alloc, code, task)?;
    Ok(())
}

// All these tasks are terminated.
pub(crate) fn terminate_all(
    state: &mut State,
    alloc: Global,
    code: &SoundCode,
    tasks: &[usize],
) -> Result<(), AllocError>
    ensures { OnOk result ((plan : Plan) → (barrier : ℕ → Sight → Result Bool RaiseOf) →
        state.new ≡ effect.terminate_all (going code.now) plan barrier tasks.now state.old) }
{
    for task in tasks {
        terminate(state, alloc, code, *task)?;
    }
    Ok(())
}

/// A task is terminated, and the calls of its entries are refused.
///
/// # Errors
///
/// Where memory is refused. Nothing is said of the state then.
pub fn terminate(
    state: &mut State,
    alloc: Global,
    code: &SoundCode,
    task: usize,
) -> Result<(), AllocError>
    ensures { OnOk result ((plan : Plan) → (barrier : ℕ → Sight → Result Bool RaiseOf) →
        state.new ≡ effect.terminate (going code.now) plan barrier task state.old) }
{
    state.terminate_own(alloc, task);
    state.refuse_queues(alloc, code, task)?;
    Ok(())
}
