// Whether what a task does to variables can let another begin an action of an object, or keep it from one.

ghost use Rattle.std.specs.Prelude.{◌≡◌, ◌<◌, ◌⊎◌, false, length, IsTrue};
ghost use Rattle.aud_typed.specs.Ties.View.{plain_program};
ghost use Rattle.aud_meaning.specs.declared.state.Status.TheVariants.{Running};
ghost use Rattle.aud_meaning.specs.Parts.{own_of};
ghost use Rattle.aud_tasks.specs.Choices.{IsNoStart};
ghost use Rattle.aud_tasks.specs.Running.{AreIdle, BeginsAlone, BeginsNone, HindersNone};
ghost use Rattle.aud_tasks.specs.Turning.{coming_in};

use crate::choice::start_at;
use crate::compiled::Compiled;
use aud_meaning::state::Status;
use aud_state::state::State;

/// Whether it can't: which object an action is of, a variable tells, but where all objects are idle none is in the way,
/// and where no other task is to begin one none is asked for.
pub(crate) fn hinders_none(state: &State, compiled: Compiled<'_>, task: usize) -> bool
    ensures { IsTrue result → HindersNone (plain_program compiled.entry.program.now).plan
        compiled.entry.code.now task state.now }
{
    are_idle(state) || !another_begins(state, compiled, task)
}

/// Whether all objects are idle, or no task is to begin an action next.
pub(crate) fn begin_none(state: &State, compiled: Compiled<'_>) -> bool
    ensures { IsTrue result → AreIdle state.now ⊎ BeginsNone (plain_program compiled.entry.program.now).plan
        compiled.entry.code.now state.now }
{
    are_idle(state) || !another_begins(state, compiled, state.len())
}

// Whether no object has an action under way.
fn are_idle(state: &State) -> bool
    ensures { IsTrue result → AreIdle state.now }
{
    for object in 0..state.objects() {
        if !state.is_idle(object) {
            return false;
        }
    }
    true
}

// Whether a task but this one is to begin an action next.
fn another_begins(state: &State, compiled: Compiled<'_>, task: usize) -> bool
    ensures { result ≡ false → BeginsAlone (plain_program compiled.entry.program.now).plan
        compiled.entry.code.now task state.now }
{
    for other in 0..state.len() {
        if other != task && begins_action(state, compiled, other) {
            return true;
        }
    }
    false
}

// Whether this one is.
fn begins_action(state: &State, compiled: Compiled<'_>, task: usize) -> bool
    requires { task < length state.now.tasks }
    ensures { result ≡ false → (own_of task state.now).status ≡ Running →
        IsNoStart (coming_in (plain_program compiled.entry.program.now).plan
        compiled.entry.code.now task state.now) }
{
    match state.status(task) {
        Status::Running => start_at(state, compiled, task).is_some(),
        _ => false,
    }
}
