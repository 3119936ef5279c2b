// Calls that the end of an accept makes again (RM 9.5.4).

ghost use Rattle.std.specs.Prelude.{◌≡◌, ◌<◌, None, Some, false, length, is_some};
ghost use Rattle.aud_typed.specs.Tree.{Plan};
ghost use Rattle.aud_meaning.specs.Parts.{own_of};
ghost use Rattle.aud_meaning.specs.Run.{again_left, construct_left};
ghost use Rattle.aud_tasks.specs.Choices.{is_accept, is_end, is_ending, leaves_accept, target_in, MakesAgain};
ghost use Rattle.aud_tasks.specs.Turning.{coming_in};

use aud_code::line::Last;
use aud_code::sound_code::SoundCode;
use aud_meaning::state::{Again, Owner};
use aud_state::state::State;
use aud_store::purpose::Purpose;

/// An entry of a task on which a call is made again.
#[derive(Clone, Copy)]
pub(crate) struct Target {
    pub task: usize,
    pub entry: usize,
}

/// The one on which the accept makes its call again that a task leaves at its next step, if it does so.
pub(crate) fn again_at(state: &State, code: &SoundCode, task: usize) -> Option<Target>
    requires { task < length state.now.tasks }
    ensures { MakesAgain code.now task state.now result }
{
    if state.pending(task).is_some() {
        return None;
    }
    match state.again(task) {
        Some(again) => target_at(state, code, task, again),
        None => None,
    }
}

// The one of a task that makes a call again so and has no exception pending.
fn target_at(state: &State, code: &SoundCode, task: usize, again: Again) -> Option<Target>
    requires within { task < length state.now.tasks }
    requires quiet { is_some (own_of task state.now).pending ≡ false }
    requires made { (own_of task state.now).again ≡ Some again }
    ensures { MakesAgain code.now task state.now result }
{
    if comes_to_end(state, code, task) {
        target_of(state, task, again)
    } else {
        None
    }
}

// That where an accept is the innermost construct of the task.
fn target_of(state: &State, task: usize, again: Again) -> Option<Target>
    ensures { target_in result ≡ again_left None (Some again) (construct_left (own_of task state.now)) }
{
    if !leaves_accept(state, task) {
        return None;
    }
    match again.owner {
        Owner::Task(target) => Some(Target {
            task: target,
            entry: again.entry,
        }),
        Owner::Object(_) => None,
    }
}

// Whether an accept is the innermost construct of a task.
fn leaves_accept(state: &State, task: usize) -> bool
    ensures { result ≡ leaves_accept (construct_left (own_of task state.now)) }
{
    match state.construct(task) {
        Some(inner) => is_accept(&inner.purpose),
        None => false,
    }
}

// Whether a frame is an accept's.
fn is_accept(purpose: &Purpose) -> bool
    ensures { result ≡ is_accept purpose.now }
{
    matches!(purpose, Purpose::Accept { .. })
}

// Whether a task leaves a construct at its next step, where no exception is pending.
fn comes_to_end(state: &State, code: &SoundCode, task: usize) -> bool
    requires within { task < length state.now.tasks }
    requires quiet { is_some (own_of task state.now).pending ≡ false }
    ensures { (plan : Plan) → result ≡ is_ending (coming_in plan code.now task state.now) }
{
    match code.ending(state.place(task)) {
        Some(end) => is_end(&end.last),
        None => true,
    }
}

// Whether a step with this ending counts as one that leaves a construct.
fn is_end(last: &Last) -> bool
    ensures { result ≡ is_end last.now }
{
    matches!(
        last,
        Last::Guards(_) | Last::Ends(_, _) | Last::Leaves { .. }
    )
}
