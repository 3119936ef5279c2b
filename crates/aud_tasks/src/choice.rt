// What decides on the moves of a task beside its own part.

ghost use Rattle.std.specs.Prelude.{◌≡◌, ◌<◌, length, IfNone, IfSome, IsTrue};
ghost use Rattle.aud_typed.specs.Tree.{Plan};
ghost use Rattle.aud_typed.specs.Ties.View.{plain_program};
ghost use Rattle.aud_meaning.specs.Control.{starting};
ghost use Rattle.aud_meaning.specs.Parts.{sight_of};
ghost use Rattle.aud_tasks.specs.Choices.{choice_of, is_alone, start_in, ComesTo, IsNoStart};
ghost use Rattle.aud_tasks.specs.Moving.{IsSimple, IsSingle};
ghost use Rattle.aud_tasks.specs.Turning.{coming_in};

use crate::compiled::Compiled;
use aud_code::line::{Among, Last};
use aud_code::sound_code::SoundCode;
use aud_sequential::units::is_function;
use aud_state::state::State;

/// A step that may have several moves: a selective accept, or a call of this entry.
#[derive(Clone, Copy)]
pub(crate) enum Choice {
    Select,
    Call(usize),
}

/// A call of a procedure, function or entry of an object, and whether it is a function's.
#[derive(Clone, Copy)]
pub(crate) struct Start {
    pub object: usize,
    pub reading: bool,
}

/// Whether a task stands at a step that may have several moves.
pub(crate) fn choice_at(state: &State, code: &SoundCode, task: usize) -> Option<Choice>
    ensures some { IfSome result (λ choice. (plan : Plan) →
        ComesTo choice plan code.now task state.now) }
    ensures none { IfNone result ((plan : Plan) →
        IsSingle (coming_in plan code.now task state.now)) }
{
    if state.pending(task).is_some() {
        return None;
    }
    let place = state.place(task);
    if code.len() <= place {
        return None;
    }
    match code.ending(place) {
        Some(end) => choice_of(&end.last),
        None => None,
    }
}

/// The call of an object that comes next of a task, if one does.
pub(crate) fn start_at(state: &State, compiled: Compiled<'_>, task: usize) -> Option<Start>
    requires { task < length state.now.tasks }
    ensures some { IfSome result (λ start. coming_in (plain_program compiled.entry.program.now).plan
        compiled.entry.code.now task state.now ≡ starting start.object start.reading) }
    ensures none { IfNone result (IsNoStart (coming_in (plain_program compiled.entry.program.now).plan
        compiled.entry.code.now task state.now)) }
{
    if state.pending(task).is_some() {
        return None;
    }
    let place = state.place(task);
    if compiled.code.len() <= place {
        return None;
    }
    match compiled.code.ending(place) {
        Some(end) => start_of(state, compiled, task, &end.last),
        None => None,
    }
}

// The one that a step with this ending is.
fn start_of(state: &State, compiled: Compiled<'_>, task: usize, last: &Last) -> Option<Start>
    ensures { result ≡ start_in (plain_program compiled.entry.program.now).plan last.now
        (sight_of task state.now) }
{
    match last {
        Last::Concerns(Among::CallObject { object, .. }, _) => Some(Start {
            object: state.number_of(task, *object),
            reading: false,
        }),
        Last::Concerns(Among::Operation { object, unit }, _) => Some(Start {
            object: state.number_of(task, *object),
            reading: is_function(&compiled.program.units, *unit),
        }),
        _ => None,
    }
}

/// Whether the next step of a task is a statement's that concerns the task alone, as far as one look tells.
pub(crate) fn is_simple(state: &State, code: &SoundCode, task: usize) -> bool
    requires { task < length state.now.tasks }
    ensures { IsTrue result → (plan : Plan) → IsSimple (coming_in plan code.now task state.now) }
{
    if state.pending(task).is_some() {
        return false;
    }
    match code.ending(state.place(task)) {
        Some(end) => is_alone(&end.last),
        None => false,
    }
}

// Whether the step with this ending is.
fn is_alone(last: &Last) -> bool
    ensures { result ≡ is_alone last.now }
{
    matches!(last, Last::Does(_, _))
}

// Whether the step with this ending is a choice.
fn choice_of(last: &Last) -> Option<Choice>
    ensures { result ≡ choice_of last.now }
{
    match last {
        Last::Concerns(Among::Select { .. }, _) => Some(Choice::Select),
        Last::Concerns(Among::Call { entry, .. }, _) => Some(Choice::Call(*entry)),
        _ => None,
    }
}
