// What is shown of the next step of a task.

ghost use Rattle.std.specs.Prelude.{◌≡◌};
ghost use Rattle.aud_typed.specs.Tree.{Plan};
ghost use Rattle.aud_typed.specs.Ties.View.{plain_program};
ghost use Rattle.aud_meaning.specs.Listings.{place_by, turn_kind};
ghost use Rattle.aud_meaning.specs.Parts.{own_of, unit_of};
ghost use Rattle.aud_code.specs.Flat.{barrier_at};
ghost use Rattle.aud_sequential.specs.Shown.{plans_of, unit_in};
ghost use Rattle.aud_tasks.specs.Listed.{usual_place_in};
ghost use Rattle.aud_tasks.specs.Shown.{step_in};
ghost use Rattle.aud_tasks.specs.Turning.{seen_in, turned};

use crate::compiled::Compiled;
use crate::turn::{Turn, turn_of};
use aud_code::sound_code::SoundCode;
use aud_meaning::state::{NextStep, Status, StepKind};
use aud_sequential::units::end_of;
use aud_state::state::State;
use aud_text::place::Pos;
use aud_typed::program::Unit;

/// What is shown of the task of this number, counted from 0: the kind of the step of its turn, `Null` where it rests;
/// and the place of the step in the text, or, while an exception is pending, the place where that was raised.
pub fn shown_step(state: &State, compiled: Compiled<'_>, task: usize) -> NextStep
    ensures { let plan = (plain_program compiled.entry.program.now).plan in
        result ≡ step_in plan compiled.entry.code.now task state.now }
{
    let turn = turn_of(state, compiled.code, task);
    let kind = kind_of(state, compiled.code, task, turn);
    let at = place_of(state, compiled, task, turn);
    NextStep { kind, at }
}

// The kind of the step of a turn.
fn kind_of(state: &State, code: &SoundCode, task: usize, turn: Turn) -> StepKind
    ensures { (plan : Plan) → result ≡ turn_kind plan (barrier_at code.now)
        (turned plan code.now task state.now turn) (own_of task state.now) }
{
    match turn {
        Turn::Resting => StepKind::Null,
        Turn::Closing => StepKind::Close,
        Turn::Completing => StepKind::Complete,
        Turn::Withdrawing(_) => StepKind::Withdraw,
        Turn::Serving(_) => StepKind::Serve,
        Turn::Restarting(_) => StepKind::Start,
        Turn::Expiring | Turn::Cancelling => StepKind::Expire,
        Turn::Acting => state.next_kind(code, task),
    }
}

// The place that is shown for it.
fn place_of(state: &State, compiled: Compiled<'_>, task: usize, turn: Turn) -> Pos
    ensures { (plan : Plan) → plan.units ≡ plans_of compiled.entry.program.now.units.items →
        result ≡ place_by plan (barrier_at compiled.entry.code.now)
        (turned plan compiled.entry.code.now task state.now turn) (seen_in plan compiled.entry.code.now task state.now) }
{
    match turn {
        Turn::Resting | Turn::Closing | Turn::Acting => usual_place(state, compiled, task),
        Turn::Completing => end_of_body(state, compiled, task),
        Turn::Serving(servicing) => servicing.at,
        Turn::Restarting(restart) => restart.at,
        Turn::Withdrawing(_) | Turn::Expiring | Turn::Cancelling => state.blocked_at(task),
    }
}

// The place that is shown for a task wherever nothing else is.
fn usual_place(state: &State, compiled: Compiled<'_>, task: usize) -> Pos
    ensures { (plan : Plan) → plan.units ≡ plans_of compiled.entry.program.now.units.items →
        result ≡ usual_place_in plan compiled.entry.code.now task state.now }
{
    match state.serving(task) {
        Some(servicing) => servicing.at,
        None => match state.status(task) {
            Status::Created => begin_of_body(state, compiled, task),
            Status::Running => state.shown_place(compiled.code, task),
            Status::Activating | Status::Accepting | Status::Delaying | Status::Calling => {
                state.blocked_at(task)
            }
            Status::Completed | Status::Terminated => end_of_body(state, compiled, task),
        },
    }
}

// Where the `end` of a task's body stands.
fn end_of_body(state: &State, compiled: Compiled<'_>, task: usize) -> Pos
    ensures { (plan : Plan) → plan.units ≡ plans_of compiled.entry.program.now.units.items →
        result ≡ (unit_of plan (own_of task state.now).unit).end }
{
    end_of(&compiled.program.units, state.unit(task))
}

// Where it begins.
fn begin_of_body(state: &State, compiled: Compiled<'_>, task: usize) -> Pos
    ensures { (plan : Plan) → plan.units ≡ plans_of compiled.entry.program.now.units.items →
        result ≡ (unit_of plan (own_of task state.now).unit).at }
{
    begin_of(&compiled.program.units, state.unit(task))
}

// Where the body of this number begins.
fn begin_of(units: &[Unit], number: usize) -> Pos
    ensures { result ≡ (unit_in (plans_of units.now) number).at }
{
    match units.get(number) {
        Some(unit) => unit.at,
        None => Pos { line: 0, col: 0 },
    }
}
