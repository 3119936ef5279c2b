// What a task does at its next step.

ghost use Rattle.std.specs.Prelude.{◌≡◌};
ghost use Rattle.aud_typed.specs.Tree.{Plan};
ghost use Rattle.aud_meaning.specs.Parts.{own_of};
ghost use Rattle.aud_meaning.specs.Run as run;
ghost use Rattle.aud_meaning.specs.Run.{seen};
ghost use Rattle.aud_code.specs.Flat.{barrier_at, flat_controls, Flat};
ghost use Rattle.aud_tasks.specs.Turning.{coming_in, seen_in, turn_in, turned, usual_in};

use aud_abort::deferring::is_deferred;
use aud_code::sound_code::SoundCode;
use aud_meaning::state::{Restart, Serving as Servicing, Status};
use aud_state::state::State;

/// What a task does at its next step: nothing; a completed task is closed; an abnormal one completes, or withdraws from an object
/// (RM 9.8); it services an object; a call is made on an object that its accept makes again (RM 9.5.4); a delay ends; its call is
/// cancelled; or its own statements go on.
#[derive(Clone, Copy)]
pub enum Turn {
    Resting,
    Closing,
    Completing,
    Withdrawing(usize),
    Serving(Servicing),
    Restarting(Restart),
    Expiring,
    Cancelling,
    Acting,
}

/// That of the task of this number, counted from 0.
pub(crate) fn turn_of(state: &State, code: &SoundCode, n: usize) -> Turn
    ensures { (plan : Plan)
        → turn_in plan code.now n state.now ≡ turned plan code.now n state.now result }
{
    if state.is_plain(n) {
        return Turn::Acting;
    }
    match state.status(n) {
        Status::Created | Status::Terminated => Turn::Resting,
        Status::Completed => Turn::Closing,
        Status::Running
        | Status::Activating
        | Status::Accepting
        | Status::Delaying
        | Status::Calling => under_way(state, code, n),
    }
}

// That of a task that is neither completed nor only created.
fn under_way(state: &State, code: &SoundCode, n: usize) -> Turn
    ensures { (plan : Plan) → run.under_way plan (barrier_at code.now) (own_of n state.now).abnormal n
        (seen_in plan code.now n state.now) (seen plan (flat_controls plan code.now) state.now)
        ≡ turned plan code.now n state.now result }
{
    if state.is_abnormal(n) && !is_deferred(state, code, n) {
        at_once(state, n)
    } else {
        usual(state, n)
    }
}

// That of one that is abnormal, where nothing defers it.
fn at_once(state: &State, n: usize) -> Turn
    ensures { (plan : Plan) → (code : Flat) → run.at_once plan (barrier_at code) (own_of n state.now).withdraw
        ≡ turned plan code n state.now result }
{
    match state.withdraw(n) {
        Some(object) => Turn::Withdrawing(object),
        None => Turn::Completing,
    }
}

// That of any other.
fn usual(state: &State, n: usize) -> Turn
    ensures { (plan : Plan) → (code : Flat) → usual_in plan code n state.now
        ≡ turned plan code n state.now result }
{
    match state.serving(n) {
        Some(servicing) => Turn::Serving(servicing),
        None => match state.status(n) {
            Status::Running => running(state, n),
            Status::Accepting | Status::Delaying => Turn::Expiring,
            Status::Calling => Turn::Cancelling,
            Status::Created | Status::Activating | Status::Completed | Status::Terminated => {
                Turn::Resting
            }
        },
    }
}

// That of one that runs.
fn running(state: &State, n: usize) -> Turn
    ensures { (plan : Plan) → (code : Flat) → run.running plan (barrier_at code) (own_of n state.now).restart
        (coming_in plan code n state.now) ≡ turned plan code n state.now result }
{
    match state.restart(n) {
        Some(restart) => Turn::Restarting(restart),
        None => Turn::Acting,
    }
}
