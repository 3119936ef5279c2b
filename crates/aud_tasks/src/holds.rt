// What keeps tasks from going on.

ghost use Rattle.std.specs.Prelude.{◌≡◌, ◌<◌, length, not};
ghost use Rattle.aud_typed.specs.Ties.View.{plain_program};
ghost use Rattle.aud_meaning.specs.Listings.Waits.{acting_hold, blocked_hold, leaving_hold, master_if, object_if, resting_hold};
ghost use Rattle.aud_meaning.specs.Parts.{in_the_way, is_idle, object_of, own_of, Closable};
ghost use Rattle.aud_tasks.specs.Held.{hold_in, plain_hold};
ghost use Rattle.aud_tasks.specs.Turning.{coming_in};

use crate::choice::start_at;
use crate::compiled::Compiled;
use crate::turn::{Turn, turn_of};
use aud_masters::ending::closable;
use aud_meaning::state::Status;
use aud_protected::starting::may_begin;
use aud_state::state::State;

/// What keeps a task from going on: its entry call; it is blocked at an accept or at a delay; an action of another task on an object
/// is in the way; others depend on a master, which is named by its frame; or it waits for activations.
#[derive(Clone, Copy)]
pub enum Hold {
    Nothing,
    Call(usize),
    Accept,
    Delay,
    Object(usize),
    Master(usize),
    Activation,
}

/// What keeps the task of this number, counted from 0.
pub fn hold_of(state: &State, compiled: Compiled<'_>, task: usize) -> Hold
    ensures { plain_hold result ≡ hold_in (plain_program compiled.entry.program.now).plan
        compiled.entry.code.now task state.now }
{
    match turn_of(state, compiled.code, task) {
        Turn::Resting => resting(state.status(task)),
        Turn::Closing => at_master(state, state.body_master(task)),
        Turn::Completing => Hold::Nothing,
        Turn::Withdrawing(object) => withdrawing(state, object),
        Turn::Serving(_) => Hold::Nothing,
        Turn::Restarting(restart) => at_object(state, task, false, restart.object),
        Turn::Expiring => blocked(state.status(task)),
        Turn::Cancelling => Hold::Call(state.call(task)),
        Turn::Acting => acting(state, compiled, task),
    }
}

// What keeps one that rests.
fn resting(status: Status) -> Hold
    ensures { plain_hold result ≡ resting_hold status }
{
    match status {
        Status::Activating => Hold::Activation,
        Status::Created
        | Status::Running
        | Status::Accepting
        | Status::Delaying
        | Status::Calling
        | Status::Completed
        | Status::Terminated => Hold::Nothing,
    }
}

// What keeps one that waits for a time, or for a call.
fn blocked(status: Status) -> Hold
    ensures { plain_hold result ≡ blocked_hold status }
{
    match status {
        Status::Accepting => Hold::Accept,
        Status::Delaying => Hold::Delay,
        Status::Created
        | Status::Running
        | Status::Activating
        | Status::Calling
        | Status::Completed
        | Status::Terminated => Hold::Nothing,
    }
}

// What keeps one at the end of a master.
fn at_master(state: &State, master: usize) -> Hold
    ensures { plain_hold result ≡ master_if (not (Closable master state.now)) master }
{
    if closable(state, master) {
        Hold::Nothing
    } else {
        Hold::Master(master)
    }
}

// What keeps one that is to begin an action on an object.
fn at_object(state: &State, task: usize, reading: bool, object: usize) -> Hold
    ensures { plain_hold result
        ≡ object_if (in_the_way task reading (object_of object state.now)) object }
{
    if may_begin(state, task, reading, object) {
        Hold::Nothing
    } else {
        Hold::Object(object)
    }
}

// What keeps one that withdraws from an object.
fn withdrawing(state: &State, object: usize) -> Hold
    ensures { plain_hold result ≡ object_if (not (is_idle (object_of object state.now))) object }
{
    if state.is_idle(object) {
        Hold::Nothing
    } else {
        Hold::Object(object)
    }
}

// What keeps one whose statements go on.
fn acting(state: &State, compiled: Compiled<'_>, task: usize) -> Hold
    requires { task < length state.now.tasks }
    ensures { let plan = (plain_program compiled.entry.program.now).plan in
        let code = compiled.entry.code.now in plain_hold result
        ≡ acting_hold (coming_in plan code task state.now) task (own_of task state.now) state.now }
{
    match start_at(state, compiled, task) {
        Some(start) => at_object(state, task, start.reading, start.object),
        None => leaving(state, state.master_left(compiled.code, task)),
    }
}

// What keeps one that leaves this master, if it leaves one.
fn leaving(state: &State, master: Option<usize>) -> Hold
    ensures { plain_hold result ≡ leaving_hold master state.now }
{
    match master {
        Some(master) => at_master(state, master),
        None => Hold::Nothing,
    }
}
