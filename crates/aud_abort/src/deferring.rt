// Abort-deferred regions (RM 9.8(6 to 11)).

ghost use Rattle.std.specs.Prelude.{◌≡◌, ◌||◌, is_some};
ghost use Rattle.aud_typed.specs.Tree.{Plan};
ghost use Rattle.aud_meaning.specs.Parts.{own_of};
ghost use Rattle.aud_meaning.specs.Run.{is_leave};
ghost use Rattle.aud_abort.specs.Deferring.{bound_in, coming_in, deferred_in};

use aud_code::sound_code::SoundCode;
use aud_meaning::state::Status;
use aud_state::state::State;

/// Whether abort is deferred: an action of the task is under way, its call is selected or stays on its queue, or it makes another
/// task's call again or is at the end of a master.
pub fn is_deferred(state: &State, code: &SoundCode, n: usize) -> bool
    ensures { (plan : Plan) → result ≡ deferred_in plan code.now n state.now }
{
    if state.in_action(n) {
        return true;
    }
    is_bound(state, code, n)
}

// Whether its call is selected or stays on its queue, or it makes another task's call again or is at the end of a master.
fn is_bound(state: &State, code: &SoundCode, n: usize) -> bool
    ensures { (plan : Plan) → result ≡ bound_in plan code.now n state.now }
{
    match state.status(n) {
        Status::Running => is_leaving(state, code, n),
        Status::Calling => state.is_bound_call(n),
        Status::Created
        | Status::Activating
        | Status::Accepting
        | Status::Delaying
        | Status::Completed
        | Status::Terminated => false,
    }
}

// Whether a task makes another one's call again, or is at the end of a master.
fn is_leaving(state: &State, code: &SoundCode, n: usize) -> bool
    ensures { (plan : Plan) → result ≡ (is_some (own_of n state.now).restart
        || is_leave (coming_in plan code.now n state.now) (own_of n state.now)) }
{
    match state.restart(n) {
        Some(_) => true,
        None => state.master_left(code, n).is_some(),
    }
}
