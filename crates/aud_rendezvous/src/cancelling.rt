// Calls that are cancelled (RM 9.5.3(20)).

ghost use Rattle.std.specs.Prelude.{◌≡◌};
ghost use Rattle.aud_meaning.specs.Parts.{cancels};

use aud_state::state::State;

/// A queued call is cancelled, and leaves its queue. Where that is of an object, its servicing is the business of whoever cancels.
pub fn cancel(state: &mut State, id: usize)
    ensures { state.new ≡ cancels id state.old }
{
    state.cancel_call(id);
}
