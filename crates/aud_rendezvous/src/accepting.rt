// Calls that are accepted (RM 9.5.2).

ghost use Rattle.std.specs.Prelude.{◌≡◌, ℕ, Bool, Result, OnOk};
ghost use Rattle.aud_text.specs.declared.raise.Raise.{Raise as RaiseOf};
ghost use Rattle.aud_typed.specs.Tree.{Plan};
ghost use Rattle.aud_meaning.specs.Evaluation.{Sight};
ghost use Rattle.aud_meaning.specs.Tasks as effect;
ghost use Rattle.aud_code.specs.Control.{going};

use aud_code::sound_code::SoundCode;
use aud_meaning::state::{OpenAccept, Status};
use aud_state::state::State;
use aud_state::task::Waits;
use std::alloc::{AllocError, Global};

/// The step accept: the oldest call of the entry is selected; where none is queued, the task waits for one.
///
/// # Errors
///
/// Where memory is refused. Nothing is said of the state then.
pub fn accept(
    state: &mut State,
    alloc: Global,
    code: &SoundCode,
    accept: OpenAccept,
    n: usize,
) -> Result<(), AllocError>
    ensures { OnOk result ((plan : Plan) → (barrier : ℕ → Sight → Result Bool RaiseOf) →
        state.new ≡ effect.accepts_call (going code.now) plan barrier accept n state.old) }
{
    match state.first_queued(n, accept.entry) {
        None => {
            let waits = Waits::for_accept(alloc, accept)?;
            state.wait(n, Status::Accepting, accept.at, waits);
            Ok(())
        }
        Some(id) => {
            meet(state, alloc, code, accept, id, n)?;
            Ok(())
        }
    }
}

/// A call is selected at an accept of a task. Where the accept does nothing, the call ends at once.
pub(crate) fn meet(
    state: &mut State,
    alloc: Global,
    code: &SoundCode,
    accept: OpenAccept,
    id: usize,
    n: usize,
) -> Result<(), AllocError>
    ensures { OnOk result ((plan : Plan) → (barrier : ℕ → Sight → Result Bool RaiseOf) →
        state.new ≡ effect.rendezvous (going code.now) plan barrier accept id n state.old) }
{
    state.select_call(id);
    match accept.region {
        None => {
            let values = state.all_values(alloc, id)?;
            state.resume(code, n, accept.alternative);
            state.succeed(code, &values, id);
            Ok(())
        }
        Some(region) => {
            let values = state.values(alloc, id)?;
            state.accept_body(code, n, accept.alternative);
            state.open_accept(alloc, n, id, region, accept.at, &values)?;
            Ok(())
        }
    }
}
