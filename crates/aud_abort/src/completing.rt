// Abnormal tasks that complete (RM 9.8(15 to 19)).

ghost use Rattle.std.specs.Prelude.{◌≡◌, ℕ, None, Bool, Result, OnOk};
ghost use Rattle.aud_text.specs.declared.raise.Raise.{Raise as RaiseOf};
ghost use Rattle.aud_typed.specs.Tree.{Plan};
ghost use Rattle.aud_meaning.specs.Evaluation.{Sight};
ghost use Rattle.aud_meaning.specs.Tasks as effect;
ghost use Rattle.aud_code.specs.Control.{going};

use aud_code::sound_code::SoundCode;
use aud_masters::completion::complete;
use aud_state::state::State;
use std::alloc::{AllocError, Global};

/// The step complete of an abnormal task, wherever it stands.
///
/// # Errors
///
/// Where memory is refused. Nothing is said of the state then.
pub fn complete_abnormal(
    state: &mut State,
    alloc: Global,
    code: &SoundCode,
    n: usize,
) -> Result<(), AllocError>
    ensures { OnOk result ((plan : Plan) → (barrier : ℕ → Sight → Result Bool RaiseOf) →
        state.new ≡ effect.completes (going code.now) plan barrier None n state.old) }
{
    complete(state, alloc, code, n, None)
}
