// Completion (RM 9.3(5), 9.5.2(25), 9.5.3(21)).

ghost use Rattle.std.specs.Prelude.{◌≡◌, ℕ, Bool, Result, OnOk};
ghost use Rattle.aud_text.specs.declared.raise.Raise.{Raise as RaiseOf};
ghost use Rattle.aud_typed.specs.Tree.{Plan};
ghost use Rattle.aud_meaning.specs.Evaluation.{Sight};
ghost use Rattle.aud_meaning.specs.Tasks as effect;
ghost use Rattle.aud_code.specs.Control.{going};

use crate::activation::end_activation;
use crate::ending::terminate_all;
use aud_code::sound_code::SoundCode;
use aud_state::state::State;
use aud_text::raise::Raise;
use aud_typed::program::Exception;
use std::alloc::{AllocError, Global};

/// The step complete: a task's body has ended, by an exception or without one.
///
/// # Errors
///
/// Where memory is refused. Nothing is said of the state then.
pub fn complete(
    state: &mut State,
    alloc: Global,
    code: &SoundCode,
    task: usize,
    raised: Option<Exception>,
) -> Result<(), AllocError>
    ensures { OnOk result ((plan : Plan) → (barrier : ℕ → Sight → Result Bool RaiseOf) →
        state.new ≡ effect.completes (going code.now) plan barrier raised task state.old) }
{
    let accepts = state.accepts_under_way(alloc, task)?;
    let parts = state.frames(alloc, task)?;
    let created = state.created_in(alloc, &parts)?;
    state.complete_own(task, raised);
    state.refuse(code, Raise::Tasking, &accepts);
    state.refuse_queues(alloc, code, task)?;
    terminate_all(state, alloc, code, &created)?;
    end_activation(state, code, task, raised.is_some());
    Ok(())
}
