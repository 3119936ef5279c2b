// The step call (RM 9.5.3(8 to 12), 9.5.1(8 to 16)).

ghost use Rattle.std.specs.Prelude.{◌≡◌, [], ℕ, Bool, Option, Result, OnOk};
ghost use Rattle.aud_text.specs.declared.raise.Raise.{Raise as RaiseOf};
ghost use Rattle.aud_typed.specs.Tree.{Plan};
ghost use Rattle.aud_meaning.specs.Evaluation.{Sight};
ghost use Rattle.aud_meaning.specs.Orders.{Orders};
ghost use Rattle.aud_meaning.specs.Tasks as effect;
ghost use Rattle.aud_code.specs.Control.{going};
ghost use Rattle.aud_code.specs.Places.{Spot};
ghost use Rattle.aud_calls.specs.View.{made_call};

use crate::accepting::meet;
use aud_calls::calls::NewCall;
use aud_code::sound_code::SoundCode;
use aud_meaning::state::Form;
use aud_state::state::State;
use aud_text::raise::Raise;
use aud_typed::program::Exception;
use std::alloc::{AllocError, Global};

/// A task calls another one's entry. Where the entry is open, the call is selected at once: at the alternative of this
/// number, or else at the first. Where it is not, it is queued, or a conditional call's else part is taken. In a
/// protected action it raises Program_Error, and Tasking_Error where the task called is completed, terminated or
/// abnormal.
///
/// # Errors
///
/// Where memory is refused. Nothing is said of the state then.
pub fn call(
    state: &mut State,
    alloc: Global,
    code: &SoundCode,
    alternative: Option<usize>,
    call: NewCall,
    task: usize,
) -> Result<(), AllocError>
    ensures { OnOk result ((plan : Plan) → (barrier : ℕ → Sight → Result Bool RaiseOf) →
        state.new ≡ effect.calls_task (going code.now) plan barrier alternative
        (made_call call) task state.old) }
{
    let caller = call.caller;
    let at = call.at;
    if state.in_action(caller) {
        state.raise(caller, Exception::Predefined(Raise::Program), at);
        return Ok(());
    }
    if !state.is_callable(task) {
        state.raise(caller, Exception::Predefined(Raise::Tasking), at);
        return Ok(());
    }
    match state.open_alternative(task, call.entry, alternative) {
        None => {
            wait(state, code, call)?;
            Ok(())
        }
        Some(accept) => {
            let id = state.make_call(call)?;
            state.stand_at_call(caller, id, at);
            meet(state, alloc, code, accept, id, task)?;
            Ok(())
        }
    }
}

// A call on an entry that isn't open is queued, or its else part is taken (RM 9.7.3(3)).
fn wait(state: &mut State, code: &SoundCode, call: NewCall) -> Result<(), AllocError>
    ensures { OnOk result ((plan : Plan) → (barrier : ℕ → Sight → Result Bool RaiseOf) →
        (alternative : Option ℕ) → (task : ℕ) →
        state.new ≡ effect.calls_open (going code.now) plan barrier alternative []
        (made_call call) task state.old) }
{
    let caller = call.caller;
    let at = call.at;
    if is_conditional(call.form) {
        state.take(code, caller, 1);
        return Ok(());
    }
    let id = state.make_call(call)?;
    state.stand_at_call(caller, id, at);
    state.arrive(id)?;
    Ok(())
}

// Whether a call of this form has an else part.
fn is_conditional(form: Form) -> bool
    ensures { (go : Orders Spot) → (plan : Plan) → (barrier : ℕ → Sight → Result Bool RaiseOf) →
        result ≡ effect.is_conditional go plan barrier form }
{
    match form {
        Form::Conditional(_) => true,
        Form::Plain | Form::TimedTo(_) => false,
    }
}
