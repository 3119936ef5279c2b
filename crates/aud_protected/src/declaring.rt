// Objects that are declared (RM 9.4).

ghost use Rattle.std.specs.Prelude.{◌≡◌, ℕ, suc, Bool, Result, OnOk, length, nat_le};
ghost use Rattle.aud_text.specs.declared.limits.TheConstants.{OBJECTS};
ghost use Rattle.aud_text.specs.declared.raise.Raise.{Raise as RaiseOf};
ghost use Rattle.aud_typed.specs.Tree.{Plan};
ghost use Rattle.aud_meaning.specs.Evaluation.{Sight};
ghost use Rattle.aud_meaning.specs.Step as step;
ghost use Rattle.aud_code.specs.Control.{going};

use aud_code::sound_code::SoundCode;
use aud_masters::activation::raise_in_part;
use aud_state::state::State;
use aud_text::int32::Int32;
use aud_text::limits::OBJECTS;
use aud_text::place::Pos;
use aud_text::raise::Raise;
use std::alloc::{AllocError, Global};

/// The step declaration of an object with these cells of its components: it is created, and its number is the next
/// variable of the task's innermost frame. Past the limit it raises Storage_Error.
///
/// # Errors
///
/// Where memory is refused. Nothing is said of the state then.
pub fn declare(
    state: &mut State,
    alloc: Global,
    code: &SoundCode,
    at: Pos,
    declaration: usize,
    cells: &[Int32],
    n: usize,
) -> Result<(), AllocError>
    ensures { OnOk result ((plan : Plan) → (barrier : ℕ → Sight → Result Bool RaiseOf) →
        state.new ≡ step.object_declared (going code.now) plan barrier at declaration cells.now n
        state.old) }
{
    if !is_allowed(state) {
        raise_in_part(state, alloc, code, n, Raise::Storage, at)?;
        return Ok(());
    }
    let number = state.objects();
    state.create_object(alloc, declaration, cells, n)?;
    state.declare_tasks(alloc, n, number, 1)?;
    state.take(code, n, 0);
    Ok(())
}

// Whether there may be one object more.
fn is_allowed(state: &State) -> bool
    ensures { result ≡ nat_le (suc (length state.now.shared.objects)) OBJECTS }
{
    state.objects() < OBJECTS as usize
}
