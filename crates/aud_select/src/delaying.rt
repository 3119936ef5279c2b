// Delays (RM 9.6).

ghost use Rattle.std.specs.Prelude.{◌≡◌, ◌+◌, ℕ, Bool, Result, IfOk, OnOk};
ghost use Rattle.aud_text.specs.declared.raise.Raise.{Raise as RaiseOf};
ghost use Rattle.aud_typed.specs.Tree.{Plan};
ghost use Rattle.aud_meaning.specs.Evaluation.{Sight};
ghost use Rattle.aud_meaning.specs.Tasks as effect;
ghost use Rattle.aud_code.specs.Control.{going};

use aud_code::sound_code::SoundCode;
use aud_meaning::state::{OpenDelay, Status};
use aud_state::state::State;
use aud_state::task::Waits;
use aud_text::place::Pos;
use aud_text::raise::Raise;
use aud_typed::program::Exception;
use std::alloc::{AllocError, Global};

/// The step delay, of so many milliseconds: the task waits until that time, or goes on at once where there are none. In
/// a protected action it raises Program_Error (RM 9.5.1(8 to 16)).
///
/// # Errors
///
/// Where memory is refused, or no number of 64 bits is that time. Nothing is said of the state then.
pub fn delay(
    state: &mut State,
    alloc: Global,
    code: &SoundCode,
    milliseconds: u64,
    at: Pos,
    n: usize,
) -> Result<(), AllocError>
    ensures { OnOk result ((plan : Plan) → (barrier : ℕ → Sight → Result Bool RaiseOf) →
        state.new ≡ effect.delays_for (going code.now) plan barrier milliseconds at n
        state.old) }
{
    if state.in_action(n) {
        state.raise(n, Exception::Predefined(Raise::Program), at);
        return Ok(());
    }
    if milliseconds == 0 {
        state.take(code, n, 0);
        return Ok(());
    }
    let time = time_after(state, milliseconds)?;
    let delay = OpenDelay {
        alternative: 0,
        time,
    };
    let waits = Waits::for_delay(alloc, delay)?;
    state.wait(n, Status::Delaying, at, waits);
    Ok(())
}

// The time so many milliseconds from now.
fn time_after(state: &State, milliseconds: u64) -> Result<u64, AllocError>
    ensures { IfOk result (λ time. time ≡ state.now.clock + milliseconds) }
{
    state.clock().checked_add(milliseconds).ok_or(AllocError)
}
