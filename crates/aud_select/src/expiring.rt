// Delays whose time has come (RM 9.6, 9.7.1).

ghost use Rattle.std.specs.Prelude.{◌≡◌, ℕ, Bool, Result, nat_le};
ghost use Rattle.aud_text.specs.declared.raise.Raise.{Raise as RaiseOf};
ghost use Rattle.aud_typed.specs.Tree.{Plan};
ghost use Rattle.aud_meaning.specs.Evaluation.{Sight};
ghost use Rattle.aud_meaning.specs.Tasks as effect;
ghost use Rattle.aud_code.specs.Control.{going};

use aud_code::sound_code::SoundCode;
use aud_meaning::state::OpenDelay;
use aud_state::state::State;

/// Whether the time of a delay has come.
pub fn expired(delay: &OpenDelay, clock: u64) -> bool
    ensures { result ≡ nat_le delay.now.time clock }
{
    delay.time <= clock
}

/// A delay's time has come: what follows its alternative follows, or what follows the statement where that is 0.
pub fn undelay(state: &mut State, code: &SoundCode, alternative: usize, n: usize)
    ensures { (plan : Plan) → (barrier : ℕ → Sight → Result Bool RaiseOf) →
        state.new ≡ effect.delay_expires (going code.now) plan barrier alternative n state.old }
{
    state.resume(code, n, alternative);
}
