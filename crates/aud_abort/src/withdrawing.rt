// Abnormal tasks that withdraw from objects (RM 9.8(15)).

ghost use Rattle.std.specs.Prelude.{◌≡◌, ◌+◌, ◌≤◌, OnOk, IfOk};
ghost use Rattle.aud_meaning.specs.Tasks as effect;
ghost use Rattle.aud_code.specs.Control.{going};
ghost use Rattle.aud_protected.specs.Counting.{most_asked};

use aud_code::sound_code::SoundCode;
use aud_protected::barriers::Barriers;
use aud_protected::servicing::service;
use aud_state::state::State;
use std::alloc::{AllocError, Global};

/// The step withdraw of a task that was aborted while its call was queued on an object: it services the object (RM 9.8(15)).
///
/// # Errors
///
/// Where memory is refused. Nothing is said of the state then.
pub fn withdraw<B: Barriers>(
    state: &mut State,
    alloc: Global,
    code: &SoundCode,
    barriers: &mut B,
    object: usize,
    n: usize,
) -> Result<(), AllocError>
    ensures of_one { B.plan barriers.new ≡ B.plan barriers.old }
    ensures kept { B.barrier barriers.new ≡ B.barrier barriers.old }
    ensures costs { B.cost barriers.new ≡ B.cost barriers.old }
    ensures few { IfOk result (λ _. B.spent barriers.new ≤ B.spent barriers.old
        + most_asked (B.cost barriers.old) (B.plan barriers.old)) }
    ensures does { OnOk result (state.new ≡ effect.withdraws (going code.now) (B.plan barriers.old)
        (B.barrier barriers.old) object n state.old) }
{
    let at = state.blocked_at(n);
    state.clear_withdraw(n);
    state.begin_action(n, object, false)?;
    service(state, alloc, code, barriers, object, at, n)?;
    Ok(())
}
