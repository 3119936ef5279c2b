// Calls of protected entries that are cancelled (RM 9.7.2(4)).

ghost use Rattle.std.specs.Prelude.{◌≡◌, ◌+◌, ◌≤◌, OnOk, IfOk};
ghost use Rattle.aud_meaning.specs.Tasks as effect;
ghost use Rattle.aud_code.specs.Control.{going};
ghost use Rattle.aud_protected.specs.Counting.{most_asked};

use crate::barriers::Barriers;
use crate::servicing::service;
use aud_code::sound_code::SoundCode;
use aud_meaning::state::Owner;
use aud_state::state::State;
use aud_text::place::Pos;
use std::alloc::{AllocError, Global};

/// A call that was queued on a task or an object is cancelled: an object is serviced by the task that has made the call
/// (RM 9.5.3(20)).
///
/// # Errors
///
/// Where memory is refused. Nothing is said of the state then.
pub fn cancel<B: Barriers>(
    state: &mut State,
    alloc: Global,
    code: &SoundCode,
    barriers: &mut B,
    owner: Owner,
    at: Pos,
    n: usize,
) -> Result<(), AllocError>
    ensures of_one { B.plan barriers.new ≡ B.plan barriers.old }
    ensures kept { B.barrier barriers.new ≡ B.barrier barriers.old }
    ensures costs { B.cost barriers.new ≡ B.cost barriers.old }
    ensures few { IfOk result (λ _. B.spent barriers.new ≤ B.spent barriers.old
        + most_asked (B.cost barriers.old) (B.plan barriers.old)) }
    ensures does { OnOk result (state.new ≡ effect.cancelled_on (going code.now)
        (B.plan barriers.old) (B.barrier barriers.old) owner at n state.old) }
{
    match owner {
        Owner::Task(_) => Ok(()),
        Owner::Object(object) => {
            state.begin_action(n, object, false)?;
            service(state, alloc, code, barriers, object, at, n)
        }
    }
}

/// The time of a task's own call has come, which is queued still: the call is cancelled, and the task goes on with the delay part
/// (RM 9.7.2(4)).
///
/// # Errors
///
/// Where memory is refused. Nothing is said of the state then.
pub fn expire<B: Barriers>(
    state: &mut State,
    alloc: Global,
    code: &SoundCode,
    barriers: &mut B,
    n: usize,
) -> Result<(), AllocError>
    ensures of_one { B.plan barriers.new ≡ B.plan barriers.old }
    ensures kept { B.barrier barriers.new ≡ B.barrier barriers.old }
    ensures costs { B.cost barriers.new ≡ B.cost barriers.old }
    ensures few { IfOk result (λ _. B.spent barriers.new ≤ B.spent barriers.old
        + most_asked (B.cost barriers.old) (B.plan barriers.old)) }
    ensures does { OnOk result (state.new ≡ effect.call_expires (going code.now)
        (B.plan barriers.old) (B.barrier barriers.old) n state.old) }
{
    let id = state.call(n);
    let owner = state.call_owner(id);
    let at = state.call_at(id);
    state.resume(code, n, 1);
    state.cancel_call(id);
    cancel(state, alloc, code, barriers, owner, at, n)
}
