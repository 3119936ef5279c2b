// Bodies of objects that tasks enter (RM 9.5.1, 9.5.2).

ghost use Rattle.std.specs.Prelude.{◌≡◌, length, IfOk, OnOk};
ghost use Rattle.aud_meaning.specs.Parts.{object_of};
ghost use Rattle.aud_meaning.specs.Tasks as effect;
ghost use Rattle.aud_code.specs.Control.{going};
ghost use Rattle.aud_store.specs.Ties.Stored.{copies_of, plain_purpose};

use crate::barriers::Barriers;
use aud_code::sound_code::SoundCode;
use aud_meaning::state::Resumed;
use aud_state::state::State;
use aud_store::purpose::Purpose;
use aud_store::target::Back;
use aud_text::int32::Int32;
use aud_text::place::Pos;
use std::alloc::{AllocError, Global};

/// The frame of a body of an object is opened in a task, with these values of its formals. It sees the frames of a
/// display, and its own; these formals are copied back at its end.
pub(crate) fn open<B: Barriers>(
    state: &mut State,
    alloc: Global,
    code: &SoundCode,
    barriers: &B,
    purpose: Purpose,
    backs: &[Back],
    unit: usize,
    at: Pos,
    display: &[usize],
    values: &[Int32],
    n: usize,
) -> Result<(), AllocError>
    requires copies { copies_of purpose ≡ length backs.now }
    ensures { OnOk result (state.new ≡ effect.opens_for (going code.now) (B.plan barriers.now)
        (B.barrier barriers.now) (plain_purpose purpose backs.now) unit at display.now values.now n
        state.old) }
{
    let _ = code;
    let units = barriers.units();
    state.open_for(alloc, units, n, unit, purpose, backs, display, at, values)
}

/// The frames that the bodies of an object see, outermost first.
pub(crate) fn display_of(
    state: &State,
    alloc: Global,
    object: usize,
) -> Result<Vec<usize>, AllocError>
    ensures { IfOk result (λ display. display.items ≡ (object_of object state.now).display) }
{
    let display = Vec::from_slice(alloc, state.object_display(object))?;
    Ok(display)
}

/// The body of the entry of a call is entered by a task that has the object's action: the caller, or the one that
/// serves it. What the task waits for or has pending is set aside (RM 9.5.2(24), 9.5.3(14)).
pub(crate) fn enter_entry<B: Barriers>(
    state: &mut State,
    alloc: Global,
    code: &SoundCode,
    barriers: &B,
    served: bool,
    at: Pos,
    object: usize,
    id: usize,
    n: usize,
) -> Result<(), AllocError>
    ensures { OnOk result (state.new ≡ effect.enters_entry (going code.now) (B.plan barriers.now)
        (B.barrier barriers.now) served at object id n state.old) }
{
    let unit = barriers.body(state.call_entry(id));
    let values = state.values(alloc, id)?;
    let display = display_of(state, alloc, object)?;
    let resumed = Resumed {
        status: state.status(n),
        pending: state.pending(n),
    };
    let purpose = Purpose::Entry {
        object,
        call: id,
        served,
        resumed,
    };
    state.begin_entry(code, n, unit)?;
    open(
        state,
        alloc,
        code,
        barriers,
        purpose,
        &[],
        unit,
        at,
        &display,
        &values,
        n,
    )?;
    state.select_call(id);
    Ok(())
}
