// Calls of the entries, procedures and functions of objects (RM 9.5.1, 9.5.3).

ghost use Rattle.std.specs.Prelude.{◌≡◌, ◌+◌, ◌≤◌, ℕ, Bool, false, not, None, Result, Ok, OnOk, IfOk};
ghost use Rattle.aud_text.specs.declared.raise.Raise.{Raise as RaiseOf};
ghost use Rattle.aud_typed.specs.Tree.{Plan};
ghost use Rattle.aud_meaning.specs.Evaluation.{Sight};
ghost use Rattle.aud_meaning.specs.Orders.{Orders};
ghost use Rattle.aud_meaning.specs.Parts.{call_of, cancels, in_the_way, object_of, on_own};
ghost use Rattle.aud_meaning.specs.Tasks as effect;
ghost use Rattle.aud_code.specs.Control.{going};
ghost use Rattle.aud_code.specs.Places.{Spot};
ghost use Rattle.aud_store.specs.declared.purpose.Purpose.TheVariants.{Operation};
ghost use Rattle.aud_calls.specs.View.{made_call};
ghost use Rattle.aud_protected.specs.Counting.{most_asked};

use crate::barriers::Barriers;
use crate::entering::{display_of, enter_entry, open};
use crate::servicing::service;
use aud_calls::calls::NewCall;
use aud_code::sound_code::SoundCode;
use aud_meaning::state::{Form, Owner, Restart};
use aud_state::state::State;
use aud_store::purpose::{Purpose, Returns};
use aud_store::target::{Back, Target};
use aud_text::int32::Int32;
use aud_text::place::Pos;
use aud_text::raise::Raise;
use aud_typed::program::Exception;
use std::alloc::{AllocError, Global};

/// A task calls an entry of an object. Where the barrier holds, the task itself enters the body; else the call is
/// queued and the object serviced, or a conditional call's else part is taken. Within another protected action it
/// raises Program_Error, where there is no room for the body's frame Storage_Error, and Program_Error in all calls on
/// the object where the barrier raises an exception (RM 9.5.3(7 to 12), 9.5.1(8 to 16)).
///
/// # Errors
///
/// Where memory is refused. Nothing is said of the state then.
pub fn call<B: Barriers>(
    state: &mut State,
    alloc: Global,
    code: &SoundCode,
    barriers: &mut B,
    call: NewCall,
    object: usize,
) -> Result<(), AllocError>
    ensures of_one { B.plan barriers.new ≡ B.plan barriers.old }
    ensures kept { B.barrier barriers.new ≡ B.barrier barriers.old }
    ensures costs { B.cost barriers.new ≡ B.cost barriers.old }
    ensures few { IfOk result (λ _. B.spent barriers.new ≤ B.spent barriers.old
        + B.cost barriers.old call.entry
        + most_asked (B.cost barriers.old) (B.plan barriers.old)) }
    ensures does { OnOk result (state.new ≡ effect.calls_object (going code.now)
        (B.plan barriers.old) (B.barrier barriers.old) (made_call call) object state.old) }
{
    let n = call.caller;
    let at = call.at;
    if state.in_action(n) {
        state.raise(n, Exception::Predefined(Raise::Program), at);
        return Ok(());
    }
    if !state.has_room(n) {
        state.raise(n, Exception::Predefined(Raise::Storage), at);
        return Ok(());
    }
    let met = barriers.barrier(state, object, call.entry)?;
    let id = state.make_call(call)?;
    state.stand_at_call(n, id, at);
    state.begin_action(n, object, false)?;
    meet(state, alloc, code, barriers, met, at, object, id, n)?;
    Ok(())
}

/// The step start of a task whose accept makes a call again on an object: where the barrier holds, the task itself enters the body;
/// else the call is queued and the object serviced. It is cancelled where its caller is abnormal and it does not stay (RM 9.5.4(13, 17)).
///
/// # Errors
///
/// Where memory is refused. Nothing is said of the state then.
pub fn start_again<B: Barriers>(
    state: &mut State,
    alloc: Global,
    code: &SoundCode,
    barriers: &mut B,
    restart: Restart,
    n: usize,
) -> Result<(), AllocError>
    ensures of_one { B.plan barriers.new ≡ B.plan barriers.old }
    ensures kept { B.barrier barriers.new ≡ B.barrier barriers.old }
    ensures costs { B.cost barriers.new ≡ B.cost barriers.old }
    ensures few { IfOk result (λ _. B.spent barriers.new ≤ B.spent barriers.old
        + B.cost barriers.old (call_of restart.call state.old).entry
        + most_asked (B.cost barriers.old) (B.plan barriers.old)) }
    ensures does { OnOk result (state.new ≡ effect.starts_again (going code.now)
        (B.plan barriers.old) (B.barrier barriers.old) restart n state.old) }
{
    let id = restart.call;
    let object = restart.object;
    if state.is_lost(id) {
        lose(state, id, n);
        return Ok(());
    }
    let met = barriers.barrier(state, object, state.call_entry(id))?;
    state.clear_restart(n);
    state.call_on(id, Owner::Object(object))?;
    state.begin_action(n, object, false)?;
    meet(state, alloc, code, barriers, met, restart.at, object, id, n)?;
    Ok(())
}

// A call that a task was to make again is cancelled instead.
fn lose(state: &mut State, id: usize, n: usize)
    ensures { state.new ≡ cancels id (on_own n (λ own. record own { restart = None }) state.old) }
{
    state.clear_restart(n);
    state.cancel_call(id);
}

// A call is made on an entry with this barrier, by a task that has the object's action.
fn meet<B: Barriers>(
    state: &mut State,
    alloc: Global,
    code: &SoundCode,
    barriers: &mut B,
    met: Result<bool, Raise>,
    at: Pos,
    object: usize,
    id: usize,
    n: usize,
) -> Result<(), AllocError>
    ensures of_one { B.plan barriers.new ≡ B.plan barriers.old }
    ensures kept { B.barrier barriers.new ≡ B.barrier barriers.old }
    ensures costs { B.cost barriers.new ≡ B.cost barriers.old }
    ensures few { IfOk result (λ _. B.spent barriers.new ≤ B.spent barriers.old
        + most_asked (B.cost barriers.old) (B.plan barriers.old)) }
    ensures does { OnOk result (state.new ≡ effect.barrier_met (going code.now) (B.plan barriers.old)
        (B.barrier barriers.old) met at object id n state.old) }
{
    match met {
        Err(_) => {
            let calls = state.queued_on_object(alloc, object)?;
            state.caller_fails(code, id, Exception::Predefined(Raise::Program));
            state.refuse(code, Raise::Program, &calls);
            state.end_action(n, object);
            Ok(())
        }
        Ok(true) => enter_entry(state, alloc, code, barriers, false, at, object, id, n),
        Ok(false) => wait(state, alloc, code, barriers, at, object, id, n),
    }
}

// A call on an entry whose barrier does not hold is queued, or its else part is taken (RM 9.7.3(3)).
fn wait<B: Barriers>(
    state: &mut State,
    alloc: Global,
    code: &SoundCode,
    barriers: &mut B,
    at: Pos,
    object: usize,
    id: usize,
    n: usize,
) -> Result<(), AllocError>
    ensures of_one { B.plan barriers.new ≡ B.plan barriers.old }
    ensures kept { B.barrier barriers.new ≡ B.barrier barriers.old }
    ensures costs { B.cost barriers.new ≡ B.cost barriers.old }
    ensures few { IfOk result (λ _. B.spent barriers.new ≤ B.spent barriers.old
        + most_asked (B.cost barriers.old) (B.plan barriers.old)) }
    ensures does { OnOk result (state.new ≡ effect.barrier_met (going code.now) (B.plan barriers.old)
        (B.barrier barriers.old) (Ok false) at object id n state.old) }
{
    if is_conditional(state.call_form(id)) {
        state.resume(code, n, 1);
        state.cancel_call(id);
        state.end_action(n, object);
        return Ok(());
    }
    state.arrive(id)?;
    service(state, alloc, code, barriers, object, at, n)?;
    Ok(())
}

// Whether a call of this form has an else part.
fn is_conditional(form: Form) -> bool
    ensures { (go : Orders Spot) → (plan : Plan) → (barrier : ℕ → Sight → Result Bool RaiseOf) →
        result ≡ effect.is_conditional go plan barrier form }
{
    match form {
        Form::Conditional(_) => true,
        Form::Plain | Form::TimedTo(_) => false,
    }
}

/// A task calls a procedure or function of an object, with these values of its formals; these are copied back at its
/// end, and a function's value is assigned to a target. On an object on which it has an action it raises Program_Error,
/// where there is no room for the body's frame Storage_Error (RM 9.5.1(3 to 6)). Another task's action must not be in
/// the way.
///
/// # Errors
///
/// Where memory is refused. Nothing is said of the state then.
pub fn start<B: Barriers>(
    state: &mut State,
    alloc: Global,
    code: &SoundCode,
    barriers: &B,
    at: Pos,
    object: usize,
    unit: usize,
    values: &[Int32],
    backs: &[Back],
    into: Option<Target>,
    n: usize,
) -> Result<(), AllocError>
    ensures { OnOk result (state.new ≡ effect.calls_operation (going code.now)
        (B.plan barriers.now) (B.barrier barriers.now) at object unit
        (record { values = values.now; backs = backs.now }) into n state.old) }
{
    if state.acts_on(n, object) {
        state.raise(n, Exception::Predefined(Raise::Program), at);
        return Ok(());
    }
    if !state.has_room(n) {
        state.raise(n, Exception::Predefined(Raise::Storage), at);
        return Ok(());
    }
    let is_function = barriers.is_function(unit);
    let purpose = operation(object, is_function, backs.len(), into);
    let display = display_of(state, alloc, object)?;
    state.enter(code, n, unit)?;
    open(
        state, alloc, code, barriers, purpose, backs, unit, at, &display, values, n,
    )?;
    state.begin_action(n, object, is_function)
}

/// Whether a call of an object may begin: no action of another task is in its way; functions may run together (RM 9.5.1(4 to 6)).
pub fn may_begin(state: &State, task: usize, is_function: bool, object: usize) -> bool
    ensures { result ≡ not (in_the_way task is_function (object_of object state.now)) }
{
    !state.is_in_the_way(task, is_function, object)
}

// What the frame of a procedure or function of an object is opened for.
fn operation(object: usize, is_function: bool, backs: usize, into: Option<Target>) -> Purpose
    ensures { result ≡ Operation object
        (record { is_function = is_function; backs = backs; into = into; value = None }) }
{
    Purpose::Operation {
        object,
        returns: Returns {
            is_function,
            backs,
            into,
            value: None,
        },
    }
}
