// What steps do with entries and with time (RM 9.5.2, 9.5.3, 9.6, 9.7).

ghost use Rattle.std.specs.Prelude.{◌≡◌, ◌≤◌, ℕ, length, IfOk, OnOk, Option};
ghost use Rattle.aud_typed.specs.Ties.View.{milliseconds_in, plain_program};
ghost use Rattle.aud_meaning.specs.Control.{accepts, delays, selects};
ghost use Rattle.aud_code.specs.Eval.{asked_end, form_in};
ghost use Rattle.aud_code.specs.Instruction.{CallTask};
ghost use Rattle.aud_code.specs.View.{plain_kind};
ghost use Rattle.aud_state.specs.Fast.{scene};
ghost use Rattle.aud_state.specs.View.{plain_waits};
ghost use Rattle.aud_tasks.specs.Acting.{DoesAsked};

use crate::compiled::Compiled;
use aud_calls::calls::NewCall;
use aud_code::line::CallKind;
use aud_expr::operands::Operands;
use aud_meaning::state::{Form, OpenAccept, Owner};
use aud_rendezvous::{accepting, calling};
use aud_select::{delaying, selecting};
use aud_state::state::State;
use aud_state::task::Waits;
use aud_store::target::Back;
use aud_text::int32::Int32;
use aud_text::place::Pos;
use aud_typed::program::Duration;
use std::alloc::{AllocError, Global};

/// A call of this entry of the task that is named.
pub(crate) fn call(
    state: &mut State,
    alloc: Global,
    compiled: Compiled<'_>,
    alternative: Option<usize>,
    n: usize,
    entry: usize,
    kind: CallKind,
    at: Pos,
    operands: &Operands,
) -> Result<(), AllocError>
    requires { 1 ≤ length operands.now.names }
    ensures { OnOk result (DoesAsked (plain_program compiled.entry.program.now).plan
        compiled.entry.code.now compiled.entry.limits alternative n
        (asked_end (CallTask entry (plain_kind kind)) 0 at (scene n state.old) operands.now)
        state.old state.new) }
{
    let task = operands.names()[0];
    let form = form_of(kind, state.clock(), operands.delay())?;
    let call = NewCall {
        caller: n,
        owner: Owner::Task(task),
        entry,
        values: copy_values(alloc, operands.values())?,
        backs: copy_backs(alloc, operands.backs())?,
        form,
        at,
    };
    calling::call(state, alloc, compiled.code, alternative, call, task)
}

/// How a call is made at this time, which waits for so long.
pub(crate) fn form_of(kind: CallKind, clock: u64, delay: Duration) -> Result<Form, AllocError>
    ensures { IfOk result (λ form. form ≡ form_in (plain_kind kind) clock (milliseconds_in delay)) }
{
    match kind {
        CallKind::Plain => Ok(Form::Plain),
        CallKind::Conditional => Ok(Form::Conditional(clock)),
        CallKind::Timed => {
            let time = clock.checked_add(delay.milliseconds()).ok_or(AllocError)?;
            Ok(Form::TimedTo(time))
        }
    }
}

pub(crate) fn copy_values(alloc: Global, values: &[Int32]) -> Result<Vec<Int32>, AllocError>
    ensures { IfOk result (λ copied. copied.items ≡ values.now) }
{
    let mut copied = Vec::new(alloc);
    copied.extend_from_slice(values)?;
    Ok(copied)
}

pub(crate) fn copy_backs(alloc: Global, backs: &[Back]) -> Result<Vec<Back>, AllocError>
    ensures { IfOk result (λ copied. copied.items ≡ backs.now) }
{
    let mut copied = Vec::new(alloc);
    copied.extend_from_slice(backs)?;
    Ok(copied)
}

/// A delay.
pub(crate) fn delay(
    state: &mut State,
    alloc: Global,
    compiled: Compiled<'_>,
    n: usize,
    at: Pos,
    operands: &Operands,
) -> Result<(), AllocError>
    ensures { OnOk result ((alternative : Option ℕ) →
        DoesAsked (plain_program compiled.entry.program.now).plan
        compiled.entry.code.now compiled.entry.limits alternative n
        (delays operands.now.delay at) state.old state.new) }
{
    let milliseconds = operands.delay().milliseconds();
    delaying::delay(state, alloc, compiled.code, milliseconds, at, n)
}

/// An accept.
pub(crate) fn accept(
    state: &mut State,
    alloc: Global,
    compiled: Compiled<'_>,
    n: usize,
    accept: OpenAccept,
) -> Result<(), AllocError>
    ensures { OnOk result ((alternative : Option ℕ) →
        DoesAsked (plain_program compiled.entry.program.now).plan
        compiled.entry.code.now compiled.entry.limits alternative n (accepts accept)
        state.old state.new) }
{
    accepting::accept(state, alloc, compiled.code, accept, n)
}

/// A selective accept.
pub(crate) fn select(
    state: &mut State,
    alloc: Global,
    compiled: Compiled<'_>,
    alternative: Option<usize>,
    n: usize,
    has_else: bool,
    at: Pos,
    operands: &Operands,
) -> Result<(), AllocError>
    ensures { OnOk result (DoesAsked (plain_program compiled.entry.program.now).plan
        compiled.entry.code.now compiled.entry.limits alternative n
        (selects has_else (record operands.now.waits { delays = operands.now.timed }) at)
        state.old state.new) }
{
    let waits = open_ones(alloc, operands)?;
    selecting::select(
        state,
        alloc,
        compiled.code,
        alternative,
        has_else,
        waits,
        at,
        n,
    )
}

// The alternatives that are open, with the times of their delays.
fn open_ones(alloc: Global, operands: &Operands) -> Result<Waits, AllocError>
    ensures { IfOk result (λ waits. plain_waits waits ≡
        record operands.now.waits { delays = operands.now.timed }) }
{
    let mut accepts = Vec::new(alloc);
    accepts.extend_from_slice(operands.accepts())?;
    let mut delays = Vec::new(alloc);
    delays.extend_from_slice(operands.timed())?;
    Ok(Waits {
        accepts,
        delays,
        terminate: operands.is_terminating(),
    })
}
