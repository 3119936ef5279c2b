// Why tasks wait, and for whom.

ghost use Rattle.std.specs.Prelude.{◌≡◌, ◌∷◌, ◌++◌, [], suc, codes, IfOk};
ghost use Rattle.std.specs.Fmt.{decimal};
ghost use Rattle.aud_text.specs.Ties.Adds.{Adds};
ghost use Rattle.aud_typed.specs.Ties.View.{plain_program};
ghost use Rattle.aud_meaning.specs.Listings.{view, view_at};
ghost use Rattle.aud_meaning.specs.Listings.Values.{numbered, spaced};
ghost use Rattle.aud_meaning.specs.Listings.Waits.{accept_words, again_by, again_on, call_reasons, delay_behind, delay_reasons, entry_words, expiry, hold_reasons, is_awaited, is_this, object_words, owner_words, raised_reasons, terminate_words, times};
ghost use Rattle.aud_meaning.specs.Run.{call_time_by};
ghost use Rattle.aud_meaning.specs.declared.state.CallState.TheVariants.{Queued, Selected};
ghost use Rattle.aud_meaning.specs.Parts.{call_of, depends, is_terminated, numbers, own_of, owns};
ghost use Rattle.aud_code.specs.Flat.{flat_controls};
ghost use Rattle.aud_machine.specs.Shown.{program_in};
ghost use Rattle.aud_machine.specs.Shows.{IfShows};
ghost use Rattle.aud_machine.specs.Tasking.{hold_in};
ghost use Rattle.aud_debug.specs.Listed.{as_lines};
ghost use Rattle.aud_debug.specs.Ties.Pages.{AddsLines};
ghost use Rattle.aud_debug.specs.Ties.Watched.{accept_line, first_of, number_if, raised_line, reasons_in, sooner, told_of};

use crate::declared::{entry_name, exception_name, object_name};
use crate::lines::Lines;
use crate::names::{number_of, push_name, push_task};
use crate::page::Page;
use aud_machine::compiled::Compiled;
use aud_machine::holds::{Hold, hold_of};
use aud_machine::machine::Machine;
use aud_meaning::state::{CallState, Form, OpenAccept, OpenDelay, Owner, Restart, Status};
use aud_state::state::State;
use aud_text::digits::push_decimal;
use aud_typed::program::Exception;
use std::alloc::{AllocError, Global};

/// Why tasks wait, and for whom, by their numbers: one line a reason.
pub(crate) fn waits(machine: &Machine, alloc: Global) -> Result<Lines, AllocError>
    ensures { IfOk result (λ lines. IfShows machine.now (λ c.
        lines ≡ as_lines (view (program_in machine.now) c).waits)) }
{
    let mut page = Page::new(alloc);
    push_waits(&mut page, alloc, machine.parts(), machine.compiled())?;
    Ok(page.into_lines())
}

// Writes those of all tasks.
fn push_waits(
    page: &mut Page,
    alloc: Global,
    state: &State,
    compiled: Compiled<'_>,
) -> Result<(), AllocError>
    ensures { let plan = (plain_program compiled.entry.program.now).plan in AddsLines result page.old page.new
        (view_at plan (flat_controls plan compiled.entry.code.now) state.now).waits }
{
    for task in 0..state.len() {
        push_reasons(page, alloc, state, compiled, task)?;
    }
    Ok(())
}

// Writes those of a task, unless it is terminated.
fn push_reasons(
    page: &mut Page,
    alloc: Global,
    state: &State,
    compiled: Compiled<'_>,
    task: usize,
) -> Result<(), AllocError>
    ensures { let plan = (plain_program compiled.entry.program.now).plan in AddsLines result page.old page.new
        (told_of task (reasons_in plan compiled.entry.code.now task state.now) state.now) }
{
    if is_terminated(state.status(task)) {
        return Ok(());
    }
    push_raised(page, state, compiled, task)?;
    push_hold(page, alloc, state, compiled, task)?;
    Ok(())
}

fn is_terminated(status: Status) -> bool
    ensures { result ≡ is_terminated status }
{
    matches!(status, Status::Terminated)
}

// Writes what is pending.
fn push_raised(
    page: &mut Page,
    state: &State,
    compiled: Compiled<'_>,
    task: usize,
) -> Result<(), AllocError>
    ensures { let plan = (plain_program compiled.entry.program.now).plan in AddsLines result page.old page.new
        (told_of task (raised_reasons plan (own_of task state.now).pending) state.now) }
{
    match state.pending(task) {
        Some(pending) => push_exception(page, state, compiled, task, pending.exception),
        None => Ok(()),
    }
}

fn push_exception(
    page: &mut Page,
    state: &State,
    compiled: Compiled<'_>,
    task: usize,
    exception: Exception,
) -> Result<(), AllocError>
    ensures { let plan = (plain_program compiled.entry.program.now).plan in AddsLines result page.old page.new
        (told_of task (raised_line plan exception ∷ []) state.now) }
{
    push_task(&mut page.bytes, state, task)?;
    page.bytes.extend_from_slice(b"raised ")?;
    page.bytes
        .extend_from_slice(exception_name(compiled, exception))?;
    page.end_line()?;
    Ok(())
}

// Writes what keeps it from its next step.
fn push_hold(
    page: &mut Page,
    alloc: Global,
    state: &State,
    compiled: Compiled<'_>,
    task: usize,
) -> Result<(), AllocError>
    ensures { let plan = (plain_program compiled.entry.program.now).plan in AddsLines result page.old page.new
        (told_of task (hold_reasons plan (hold_in plan compiled.entry.code.now task state.now) task (own_of task state.now) state.now) state.now) }
{
    match hold_of(state, compiled, task) {
        Hold::Nothing => Ok(()),
        Hold::Call(id) => push_call(page, state, compiled, task, id),
        Hold::Accept => push_accept(page, state, compiled, task),
        Hold::Delay => push_delay(page, state, task),
        Hold::Object(object) => push_kept(page, state, compiled, task, object),
        Hold::Master(master) => push_master(page, alloc, state, task, master),
        Hold::Activation => push_activation(page, state, task),
    }
}

// Writes where a call of a task stands.
fn push_call(
    page: &mut Page,
    state: &State,
    compiled: Compiled<'_>,
    task: usize,
    id: usize,
) -> Result<(), AllocError>
    ensures { let a = call_of id state.now in AddsLines result page.old page.new (told_of task
        (call_reasons (plain_program compiled.entry.program.now).plan a.state id a state.now) state.now) }
{
    match state.call_state(id) {
        CallState::Queued => push_queued(page, state, compiled, task, id),
        CallState::Selected => push_selected(page, state, compiled, task, id),
        CallState::Done => Ok(()),
        CallState::Cancelled => Ok(()),
    }
}

// Writes where it is queued, and when it expires.
fn push_queued(
    page: &mut Page,
    state: &State,
    compiled: Compiled<'_>,
    task: usize,
    id: usize,
) -> Result<(), AllocError>
    ensures { AddsLines result page.old page.new (told_of task
        (call_reasons (plain_program compiled.entry.program.now).plan Queued id (call_of id state.now) state.now) state.now) }
{
    push_queue(page, state, compiled, task, id)?;
    push_expiry(page, state, task, id)?;
    Ok(())
}

fn push_queue(
    page: &mut Page,
    state: &State,
    compiled: Compiled<'_>,
    task: usize,
    id: usize,
) -> Result<(), AllocError>
    ensures { let a = call_of id state.now in AddsLines result page.old page.new (told_of task
        ((codes "call " ++ entry_words (plain_program compiled.entry.program.now).plan a.owner a.entry state.now) ∷ []) state.now) }
{
    push_task(&mut page.bytes, state, task)?;
    page.bytes.extend_from_slice(b"call ")?;
    push_entry(
        &mut page.bytes,
        state,
        compiled,
        state.call_owner(id),
        state.call_entry(id),
    )?;
    page.end_line()?;
    Ok(())
}

// Writes when it expires, if it does.
fn push_expiry(page: &mut Page, state: &State, task: usize, id: usize) -> Result<(), AllocError>
    ensures { AddsLines result page.old page.new
        (told_of task (delay_reasons (expiry (call_of id state.now))) state.now) }
{
    match expiry(state, id) {
        Some(time) => push_time(page, state, task, time),
        None => Ok(()),
    }
}

// When a queued call expires, if it does not stay.
fn expiry(state: &State, id: usize) -> Option<u64>
    ensures { result ≡ first_of (expiry (call_of id state.now)) }
{
    if state.stays(id) {
        None
    } else {
        time_of(state.call_form(id))
    }
}

fn time_of(form: Form) -> Option<u64>
    ensures { result ≡ first_of (call_time_by form) }
{
    match form {
        Form::Plain | Form::Conditional(_) => None,
        Form::TimedTo(time) => Some(time),
    }
}

// Writes where it is served.
fn push_selected(
    page: &mut Page,
    state: &State,
    compiled: Compiled<'_>,
    task: usize,
    id: usize,
) -> Result<(), AllocError>
    ensures { AddsLines result page.old page.new (told_of task
        (call_reasons (plain_program compiled.entry.program.now).plan Selected id (call_of id state.now) state.now) state.now) }
{
    push_task(&mut page.bytes, state, task)?;
    page.bytes.extend_from_slice(b"selected ")?;
    push_entry(
        &mut page.bytes,
        state,
        compiled,
        again_on(state, id),
        state.call_entry(id),
    )?;
    page.end_line()?;
    Ok(())
}

// Whose entry it is called of, also where its acceptor makes it again on an object as its next step.
fn again_on(state: &State, id: usize) -> Owner
    ensures { result
        ≡ again_on id (owns state.now.tasks) (call_of id state.now).owner }
{
    let mut owner = state.call_owner(id);
    for task in 0..state.len() {
        owner = again_by(id, state.restart(task), owner);
    }
    owner
}

fn again_by(id: usize, restart: Option<Restart>, owner: Owner) -> Owner
    ensures { result ≡ again_by id restart owner }
{
    match restart {
        Some(restart) => {
            if restart.call == id {
                Owner::Object(restart.object)
            } else {
                owner
            }
        }
        None => owner,
    }
}

// Writes an entry with the task or object whose it is.
fn push_entry(
    out: &mut Vec<u8>,
    state: &State,
    compiled: Compiled<'_>,
    owner: Owner,
    entry: usize,
) -> Result<(), AllocError>
    ensures { Adds result out.old out.new (entry_words (plain_program compiled.entry.program.now).plan owner entry state.now) }
{
    push_owner(out, state, compiled, owner)?;
    out.extend_from_slice(b".")?;
    out.extend_from_slice(entry_name(compiled, entry))?;
    Ok(())
}

fn push_owner(
    out: &mut Vec<u8>,
    state: &State,
    compiled: Compiled<'_>,
    owner: Owner,
) -> Result<(), AllocError>
    ensures { Adds result out.old out.new (owner_words (plain_program compiled.entry.program.now).plan owner state.now) }
{
    match owner {
        Owner::Task(task) => push_callee(out, state, task),
        Owner::Object(object) => push_object(out, state, compiled, object),
    }
}

fn push_callee(out: &mut Vec<u8>, state: &State, task: usize) -> Result<(), AllocError>
    ensures { Adds result out.old out.new
        (spaced (decimal (suc task)) (own_of task state.now).name) }
{
    push_decimal(out, number_of(task)?)?;
    out.extend_from_slice(b" ")?;
    push_name(out, state, task)?;
    Ok(())
}

fn push_object(
    out: &mut Vec<u8>,
    state: &State,
    compiled: Compiled<'_>,
    object: usize,
) -> Result<(), AllocError>
    ensures { Adds result out.old out.new (object_words (plain_program compiled.entry.program.now).plan object state.now) }
{
    out.extend_from_slice(b"object ")?;
    push_decimal(out, number_of(object)?)?;
    out.extend_from_slice(b" ")?;
    out.extend_from_slice(object_name(compiled, state.declaration(object)))?;
    Ok(())
}

// Writes the open entries at which it is blocked, and what else is open.
fn push_accept(
    page: &mut Page,
    state: &State,
    compiled: Compiled<'_>,
    task: usize,
) -> Result<(), AllocError>
    ensures { AddsLines result page.old page.new (told_of task
        (accept_line (plain_program compiled.entry.program.now).plan (own_of task state.now).waits ∷ []) state.now) }
{
    push_task(&mut page.bytes, state, task)?;
    page.bytes.extend_from_slice(b"accept")?;
    push_accepts(&mut page.bytes, compiled, state.accepts(task))?;
    push_terminate(&mut page.bytes, state.has_terminate(task))?;
    push_soonest(&mut page.bytes, state.delays(task))?;
    page.end_line()?;
    Ok(())
}

fn push_accepts(
    out: &mut Vec<u8>,
    compiled: Compiled<'_>,
    accepts: &[OpenAccept],
) -> Result<(), AllocError>
    ensures { Adds result out.old out.new (accept_words (plain_program compiled.entry.program.now).plan accepts.now) }
{
    for accept in accepts {
        out.extend_from_slice(b" ")?;
        out.extend_from_slice(entry_name(compiled, accept.entry))?;
    }
    Ok(())
}

fn push_terminate(out: &mut Vec<u8>, is_open: bool) -> Result<(), AllocError>
    ensures { Adds result out.old out.new (terminate_words is_open) }
{
    if is_open {
        out.extend_from_slice(b" terminate")?;
    }
    Ok(())
}

fn push_soonest(out: &mut Vec<u8>, delays: &[OpenDelay]) -> Result<(), AllocError>
    ensures { Adds result out.old out.new (delay_behind (times delays.now)) }
{
    match soonest(delays) {
        Some(time) => push_until(out, b" delay ", time),
        None => Ok(()),
    }
}

fn push_until(out: &mut Vec<u8>, word: &[u8], time: u64) -> Result<(), AllocError>
    ensures { Adds result out.old out.new (word.now ++ decimal time) }
{
    out.extend_from_slice(word)?;
    push_decimal(out, time)
}

// The soonest of the times of these.
fn soonest(delays: &[OpenDelay]) -> Option<u64>
    ensures { result ≡ first_of (times delays.now) }
{
    let mut found = None;
    for delay in delays {
        found = Some(sooner(found, delay.time));
    }
    found
}

fn sooner(found: Option<u64>, time: u64) -> u64
    ensures { result ≡ sooner found time }
{
    match found {
        Some(first) => first.min(time),
        None => time,
    }
}

// Writes when its delay is over.
fn push_delay(page: &mut Page, state: &State, task: usize) -> Result<(), AllocError>
    ensures { AddsLines result page.old page.new (told_of task
        (delay_reasons (times (own_of task state.now).waits.delays)) state.now) }
{
    match soonest(state.delays(task)) {
        Some(time) => push_time(page, state, task, time),
        None => Ok(()),
    }
}

fn push_time(page: &mut Page, state: &State, task: usize, time: u64) -> Result<(), AllocError>
    ensures { AddsLines result page.old page.new (told_of task
        ((codes "delay " ++ decimal time) ∷ []) state.now) }
{
    push_task(&mut page.bytes, state, task)?;
    push_until(&mut page.bytes, b"delay ", time)?;
    page.end_line()?;
    Ok(())
}

// Writes the object on which an action is in its way.
fn push_kept(
    page: &mut Page,
    state: &State,
    compiled: Compiled<'_>,
    task: usize,
    object: usize,
) -> Result<(), AllocError>
    ensures { AddsLines result page.old page.new (told_of task
        (object_words (plain_program compiled.entry.program.now).plan object state.now ∷ []) state.now) }
{
    push_task(&mut page.bytes, state, task)?;
    push_object(&mut page.bytes, state, compiled, object)?;
    page.end_line()?;
    Ok(())
}

// Writes those that depend on a master.
fn push_master(
    page: &mut Page,
    alloc: Global,
    state: &State,
    task: usize,
    master: usize,
) -> Result<(), AllocError>
    ensures { AddsLines result page.old page.new (told_of task
        ((codes "master" ++ numbered (numbers (depends master) 0 (owns state.now.tasks))) ∷ []) state.now) }
{
    let dependents = state.dependents(alloc, master)?;
    push_task(&mut page.bytes, state, task)?;
    page.bytes.extend_from_slice(b"master")?;
    push_numbers(&mut page.bytes, &dependents)?;
    page.end_line()?;
    Ok(())
}

fn push_numbers(out: &mut Vec<u8>, tasks: &[usize]) -> Result<(), AllocError>
    ensures { Adds result out.old out.new (numbered tasks.now) }
{
    for task in tasks {
        out.extend_from_slice(b" ")?;
        push_decimal(out, number_of(*task)?)?;
    }
    Ok(())
}

// Writes those that it activates.
fn push_activation(page: &mut Page, state: &State, task: usize) -> Result<(), AllocError>
    ensures { AddsLines result page.old page.new (told_of task
        ((codes "activation" ++ numbered (numbers (is_awaited task) 0 (owns state.now.tasks))) ∷ []) state.now) }
{
    push_task(&mut page.bytes, state, task)?;
    page.bytes.extend_from_slice(b"activation")?;
    push_awaited(&mut page.bytes, state, task)?;
    page.end_line()?;
    Ok(())
}

fn push_awaited(out: &mut Vec<u8>, state: &State, activator: usize) -> Result<(), AllocError>
    ensures { Adds result out.old out.new
        (numbered (numbers (is_awaited activator) 0 (owns state.now.tasks))) }
{
    for task in 0..state.len() {
        push_if(out, is_awaited(state, activator, task), task)?;
    }
    Ok(())
}

fn push_if(out: &mut Vec<u8>, is: bool, task: usize) -> Result<(), AllocError>
    ensures { Adds result out.old out.new (number_if is task) }
{
    if is {
        out.extend_from_slice(b" ")?;
        push_decimal(out, number_of(task)?)?;
    }
    Ok(())
}

// Whether a task waits for the activation of another one, which is not terminated.
fn is_awaited(state: &State, activator: usize, task: usize) -> bool
    ensures { result ≡ is_awaited activator (own_of task state.now) }
{
    !is_terminated(state.status(task)) && is_activated_by(state.activator(task), activator)
}

fn is_activated_by(found: Option<usize>, activator: usize) -> bool
    ensures { result ≡ is_this activator found }
{
    match found {
        Some(task) => task == activator,
        None => false,
    }
}
