// Queues.

ghost use Rattle.std.specs.Prelude.{◌≡◌, IfOk};
ghost use Rattle.aud_text.specs.Ties.Adds.{Adds};
ghost use Rattle.aud_typed.specs.Ties.View.{plain_program};
ghost use Rattle.aud_meaning.specs.Listings.{entries_by, object_queues, task_queues, view, view_at};
ghost use Rattle.aud_meaning.specs.Parts.{owner_number};
ghost use Rattle.aud_code.specs.Flat.{flat_controls};
ghost use Rattle.aud_machine.specs.Shown.{program_in};
ghost use Rattle.aud_machine.specs.Shows.{IfShows};
ghost use Rattle.aud_debug.specs.Listed.{as_lines};
ghost use Rattle.aud_debug.specs.Ties.Pages.{AddsLines};
ghost use Rattle.aud_debug.specs.Ties.Rows.{calls_on, entry_lines, owner_name, owner_word, queue_head, queue_line};

use crate::declared::{entry_name, object_name, protected_entries_of};
use crate::lines::Lines;
use crate::names::{number_of, push_name};
use crate::page::Page;
use aud_machine::compiled::Compiled;
use aud_machine::machine::Machine;
use aud_meaning::state::Owner;
use aud_state::state::State;
use aud_text::digits::push_decimal;
use std::alloc::{AllocError, Global};

/// The entries with queued calls, one a line, the oldest caller first: of tasks by their numbers, then of protected objects.
pub(crate) fn queues(machine: &Machine, alloc: Global) -> Result<Lines, AllocError>
    ensures { IfOk result (λ lines. IfShows machine.now (λ c.
        lines ≡ as_lines (view (program_in machine.now) c).queues)) }
{
    let mut page = Page::new(alloc);
    push_queues(&mut page, machine.parts(), machine.compiled())?;
    Ok(page.into_lines())
}

// Writes those of all tasks, and then those of all objects.
fn push_queues(page: &mut Page, state: &State, compiled: Compiled<'_>) -> Result<(), AllocError>
    ensures { let plan = (plain_program compiled.entry.program.now).plan in AddsLines result page.old page.new
        (view_at plan (flat_controls plan compiled.entry.code.now) state.now).queues }
{
    push_tasks(page, state, compiled)?;
    push_objects(page, state, compiled)?;
    Ok(())
}

// Writes those of all tasks.
fn push_tasks(page: &mut Page, state: &State, compiled: Compiled<'_>) -> Result<(), AllocError>
    ensures { let plan = (plain_program compiled.entry.program.now).plan in AddsLines result page.old page.new
        (task_queues plan 0 state.now.tasks state.now) }
{
    for task in 0..state.len() {
        let entries = entries_of(compiled, state.task_type(task));
        push_each(page, state, compiled, Owner::Task(task), entries)?;
    }
    Ok(())
}

// Writes those of all protected objects.
fn push_objects(page: &mut Page, state: &State, compiled: Compiled<'_>) -> Result<(), AllocError>
    ensures { let plan = (plain_program compiled.entry.program.now).plan in AddsLines result page.old page.new
        (object_queues plan 0 state.now.shared.objects state.now) }
{
    for object in 0..state.objects() {
        let entries = protected_entries_of(compiled, state.declaration(object));
        push_each(page, state, compiled, Owner::Object(object), entries)?;
    }
    Ok(())
}

// Writes those of these entries of a task or an object.
fn push_each(
    page: &mut Page,
    state: &State,
    compiled: Compiled<'_>,
    owner: Owner,
    entries: &[usize],
) -> Result<(), AllocError>
    ensures { let plan = (plain_program compiled.entry.program.now).plan in AddsLines result page.old page.new
        (entry_lines plan owner entries.now state.now) }
{
    for entry in entries {
        push_queue(page, state, compiled, owner, *entry)?;
    }
    Ok(())
}

// The entries of a type of tasks.
fn entries_of<'a>(compiled: Compiled<'a>, task_type: Option<usize>) -> &'a [usize]
    ensures { result.now ≡ entries_by (plain_program compiled.entry.program.now).plan task_type }
{
    let Some(task_type) = task_type else {
        return &[];
    };
    match compiled.program.tasks.get(task_type) {
        Some(task_type) => &task_type.entries,
        None => &[],
    }
}

// Writes that of an entry, if a call is queued there.
fn push_queue(
    page: &mut Page,
    state: &State,
    compiled: Compiled<'_>,
    owner: Owner,
    entry: usize,
) -> Result<(), AllocError>
    ensures { let plan = (plain_program compiled.entry.program.now).plan in AddsLines result page.old page.new
        (queue_line plan owner entry state.now) }
{
    let calls = state.queued(number_in(owner), entry);
    if calls.is_empty() {
        return Ok(());
    }
    push_head(&mut page.bytes, state, compiled, owner, entry)?;
    push_callers(&mut page.bytes, state, calls)?;
    page.end_line()?;
    Ok(())
}

// Appends the task or object, with its number, and the entry.
fn push_head(
    out: &mut Vec<u8>,
    state: &State,
    compiled: Compiled<'_>,
    owner: Owner,
    entry: usize,
) -> Result<(), AllocError>
    ensures { Adds result out.old out.new
        (queue_head (plain_program compiled.entry.program.now).plan owner entry state.now) }
{
    out.extend_from_slice(word_of(owner))?;
    out.extend_from_slice(b" ")?;
    push_decimal(out, number_of(number_in(owner))?)?;
    out.extend_from_slice(b" ")?;
    push_owner(out, state, compiled, owner)?;
    out.extend_from_slice(b".")?;
    out.extend_from_slice(entry_name(compiled, entry))?;
    out.extend_from_slice(b":")?;
    Ok(())
}

// Its number, which counts from 0.
fn number_in(owner: Owner) -> usize
    ensures { result ≡ owner_number owner }
{
    match owner {
        Owner::Task(task) => task,
        Owner::Object(object) => object,
    }
}

fn word_of(owner: Owner) -> &'static [u8]
    ensures { result.now ≡ owner_word owner }
{
    match owner {
        Owner::Task(_) => b"task",
        Owner::Object(_) => b"object",
    }
}

// Appends its name.
fn push_owner(
    out: &mut Vec<u8>,
    state: &State,
    compiled: Compiled<'_>,
    owner: Owner,
) -> Result<(), AllocError>
    ensures { Adds result out.old out.new
        (owner_name (plain_program compiled.entry.program.now).plan owner state.now) }
{
    match owner {
        Owner::Task(task) => push_name(out, state, task),
        Owner::Object(object) => {
            out.extend_from_slice(object_name(compiled, state.declaration(object)))?;
            Ok(())
        }
    }
}

// Appends the callers' numbers, each behind a space.
fn push_callers(out: &mut Vec<u8>, state: &State, calls: &[usize]) -> Result<(), AllocError>
    ensures { Adds result out.old out.new (calls_on calls.now state.now) }
{
    for call in calls {
        out.extend_from_slice(b" ")?;
        push_decimal(out, number_of(state.caller(*call))?)?;
    }
    Ok(())
}
