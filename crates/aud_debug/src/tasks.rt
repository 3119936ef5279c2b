// Tasks.

ghost use Rattle.std.specs.Prelude.{◌≡◌, ℕ, Bool, Result, IfOk};
ghost use Rattle.aud_text.specs.declared.raise.Raise.{Raise as RaiseOf};
ghost use Rattle.aud_text.specs.Ties.Adds.{Adds};
ghost use Rattle.aud_typed.specs.Tree.{Plan};
ghost use Rattle.aud_typed.specs.Ties.View.{plain_program};
ghost use Rattle.aud_meaning.specs.Evaluation.{Sight};
ghost use Rattle.aud_meaning.specs.Listings.{abnormal_word, view, view_at};
ghost use Rattle.aud_meaning.specs.Parts.{own_of};
ghost use Rattle.aud_code.specs.Flat.{flat_controls};
ghost use Rattle.aud_machine.specs.Shown.{program_in};
ghost use Rattle.aud_machine.specs.Shows.{IfShows};
ghost use Rattle.aud_debug.specs.Listed.{as_lines};
ghost use Rattle.aud_debug.specs.Ties.Pages.{AddsLines};
ghost use Rattle.aud_debug.specs.Ties.Rows.{status_words, task_line};

use crate::lines::Lines;
use crate::names::push_task;
use crate::page::Page;
use crate::words::status_word;
use aud_machine::coming::shown_step;
use aud_machine::compiled::Compiled;
use aud_machine::machine::Machine;
use aud_machine::status::{is_abnormal, status_of};
use aud_state::state::State;
use aud_text::digits::push_decimal;
use std::alloc::{AllocError, Global};

/// The tasks, one a line by their numbers: number, name, status and line.
pub(crate) fn tasks(machine: &Machine, alloc: Global) -> Result<Lines, AllocError>
    ensures { IfOk result (λ lines. IfShows machine.now (λ c.
        lines ≡ as_lines (view (program_in machine.now) c).tasks)) }
{
    let mut page = Page::new(alloc);
    push_tasks(&mut page, machine.parts(), machine.compiled())?;
    Ok(page.into_lines())
}

// Writes all tasks.
fn push_tasks(page: &mut Page, state: &State, compiled: Compiled<'_>) -> Result<(), AllocError>
    ensures { let plan = (plain_program compiled.entry.program.now).plan in AddsLines result page.old page.new
        (view_at plan (flat_controls plan compiled.entry.code.now) state.now).tasks }
{
    for task in 0..state.len() {
        push_line(&mut page.bytes, state, compiled, task)?;
        page.end_line()?;
    }
    Ok(())
}

// Writes the line of a task.
fn push_line(
    out: &mut Vec<u8>,
    state: &State,
    compiled: Compiled<'_>,
    task: usize,
) -> Result<(), AllocError>
    ensures { let plan = (plain_program compiled.entry.program.now).plan in
        Adds result out.old out.new (task_line plan compiled.entry.code.now task state.now) }
{
    push_task(out, state, task)?;
    push_status(out, state, compiled, task)?;
    out.extend_from_slice(b" ")?;
    let step = shown_step(state, compiled, task);
    push_decimal(out, step.at.line as u64)
}

// Writes its status, and whether it is abnormal.
fn push_status(
    out: &mut Vec<u8>,
    state: &State,
    compiled: Compiled<'_>,
    task: usize,
) -> Result<(), AllocError>
    ensures { let plan = (plain_program compiled.entry.program.now).plan in
        Adds result out.old out.new (status_words plan compiled.entry.code.now task state.now) }
{
    let status = status_of(state, compiled, task);
    out.extend_from_slice(status_word(status))?;
    push_abnormal(out, state, task)
}

fn push_abnormal(out: &mut Vec<u8>, state: &State, task: usize) -> Result<(), AllocError>
    ensures { (plan : Plan) → (barrier : ℕ → Sight → Result Bool RaiseOf) →
        Adds result out.old out.new (abnormal_word plan barrier (own_of task state.now)) }
{
    if !is_abnormal(state, task) {
        return Ok(());
    }
    out.extend_from_slice(b" abnormal")?;
    Ok(())
}
