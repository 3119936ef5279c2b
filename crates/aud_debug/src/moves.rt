// Moves.

ghost use Rattle.std.specs.Prelude.{◌≡◌, ℕ, Bool, Result, IfOk};
ghost use Rattle.aud_text.specs.declared.raise.Raise.{Raise as RaiseOf};
ghost use Rattle.aud_text.specs.Ties.Adds.{Adds};
ghost use Rattle.aud_typed.specs.Tree.{Plan};
ghost use Rattle.aud_typed.specs.Ties.View.{plain_program};
ghost use Rattle.aud_meaning.specs.Evaluation.{Sight};
ghost use Rattle.aud_meaning.specs.Listings.{alternative_word, view, view_at};
ghost use Rattle.aud_meaning.specs.Run.{moves_at};
ghost use Rattle.aud_code.specs.Flat.{flat_controls};
ghost use Rattle.aud_machine.specs.Shown.{program_in};
ghost use Rattle.aud_machine.specs.Shows.{IfShows};
ghost use Rattle.aud_debug.specs.Listed.{as_lines};
ghost use Rattle.aud_debug.specs.Ties.Pages.{AddsLines};
ghost use Rattle.aud_debug.specs.Ties.Rows.{move_line};

use crate::lines::Lines;
use crate::names::push_task;
use crate::page::Page;
use crate::words::step_word;
use aud_machine::coming::shown_step;
use aud_machine::compiled::Compiled;
use aud_machine::machine::Machine;
use aud_meaning::state::Move;
use aud_state::state::State;
use aud_text::digits::push_decimal;
use std::alloc::{AllocError, Global};

/// The enabled moves, one a line, by their indices: index, number and name of the task, line, the word of what it does, and the
/// number of the alternative where the move picks one.
pub(crate) fn moves(machine: &Machine, alloc: Global) -> Result<Lines, AllocError>
    ensures { IfOk result (λ lines. IfShows machine.now (λ c.
        lines ≡ as_lines (view (program_in machine.now) c).moves)) }
{
    let moves = machine.moves(alloc)?;
    let mut page = Page::new(alloc);
    push_moves(&mut page, machine.parts(), machine.compiled(), &moves)?;
    Ok(page.into_lines())
}

// Writes these moves, which are all that are enabled.
fn push_moves(
    page: &mut Page,
    state: &State,
    compiled: Compiled<'_>,
    moves: &[Move],
) -> Result<(), AllocError>
    requires { let plan = (plain_program compiled.program.now).plan in
        moves.now ≡ moves_at plan (flat_controls plan compiled.code.now) state.now }
    ensures { let plan = (plain_program compiled.entry.program.now).plan in AddsLines result page.old page.new
        (view_at plan (flat_controls plan compiled.entry.code.now) state.now).moves }
{
    for (index, step) in moves.iter().enumerate() {
        push_line(&mut page.bytes, state, compiled, index, *step)?;
        page.end_line()?;
    }
    Ok(())
}

// Writes the line of the move of this index.
fn push_line(
    out: &mut Vec<u8>,
    state: &State,
    compiled: Compiled<'_>,
    index: usize,
    step: Move,
) -> Result<(), AllocError>
    ensures { let plan = (plain_program compiled.entry.program.now).plan in
        Adds result out.old out.new (move_line plan compiled.entry.code.now index step state.now) }
{
    push_decimal(out, index as u64)?;
    out.extend_from_slice(b" ")?;
    push_task(out, state, step.task)?;
    let next = shown_step(state, compiled, step.task);
    push_decimal(out, next.at.line as u64)?;
    out.extend_from_slice(b" ")?;
    out.extend_from_slice(step_word(next.kind))?;
    push_alternative(out, step.alternative)
}

// Writes the number of its alternative, where it picks one.
fn push_alternative(out: &mut Vec<u8>, alternative: Option<usize>) -> Result<(), AllocError>
    ensures { (plan : Plan) → (barrier : ℕ → Sight → Result Bool RaiseOf) →
        Adds result out.old out.new (alternative_word plan barrier alternative) }
{
    match alternative {
        Some(number) => {
            out.extend_from_slice(b" ")?;
            push_decimal(out, number as u64)
        }
        None => Ok(()),
    }
}
