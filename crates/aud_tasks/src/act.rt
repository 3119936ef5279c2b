// The step of a task's own statements.

ghost use Rattle.std.specs.Prelude.{◌≡◌, ◌<◌, ◌≤◌, None, Some, IfOk, OnOk, length, slice_get};
ghost use Rattle.aud_typed.specs.Ties.View.{plain_program};
ghost use Rattle.aud_meaning.specs.Configuration.{TaskAt};
ghost use Rattle.aud_code.specs.Flat.{end_at};
ghost use Rattle.aud_code.specs.Frames.{found};
ghost use Rattle.aud_code.specs.Instruction.{Raised, Reached};
ghost use Rattle.aud_code.specs.Places.{Spot};
ghost use Rattle.aud_code.specs.Sound.{counts_of, LastFine};
ghost use Rattle.aud_code.specs.Starts.{AreSpots};
ghost use Rattle.aud_expr.specs.Flow.{ended, FitsEnd, ReachesEnd};
ghost use Rattle.aud_expr.specs.Ticks.{ticks_at};
ghost use Rattle.aud_state.specs.Fast.{executed_in, scene};
ghost use Rattle.aud_tasks.specs.Acting.{ActsPending, ActsSo, EndsThere};
ghost use Rattle.aud_tasks.specs.Counting.{most_of_barriers, most_ticks, Counts};

use crate::compiled::Compiled;
use crate::endings::{fail, finish};
use crate::leave::{leave, leave_by};
use aud_exc::propagation::find_handler;
use aud_expr::evaluate::Outcome;
use aud_expr::operands::Operands;
use aud_meaning::state::Pending;
use aud_state::state::State;
use aud_text::raise::Raise;
use std::alloc::{AllocError, Global};

/// A task goes on by itself: its next statement, by the alternative that the move picks, or what an exception does that
/// is pending. It gives the instructions that were executed.
pub(crate) fn act(
    state: &mut State,
    alloc: Global,
    compiled: Compiled<'_>,
    alternative: Option<usize>,
    n: usize,
    operands: &mut Operands,
) -> Result<u64, AllocError>
    requires within { n < length state.old.tasks }
    requires spots { AreSpots compiled.code.now.lines state.old.tasks }
    ensures does { IfOk result (λ _. ActsSo (plain_program compiled.entry.program.now).plan
        compiled.entry.code.now compiled.entry.limits alternative n state.old state.new) }
    ensures few { IfOk result (λ ticks. ticks ≤ most_ticks
        (plain_program compiled.entry.program.now).plan compiled.entry.code.now) }
    ensures counts { IfOk result (λ ticks. Counts
        (executed_in compiled.entry.code.now n state.old)
        (most_of_barriers (plain_program compiled.entry.program.now).plan compiled.entry.code.now) ticks) }
{
    match state.pending(n) {
        Some(pending) => propagate(state, alloc, compiled, alternative, n, pending),
        None => execute(state, alloc, compiled, alternative, n, operands),
    }
}

// A pending exception is handled, or leaves the innermost construct (RM 11.4).
fn propagate(
    state: &mut State,
    alloc: Global,
    compiled: Compiled<'_>,
    alternative: Option<usize>,
    n: usize,
    pending: Pending,
) -> Result<u64, AllocError>
    ensures does { OnOk result (ActsPending (plain_program compiled.entry.program.now).plan
        compiled.entry.code.now compiled.entry.limits alternative n (Some pending) state.old state.new) }
    ensures few { IfOk result (λ ticks. ticks ≤ most_of_barriers
        (plain_program compiled.entry.program.now).plan compiled.entry.code.now) }
{
    let place = state.place(n);
    match find_handler(compiled.code, place, pending.exception) {
        Some(_) => {
            state.handle(compiled.code, n, pending);
            Ok(0)
        }
        None => leave_by(state, alloc, compiled, alternative, n, pending),
    }
}

// With nothing pending: its expressions are evaluated, and its ending follows, or the exception that they raise. Behind
// all lines it has nothing left to do.
fn execute(
    state: &mut State,
    alloc: Global,
    compiled: Compiled<'_>,
    alternative: Option<usize>,
    n: usize,
    operands: &mut Operands,
) -> Result<u64, AllocError>
    requires within { n < length state.old.tasks }
    requires spots { AreSpots compiled.code.now.lines state.old.tasks }
    ensures does { IfOk result (λ _. ActsPending (plain_program compiled.entry.program.now).plan
        compiled.entry.code.now compiled.entry.limits alternative n None state.old state.new) }
    ensures few { IfOk result (λ ticks. ticks ≤ most_ticks
        (plain_program compiled.entry.program.now).plan compiled.entry.code.now) }
    ensures counts { IfOk result (λ ticks. (t : TaskAt Spot) →
        slice_get state.old.tasks n ≡ Some t → Counts
        (ticks_at compiled.entry.code.now t.control.place (scene n state.old))
        (most_of_barriers (plain_program compiled.entry.program.now).plan compiled.entry.code.now) ticks) }
{
    let place = state.place(n);
    if place >= compiled.code.len() {
        return leave(state, alloc, compiled, alternative, n, 0);
    }
    let evaluated = state.evaluate(compiled.code, n, operands)?;
    let ticks = follow(
        state,
        alloc,
        compiled,
        alternative,
        n,
        evaluated.outcome,
        operands,
    )?;
    Ok(evaluated.ticks.saturating_add(ticks))
}

// What follows its evaluation.
fn follow(
    state: &mut State,
    alloc: Global,
    compiled: Compiled<'_>,
    alternative: Option<usize>,
    n: usize,
    outcome: Outcome,
    operands: &mut Operands,
) -> Result<u64, AllocError>
    requires within { n < length state.old.tasks }
    requires reaches { (t : TaskAt Spot) → slice_get state.old.tasks n ≡ Some t →
        ReachesEnd outcome compiled.code.now t.control.place }
    requires fits { (t : TaskAt Spot) → slice_get state.old.tasks n ≡ Some t →
        FitsEnd outcome compiled.code.now t.control.place operands.old }
    ensures does { OnOk result (EndsThere (plain_program compiled.entry.program.now).plan
        compiled.entry.code.now compiled.entry.limits alternative n (ended outcome operands.old) state.old state.new) }
    ensures few { IfOk result (λ ticks. ticks ≤ most_of_barriers
        (plain_program compiled.entry.program.now).plan compiled.entry.code.now) }
{
    match outcome {
        Outcome::Reaches(reached) => reach(
            state,
            alloc,
            compiled,
            alternative,
            n,
            reached,
            operands,
        ),
        Outcome::Fails(raise) => raise_there(
            state,
            alloc,
            compiled,
            alternative,
            n,
            raise,
            operands,
        ),
    }
}

// What the ending at a place does, which is that of the step from it on.
fn reach(
    state: &mut State,
    alloc: Global,
    compiled: Compiled<'_>,
    alternative: Option<usize>,
    n: usize,
    reached: usize,
    operands: &mut Operands,
) -> Result<u64, AllocError>
    requires within { n < length state.old.tasks }
    requires reached { (t : TaskAt Spot) → slice_get state.old.tasks n ≡ Some t →
        found compiled.code.now.lines reached ≡ found compiled.code.now.lines t.control.place }
    requires fine { (t : TaskAt Spot) → slice_get state.old.tasks n ≡ Some t →
        LastFine (end_at compiled.code.now t.control.place).last (counts_of operands.old) }
    ensures does { OnOk result (EndsThere (plain_program compiled.entry.program.now).plan
        compiled.entry.code.now compiled.entry.limits alternative n (Reached operands.old) state.old state.new) }
    ensures few { IfOk result (λ ticks. ticks ≤ most_of_barriers
        (plain_program compiled.entry.program.now).plan compiled.entry.code.now) }
{
    match compiled.code.ending(reached) {
        Some(line) => finish(state, alloc, compiled, alternative, n, line, operands),
        None => leave(state, alloc, compiled, alternative, n, 0),
    }
}

// What its ending does where the evaluation raises.
fn raise_there(
    state: &mut State,
    alloc: Global,
    compiled: Compiled<'_>,
    alternative: Option<usize>,
    n: usize,
    raise: Raise,
    operands: &mut Operands,
) -> Result<u64, AllocError>
    ensures does { OnOk result (EndsThere (plain_program compiled.entry.program.now).plan
        compiled.entry.code.now compiled.entry.limits alternative n (Raised raise) state.old state.new) }
    ensures few { IfOk result (λ ticks. ticks ≤ most_of_barriers
        (plain_program compiled.entry.program.now).plan compiled.entry.code.now) }
{
    match compiled.code.ending(state.place(n)) {
        Some(line) => fail(
            state,
            alloc,
            compiled,
            alternative,
            n,
            line,
            raise,
            operands,
        ),
        None => leave(state, alloc, compiled, alternative, n, 0),
    }
}
