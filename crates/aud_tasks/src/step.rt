// One step of a task.

ghost use Rattle.std.specs.Prelude.{◌≡◌, ◌<◌, ◌≤◌, IfOk, OnOk, length};
ghost use Rattle.aud_typed.specs.Ties.View.{plain_program};
ghost use Rattle.aud_meaning.specs.Run.{alternative_or_none, step_with};
ghost use Rattle.aud_meaning.specs.Tasks.{serves, starts_again};
ghost use Rattle.aud_code.specs.Control.{going};
ghost use Rattle.aud_code.specs.Flat.{barrier_at, flat_controls};
ghost use Rattle.aud_code.specs.Sound.{IsSound};
ghost use Rattle.aud_code.specs.Starts.{AreSpots};
ghost use Rattle.aud_tasks.specs.Acting.{TakesTurn};
ghost use Rattle.aud_state.specs.Fast.{executed_in};
ghost use Rattle.aud_tasks.specs.Counting.{at_turn, most_of_barriers, most_ticks, step_ticks, Counts};
ghost use Rattle.aud_tasks.specs.Turning.{turned};

use crate::act::act;
use crate::barriers::Evaluator;
use crate::compiled::Compiled;
use crate::turn::{Turn, turn_of};
use aud_abort::{completing, withdrawing};
use aud_code::sound_code::SoundCode;
use aud_expr::operands::Operands;
use aud_masters::ending;
use aud_meaning::state::{Move, Restart, Serving};
use aud_protected::{cancelling, servicing, starting};
use aud_select::expiring;
use aud_state::state::State;
use aud_text::limits::STEPS;
use std::alloc::{AllocError, Global};

/// The step that a move picks. It gives the instructions that were executed.
// A run spends its time here.
#[inline(always)]
pub(crate) fn step(
    state: &mut State,
    alloc: Global,
    compiled: Compiled<'_>,
    taken: Move,
    operands: &mut Operands,
) -> Result<u64, AllocError>
    requires spots { AreSpots compiled.code.now.lines state.old.tasks }
    requires steps { state.old.steps < STEPS }
    ensures next { IfOk result (λ _. state.new ≡ step_with (plain_program compiled.entry.program.now).plan
        (flat_controls (plain_program compiled.entry.program.now).plan compiled.entry.code.now)
        compiled.entry.limits state.old taken) }
    ensures spots { IfOk result (λ _. AreSpots compiled.entry.code.now.lines state.new.tasks) }
    ensures few { IfOk result (λ ticks. ticks ≤ most_ticks
        (plain_program compiled.entry.program.now).plan compiled.entry.code.now) }
    ensures counts { IfOk result (λ ticks. Counts
        (step_ticks (plain_program compiled.entry.program.now).plan compiled.entry.code.now state.old taken)
        (most_of_barriers (plain_program compiled.entry.program.now).plan compiled.entry.code.now) ticks) }
{
    sound_law(compiled.code);
    if taken.task >= state.len() {
        return Ok(0);
    }
    let next = turn_of(state, compiled.code, taken.task);
    state.count_step(taken.task);
    take_turn(state, alloc, compiled, next, taken, operands)
}

// What a task does at its turn.
fn take_turn(
    state: &mut State,
    alloc: Global,
    compiled: Compiled<'_>,
    next: Turn,
    taken: Move,
    operands: &mut Operands,
) -> Result<u64, AllocError>
    requires within { taken.task < length state.old.tasks }
    requires spots { AreSpots compiled.code.now.lines state.old.tasks }
    ensures takes { IfOk result (λ _. TakesTurn (plain_program compiled.entry.program.now).plan
        compiled.entry.code.now compiled.entry.limits taken next state.old state.new) }
    ensures few { IfOk result (λ ticks. ticks ≤ most_ticks
        (plain_program compiled.entry.program.now).plan compiled.entry.code.now) }
    ensures counts { IfOk result (λ ticks. Counts
        (at_turn (turned (plain_program compiled.entry.program.now).plan compiled.entry.code.now taken.task state.old next)
        (executed_in compiled.entry.code.now taken.task state.old))
        (most_of_barriers (plain_program compiled.entry.program.now).plan compiled.entry.code.now) ticks) }
{
    let n = taken.task;
    match next {
        Turn::Resting => Ok(0),
        Turn::Closing => {
            ending::close(state, alloc, compiled.code, n)?;
            Ok(0)
        }
        Turn::Completing => {
            completing::complete_abnormal(state, alloc, compiled.code, n)?;
            Ok(0)
        }
        Turn::Expiring => {
            expiring::undelay(state, compiled.code, alternative(taken), n);
            Ok(0)
        }
        Turn::Cancelling => {
            let mut barriers = Evaluator::new(alloc, compiled);
            cancelling::expire(state, alloc, compiled.code, &mut barriers, n)?;
            Ok(barriers.ticks())
        }
        Turn::Withdrawing(object) => {
            let mut barriers = Evaluator::new(alloc, compiled);
            withdrawing::withdraw(state, alloc, compiled.code, &mut barriers, object, n)?;
            Ok(barriers.ticks())
        }
        Turn::Serving(serving) => serve(state, alloc, compiled, serving, taken.alternative, n),
        Turn::Restarting(restart) => start_again(state, alloc, compiled, restart, n),
        Turn::Acting => act(state, alloc, compiled, taken.alternative, n, operands),
    }
}

// A task services an object, by the entry that its move picks.
fn serve(
    state: &mut State,
    alloc: Global,
    compiled: Compiled<'_>,
    serving: Serving,
    index: Option<usize>,
    n: usize,
) -> Result<u64, AllocError>
    ensures does { OnOk result (state.new ≡ serves (going compiled.entry.code.now)
        (plain_program compiled.entry.program.now).plan (barrier_at compiled.entry.code.now) index serving n
        state.old) }
    ensures few { IfOk result (λ ticks. ticks ≤ most_of_barriers
        (plain_program compiled.entry.program.now).plan compiled.entry.code.now) }
{
    let code = compiled.code;
    let mut barriers = Evaluator::new(alloc, compiled);
    servicing::serve(state, alloc, code, &mut barriers, index, serving, n)?;
    Ok(barriers.ticks())
}

// A task makes a call on an object that its accept makes again.
fn start_again(
    state: &mut State,
    alloc: Global,
    compiled: Compiled<'_>,
    restart: Restart,
    n: usize,
) -> Result<u64, AllocError>
    ensures does { OnOk result (state.new ≡ starts_again (going compiled.entry.code.now)
        (plain_program compiled.entry.program.now).plan (barrier_at compiled.entry.code.now) restart n
        state.old) }
    ensures few { IfOk result (λ ticks. ticks ≤ most_of_barriers
        (plain_program compiled.entry.program.now).plan compiled.entry.code.now) }
{
    let code = compiled.code;
    let mut barriers = Evaluator::new(alloc, compiled);
    starting::start_again(state, alloc, code, &mut barriers, restart, n)?;
    Ok(barriers.ticks())
}

// The alternative that a move picks, or 0.
fn alternative(taken: Move) -> usize
    ensures { result ≡ alternative_or_none taken.alternative }
{
    match taken.alternative {
        Some(alternative) => alternative,
        None => 0,
    }
}

// Code that was verified is sound.
fn sound_law(code: &SoundCode)
    ensures { IsSound code.now }
{
    let _ = code.len();
}
