// Activation (RM 9.2).

ghost use Rattle.std.specs.Prelude.{◌≡◌, ℕ, Bool, Result, OnOk};
ghost use Rattle.aud_text.specs.declared.raise.Raise.{Raise as RaiseOf};
ghost use Rattle.aud_typed.specs.Tree.{Plan};
ghost use Rattle.aud_meaning.specs.Effects.{innermost};
ghost use Rattle.aud_meaning.specs.Evaluation.{Sight};
ghost use Rattle.aud_meaning.specs.Orders.{Orders};
ghost use Rattle.aud_meaning.specs.Parts.{own_of};
ghost use Rattle.aud_meaning.specs.Tasks as effect;
ghost use Rattle.aud_code.specs.Control.{going};
ghost use Rattle.aud_code.specs.Places.{Spot};
ghost use Rattle.aud_sequential.specs.Shown.{plans_of};

use crate::ending::terminate_all;
use aud_code::sound_code::SoundCode;
use aud_state::state::State;
use aud_text::place::Pos;
use aud_text::raise::Raise;
use aud_typed::program::{Exception, Unit};
use std::alloc::{AllocError, Global};

/// An exception in a declarative part: what it has created becomes terminated (RM 9.2(6)).
///
/// # Errors
///
/// Where memory is refused. Nothing is said of the state then.
pub fn raise_in_part(
    state: &mut State,
    alloc: Global,
    code: &SoundCode,
    task: usize,
    raise: Raise,
    at: Pos,
) -> Result<(), AllocError>
    ensures { OnOk result ((plan : Plan) → (barrier : ℕ → Sight → Result Bool RaiseOf) →
        state.new ≡ effect.raises_in_part (going code.now) plan barrier raise at task state.old) }
{
    let part = state.innermost(task);
    let created = state.not_activated(alloc, part)?;
    terminate_all(state, alloc, code, &created)?;
    state.raise(task, Exception::Predefined(raise), at);
    Ok(())
}

/// The step activate: the activation begins of what the declarative part has created; with nothing to activate the task goes on
/// (RM 9.2(3)).
///
/// # Errors
///
/// Where memory is refused. Nothing is said of the state then.
pub fn begin_activation(
    state: &mut State,
    alloc: Global,
    code: &SoundCode,
    units: &[Unit],
    task: usize,
    at: Pos,
) -> Result<(), AllocError>
    ensures { OnOk result ((plan : Plan) → plan.units ≡ plans_of units.now →
        (barrier : ℕ → Sight → Result Bool RaiseOf) →
        state.new ≡ effect.activates (going code.now) plan barrier at task
        (effect.not_activated (going code.now) plan barrier
        (innermost (own_of task state.old).opened) state.old) state.old) }
{
    let part = state.innermost(task);
    let created = state.not_activated(alloc, part)?;
    if created.is_empty() {
        state.take(code, task, 0);
        return Ok(());
    }
    state.block_activating(task, at);
    begin_all(state, alloc, units, task, &created)?;
    Ok(())
}

// All these tasks begin their declarations, and that one waits for them.
fn begin_all(
    state: &mut State,
    alloc: Global,
    units: &[Unit],
    activator: usize,
    tasks: &[usize],
) -> Result<(), AllocError>
    ensures { OnOk result ((go : Orders Spot) → (plan : Plan) → plan.units ≡ plans_of units.now →
        (barrier : ℕ → Sight → Result Bool RaiseOf) →
        state.new ≡ effect.begin_all go plan barrier activator tasks.now state.old) }
{
    for task in tasks {
        begin(state, alloc, units, activator, *task)?;
    }
    Ok(())
}

// A task begins its declarations.
fn begin(
    state: &mut State,
    alloc: Global,
    units: &[Unit],
    activator: usize,
    task: usize,
) -> Result<(), AllocError>
    ensures { OnOk result ((go : Orders Spot) → (plan : Plan) → plan.units ≡ plans_of units.now →
        (barrier : ℕ → Sight → Result Bool RaiseOf) →
        state.new ≡ effect.begins go plan barrier activator task state.old) }
{
    let unit = state.unit(task);
    state.begin(task, activator);
    state.open_body(alloc, units, task, unit)?;
    Ok(())
}

/// A task's activation has ended, and perhaps failed: with the last one that it waits for the activator goes on, or has
/// Tasking_Error pending (RM 9.2(5)).
pub fn end_activation(state: &mut State, code: &SoundCode, task: usize, failed: bool)
    ensures { (plan : Plan) → (barrier : ℕ → Sight → Result Bool RaiseOf) →
        state.new ≡ effect.activation_ended (going code.now) plan barrier failed task state.old }
{
    match state.activator(task) {
        None => {}
        Some(activator) => {
            state.not_awaited(task);
            state.note_failure(activator, failed);
            look(state, code, activator);
        }
    }
}

// A task goes on if it waits for activations, and none is under way any more.
fn look(state: &mut State, code: &SoundCode, task: usize)
    ensures { (plan : Plan) → (barrier : ℕ → Sight → Result Bool RaiseOf) →
        state.new ≡ effect.activator_looks (going code.now) plan barrier task state.old }
{
    if state.is_activating(task) && !state.awaits(task) {
        state.go_on_behind(code, task);
    }
}
