// Tasks that are declared (RM 9.1, 9.2).

ghost use Rattle.std.specs.Prelude.{◌≡◌, ◌&&◌, ◌+◌, ℕ, Bool, Result, OnOk, nat_le};
ghost use Rattle.aud_text.specs.declared.limits.TheConstants.{ELEMENTS};
ghost use Rattle.aud_text.specs.declared.raise.Raise.{Raise as RaiseOf};
ghost use Rattle.aud_typed.specs.Tree.{Plan};
ghost use Rattle.aud_typed.specs.Ties.View.{plain_tasks};
ghost use Rattle.aud_meaning.specs.Evaluation.{Sight};
ghost use Rattle.aud_meaning.specs.Parts.{task_plan};
ghost use Rattle.aud_meaning.specs.Tasks as effect;
ghost use Rattle.aud_code.specs.Control.{going};
ghost use Rattle.aud_sequential.specs.Shown.{plans_of};

use crate::activation::raise_in_part;
use aud_code::sound_code::SoundCode;
use aud_state::state::State;
use aud_text::limits::{ELEMENTS, Limits};
use aud_text::place::Pos;
use aud_text::raise::Raise;
use aud_typed::program::{Tasks, Unit};
use std::alloc::{AllocError, Global};

/// The step declaration of tasks, whose body is a unit: in a protected action Program_Error, past a limit Storage_Error.
///
/// # Errors
///
/// Where memory is refused. Nothing is said of the state then.
pub fn create(
    state: &mut State,
    alloc: Global,
    code: &SoundCode,
    units: &[Unit],
    unit: usize,
    limits: Limits,
    task: usize,
    tasks: &Tasks,
    at: Pos,
) -> Result<(), AllocError>
    ensures { OnOk result ((plan : Plan) → plan.units ≡ plans_of units.now →
        (task_plan plan tasks.now.task_type).unit ≡ unit →
        (barrier : ℕ → Sight → Result Bool RaiseOf) →
        state.new ≡ effect.declares_tasks (going code.now) plan barrier limits at
        (plain_tasks tasks.now) task state.old) }
{
    let first = state.len();
    if tasks.length != 0 && state.in_action(task) {
        raise_in_part(state, alloc, code, task, Raise::Program, at)?;
        return Ok(());
    }
    if !is_allowed(tasks.length, first, limits.tasks as usize) {
        raise_in_part(state, alloc, code, task, Raise::Storage, at)?;
        return Ok(());
    }
    state.create(alloc, code, units, unit, task, tasks)?;
    state.declare_tasks(alloc, task, first, tasks.length)?;
    state.take(code, task, 0);
    Ok(())
}

// Whether there may be so many elements, and so many tasks more.
fn is_allowed(count: usize, many: usize, limit: usize) -> bool
    ensures { result ≡ (nat_le count ELEMENTS && nat_le (many + count) limit) }
{
    count <= ELEMENTS as usize && many <= limit && count <= limit - many
}
