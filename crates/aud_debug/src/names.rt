// The names of tasks.

ghost use Rattle.std.specs.Prelude.{◌≡◌, ◌∷◌, ◌++◌, [], suc, IfOk};
ghost use Rattle.aud_text.specs.Ties.Adds.{Adds};
ghost use Rattle.aud_meaning.specs.Parts.{number_name, own_of};
ghost use Rattle.aud_debug.specs.Ties.Rows.{task_head};

use crate::numbers::push_number;
use aud_state::state::State;
use aud_text::digits::push_decimal;
use std::alloc::AllocError;

/// Appends the number of a task, which counts from 1, and its name, each followed by a space.
pub(crate) fn push_task(out: &mut Vec<u8>, state: &State, task: usize) -> Result<(), AllocError>
    ensures { Adds result out.old out.new (task_head task state.now) }
{
    push_decimal(out, number_of(task)?)?;
    out.extend_from_slice(b" ")?;
    push_name(out, state, task)?;
    out.extend_from_slice(b" ")?;
    Ok(())
}

/// Its number, which counts from 1.
pub(crate) fn number_of(task: usize) -> Result<u64, AllocError>
    ensures { IfOk result (λ number. number ≡ suc task) }
{
    (task as u64).checked_add(1).ok_or(AllocError)
}

/// Appends its name, that of an element of an array with its number.
pub(crate) fn push_name(out: &mut Vec<u8>, state: &State, task: usize) -> Result<(), AllocError>
    ensures { Adds result out.old out.new (own_of task state.now).name }
{
    let name = state.name(task);
    out.extend_from_slice(name.name)?;
    match name.element {
        Some(number) => push_element(out, number),
        None => Ok(()),
    }
}

// Appends the number of an element, in parentheses.
fn push_element(out: &mut Vec<u8>, number: i64) -> Result<(), AllocError>
    ensures { Adds result out.old out.new (40 ∷ (number_name number ++ 41 ∷ [])) }
{
    out.extend_from_slice(b"(")?;
    push_number(out, number)?;
    out.extend_from_slice(b")")
}
