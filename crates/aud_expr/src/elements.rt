// What instructions do with elements of arrays.

ghost use Rattle.std.specs.Prelude.{◌≡◌, IfOk};
ghost use Rattle.aud_meaning.specs.Evaluation.{element_at};
ghost use Rattle.aud_code.specs.Instruction.{LoadElement, FindElement};
ghost use Rattle.aud_code.specs.Sound.{counts_of};
ghost use Rattle.aud_expr.specs.Flow.{FindsOperands, Reads};

use crate::flow::Flow;
use crate::operands::Operands;
use crate::variables::{target_seen, value_seen};
use aud_store::frames::Frames;
use aud_text::int32::Int32;
use aud_text::raise::Raise;
use aud_typed::program::{ArrayAt, Subtype, Variable};
use std::alloc::AllocError;

pub fn load_element(
    array: ArrayAt,
    display: &[usize],
    frames: &Frames,
    operands: &mut Operands,
) -> Result<Flow, AllocError>
    requires { FindsOperands (LoadElement array) (counts_of operands.old) }
    ensures { IfOk result (λ flow.
        Reads display.now frames.now (LoadElement array) flow operands.old operands.new) }
{
    match element_at(array, operands.pop())? {
        Ok(variable) => {
            let value = value_seen(variable, display, frames, operands);
            operands.push(value)?;
            Ok(Flow::Passes(0))
        }
        Err(raise) => Ok(Flow::Raises(raise)),
    }
}

pub fn find_element(
    array: ArrayAt,
    subtype: Subtype,
    display: &[usize],
    frames: &Frames,
    operands: &mut Operands,
) -> Result<Flow, AllocError>
    requires { FindsOperands (FindElement array subtype) (counts_of operands.old) }
    ensures { IfOk result (λ flow.
        Reads display.now frames.now (FindElement array subtype) flow operands.old operands.new) }
{
    match element_at(array, operands.pop())? {
        Ok(variable) => {
            let target = target_seen(variable, subtype, display, frames, operands);
            operands.push_target(target)?;
            Ok(Flow::Passes(0))
        }
        Err(raise) => Ok(Flow::Raises(raise)),
    }
}

// The element's cell, or Constraint_Error where the array has none of this index (RM 4.1.1(7)). No memory holds so many cells
// that their numbers overflow.
fn element_at(array: ArrayAt, index: Int32) -> Result<Result<Variable, Raise>, AllocError>
    ensures { IfOk result (λ found. found ≡ element_at array index) }
{
    let index = index.get();
    let offset = index.abs_diff(array.low) as usize;
    if index < array.low || array.length <= offset {
        return Ok(Err(Raise::Constraint));
    }
    let index = array.first.index.checked_add(offset).ok_or(AllocError)?;
    Ok(Ok(Variable {
        level: array.first.level,
        index,
    }))
}
