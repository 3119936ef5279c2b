// What instructions do with truth values.

ghost use Rattle.std.specs.Prelude.{IfOk, OnOk};
ghost use Rattle.aud_code.specs.Instruction.{Cell, Truth, Negate, Relate, Compare, Combine};
ghost use Rattle.aud_code.specs.Sound.{counts_of};
ghost use Rattle.aud_expr.specs.declared.flow.Flow.TheVariants.{Passes};
ghost use Rattle.aud_expr.specs.Flow.{FindsOperands, Does, passes_if};

use crate::flow::Flow;
use crate::operands::Operands;
use crate::operators::{cell_of, logical_of, related, truth_of};
use aud_typed::program::{Logical, Relation};
use std::alloc::AllocError;

pub fn cell(operands: &mut Operands) -> Result<(), AllocError>
    requires { FindsOperands Cell (counts_of operands.old) }
    ensures { OnOk result (Does Cell (Passes 0) operands.old operands.new) }
{
    let value = operands.pop_truth();
    operands.push(cell_of(value))
}

pub fn truth(operands: &mut Operands) -> Result<(), AllocError>
    requires { FindsOperands Truth (counts_of operands.old) }
    ensures { OnOk result (Does Truth (Passes 0) operands.old operands.new) }
{
    let value = operands.pop();
    operands.push_truth(truth_of(value))
}

pub fn negate(operands: &mut Operands) -> Result<(), AllocError>
    requires { FindsOperands Negate (counts_of operands.old) }
    ensures { OnOk result (Does Negate (Passes 0) operands.old operands.new) }
{
    let value = operands.pop_truth();
    operands.push_truth(!value)
}

pub fn relate(relation: Relation, operands: &mut Operands) -> Result<(), AllocError>
    requires { FindsOperands (Relate relation) (counts_of operands.old) }
    ensures { OnOk result (Does (Relate relation) (Passes 0) operands.old operands.new) }
{
    let y = operands.pop();
    let x = operands.pop();
    operands.push_truth(related(relation, x, y))
}

pub fn compare(relation: Relation, operands: &mut Operands) -> Result<(), AllocError>
    requires { FindsOperands (Compare relation) (counts_of operands.old) }
    ensures { OnOk result (Does (Compare relation) (Passes 0) operands.old operands.new) }
{
    let (x, y) = operands.pop_truths();
    operands.push_truth(related(relation, cell_of(x), cell_of(y)))
}

pub fn combine(operator: Logical, operands: &mut Operands) -> Result<(), AllocError>
    requires { FindsOperands (Combine operator) (counts_of operands.old) }
    ensures { OnOk result (Does (Combine operator) (Passes 0) operands.old operands.new) }
{
    let (x, y) = operands.pop_truths();
    operands.push_truth(logical_of(operator, x, y))
}

/// Where the newest truth value is the one that stays, this number of instructions is passed.
pub fn pass_if(stays: bool, count: usize, operands: &mut Operands) -> Result<Flow, AllocError>
    requires { FindsOperands (passes_if stays count) (counts_of operands.old) }
    ensures { IfOk result (λ flow. Does (passes_if stays count) flow operands.old operands.new) }
{
    let value = operands.pop_truth();
    if value == stays {
        operands.push_truth(value)?;
        Ok(Flow::Passes(count))
    } else {
        Ok(Flow::Passes(0))
    }
}
