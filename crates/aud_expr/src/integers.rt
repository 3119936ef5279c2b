// What instructions do with Integers.

ghost use Rattle.std.specs.Prelude.{◌≡◌, IfOk};
ghost use Rattle.aud_meaning.specs.Evaluation.{unary_of, binary_of};
ghost use Rattle.aud_code.specs.Instruction.{OnOne, OnTwo, Check};
ghost use Rattle.aud_code.specs.Eval.{Then, on_result};
ghost use Rattle.aud_code.specs.Sound.{counts_of};
ghost use Rattle.aud_expr.specs.Operands.{with_integer};
ghost use Rattle.aud_expr.specs.Flow.{FindsOperands, Does, followed};

use crate::flow::Flow;
use crate::operands::Operands;
use crate::operators::{binary_of, in_range, unary_of};
use aud_text::int32::Int32;
use aud_text::raise::Raise;
use aud_typed::program::{Binary, Subtype, Unary};
use std::alloc::AllocError;

pub fn on_one(operator: Unary, operands: &mut Operands) -> Result<Flow, AllocError>
    requires { FindsOperands (OnOne operator) (counts_of operands.old) }
    ensures { IfOk result (λ flow. Does (OnOne operator) flow operands.old operands.new) }
{
    let x = operands.pop();
    leave(unary_of(operator, x), operands)
}

pub fn on_two(operator: Binary, operands: &mut Operands) -> Result<Flow, AllocError>
    requires { FindsOperands (OnTwo operator) (counts_of operands.old) }
    ensures { IfOk result (λ flow. Does (OnTwo operator) flow operands.old operands.new) }
{
    let y = operands.pop();
    let x = operands.pop();
    leave(binary_of(operator, x, y), operands)
}

pub fn check(subtype: Subtype, operands: &mut Operands) -> Result<Flow, AllocError>
    requires { FindsOperands (Check subtype) (counts_of operands.old) }
    ensures { IfOk result (λ flow. Does (Check subtype) flow operands.old operands.new) }
{
    let x = operands.pop();
    leave(in_range(subtype, x), operands)
}

// The value as the newest Integer, or its exception.
fn leave(value: Result<Int32, Raise>, operands: &mut Operands) -> Result<Flow, AllocError>
    ensures { IfOk result (λ flow. (go : Then) →
        on_result value (λ z. go 0 (with_integer z operands.old)) ≡ followed flow go operands.new) }
{
    match value {
        Ok(value) => {
            operands.push(value)?;
            Ok(Flow::Passes(0))
        }
        Err(raise) => Ok(Flow::Raises(raise)),
    }
}
