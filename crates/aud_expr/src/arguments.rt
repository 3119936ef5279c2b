// What instructions do with the arguments of a call.

ghost use Rattle.std.specs.Prelude.{List, ℕ, OnOk};
ghost use Rattle.aud_code.specs.Instruction.{LoadFound, Pass, PassCopy};
ghost use Rattle.aud_code.specs.Sound.{counts_of};
ghost use Rattle.aud_expr.specs.declared.flow.Flow.TheVariants.{Passes};
ghost use Rattle.aud_expr.specs.Flow.{FindsOperands, Reads, Does};

use crate::operands::Operands;
use crate::variables::held;
use aud_store::frames::Frames;
use aud_store::target::Back;
use std::alloc::AllocError;

pub fn load_found(frames: &Frames, operands: &mut Operands) -> Result<(), AllocError>
    requires { FindsOperands LoadFound (counts_of operands.old) }
    ensures { OnOk result ((display : List ℕ) →
        Reads display frames.now LoadFound (Passes 0) operands.old operands.new) }
{
    let target = operands.pop_target();
    operands.push_target(target)?;
    let value = held(target, frames, operands);
    operands.push(value)
}

pub fn pass(operands: &mut Operands) -> Result<(), AllocError>
    requires { FindsOperands Pass (counts_of operands.old) }
    ensures { OnOk result (Does Pass (Passes 0) operands.old operands.new) }
{
    let value = operands.pop();
    operands.pass(value)
}

/// The formal of this number is copied back to the target.
pub fn pass_copy(formal: usize, operands: &mut Operands) -> Result<(), AllocError>
    requires { FindsOperands (PassCopy formal) (counts_of operands.old) }
    ensures { OnOk result (Does (PassCopy formal) (Passes 0) operands.old operands.new) }
{
    let value = operands.pop();
    let target = operands.pop_target();
    operands.pass(value)?;
    operands.pass_back(Back::new(formal, target))
}
