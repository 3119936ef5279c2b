// What instructions do with operands whose images they put at the text's end.

ghost use Rattle.std.specs.Prelude.{OnOk};
ghost use Rattle.aud_code.specs.Instruction.{AppendImage, AppendTruth};
ghost use Rattle.aud_code.specs.Sound.{counts_of};
ghost use Rattle.aud_expr.specs.declared.flow.Flow.TheVariants.{Passes};
ghost use Rattle.aud_expr.specs.Flow.{FindsOperands, Does};

use crate::operands::Operands;
use std::alloc::AllocError;

pub fn append_image(operands: &mut Operands) -> Result<(), AllocError>
    requires { FindsOperands AppendImage (counts_of operands.old) }
    ensures { OnOk result (Does AppendImage (Passes 0) operands.old operands.new) }
{
    let value = operands.pop();
    operands.append_image(value)
}

pub fn append_truth(operands: &mut Operands) -> Result<(), AllocError>
    requires { FindsOperands AppendTruth (counts_of operands.old) }
    ensures { OnOk result (Does AppendTruth (Passes 0) operands.old operands.new) }
{
    let value = operands.pop_truth();
    operands.append_truth(value)
}
