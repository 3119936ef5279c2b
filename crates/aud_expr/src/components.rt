// What instructions do with the cells of an object that is declared.

ghost use Rattle.std.specs.Prelude.{OnOk};
ghost use Rattle.aud_code.specs.Instruction.{BeginObject, Component};
ghost use Rattle.aud_code.specs.Sound.{counts_of};
ghost use Rattle.aud_expr.specs.declared.flow.Flow.TheVariants.{Passes};
ghost use Rattle.aud_expr.specs.Flow.{FindsOperands, Does, Numbers};

use crate::facts::integer_of;
use crate::operands::Operands;
use std::alloc::AllocError;

/// The cells of an object begin, where there are so many objects.
pub fn begin_object(objects: usize, operands: &mut Operands) -> Result<(), AllocError>
    ensures { OnOk result
        (Numbers objects BeginObject (Passes 0) operands.old operands.new) }
{
    let number = integer_of(objects)?;
    operands.begin_object(number)
}

pub fn component(operands: &mut Operands) -> Result<(), AllocError>
    requires { FindsOperands Component (counts_of operands.old) }
    ensures { OnOk result (Does Component (Passes 0) operands.old operands.new) }
{
    let value = operands.pop();
    operands.add_component(value)
}
