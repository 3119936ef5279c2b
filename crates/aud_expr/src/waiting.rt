// What instructions do with the tasks that are named, and with what is waited for.

ghost use Rattle.std.specs.Prelude.{◌≡◌, ◌≤◌, OnOk};
ghost use Rattle.aud_text.specs.declared.limits.TheConstants.{CLOCK};
ghost use Rattle.aud_typed.specs.Ties.View.{milliseconds_in};
ghost use Rattle.aud_code.specs.Eval.{seconds_of};
ghost use Rattle.aud_code.specs.Instruction.{Name, Milliseconds, Seconds, OpensAccept, OpensDelay, OpensTerminate, PassUnlessNext, SetTime};
ghost use Rattle.aud_code.specs.Sound.{counts_of};
ghost use Rattle.aud_expr.specs.declared.flow.Flow.TheVariants.{Passes};
ghost use Rattle.aud_expr.specs.Flow.{FindsOperands, Does, Times};

use crate::facts::number_in;
use crate::flow::Flow;
use crate::operands::Operands;
use aud_meaning::state::OpenAccept;
use aud_text::int32::Int32;
use aud_typed::program::Duration;
use std::alloc::AllocError;

pub fn name(operands: &mut Operands) -> Result<(), AllocError>
    requires { FindsOperands Name (counts_of operands.old) }
    ensures { OnOk result (Does Name (Passes 0) operands.old operands.new) }
{
    let task = number_in(operands.pop());
    operands.name(task)
}

pub fn milliseconds(time: Duration, operands: &mut Operands)
    ensures { Does (Milliseconds (milliseconds_in time)) (Passes 0) operands.old operands.new }
{
    operands.set_delay(time);
}

pub fn seconds(operands: &mut Operands)
    requires { FindsOperands Seconds (counts_of operands.old) }
    ensures { Does Seconds (Passes 0) operands.old operands.new }
{
    let time = seconds_of(operands.pop());
    operands.set_delay(time);
}

// So many seconds, and none where the number is negative.
fn seconds_of(value: Int32) -> Duration
    ensures { milliseconds_in result ≡ seconds_of value }
{
    let value = value.get();
    Duration {
        seconds: if value <= 0 { 0 } else { value.unsigned_abs() },
        thousandths: 0,
    }
}

pub fn opens_accept(accept: OpenAccept, operands: &mut Operands) -> Result<(), AllocError>
    requires { FindsOperands (OpensAccept accept) (counts_of operands.old) }
    ensures { OnOk result (Does (OpensAccept accept) (Passes 0) operands.old operands.new) }
{
    if operands.pop_truth() {
        operands.open_accept(accept)?;
    }
    Ok(())
}

pub fn opens_delay(alternative: usize, operands: &mut Operands) -> Result<(), AllocError>
    requires { FindsOperands (OpensDelay alternative) (counts_of operands.old) }
    ensures { OnOk result (Does (OpensDelay alternative) (Passes 0) operands.old operands.new) }
{
    if operands.pop_truth() {
        operands.open_delay(alternative)?;
    }
    Ok(())
}

pub fn opens_terminate(operands: &mut Operands)
    requires { FindsOperands OpensTerminate (counts_of operands.old) }
    ensures { Does OpensTerminate (Passes 0) operands.old operands.new }
{
    if operands.pop_truth() {
        operands.open_terminate();
    }
}

/// Unless the next open delay is that of the alternative of the first number, the second number of instructions is passed.
pub fn pass_unless_next(alternative: usize, count: usize, operands: &mut Operands) -> Flow
    ensures { Does (PassUnlessNext alternative count) result operands.old operands.new }
{
    if operands.take_next(alternative) {
        Flow::Passes(0)
    } else {
        Flow::Passes(count)
    }
}

pub fn set_time(alternative: usize, clock: u64, operands: &mut Operands) -> Result<(), AllocError>
    requires { clock ≤ CLOCK }
    ensures { OnOk result
        (Times clock (SetTime alternative) (Passes 0) operands.old operands.new) }
{
    operands.set_time(alternative, clock)
}
