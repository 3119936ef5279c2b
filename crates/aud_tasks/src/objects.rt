// What steps do with protected objects (RM 9.4, 9.5.1 to 9.5.3).

ghost use Rattle.std.specs.Prelude.{◌≤◌, ℕ, IsSome, IfOk, OnOk, Option};
ghost use Rattle.aud_typed.specs.Ties.View.{plain_program};
ghost use Rattle.aud_code.specs.Eval.{asked_end};
ghost use Rattle.aud_code.specs.Instruction.{CallObject, DeclareObject, Operation};
ghost use Rattle.aud_code.specs.View.{plain_kind};
ghost use Rattle.aud_state.specs.Fast.{scene};
ghost use Rattle.aud_tasks.specs.Counting.{most_of_barriers};
ghost use Rattle.aud_tasks.specs.Acting.{DoesAsked};

use crate::barriers::Evaluator;
use crate::compiled::Compiled;
use crate::entries::{copy_backs, copy_values, form_of};
use aud_calls::calls::NewCall;
use aud_code::line::CallKind;
use aud_expr::operands::Operands;
use aud_meaning::state::Owner;
use aud_protected::{declaring, starting};
use aud_state::state::State;
use aud_text::place::Pos;
use aud_typed::program::Variable;
use std::alloc::{AllocError, Global};

/// An object of this declaration is created.
pub(crate) fn declare(
    state: &mut State,
    alloc: Global,
    compiled: Compiled<'_>,
    n: usize,
    declaration: usize,
    at: Pos,
    operands: &Operands,
) -> Result<(), AllocError>
    requires { IsSome operands.now.cells }
    ensures { OnOk result ((alternative : Option ℕ) →
        DoesAsked (plain_program compiled.entry.program.now).plan
        compiled.entry.code.now compiled.entry.limits alternative n
        (asked_end (DeclareObject declaration) 0 at (scene n state.old) operands.now)
        state.old state.new) }
{
    declaring::declare(
        state,
        alloc,
        compiled.code,
        at,
        declaration,
        operands.cells(),
        n,
    )
}

/// A call of this entry of the object whose number the variable holds. It gives the instructions of barriers that were executed.
pub(crate) fn call(
    state: &mut State,
    alloc: Global,
    compiled: Compiled<'_>,
    n: usize,
    object: Variable,
    entry: usize,
    kind: CallKind,
    at: Pos,
    operands: &Operands,
) -> Result<u64, AllocError>
    ensures does { OnOk result ((alternative : Option ℕ) →
        DoesAsked (plain_program compiled.entry.program.now).plan
        compiled.entry.code.now compiled.entry.limits alternative n
        (asked_end (CallObject object entry (plain_kind kind)) 0 at (scene n state.old) operands.now)
        state.old state.new) }
    ensures few { IfOk result (λ ticks. ticks ≤ most_of_barriers
        (plain_program compiled.entry.program.now).plan compiled.entry.code.now) }
{
    let code = compiled.code;
    let number = state.number_of(n, object);
    let form = form_of(kind, state.clock(), operands.delay())?;
    let call = NewCall {
        caller: n,
        owner: Owner::Object(number),
        entry,
        values: copy_values(alloc, operands.values())?,
        backs: copy_backs(alloc, operands.backs())?,
        form,
        at,
    };
    let mut barriers = Evaluator::new(alloc, compiled);
    starting::call(state, alloc, code, &mut barriers, call, number)?;
    Ok(barriers.ticks())
}

/// A call of this procedure or function of the object whose number the variable holds.
pub(crate) fn start(
    state: &mut State,
    alloc: Global,
    compiled: Compiled<'_>,
    n: usize,
    object: Variable,
    unit: usize,
    at: Pos,
    operands: &Operands,
) -> Result<(), AllocError>
    ensures { OnOk result ((alternative : Option ℕ) →
        DoesAsked (plain_program compiled.entry.program.now).plan
        compiled.entry.code.now compiled.entry.limits alternative n
        (asked_end (Operation object unit) 0 at (scene n state.old) operands.now)
        state.old state.new) }
{
    let code = compiled.code;
    let number = state.number_of(n, object);
    let barriers = Evaluator::new(alloc, compiled);
    starting::start(
        state,
        alloc,
        code,
        &barriers,
        at,
        number,
        unit,
        operands.values(),
        operands.backs(),
        operands.newest_target(),
        n,
    )
}
