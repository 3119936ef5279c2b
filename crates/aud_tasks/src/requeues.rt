// The step requeue (RM 9.5.4).

ghost use Rattle.std.specs.Prelude.{◌≡◌, ◌≤◌, ℕ, Option, Some, length, slice_get};
ghost use Rattle.aud_typed.specs.Ties.View.{plain_program};
ghost use Rattle.aud_meaning.specs.Configuration.{TaskAt};
ghost use Rattle.aud_code.specs.Eval as code;
ghost use Rattle.aud_code.specs.Eval.{asked_end};
ghost use Rattle.aud_code.specs.Flat.{end_at};
ghost use Rattle.aud_code.specs.Instruction.{RequeueObject, RequeueTask};
ghost use Rattle.aud_code.specs.Places.{Spot};
ghost use Rattle.aud_code.specs.View.{plain_way};
ghost use Rattle.aud_state.specs.Fast.{scene};
ghost use Rattle.aud_tasks.specs.Acting.{DoesAsked};

use crate::compiled::Compiled;
use aud_code::line::{EntryAgain, Way};
use aud_expr::operands::Operands;
use aud_meaning::state::{Again, Owner};
use aud_state::state::State;
use aud_text::place::Pos;
use aud_typed::program::Variable;

/// The accept or entry body is left, whose call is made again on this entry of the task that is named.
pub(crate) fn on_task(
    state: &mut State,
    compiled: Compiled<'_>,
    n: usize,
    again: EntryAgain,
    way: Way,
    at: Pos,
    operands: &Operands,
)
    requires named { 1 ≤ length operands.now.names }
    requires there { (t : TaskAt Spot) → slice_get state.old.tasks n ≡ Some t →
        (end_at compiled.code.now t.control.place).exit ≡ Some (plain_way way) }
    ensures { (alternative : Option ℕ) → DoesAsked (plain_program compiled.entry.program.now).plan
        compiled.entry.code.now compiled.entry.limits alternative n
        (asked_end (RequeueTask again.entry again.with_formals again.with_abort) way.loops at
        (scene n state.old) operands.now) state.old state.new }
{
    let task = operands.names()[0];
    state.requeue(
        compiled.code,
        n,
        way,
        again_on(Owner::Task(task), again, at),
    );
}

/// The same on an entry of the object whose number the variable holds.
pub(crate) fn on_object(
    state: &mut State,
    compiled: Compiled<'_>,
    n: usize,
    object: Variable,
    again: EntryAgain,
    way: Way,
    at: Pos,
    operands: &Operands,
)
    requires { (t : TaskAt Spot) → slice_get state.old.tasks n ≡ Some t →
        (end_at compiled.code.now t.control.place).exit ≡ Some (plain_way way) }
    ensures { (alternative : Option ℕ) → DoesAsked (plain_program compiled.entry.program.now).plan
        compiled.entry.code.now compiled.entry.limits alternative n
        (asked_end (RequeueObject object again.entry again.with_formals again.with_abort) way.loops at
        (scene n state.old) operands.now) state.old state.new }
{
    let number = state.number_of(n, object);
    state.requeue(
        compiled.code,
        n,
        way,
        again_on(Owner::Object(number), again, at),
    );
}

// Where the call is made again.
fn again_on(owner: Owner, again: EntryAgain, at: Pos) -> Again
    ensures { result ≡ code.again_on owner again.entry again.with_formals again.with_abort at }
{
    Again {
        owner,
        entry: again.entry,
        with_formals: again.with_formals,
        with_abort: again.with_abort,
        at,
    }
}
