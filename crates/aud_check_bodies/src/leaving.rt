// Exits and returns.

ghost use Rattle.std.specs.Prelude.{◌≡◌, ◌++◌, is_some};
ghost use Rattle.aud_syntax.specs.Ties.View.{plain_maybe};
ghost use Rattle.aud_typed.specs.Tree.{exit};
ghost use Rattle.aud_typed.specs.Ties.View.{plain_statement as plain_typed_statement};
ghost use Rattle.aud_names.specs.Rules.{exit_in_loop};
ghost use Rattle.aud_typing.specs.Conditions.{maybe_condition_faults, maybe_condition};
ghost use Rattle.aud_check_bodies.specs.Statements.{loop_number, may_return, returned_subtype, return_faults, typed_return};
ghost use Rattle.aud_typing.specs.Ties.Typing.{in_box, Leaves as Shown};

use crate::declaration::given_value;
use crate::within::Leaves;
use aud_fault::fault::Least;
use aud_names::behind::{Left, boxed};
use aud_names::names::Scope;
use aud_names::rules::{exit_in_loop, return_in_place};
use aud_syntax::tree::Expression;
use aud_text::place::Pos;
use aud_typed::program::{Statement, Subtype};
use aud_typing::condition::maybe_condition;

/// An exit (RM 5.7) of the loop that is this number of loops further out than the innermost one, if there is such a loop.
#[tactic(auto, using(aud_typing::proofs::Notes::noted_append))]
#[inline(never)]
pub fn exit(
    at: Pos,
    found: Option<usize>,
    condition: &Option<Expression>,
    scope: &Scope<'_>,
    faults: &mut Least,
) -> Left<Statement>
    ensures { Shown (in_box plain_typed_statement) result faults.old faults.new
        (exit_in_loop (is_some found) at
        ++ maybe_condition_faults (plain_maybe condition.now) scope.now)
        (exit at (loop_number found) (maybe_condition (plain_maybe condition.now) scope.now)) }
{
    exit_in_loop(found.is_some(), at, faults);
    let condition = maybe_condition(condition, scope, faults)?;
    let depth = found.unwrap_or(0);
    let condition = Box::into_inner(condition);
    boxed(scope.alloc(), Statement::Exit(at, depth, condition))
}

// Whether a return may stand there, with a value or without.
fn may_return(leaves: Leaves, valued: bool) -> bool
    ensures { result ≡ may_return leaves valued }
{
    match leaves {
        Leaves::Task => false,
        Leaves::Procedure => !valued,
        Leaves::Function(_) => valued,
    }
}

// The subtype of the value that is returned.
fn returned_subtype(leaves: Leaves) -> Option<Subtype>
    ensures { result ≡ returned_subtype leaves }
{
    match leaves {
        Leaves::Function(subtype) => subtype,
        Leaves::Task | Leaves::Procedure => None,
    }
}

/// A return (RM 6.5), which has a value in a function and none in a procedure, and does not stand in a task's body: notes its
/// faults, and answers what is left of it.
#[tactic(auto, using(aud_typing::proofs::Notes::noted_append))]
#[inline(never)]
pub fn return_from(
    at: Pos,
    value: &Option<Expression>,
    leaves: Leaves,
    scope: &Scope<'_>,
    faults: &mut Least,
) -> Left<Statement>
    ensures { Shown (in_box plain_typed_statement) result faults.old faults.new
        (return_faults at (plain_maybe value.now) leaves scope.now)
        (typed_return at (plain_maybe value.now) leaves scope.now) }
{
    match value {
        None => {
            return_in_place(may_return(leaves, false), at, faults);
            boxed(scope.alloc(), Statement::Return(at))
        }
        Some(value) => {
            return_in_place(may_return(leaves, true), at, faults);
            let subtype = returned_subtype(leaves);
            let value = given_value(value, subtype, scope, faults)?;
            boxed(scope.alloc(), Statement::ReturnValue(at, value))
        }
    }
}
