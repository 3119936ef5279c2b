// Conditions.

ghost use Rattle.std.specs.Prelude.{◌≡◌};
ghost use Rattle.aud_syntax.specs.Ties.View.{plain_expression, plain_maybe};
ghost use Rattle.aud_typed.specs.Ties.View.{plain_boolean};
ghost use Rattle.aud_typing.specs.Conditions.{condition_faults, truth_of, condition, maybe_condition_faults, maybe_condition};
ghost use Rattle.aud_typing.specs.Ties.Typing.{plain_typed, in_box, Leaves};

use crate::expression::{expression, expression_at};
use crate::typed::{Typed, wants};
use aud_fault::fault::Least;
use aud_names::behind::{Left, boxed};
use aud_names::names::Scope;
use aud_names::rules::Base;
use aud_syntax::tree::Expression;
use aud_typed::program::BooleanExpression;

fn truth_of(typed: Typed) -> BooleanExpression
    ensures { plain_boolean result ≡ truth_of (plain_typed typed) }
{
    match typed {
        Typed::Truth(value) => value,
        other => {
            drop(other);
            BooleanExpression::Truth(false)
        }
    }
}

/// Checks a condition (RM 4.5.7(4)): notes its faults, and answers what is left of it.
#[tactic(auto, using(crate::proofs::Notes::noted_append))]
#[inline(never)]
pub fn condition(e: &Expression, scope: &Scope<'_>, faults: &mut Least) -> Left<BooleanExpression>
    ensures { Leaves (in_box plain_boolean) result faults.old faults.new
        (condition_faults (plain_expression e.now) scope.now)
        (condition (plain_expression e.now) scope.now) }
{
    let typed = expression(e, scope, faults)?;
    wants(Base::Truth, expression_at(e), &typed, faults);
    boxed(scope.alloc(), truth_of(Box::into_inner(typed)))
}

/// Checks the condition of an exit (RM 5.7(5)), which is True where there is none.
pub fn maybe_condition(
    maybe: &Option<Expression>,
    scope: &Scope<'_>,
    faults: &mut Least,
) -> Left<BooleanExpression>
    ensures { Leaves (in_box plain_boolean) result faults.old faults.new
        (maybe_condition_faults (plain_maybe maybe.now) scope.now)
        (maybe_condition (plain_maybe maybe.now) scope.now) }
{
    match maybe {
        None => boxed(scope.alloc(), BooleanExpression::Truth(true)),
        Some(e) => condition(e, scope, faults),
    }
}
