// How often loops are gone through, and what is left of them.

ghost use Rattle.std.specs.Prelude.{◌≡◌, ◌++◌, [], ◌∷◌, IfOk};
ghost use Rattle.aud_syntax.specs.Ties.View.{plain_simple};
ghost use Rattle.aud_typed.specs.Tree.{plain_loop, while_loop, for_loop};
ghost use Rattle.aud_typed.specs.Ties.View.{plain_integer, plain_boolean, plain_statement, statements_in};
ghost use Rattle.aud_names.specs.Names.{hiding};
ghost use Rattle.aud_check_bodies.specs.Statements.{bound_faults, bound_of};
ghost use Rattle.aud_check_bodies.specs.Ties.Loops.{plain_bounds, plain_for};
ghost use Rattle.aud_typing.specs.Ties.Typing.{in_box, Leaves};

use crate::declaration::integer_of;
use aud_fault::fault::Least;
use aud_names::behind::{Left, Made, both, boxed};
use aud_names::names::Scope;
use aud_names::rules::Base;
use aud_syntax::tree::{LoopParameter, Simple};
use aud_text::place::Pos;
use aud_typed::program::{
    BooleanExpression, ForStatement, IntegerExpression, Statement as TypedStatement,
    Statements as TypedStatements,
};
use aud_typing::expression::{simple, simple_at};
use aud_typing::typed::wants;
use std::alloc::Global;

/// The bounds of a loop's parameter: the lower one and the upper one.
pub type Bounds = (Box<IntegerExpression>, Box<IntegerExpression>);

// A bound, which is an Integer.
#[tactic(auto, using(aud_typing::proofs::Notes::noted_append))]
fn bound(e: &Simple, scope: &Scope<'_>, faults: &mut Least) -> Left<IntegerExpression>
    ensures { Leaves (in_box plain_integer) result faults.old faults.new
        (bound_faults (plain_simple e.now) scope.now)
        (bound_of (plain_simple e.now) scope.now) }
{
    let typed = simple(e, scope, faults)?;
    wants(Base::Whole, simple_at(e), &typed, faults);
    boxed(scope.alloc(), integer_of(Box::into_inner(typed)))
}

/// Checks the bounds of a loop's parameter (RM 5.5(4)), which is not visible in them: notes their faults,
/// and answers what is left of them.
#[tactic(auto, using(aud_typing::proofs::Notes::noted_append))]
#[inline(never)]
pub fn bounds(parameter: &LoopParameter, scope: &Scope<'_>, faults: &mut Least) -> Made<Bounds>
    ensures { Leaves plain_bounds result faults.old faults.new
        (bound_faults (plain_simple parameter.now.low) (hiding (parameter.now.name ∷ []) scope.now)
        ++ bound_faults (plain_simple parameter.now.high)
        (hiding (parameter.now.name ∷ []) scope.now)) (
          bound_of (plain_simple parameter.now.low) (hiding (parameter.now.name ∷ []) scope.now),
          bound_of (plain_simple parameter.now.high)
              (hiding (parameter.now.name ∷ []) scope.now),
        ) }
{
    let inner = scope.within_one(&parameter.name)?;
    let low = bound(&parameter.low, &inner, faults)?;
    let high = bound(&parameter.high, &inner, faults);
    drop(inner);
    both(low, high)
}

/// A loop that is left by an exit, if at all.
#[inline(never)]
pub fn forever(alloc: Global, body: Box<TypedStatements>) -> Left<TypedStatement>
    ensures { IfOk result (λ typed. plain_statement typed.value
        ≡ plain_loop (statements_in body.value)) }
{
    boxed(alloc, TypedStatement::Loop(body))
}

/// A loop with a condition, which begins at a place.
#[inline(never)]
pub fn while_of(
    alloc: Global,
    at: Pos,
    condition: Box<BooleanExpression>,
    body: Box<TypedStatements>,
) -> Left<TypedStatement>
    ensures { IfOk result (λ typed. plain_statement typed.value
        ≡ while_loop at (plain_boolean condition.value) (statements_in body.value)) }
{
    let condition = Box::into_inner(condition);
    boxed(alloc, TypedStatement::While(at, condition, body))
}

/// Where a loop with a parameter and its `for` stand, the number of its region, and whether its values come in reverse.
#[derive(Clone, Copy)]
pub struct For {
    pub at: Pos,
    pub next_at: Pos,
    pub region: usize,
    pub backward: bool,
}

/// A loop with a parameter between these bounds.
#[inline(never)]
pub fn for_of(
    alloc: Global,
    head: For,
    bounds: Bounds,
    body: Box<TypedStatements>,
) -> Left<TypedStatement>
    ensures { IfOk result (λ typed. plain_statement typed.value
        ≡ for_loop (plain_for head) (plain_integer bounds.0.value) (plain_integer bounds.1.value)
        (statements_in body.value)) }
{
    let (first, last) = bounds;
    let first = Box::into_inner(first);
    let last = Box::into_inner(last);
    let statements = Box::into_inner(body);
    let statement = boxed(
        alloc,
        ForStatement {
            at: head.at,
            next_at: head.next_at,
            region: head.region,
            backward: head.backward,
            first,
            last,
            statements,
        },
    )?;
    boxed(alloc, TypedStatement::For(statement))
}
