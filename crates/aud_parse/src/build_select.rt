// Delays and select statements of the parts that were read.
//
// None of these functions is inlined, as in `crate::build`.

ghost use Rattle.std.specs.Prelude.{◌≡◌, IfOk};
ghost use Rattle.aud_syntax.specs.declared.tree.Alternative.TheVariants as alternatives;
ghost use Rattle.aud_syntax.specs.declared.tree.Delay.TheVariants as delays;
ghost use Rattle.aud_syntax.specs.Plain as m;
ghost use Rattle.aud_syntax.specs.Ties.View.{plain_name, plain_statement, plain_statements, plain_others, plain_maybe, plain_delay, plain_accept, plain_alternative, guarded_list, plain_other};
ghost use Rattle.aud_parse.specs.Ties.Parts.{else_statements, unboxed};

use crate::build::{boxed, else_part};
use aud_syntax::tree::{
    AcceptStatement, Alternative, Delay, Expression, Guarded, Name, Otherwise, Real,
    SelectStatement, SelectedCall, Statement, Statements,
};
use aud_text::place::Pos;
use std::alloc::{AllocError, Global};

/// A delay of so many seconds (RM 9.6).
#[inline(never)]
pub fn made_seconds(alloc: Global, at: Pos, seconds: Real) -> Result<Box<Delay>, AllocError>
    ensures { IfOk result (λ b. b.value ≡ delays.Seconds at seconds) }
{
    boxed(alloc, Delay::Seconds(at, seconds))
}

/// A delay of a Duration, which stands there (RM 9.6).
#[inline(never)]
pub fn made_duration(
    alloc: Global,
    at: Pos,
    named: Pos,
    value: Box<Expression>,
) -> Result<Box<Delay>, AllocError>
    ensures { IfOk result (λ b. b.value ≡ delays.Duration at named value.value) }
{
    boxed(alloc, Delay::Duration(at, named, Box::into_inner(value)))
}

/// An accept statement, as a statement (RM 9.5.2(3)).
#[inline(never)]
pub fn accepting_of(
    alloc: Global,
    accept: Box<AcceptStatement>,
) -> Result<Box<Statement>, AllocError>
    ensures { IfOk result (λ b. plain_statement b.value ≡ m.accepting (plain_accept accept.value)) }
{
    boxed(alloc, Statement::Accept(accept))
}

/// A delay, as a statement (RM 9.6).
#[inline(never)]
pub fn delaying_of(alloc: Global, delay: Box<Delay>) -> Result<Box<Statement>, AllocError>
    ensures { IfOk result (λ b. plain_statement b.value ≡ m.delaying (plain_delay delay.value)) }
{
    boxed(alloc, Statement::Delay(delay))
}

/// An accept alternative (RM 9.7.1(5)).
#[inline(never)]
pub fn accept_alternative_of(
    alloc: Global,
    accept: Box<AcceptStatement>,
    behind: Option<Box<Statements>>,
) -> Result<Box<Alternative>, AllocError>
    ensures { IfOk result (λ b. plain_alternative b.value ≡
        m.accept_alternative (plain_accept accept.value) (plain_others (else_statements behind))) }
{
    let behind = else_part(alloc, behind)?;
    let accept = Box::into_inner(accept);
    boxed(alloc, Alternative::Accept(accept, behind))
}

/// A delay alternative (RM 9.7.1(6)).
#[inline(never)]
pub fn delay_alternative_of(
    alloc: Global,
    delay: Box<Delay>,
    behind: Option<Box<Statements>>,
) -> Result<Box<Alternative>, AllocError>
    ensures { IfOk result (λ b. plain_alternative b.value ≡
        m.delay_alternative (plain_delay delay.value) (plain_others (else_statements behind))) }
{
    let behind = else_part(alloc, behind)?;
    let delay = Box::into_inner(delay);
    boxed(alloc, Alternative::Delay(delay, behind))
}

/// A terminate alternative (RM 9.7.1(7)).
#[inline(never)]
pub fn terminate_alternative_of(alloc: Global) -> Result<Box<Alternative>, AllocError>
    ensures { IfOk result (λ b. b.value ≡ alternatives.Terminate) }
{
    boxed(alloc, Alternative::Terminate)
}

// The condition of a guard, out of its box.
fn unboxed(condition: Option<Box<Expression>>) -> Option<Expression>
    ensures { result ≡ unboxed condition }
{
    match condition {
        None => None,
        Some(condition) => Some(Box::into_inner(condition)),
    }
}

/// An alternative behind its guard, if it has one (RM 9.7.1(2)).
#[inline(never)]
pub fn guarded_of(
    alloc: Global,
    guard: Option<Box<Expression>>,
    alternative: Box<Alternative>,
) -> Result<Box<Guarded>, AllocError>
    ensures { IfOk result (λ b. b.value ≡
        record { guard = unboxed guard; alternative = alternative.value }) }
{
    let guarded = Guarded {
        guard: unboxed(guard),
        alternative: Box::into_inner(alternative),
    };
    boxed(alloc, guarded)
}

/// A selective accept (RM 9.7.1).
#[inline(never)]
pub fn made_select(
    alloc: Global,
    at: Pos,
    first: Box<Guarded>,
    others: Vec<Guarded>,
    otherwise: Option<Box<Statements>>,
) -> Result<Box<Statement>, AllocError>
    ensures { IfOk result (λ b. plain_statement b.value ≡
        m.select_accept at (plain_maybe first.value.guard)
        (plain_alternative first.value.alternative) (guarded_list others.items)
        (plain_others (else_statements otherwise))) }
{
    let otherwise = else_part(alloc, otherwise)?;
    let first = Box::into_inner(first);
    let statement = boxed(
        alloc,
        SelectStatement {
            at,
            first,
            others,
            otherwise,
        },
    )?;
    boxed(alloc, Statement::Select(statement))
}

/// What is done in place of an entry call when its time is over (RM 9.7.2).
#[inline(never)]
pub fn or_delay_of(
    alloc: Global,
    delay: Box<Delay>,
    behind: Option<Box<Statements>>,
) -> Result<Box<Otherwise>, AllocError>
    ensures { IfOk result (λ b. plain_other b.value ≡
        m.or_delay (plain_delay delay.value) (plain_others (else_statements behind))) }
{
    let behind = else_part(alloc, behind)?;
    let delay = Box::into_inner(delay);
    boxed(alloc, Otherwise::Delay(delay, behind))
}

/// What is done in place of an entry call that does not begin at once (RM 9.7.3).
#[inline(never)]
pub fn or_else_of(alloc: Global, inner: Box<Statements>) -> Result<Box<Otherwise>, AllocError>
    ensures { IfOk result (λ b. plain_other b.value ≡ m.or_else (plain_statements inner.value)) }
{
    let statements = Box::into_inner(inner);
    boxed(alloc, Otherwise::Else(statements))
}

/// A timed or a conditional entry call (RM 9.7.2, 9.7.3).
#[inline(never)]
pub fn made_select_call(
    alloc: Global,
    at: Pos,
    call: Box<Name>,
    behind: Option<Box<Statements>>,
    otherwise: Box<Otherwise>,
) -> Result<Box<Statement>, AllocError>
    ensures { IfOk result (λ b. plain_statement b.value ≡
        m.select_call at (plain_name call.value) (plain_others (else_statements behind))
        (plain_other otherwise.value)) }
{
    let behind = else_part(alloc, behind)?;
    let call = Box::into_inner(call);
    let otherwise = Box::into_inner(otherwise);
    let statement = boxed(
        alloc,
        SelectedCall {
            at,
            call,
            behind,
            otherwise,
        },
    )?;
    boxed(alloc, Statement::SelectCall(statement))
}
