// What is left of statements and bodies, of their parts.

ghost use Rattle.std.specs.Prelude.{◌≡◌, ◌++◌, ◌∷◌, [], IfOk};
ghost use Rattle.aud_syntax.specs.Ties.View.{plain_body as plain_source, plain_choices};
ghost use Rattle.aud_typed.specs.Tree.{null, block, accept, without_do, with_do, part_of, activation};
ghost use Rattle.aud_typed.specs.Ties.View.{plain_boolean, plain_statement, plain_body, plain_unit, statements_in};
ghost use Rattle.aud_check_bodies.specs.Statements.{arm_then, arms_then, begin_of, body_with};
ghost use Rattle.aud_check_bodies.specs.Handlers.{is_others, choices_of};
ghost use Rattle.aud_check_bodies.specs.Ties.Arms.{plain_arm, plain_arms, plain_handler, plain_parts, plain_sequence, plain_items, plain_accepted};

use crate::handler::{choices_of, is_others};
use aud_names::behind::{Left, Made, add_first, boxed};
use aud_names::names::Scope;
use aud_syntax::tree::{Body as SourceBody, Choices};
use aud_text::place::Pos;
use aud_typed::program::{
    AcceptStatement, Arm, BlockStatement, Body, BooleanExpression, Doing, Handler, IfStatement,
    Statement, Statements, Unit,
};
use std::alloc::Global;

/// A null statement.
#[inline(never)]
pub fn null_at(alloc: Global, at: Pos) -> Left<Statement>
    ensures { IfOk result (λ typed. plain_statement typed.value ≡ null at) }
{
    boxed(alloc, Statement::Null(at))
}

/// An if statement of its first arm and the others, and the statements behind `else`.
#[inline(never)]
pub fn if_of(
    alloc: Global,
    arms: (Box<Arm>, Vec<Arm>),
    otherwise: Vec<Statement>,
) -> Left<Statement>
    ensures { IfOk result (λ typed. plain_statement typed.value
        ≡ arm_then (plain_arm arms.0.value)
        (arms_then (plain_arms arms.1) (part_of (plain_items otherwise)))) }
{
    let (first, others) = arms;
    let first = Box::into_inner(first);
    let statement = boxed(
        alloc,
        IfStatement {
            first,
            others,
            otherwise,
        },
    )?;
    boxed(alloc, Statement::If(statement))
}

/// An arm of its parts.
#[inline(never)]
pub fn arm_of(
    alloc: Global,
    at: Pos,
    condition: Box<BooleanExpression>,
    statements: Box<Statements>,
) -> Left<Arm>
    ensures { IfOk result (λ arm. plain_arm arm.value
        ≡ record {
          at = at;
          condition = plain_boolean condition.value;
          statements = statements_in statements.value;
        }) }
{
    let condition = Box::into_inner(condition);
    let statements = Box::into_inner(statements);
    boxed(
        alloc,
        Arm {
            at,
            condition,
            statements,
        },
    )
}

/// A statement, and those behind it.
#[inline(never)]
pub fn in_order(alloc: Global, first: Box<Statement>, others: Vec<Statement>) -> Left<Statements>
    ensures { IfOk result (λ typed. plain_sequence typed.value
        ≡ record { first = plain_statement first.value; others = plain_items others }) }
{
    boxed(alloc, Statements { first, others })
}

/// All statements of a sequence.
#[inline(never)]
pub fn in_row(statements: Box<Statements>) -> Made<Vec<Statement>>
    ensures { IfOk result (λ typed. plain_items typed
        ≡ (plain_sequence statements.value).first ∷ (plain_sequence statements.value).others) }
{
    let Statements { first, others } = Box::into_inner(statements);
    let mut row = others;
    add_first(&mut row, first)?;
    Ok(row)
}

/// A handler for these choices (RM 11.2).
#[inline(never)]
pub fn handler_of(
    choices: &Choices,
    scope: &Scope<'_>,
    statements: Box<Statements>,
) -> Left<Handler>
    ensures { IfOk result (λ handler. plain_handler handler.value
        ≡ record {
          others = is_others (plain_choices choices.now);
          choices = choices_of (plain_choices choices.now) scope.now;
          statements = statements_in statements.value;
        }) }
{
    let others = is_others(choices);
    let choices = choices_of(choices, scope)?;
    let statements = Box::into_inner(statements);
    boxed(
        scope.alloc(),
        Handler {
            others,
            choices,
            statements,
        },
    )
}

/// The statements of a body, and its handlers.
pub type Parts = (Box<Statements>, Vec<Handler>);

/// A body with these declarations, whose `begin` activates tasks or does not (RM 9.2(3)).
#[inline(never)]
pub fn body_of(
    alloc: Global,
    source: &SourceBody,
    declarations: Vec<Statement>,
    activates: bool,
    parts: Parts,
) -> Left<Body>
    ensures { IfOk result (λ body. plain_body body.value
        ≡ body_with
        (plain_items declarations ++ activation activates (begin_of (plain_source source.now)))
        (plain_source source.now) (plain_parts parts)) }
{
    let (statements, handlers) = parts;
    boxed(
        alloc,
        Body {
            declarations,
            begin: source.begin,
            activates,
            statements: Box::into_inner(statements),
            handlers,
            end: source.end,
        },
    )
}

/// A block that begins at a place, whose region has this number (RM 5.6).
#[inline(never)]
pub fn block_of(alloc: Global, at: Pos, region: usize, body: Box<Body>) -> Left<Statement>
    ensures { IfOk result (λ typed. plain_statement typed.value
        ≡ block at region (plain_body body.value)) }
{
    let body = Box::into_inner(body);
    let statement = boxed(alloc, BlockStatement { at, region, body })?;
    boxed(alloc, Statement::Block(statement))
}

/// An accept at a place of the entry of this number, which does nothing (RM 9.5.2).
#[inline(never)]
pub fn accept_of(alloc: Global, at: Pos, entry: usize) -> Left<AcceptStatement>
    ensures { IfOk result (λ typed. plain_accepted typed.value
        ≡ record { at = at; entry = entry; doing = without_do }) }
{
    let doing = None;
    boxed(alloc, AcceptStatement { at, entry, doing })
}

/// An accept that does something, in the region of its formals, which has this number.
#[inline(never)]
pub fn accept_doing(
    alloc: Global,
    at: Pos,
    entry: usize,
    region: usize,
    source: &SourceBody,
    parts: Parts,
) -> Left<AcceptStatement>
    ensures { IfOk result (λ typed. plain_accepted typed.value
        ≡ record {
          at = at;
          entry = entry;
          doing = with_do region (body_with [] (plain_source source.now) (plain_parts parts));
        }) }
{
    let body = body_of(alloc, source, Vec::new(alloc), false, parts)?;
    let body = Box::into_inner(body);
    let doing = Some(Doing { region, body });
    boxed(alloc, AcceptStatement { at, entry, doing })
}

/// An accept as a statement.
#[inline(never)]
pub fn accepted(alloc: Global, statement: Box<AcceptStatement>) -> Left<Statement>
    ensures { IfOk result (λ typed. plain_statement typed.value
        ≡ accept (plain_accepted statement.value).at (plain_accepted statement.value).entry
        (plain_accepted statement.value).doing) }
{
    boxed(alloc, Statement::Accept(statement))
}

/// A body that is entered, which begins at a place, with the level and the number of its region (RM 6.3).
#[inline(never)]
pub fn unit_of(
    alloc: Global,
    level: usize,
    region: usize,
    is_function: bool,
    at: Pos,
    body: Box<Body>,
) -> Left<Unit>
    ensures { IfOk result (λ unit. plain_unit unit.value
        ≡ record {
          level = level;
          region = region;
          is_function = is_function;
          at = at;
          body = plain_body body.value;
        }) }
{
    let body = Box::into_inner(body);
    boxed(
        alloc,
        Unit {
            level,
            region,
            is_function,
            at,
            body,
        },
    )
}
