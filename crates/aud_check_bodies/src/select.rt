// Select statements: timed and conditional calls, and what is left of selective accepts.

ghost use Rattle.std.specs.Prelude.{◌≡◌, ◌∷◌, ◌++◌, None, IfOk};
ghost use Rattle.aud_syntax.specs.Ties.View.{plain_name, plain_other};
ghost use Rattle.aud_typed.specs.Tree.{select, part_of};
ghost use Rattle.aud_typed.specs.Ties.View.{plain_boolean, plain_delay, plain_form, plain_statement as plain_typed_statement};
ghost use Rattle.aud_fault.specs.Least.{noted};
ghost use Rattle.aud_typing.specs.Ties.Typing.{in_box, Leaves};
ghost use Rattle.aud_check_bodies.specs.Calls.{called_faults, selected_faults, selected_call_faults, selected_as, selected_call};
ghost use Rattle.aud_check_bodies.specs.Selects.{accepts, delays, terminates, alternatives_of, form_faults, form_of};
ghost use Rattle.aud_check_bodies.specs.Ties.Arms.{plain_items, plain_accepted, plain_alternative, plain_alternatives};
ghost use Rattle.aud_check_bodies.specs.Ties.Passed.{plain_maybe_called, plain_head};
ghost use Rattle.aud_check_bodies.specs.Ties.Tables.{plain_tables};

use crate::call::{Callee, call_of, callee_meant};
use crate::delay::delay;
use crate::entry_call::{EntryCalled, entry_called};
use crate::tables::Tables;
use aud_fault::fault::Least;
use aud_names::behind::{Left, Made, add_first, both, boxed};
use aud_names::names::{Meaning, Scope};
use aud_names::resolution::{Denoted, is_value, resolve};
use aud_names::rules::not_an_entry;
use aud_syntax::tree::{Name, Otherwise};
use aud_text::place::Pos;
use aud_typed::program::{
    AcceptStatement, Alternative, BooleanExpression, CallForm, DelayExpression, SelectStatement,
    Statement,
};
use std::alloc::Global;

// Notes where what a timed or conditional call calls could be called by itself, but is no entry (RM 9.7.2, 9.7.3).
fn check_selected(meaning: Option<Meaning>, at: Pos, faults: &mut Least)
    ensures { faults.new ≡ noted faults.old (selected_faults meaning at) }
{
    match meaning {
        Some(Meaning::Builtin(_) | Meaning::Procedure(_)) => not_an_entry(at, faults),
        Some(Meaning::Operation(operation)) => {
            if !is_value(operation.subprogram) {
                not_an_entry(at, faults);
            }
        }
        _ => {}
    }
}

// Checks a call of no entry.
fn no_entry(
    callee: Option<Callee>,
    denoted: Denoted,
    name: &Name,
    scope: &Scope<'_>,
    tables: &Tables,
    faults: &mut Least,
) -> Made<Option<EntryCalled>>
    ensures { Leaves plain_maybe_called result faults.old faults.new
        (called_faults callee denoted (plain_name name.now) scope.now (plain_tables tables.now))
        None }
{
    let faulty = call_of(callee, denoted, name, scope, tables, faults)?;
    drop(faulty);
    Ok(None)
}

// Checks the call of what a name denotes, which is this of the program, if it is anything of it.
fn selected_as(
    callee: Option<Callee>,
    denoted: Denoted,
    name: &Name,
    scope: &Scope<'_>,
    tables: &Tables,
    faults: &mut Least,
) -> Made<Option<EntryCalled>>
    ensures { Leaves plain_maybe_called result faults.old faults.new
        (called_faults callee denoted (plain_name name.now) scope.now (plain_tables tables.now))
        (selected_as callee (plain_name name.now) scope.now (plain_tables tables.now)) }
{
    match callee {
        Some(Callee::Entry(entry)) => entry_called(entry, name, denoted.at, scope, tables, faults),
        Some(Callee::Procedure(_) | Callee::Operation(_)) => {
            no_entry(callee, denoted, name, scope, tables, faults)
        }
        None => no_entry(callee, denoted, name, scope, tables, faults),
    }
}

// Checks the call of a timed or conditional call.
#[tactic(auto, using(aud_typing::proofs::Notes::noted_append))]
fn selected_call(
    name: &Name,
    scope: &Scope<'_>,
    tables: &Tables,
    faults: &mut Least,
) -> Made<Option<EntryCalled>>
    ensures { Leaves plain_maybe_called result faults.old faults.new
        (selected_call_faults (plain_name name.now) scope.now (plain_tables tables.now))
        (selected_call (plain_name name.now) scope.now (plain_tables tables.now)) }
{
    let denoted = resolve(name, scope, faults);
    check_selected(denoted.meaning, denoted.at, faults);
    let callee = callee_meant(denoted.meaning);
    selected_as(callee, denoted, name, scope, tables, faults)
}

// When a call is left that is not accepted.
fn form_of(otherwise: &Otherwise, scope: &Scope<'_>, faults: &mut Least) -> Left<CallForm>
    ensures { Leaves (in_box plain_form) result faults.old faults.new
        (form_faults (plain_other otherwise.now) scope.now)
        (form_of (plain_other otherwise.now) scope.now) }
{
    match otherwise {
        Otherwise::Delay(source, _) => {
            let waited = delay(source, scope, faults)?;
            boxed(scope.alloc(), CallForm::Timed(Box::into_inner(waited)))
        }
        Otherwise::Else(_) => boxed(scope.alloc(), CallForm::Conditional),
    }
}

/// How a timed or conditional call is left, and what it calls, if that has no fault.
pub type Head = (Box<CallForm>, Option<EntryCalled>);

/// Checks a timed or a conditional call, but for the statements in it (RM 9.7.2, 9.7.3).
#[tactic(auto, using(aud_typing::proofs::Notes::noted_append))]
#[inline(never)]
pub fn call_head(
    name: &Name,
    otherwise: &Otherwise,
    scope: &Scope<'_>,
    tables: &Tables,
    faults: &mut Least,
) -> Made<Head>
    ensures { Leaves plain_head result faults.old faults.new
        (form_faults (plain_other otherwise.now) scope.now
        ++ selected_call_faults (plain_name name.now) scope.now (plain_tables tables.now)) (
          form_of (plain_other otherwise.now) scope.now,
          selected_call (plain_name name.now) scope.now (plain_tables tables.now),
        ) }
{
    let form = form_of(otherwise, scope, faults)?;
    both(form, selected_call(name, scope, tables, faults))
}

/// An accept as an alternative, with its guard and the statements behind it.
#[inline(never)]
pub fn accepting(
    alloc: Global,
    head: (Box<BooleanExpression>, Box<AcceptStatement>),
    after: Vec<Statement>,
) -> Left<Alternative>
    ensures { IfOk result (λ typed. plain_alternative typed.value
        ≡ accepts (plain_boolean head.0.value) (plain_accepted head.1.value)
        (part_of (plain_items after))) }
{
    let (guard, accept) = head;
    let guard = Box::into_inner(guard);
    let accept = Box::into_inner(accept);
    boxed(
        alloc,
        Alternative::Accept {
            guard,
            accept,
            after,
        },
    )
}

/// A delay as an alternative.
#[inline(never)]
pub fn delaying(
    alloc: Global,
    head: (Box<BooleanExpression>, Box<DelayExpression>),
    after: Vec<Statement>,
) -> Left<Alternative>
    ensures { IfOk result (λ typed. plain_alternative typed.value
        ≡ delays (plain_boolean head.0.value) (plain_delay head.1.value)
        (part_of (plain_items after))) }
{
    let (guard, delay) = head;
    let guard = Box::into_inner(guard);
    let delay = Box::into_inner(delay);
    boxed(
        alloc,
        Alternative::Delay {
            guard,
            delay,
            after,
        },
    )
}

/// A terminate alternative.
#[inline(never)]
pub fn terminating(alloc: Global, guard: Box<BooleanExpression>) -> Left<Alternative>
    ensures { IfOk result (λ typed. plain_alternative typed.value
        ≡ terminates (plain_boolean guard.value)) }
{
    let guard = Box::into_inner(guard);
    boxed(alloc, Alternative::Terminate { guard })
}

/// A selective accept of its first alternative and the others, and the statements behind `else` (RM 9.7.1).
#[inline(never)]
pub fn select_of(
    alloc: Global,
    at: Pos,
    offered: (Box<Alternative>, Vec<Alternative>),
    otherwise: Vec<Statement>,
) -> Left<Statement>
    ensures { IfOk result (λ typed. plain_typed_statement typed.value
        ≡ select at
        (alternatives_of (plain_alternative offered.0.value ∷ plain_alternatives offered.1))
        (part_of (plain_items otherwise))) }
{
    let (first, others) = offered;
    let mut alternatives = others;
    add_first(&mut alternatives, first)?;
    let statement = boxed(
        alloc,
        SelectStatement {
            at,
            alternatives,
            otherwise,
        },
    )?;
    boxed(alloc, Statement::Select(statement))
}
