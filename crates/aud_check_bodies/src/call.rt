// Calls.

ghost use Rattle.std.specs.Prelude.{◌≡◌, ◌++◌, None, IfOk, OnOk};
ghost use Rattle.aud_syntax.specs.Ties.View.{plain_name, plain_expression, plain_expressions};
ghost use Rattle.aud_typed.specs.Ties.View.{plain_into, plain_calling, plain_statement as plain_typed_statement};
ghost use Rattle.aud_fault.specs.Least.{noted};
ghost use Rattle.aud_names.specs.Rules.{wrong_number_of_arguments, no_change_within_function};
ghost use Rattle.aud_names.specs.Resolution.{name_ident, last_args};
ghost use Rattle.aud_typing.specs.Expressions.{checked_arguments};
ghost use Rattle.aud_check_bodies.specs.Arguments.{all_passed, arguments_faults};
ghost use Rattle.aud_check_bodies.specs.Calls.{one_text, no_argument, element_called, array_called, put_faults, callee_faults, operation_meant, callee_meant, may_change, operation_call_faults, called_faults, put_out, procedure_called, by_access, operation_called, called, called_as, call_faults, typed_call};
ghost use Rattle.aud_check_bodies.specs.Ties.Passed.{plain_all_passed};
ghost use Rattle.aud_check_bodies.specs.Ties.Tables.{plain_tables};
ghost use Rattle.aud_typing.specs.Ties.Typing.{plain_typed, in_box, Leaves};
ghost use Rattle.aud_names.specs.declared.names.Builtin.TheVariants as builtin;

use crate::argument::{all_passed, are_as_many};
use crate::assignment::null_for;
use crate::entry_call::entry_call;
use crate::tables::Tables;
use aud_fault::fault::Least;
use aud_names::behind::{Left, Made, boxed};
use aud_names::names::{
    Builtin, Entry, Instance, Meaning, NamedParameter, Operation, Scope, is_in_function, is_inside,
};
use aud_names::resolution::{Denoted, are_none, is_value, last_args, note_no_value, resolve};
use aud_names::rules::{
    Base, no_change_within_function, wrong_kind_of_name, wrong_number_of_arguments,
};
use aud_syntax::tree::{Expression, Name};
use aud_text::place::Pos;
use aud_typed::program::{
    Argument, Calling, Reference, Statement as TypedStatement, TextExpression,
};
use aud_typing::expression::{arguments, expression_at};
use aud_typing::typed::{Typed, wants, with_text};
use std::alloc::Global;

/// What is called of the program: a procedure, by its unit, a procedure of a protected object, or an entry.
#[derive(Clone, Copy)]
pub enum Callee {
    Procedure(usize),
    Operation(Operation),
    Entry(Entry),
}

// Notes where there is not one argument, a text.
fn one_text(args: &[Expression], at: Pos, last: &Typed, faults: &mut Least)
    ensures { faults.new
        ≡ noted faults.old (one_text (plain_expressions args.now) at (plain_typed last.now)) }
{
    if args.len() != 1 {
        wrong_number_of_arguments(at, faults);
        return;
    }
    wants(Base::Text, expression_at(&args[0]), last, faults);
}

/// Notes where there are arguments.
pub fn no_argument(args: &[Expression], at: Pos, faults: &mut Least)
    ensures { faults.new ≡ noted faults.old (no_argument (plain_expressions args.now) at) }
{
    if !are_none(args) {
        wrong_number_of_arguments(at, faults);
    }
}

// Notes that an element is not called, or the fault of its index.
fn element_called(index: &Expression, at: Pos, last: &Typed, faults: &mut Least)
    ensures { faults.new ≡ noted faults.old
        (element_called (plain_expression index.now) at (plain_typed last.now)) }
{
    match last {
        Typed::Number(_) => wrong_kind_of_name(at, faults),
        _ => wants(Base::Whole, expression_at(index), last, faults),
    }
}

/// Notes that an array is not called, nor an element, or the fault of its index.
pub fn array_called(args: &[Expression], at: Pos, last: &Typed, faults: &mut Least)
    ensures { faults.new ≡ noted faults.old
        (array_called (plain_expressions args.now) at (plain_typed last.now)) }
{
    match args.split_first() {
        None => wrong_kind_of_name(at, faults),
        Some((index, others)) => match others.split_first() {
            None => element_called(index, at, last, faults),
            Some(_) => wrong_number_of_arguments(at, faults),
        },
    }
}

// Notes the faults of a call of what a name denotes, with these arguments.
fn check_callee(denoted: Denoted, args: &[Expression], last: &Typed, faults: &mut Least)
    ensures { faults.new ≡ noted faults.old (callee_faults denoted.meaning
        (plain_expressions args.now) denoted.at (plain_typed last.now)) }
{
    let at = denoted.at;
    match denoted.meaning {
        None => {}
        Some(Meaning::Builtin(Builtin::Put | Builtin::PutLine)) => one_text(args, at, last, faults),
        Some(Meaning::Builtin(Builtin::NewLine)) => no_argument(args, at, faults),
        Some(Meaning::Array(_) | Meaning::TaskArray(_)) => array_called(args, at, last, faults),
        Some(
            Meaning::ScalarType(_)
            | Meaning::Literal(_)
            | Meaning::Object(_)
            | Meaning::Exception(_)
            | Meaning::Procedure(_)
            | Meaning::TaskType(_)
            | Meaning::Task(_)
            | Meaning::Entry(_)
            | Meaning::Protected(_)
            | Meaning::Barred,
        ) => {
            wrong_kind_of_name(at, faults);
        }
        Some(Meaning::Operation(operation)) => {
            note_no_value(Meaning::Operation(operation), at, faults);
        }
    }
}

// What a procedure that puts out is left as; a faulty call is left as a null statement.
fn put_out(alloc: Global, builtin: Builtin, at: Pos, last: Typed) -> Left<TypedStatement>
    ensures { IfOk result (λ typed. plain_typed_statement typed.value
        ≡ put_out builtin at (plain_typed last)) }
{
    match builtin {
        Builtin::Put => boxed(alloc, put(at, last)),
        Builtin::PutLine => put_line(alloc, at, last),
        Builtin::NewLine => {
            drop(last);
            boxed(alloc, TypedStatement::Put(at, TextExpression::NewLine))
        }
    }
}

fn put(at: Pos, last: Typed) -> TypedStatement
    ensures { plain_typed_statement result ≡ put_out builtin.Put at (plain_typed last) }
{
    match last {
        Typed::Text(text) => TypedStatement::Put(at, text),
        other => null_for(at, other),
    }
}

fn put_line(alloc: Global, at: Pos, last: Typed) -> Left<TypedStatement>
    ensures { IfOk result (λ typed. plain_typed_statement typed.value
        ≡ put_out builtin.PutLine at (plain_typed last)) }
{
    match last {
        Typed::Text(text) => {
            let line = with_text(alloc, text, TextExpression::NewLine)?;
            boxed(alloc, TypedStatement::Put(at, line))
        }
        other => boxed(alloc, null_for(at, other)),
    }
}

fn called(alloc: Global, meaning: Option<Meaning>, at: Pos, last: Typed) -> Left<TypedStatement>
    ensures { IfOk result (λ typed. plain_typed_statement typed.value
        ≡ called meaning at (plain_typed last)) }
{
    match meaning {
        Some(Meaning::Builtin(builtin)) => put_out(alloc, builtin, at, last),
        _ => boxed(alloc, null_for(at, last)),
    }
}

// A call of a procedure of the program, if what is passed has no fault; another is left as a null statement.
fn procedure_called(unit: usize, at: Pos, passed: Option<Vec<Argument>>) -> TypedStatement
    ensures { plain_typed_statement result ≡ procedure_called unit at (plain_all_passed passed) }
{
    match passed {
        None => TypedStatement::Null(at),
        Some(arguments) => TypedStatement::ProcedureCall(
            at,
            Calling {
                unit,
                arguments,
                into: None,
            },
        ),
    }
}

// A call of an operation: from within its object as of a procedure, and from outside.
fn by_access(inside: bool, instance: Instance, at: Pos, calling: Calling) -> TypedStatement
    ensures { plain_typed_statement result ≡ by_access inside instance at (plain_calling calling) }
{
    if inside {
        TypedStatement::ProcedureCall(at, calling)
    } else {
        TypedStatement::OperationCall(at, instance.variable, calling)
    }
}

/// A call of an operation of an object, whose value goes there, if what is passed has no fault; another is left as a
/// null statement.
pub fn operation_called(
    operation: Operation,
    into: Option<Reference>,
    at: Pos,
    passed: Option<Vec<Argument>>,
) -> TypedStatement
    ensures { plain_typed_statement result
        ≡ operation_called operation (plain_into into) at (plain_all_passed passed) }
{
    let Some(arguments) = passed else {
        drop(into);
        return TypedStatement::Null(at);
    };
    let calling = Calling {
        unit: operation.unit,
        arguments,
        into,
    };
    let instance = operation.instance;
    by_access(is_inside(instance.access), instance, at, calling)
}

// An operation that is a procedure.
fn operation_meant(operation: Operation) -> Option<Callee>
    ensures { result ≡ operation_meant operation }
{
    if is_value(operation.subprogram) {
        None
    } else {
        Some(Callee::Operation(operation))
    }
}

/// A procedure of the program or of an object, or an entry.
pub fn callee_meant(meaning: Option<Meaning>) -> Option<Callee>
    ensures { result ≡ callee_meant meaning }
{
    match meaning {
        Some(Meaning::Procedure(unit)) => Some(Callee::Procedure(unit)),
        Some(Meaning::Operation(operation)) => operation_meant(operation),
        Some(Meaning::Entry(entry)) => Some(Callee::Entry(entry)),
        _ => None,
    }
}

// A call with more or fewer arguments than formals, whose name stands at a place.
#[tactic(auto, using(aud_typing::proofs::Notes::noted_append))]
fn wrongly_called(name: &Name, at: Pos, scope: &Scope<'_>, faults: &mut Least) -> Made<()>
    ensures { OnOk result (faults.new ≡ noted faults.old (wrong_number_of_arguments at
        ++ (checked_arguments (plain_name name.now) scope.now).faults)) }
{
    wrong_number_of_arguments(at, faults);
    let last = arguments(name, scope, faults)?;
    drop(last);
    Ok(())
}

/// What is passed in a call of a procedure or an entry with these formals, whose name stands at a place.
pub fn all_given(
    profile: &[NamedParameter],
    name: &Name,
    at: Pos,
    scope: &Scope<'_>,
    faults: &mut Least,
) -> Made<Option<Vec<Argument>>>
    ensures { Leaves plain_all_passed result faults.old faults.new
        (arguments_faults profile.now (plain_name name.now) at scope.now)
        (all_passed profile.now (last_args (plain_name name.now)) scope.now) }
{
    let args = last_args(name);
    if are_as_many(profile, args) {
        return all_passed(profile, args, scope, faults);
    }
    wrongly_called(name, at, scope, faults)?;
    Ok(None)
}

// A call of a procedure of the program.
fn procedure_call(
    unit: usize,
    profile: &[NamedParameter],
    name: &Name,
    at: Pos,
    scope: &Scope<'_>,
    faults: &mut Least,
) -> Left<TypedStatement>
    ensures { Leaves (in_box plain_typed_statement) result faults.old faults.new
        (arguments_faults profile.now (plain_name name.now) at scope.now)
        (procedure_called unit (name_ident (plain_name name.now)).at
        (all_passed profile.now (last_args (plain_name name.now)) scope.now)) }
{
    let passed = all_given(profile, name, at, scope, faults)?;
    let statement = procedure_called(unit, name.first.ident.at, passed);
    boxed(scope.alloc(), statement)
}

/// Whether an object may be changed where it is named (RM 9.5.1(2)).
pub fn may_change(instance: Instance) -> bool
    ensures { result ≡ may_change instance }
{
    !is_in_function(instance.access)
}

// A call of a procedure of an object.
#[tactic(auto, using(aud_typing::proofs::Notes::noted_append))]
fn operation_call(
    operation: Operation,
    profile: &[NamedParameter],
    name: &Name,
    at: Pos,
    scope: &Scope<'_>,
    faults: &mut Least,
) -> Left<TypedStatement>
    ensures { Leaves (in_box plain_typed_statement) result faults.old faults.new
        (no_change_within_function (may_change operation.instance) at
        ++ arguments_faults profile.now (plain_name name.now) at scope.now)
        (operation_called operation None (name_ident (plain_name name.now)).at
        (all_passed profile.now (last_args (plain_name name.now)) scope.now)) }
{
    no_change_within_function(may_change(operation.instance), at, faults);
    let passed = all_given(profile, name, at, scope, faults)?;
    let statement = operation_called(operation, None, name.first.ident.at, passed);
    boxed(scope.alloc(), statement)
}

// A call of what a name denotes that is no procedure of the program.
#[tactic(auto, using(aud_typing::proofs::Notes::noted_append))]
fn other_call(
    denoted: Denoted,
    name: &Name,
    scope: &Scope<'_>,
    faults: &mut Least,
) -> Left<TypedStatement>
    ensures { Leaves (in_box plain_typed_statement) result faults.old faults.new
        ((checked_arguments (plain_name name.now) scope.now).faults
        ++ callee_faults denoted.meaning (last_args (plain_name name.now)) denoted.at
        (checked_arguments (plain_name name.now) scope.now).typed)
        (called denoted.meaning (name_ident (plain_name name.now)).at
        (checked_arguments (plain_name name.now) scope.now).typed) }
{
    let last = Box::into_inner(arguments(name, scope, faults)?);
    check_callee(denoted, last_args(name), &last, faults);
    called(scope.alloc(), denoted.meaning, name.first.ident.at, last)
}

/// A call of what a name denotes, which is this of the program, if it is anything of it.
pub fn call_of(
    callee: Option<Callee>,
    denoted: Denoted,
    name: &Name,
    scope: &Scope<'_>,
    tables: &Tables,
    faults: &mut Least,
) -> Left<TypedStatement>
    ensures { Leaves (in_box plain_typed_statement) result faults.old faults.new
        (called_faults callee denoted (plain_name name.now) scope.now (plain_tables tables.now))
        (called_as callee denoted (plain_name name.now) scope.now (plain_tables tables.now)) }
{
    match callee {
        Some(Callee::Procedure(unit)) => {
            let profile = tables.profile(unit);
            procedure_call(unit, profile, name, denoted.at, scope, faults)
        }
        Some(Callee::Operation(operation)) => {
            let profile = tables.profile(operation.unit);
            operation_call(operation, profile, name, denoted.at, scope, faults)
        }
        Some(Callee::Entry(entry)) => entry_call(entry, name, denoted.at, scope, tables, faults),
        None => other_call(denoted, name, scope, faults),
    }
}

/// Checks a call (RM 6.4, 9.5.3): notes its faults, and answers what is left of it.
#[inline(never)]
pub fn call(
    name: &Name,
    scope: &Scope<'_>,
    tables: &Tables,
    faults: &mut Least,
) -> Left<TypedStatement>
    ensures { Leaves (in_box plain_typed_statement) result faults.old faults.new
        (call_faults (plain_name name.now) scope.now (plain_tables tables.now))
        (typed_call (plain_name name.now) scope.now (plain_tables tables.now)) }
{
    let denoted = resolve(name, scope, faults);
    let callee = callee_meant(denoted.meaning);
    call_of(callee, denoted, name, scope, tables, faults)
}
