// Assignments of expressions, and of the values of functions.

ghost use Rattle.std.specs.Prelude.{◌≡◌, IfOk, option_map};
ghost use Rattle.aud_syntax.specs.Ties.View.{plain_expression, plain_name};
ghost use Rattle.aud_typed.specs.Ties.View.{plain_statement as plain_typed_statement};
ghost use Rattle.aud_check_bodies.specs.Arguments.{arguments_faults};
ghost use Rattle.aud_check_bodies.specs.Values.{function_denoted, function_named, function_called, result_of, is_none, result_base, returned_faults, returned_into, returned, assign_faults, typed_assign};
ghost use Rattle.aud_check_bodies.specs.Ties.Passed.{plain_found, plain_target, plain_all_passed};
ghost use Rattle.aud_check_bodies.specs.Ties.Tables.{plain_tables};
ghost use Rattle.aud_check_bodies.specs.Ties.Values.{plain_function, plain_maybe_function};
ghost use Rattle.aud_typing.specs.Ties.Entities.{plain_entity};
ghost use Rattle.aud_typing.specs.Ties.Typing.{in_box, Leaves};

use crate::argument::{expression_name, reference_of};
use crate::assignment::{check_target, expression_assigned, target_base};
use crate::call::{all_given, operation_called};
use crate::tables::Tables;
use aud_fault::fault::Least;
use aud_names::behind::{Left, Made, both, boxed};
use aud_names::names::{Meaning, NamedParameter, Operation, Scope, Subprogram};
use aud_names::resolution::{Denoted, is_value, resolve};
use aud_names::rules::{Base, base_asked, right_type};
use aud_syntax::tree::{Expression, Name};
use aud_text::place::Pos;
use aud_typed::program::{Argument, Reference, Statement as TypedStatement, Subtype};
use aud_typing::entity::{Denoting, name_denotes};
use aud_typing::expression::{arguments, expression_at};

/// A function that is called by a name, whose deciding identifier stands at a place.
#[derive(Clone, Copy)]
pub struct FunctionCalled<'a> {
    pub name: &'a Name,
    pub operation: Operation,
    pub at: Pos,
}

fn function_denoted(name: &Name, denoted: Denoted) -> Option<FunctionCalled<'_>>
    ensures { plain_maybe_function result
        ≡ function_denoted (plain_name name.now) denoted.at denoted.meaning }
{
    match denoted.meaning {
        Some(Meaning::Operation(operation)) => {
            if is_value(operation.subprogram) {
                return Some(FunctionCalled {
                    name,
                    operation,
                    at: denoted.at,
                });
            }
            None
        }
        _ => None,
    }
}

// The function that a name stands for. A faulty name stands for none, and its faults are noted where it is checked.
fn function_named<'a>(name: Option<&'a Name>, scope: &Scope<'_>) -> Option<FunctionCalled<'a>>
    ensures { plain_maybe_function result ≡ function_named (plain_found name.entry) scope.now }
{
    match name {
        None => None,
        Some(name) => {
            let mut faults = Least::new();
            function_denoted(name, resolve(name, scope, &mut faults))
        }
    }
}

// The function whose call an expression is.
fn function_called<'a>(e: &'a Expression, scope: &Scope<'_>) -> Option<FunctionCalled<'a>>
    ensures { plain_maybe_function result ≡ function_called (plain_expression e.now) scope.now }
{
    function_named(expression_name(e), scope)
}

fn result_of(subprogram: Subprogram) -> Option<Subtype>
    ensures { result ≡ result_of subprogram }
{
    match subprogram {
        Subprogram::Function(subtype) => subtype,
        Subprogram::Procedure => None,
    }
}

// The type of a call that is fine, or not.
fn result_base(fine: bool, subprogram: Subprogram) -> Option<Base>
    ensures { result ≡ result_base fine subprogram }
{
    if fine {
        base_asked(result_of(subprogram))
    } else {
        None
    }
}

// Whether what is passed to a function with these formals has no fault.
#[tactic(auto, using(crate::proofs::Functions::none_noted))]
fn is_fine(
    function: FunctionCalled<'_>,
    profile: &[NamedParameter],
    scope: &Scope<'_>,
) -> Made<bool>
    ensures { IfOk result (λ fine. fine ≡ is_none (arguments_faults profile.now
        (plain_name function.entry.name.now) function.entry.at scope.now)) }
{
    let mut faults = Least::new();
    let passed = all_given(profile, function.name, function.at, scope, &mut faults)?;
    drop(passed);
    Ok(faults.get().is_none())
}

// A call whose value is assigned; a faulty one is left as a null statement.
fn returned_into(
    target: Option<Reference>,
    operation: Operation,
    at: Pos,
    passed: Option<Vec<Argument>>,
) -> TypedStatement
    ensures { plain_typed_statement result
        ≡ returned_into (plain_target target) operation at (plain_all_passed passed) }
{
    let Some(target) = target else {
        drop(passed);
        return TypedStatement::Null(at);
    };
    operation_called(operation, Some(target), at, passed)
}

// The assignment of a function's value to what a name denotes, in a statement that begins at a place.
#[tactic(auto, using(aud_typing::proofs::Notes::noted_append))]
fn function_assigned(
    function: FunctionCalled<'_>,
    target: Denoting,
    places: (Pos, Pos),
    scope: &Scope<'_>,
    tables: &Tables,
    faults: &mut Least,
) -> Left<TypedStatement>
    ensures { Leaves (in_box plain_typed_statement) result faults.old faults.new
        (returned_faults (plain_function function.entry) (plain_entity target.entity) target.at
        places.1 scope.now (plain_tables tables.now))
        (returned (plain_function function.entry) (plain_entity target.entity) places.0 scope.now
        (plain_tables tables.now)) }
{
    let operation = function.operation;
    let profile = tables.profile(operation.unit);
    let (target, fine) = both(target, is_fine(function, profile, scope))?;
    let passed = all_given(profile, function.name, function.at, scope, faults);
    let (target, passed) = both(target, passed)?;
    check_target(&target.entity, target.at, faults);
    let base = result_base(fine, operation.subprogram);
    right_type(target_base(&target.entity), places.1, base, faults);
    let statement = returned_into(reference_of(target.entity), operation, places.0, passed);
    boxed(scope.alloc(), statement)
}

/// Checks an assignment (RM 5.2): notes its faults, and answers what is left of it.
#[inline(never)]
pub fn assignment(
    target: &Name,
    value: &Expression,
    scope: &Scope<'_>,
    tables: &Tables,
    faults: &mut Least,
) -> Left<TypedStatement>
    ensures { Leaves (in_box plain_typed_statement) result faults.old faults.new
        (assign_faults (plain_name target.now) (plain_expression value.now) scope.now
        (plain_tables tables.now))
        (typed_assign (plain_name target.now) (plain_expression value.now) scope.now
        (plain_tables tables.now)) }
{
    let last = arguments(target, scope, faults)?;
    let begin = target.first.ident.at;
    let target = name_denotes(target, last, scope, faults);
    match function_called(value, scope) {
        None => expression_assigned(target, value, begin, scope, faults),
        Some(function) => {
            let places = (begin, expression_at(value));
            function_assigned(function, target, places, scope, tables, faults)
        }
    }
}
