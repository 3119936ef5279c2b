// Arguments of calls.

ghost use Rattle.std.specs.Prelude.{◌≡◌, IfOk, Some, None};
ghost use Rattle.aud_syntax.specs.Ties.View.{plain_expression, plain_expressions, plain_relation, plain_simple, plain_term, plain_factor, plain_primary, plain_name};
ghost use Rattle.aud_fault.specs.Least.{noted};
ghost use Rattle.aud_check_bodies.specs.Arguments.{primary_name, factor_name, term_name, unsigned_name, simple_name, relation_name, expression_name, variable_faults, unnamed_faults, copied_faults, object_reference, meaning_reference, reference_of, is_copied_in, copied_to, copied, passed_faults, passed, are_as_many, all_passed_faults, all_passed};
ghost use Rattle.aud_typed.specs.Ties.View.{plain_integer};
ghost use Rattle.aud_typing.specs.Expressions.{element_of};
ghost use Rattle.aud_typing.specs.Ties.Entities.{plain_entity};
ghost use Rattle.aud_check_bodies.specs.Ties.Passed.{plain_found, plain_target, plain_passed, plain_all_passed, one_more_passed};
ghost use Rattle.aud_typing.specs.Ties.Typing.{Leaves};

use crate::assignment::{check_target, target_base};
use crate::declaration::{given_value, known};
use crate::formal::is_in;
use aud_fault::fault::Least;
use aud_names::behind::{Made, add_last, both};
use aud_names::names::{Meaning, NamedParameter, Object, Parameter, Scope};
use aud_names::rules::{Base, base_asked, not_a_variable, right_type};
use aud_syntax::tree::{Expression, Factor, Mode, Name, Primary, Relation, Simple, Term};
use aud_text::place::Pos;
use aud_typed::program::{Argument, Reference, Subtype};
use aud_typing::entity::{Denoting, Element, Entity, name_denotes};
use aud_typing::expression::{arguments, expression, expression_at};
use aud_typing::typed::base_of;

fn primary_name(primary: &Primary) -> Option<&Name>
    ensures { plain_found result ≡ primary_name (plain_primary primary.now) }
{
    match primary {
        Primary::Name(name) => Some(name),
        _ => None,
    }
}

fn factor_name(factor: &Factor) -> Option<&Name>
    ensures { plain_found result ≡ factor_name (plain_factor factor.now) }
{
    match &factor.operator {
        Some(_) => None,
        None => primary_name(&factor.primary),
    }
}

fn term_name(term: &Term) -> Option<&Name>
    ensures { plain_found result ≡ term_name (plain_term term.now) }
{
    match term.rest.first() {
        Some(_) => None,
        None => factor_name(&term.first),
    }
}

fn unsigned_name(simple: &Simple) -> Option<&Name>
    ensures { plain_found result ≡ unsigned_name (plain_simple simple.now) }
{
    match simple.rest.first() {
        Some(_) => None,
        None => term_name(&simple.first),
    }
}

fn simple_name(simple: &Simple) -> Option<&Name>
    ensures { plain_found result ≡ simple_name (plain_simple simple.now) }
{
    match &simple.sign {
        Some(_) => None,
        None => unsigned_name(simple),
    }
}

fn relation_name(relation: &Relation) -> Option<&Name>
    ensures { plain_found result ≡ relation_name (plain_relation relation.now) }
{
    match relation {
        Relation::Unrelated(simple) => simple_name(simple),
        Relation::Related(_) => None,
    }
}

/// The name that an expression is, if it is nothing more.
pub fn expression_name(e: &Expression) -> Option<&Name>
    ensures { plain_found result ≡ expression_name (plain_expression e.now) }
{
    match e {
        Expression::Alone(relation) => relation_name(relation),
        Expression::Connected(_) => None,
    }
}

// Notes where what a name denotes is no variable of a formal's type (RM 6.4.1(5)).
#[tactic(auto, using(aud_typing::proofs::Notes::noted_append))]
fn check_variable(subtype: Option<Subtype>, at: Pos, target: &Denoting, faults: &mut Least)
    ensures { faults.new ≡ noted faults.old (variable_faults subtype at
        (plain_entity target.now.entity) target.now.at) }
{
    check_target(&target.entity, target.at, faults);
    let base = target_base(&target.entity);
    right_type(base_asked(subtype), at, base, faults);
}

// Notes that an expression is no variable, and where it is not of a formal's type either.
#[tactic(auto, using(aud_typing::proofs::Notes::noted_append))]
fn check_unnamed(subtype: Option<Subtype>, at: Pos, base: Option<Base>, faults: &mut Least)
    ensures { faults.new ≡ noted faults.old (unnamed_faults subtype at base) }
{
    if let Some(base) = base {
        not_a_variable(at, faults);
        right_type(base_asked(subtype), at, Some(base), faults);
    }
}

fn object_reference(object: Object) -> Option<Reference>
    ensures { plain_target result ≡ object_reference object.variable object.subtype }
{
    match object.subtype {
        None => None,
        Some(subtype) => Some(Reference::Scalar(object.variable, subtype)),
    }
}

fn meaning_reference(meaning: Meaning) -> Option<Reference>
    ensures { plain_target result ≡ meaning_reference meaning }
{
    match meaning {
        Meaning::Object(object) => object_reference(object),
        _ => None,
    }
}

fn element_reference(element: Element) -> Option<Reference>
    ensures { plain_target result ≡ reference_of (element_of element.array
        (plain_integer element.index) element.subtype) }
{
    let Element {
        array,
        index,
        subtype,
    } = element;
    let Some(subtype) = subtype else {
        drop(index);
        return None;
    };
    Some(Reference::Element(array, index, subtype))
}

/// What is copied back to, if that is a variable.
pub fn reference_of(entity: Entity) -> Option<Reference>
    ensures { plain_target result ≡ reference_of (plain_entity entity) }
{
    match entity {
        Entity::Whole(meaning) => meaning_reference(meaning),
        Entity::Element(element) => element_reference(element),
        other => {
            drop(other);
            None
        }
    }
}

fn is_copied_in(mode: Mode) -> bool
    ensures { result ≡ is_copied_in mode }
{
    match mode {
        Mode::InOut(_) => true,
        Mode::Unstated | Mode::In(_) | Mode::Out(_) => false,
    }
}

fn copied_to(parameter: Parameter, target: Option<Reference>) -> Option<Argument>
    ensures { plain_passed result ≡ copied_to parameter (plain_target target) }
{
    match target {
        None => None,
        Some(reference) => Some(Argument::ByCopy(
            is_copied_in(parameter.mode),
            known(parameter.subtype),
            reference,
        )),
    }
}

// An argument of mode out or in out that is a name.
#[tactic(auto, using(aud_typing::proofs::Notes::noted_append))]
fn named(
    parameter: Parameter,
    e: &Expression,
    name: &Name,
    scope: &Scope<'_>,
    faults: &mut Least,
) -> Made<Option<Argument>>
    ensures { Leaves plain_passed result faults.old faults.new
        (copied_faults parameter.subtype (plain_expression e.now) (Some (plain_name name.now))
        scope.now)
        (copied parameter (Some (plain_name name.now)) scope.now) }
{
    let last = arguments(name, scope, faults)?;
    let target = name_denotes(name, last, scope, faults);
    check_variable(parameter.subtype, expression_at(e), &target, faults);
    Ok(copied_to(parameter, reference_of(target.entity)))
}

// An argument of mode out or in out that is no name.
#[tactic(auto, using(aud_typing::proofs::Notes::noted_append))]
fn unnamed(
    parameter: Parameter,
    e: &Expression,
    scope: &Scope<'_>,
    faults: &mut Least,
) -> Made<Option<Argument>>
    ensures { Leaves plain_passed result faults.old faults.new
        (copied_faults parameter.subtype (plain_expression e.now) None scope.now)
        (copied parameter None scope.now) }
{
    let typed = expression(e, scope, faults)?;
    let base = base_of(&typed);
    drop(typed);
    check_unnamed(parameter.subtype, expression_at(e), base, faults);
    Ok(None)
}

// An argument for a formal (RM 6.4.1): notes its faults, and answers what is passed, if it has none.
#[inline(never)]
fn passed(
    parameter: Parameter,
    e: &Expression,
    scope: &Scope<'_>,
    faults: &mut Least,
) -> Made<Option<Argument>>
    ensures { Leaves plain_passed result faults.old faults.new
        (passed_faults parameter (plain_expression e.now) scope.now)
        (passed parameter (plain_expression e.now) scope.now) }
{
    if is_in(parameter.mode) {
        let value = given_value(e, parameter.subtype, scope, faults)?;
        return Ok(Some(Argument::ByValue(value)));
    }
    match expression_name(e) {
        Some(name) => named(parameter, e, name, scope, faults),
        None => unnamed(parameter, e, scope, faults),
    }
}

/// Whether there are as many arguments as formals.
pub fn are_as_many(profile: &[NamedParameter], args: &[Expression]) -> bool
    ensures { result ≡ are_as_many profile.now (plain_expressions args.now) }
{
    profile.len() == args.len()
}

// One argument more, if there are all of those before.
fn with_next(all: Option<Vec<Argument>>, next: Option<Argument>) -> Made<Option<Vec<Argument>>>
    ensures { IfOk result (λ more. plain_all_passed more
        ≡ one_more_passed (plain_all_passed all) (plain_passed next)) }
{
    let Some(mut all) = all else {
        drop(next);
        return Ok(None);
    };
    let Some(next) = next else {
        drop(all);
        return Ok(None);
    };
    add_last(&mut all, next)?;
    Ok(Some(all))
}

/// The arguments of a call with these formals: notes their faults, and answers what is passed, if
/// none has any.
pub fn all_passed(
    profile: &[NamedParameter],
    args: &[Expression],
    scope: &Scope<'_>,
    faults: &mut Least,
) -> Made<Option<Vec<Argument>>>
    ensures { Leaves plain_all_passed result faults.old faults.new
        (all_passed_faults profile.now (plain_expressions args.now) scope.now)
        (all_passed profile.now (plain_expressions args.now) scope.now) }
{
    let mut all = Some(Vec::with_capacity(scope.alloc(), args.len())?);
    let mut rest = args;
    for formal in profile {
        match rest.split_first() {
            None => {
                drop(all);
                return Ok(None);
            }
            Some((next, others)) => {
                let (before, more) = both(all, passed(formal.parameter, next, scope, faults))?;
                all = with_next(before, more)?;
                rest = others;
            }
        }
    }
    match rest.first() {
        None => Ok(all),
        Some(_) => {
            drop(all);
            Ok(None)
        }
    }
}
