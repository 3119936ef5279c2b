// What is assigned to, and assignments of expressions.

ghost use Rattle.std.specs.Prelude.{◌≡◌, ◌++◌};
ghost use Rattle.aud_syntax.specs.Ties.View.{plain_expression};
ghost use Rattle.aud_typed.specs.Tree.{null};
ghost use Rattle.aud_typed.specs.Ties.View.{plain_integer, plain_statement as plain_typed_statement};
ghost use Rattle.aud_fault.specs.Least.{noted};
ghost use Rattle.aud_check_bodies.specs.Assignments.{meaning_base, target_base, changed_faults, target_faults, assigned_faults, meaning_assigned, assigned_at, assigned};
ghost use Rattle.aud_typing.specs.Expressions.{checked_expression, expression_at};
ghost use Rattle.aud_typing.specs.Ties.Typing.{plain_typed, in_box, Leaves};
ghost use Rattle.aud_typing.specs.Ties.Entities.{plain_entity};

use crate::declaration::value_for;
use aud_fault::fault::Least;
use aud_names::behind::{Left, both, boxed};
use aud_names::names::{Meaning, Scope};
use aud_names::resolution::note_no_value;
use aud_names::rules::{
    Base, base_asked, no_change_within_function, not_a_variable, right_type, wrong_kind_of_name,
};
use aud_syntax::tree::Expression;
use aud_text::place::Pos;
use aud_typed::program::{Reference, Statement as TypedStatement};
use aud_typing::entity::{Denoting, Element, Entity};
use aud_typing::expression::{expression, expression_at};
use aud_typing::typed::{Operand, Typed, base_of};

/// What a faulty statement is left as. What there is of it is dropped by one call, and not by its parts' drops at each place.
pub fn null_for<T: Drop>(at: Pos, faulty: T) -> TypedStatement
    ensures { plain_typed_statement result ≡ null at }
{
    drop(faulty);
    TypedStatement::Null(at)
}

fn meaning_base(meaning: Meaning) -> Option<Base>
    ensures { result ≡ meaning_base meaning }
{
    match meaning {
        Meaning::Object(object) => base_asked(object.subtype),
        Meaning::Literal(_) => Some(Base::Truth),
        _ => None,
    }
}

/// The type of what a name denotes that is assigned to, where it is known.
pub fn target_base(target: &Entity) -> Option<Base>
    ensures { result ≡ target_base (plain_entity target.now) }
{
    match target {
        Entity::Nothing | Entity::Task(_, _) => None,
        Entity::Whole(meaning) => meaning_base(*meaning),
        Entity::Element(element) => base_asked(element.subtype),
    }
}

// Notes where what is assigned to is no variable (RM 5.2(5)).
fn check_changed(meaning: Meaning, at: Pos, faults: &mut Least)
    ensures { faults.new ≡ noted faults.old (changed_faults meaning at) }
{
    match meaning {
        Meaning::Object(object) => {
            if object.constant {
                not_a_variable(at, faults);
            } else {
                no_change_within_function(!object.locked, at, faults);
            }
        }
        Meaning::Literal(_) => not_a_variable(at, faults),
        Meaning::ScalarType(_)
        | Meaning::Array(_)
        | Meaning::Exception(_)
        | Meaning::Builtin(_)
        | Meaning::Procedure(_)
        | Meaning::TaskType(_)
        | Meaning::Task(_)
        | Meaning::TaskArray(_)
        | Meaning::Entry(_)
        | Meaning::Protected(_)
        | Meaning::Barred => wrong_kind_of_name(at, faults),
        Meaning::Operation(_) => note_no_value(meaning, at, faults),
    }
}

/// Notes where what is assigned to, or copied back to, is neither a variable nor an element.
pub fn check_target(target: &Entity, at: Pos, faults: &mut Least)
    ensures { faults.new ≡ noted faults.old (target_faults (plain_entity target.now) at) }
{
    match target {
        Entity::Whole(meaning) => check_changed(*meaning, at, faults),
        Entity::Task(_, _) => wrong_kind_of_name(at, faults),
        Entity::Nothing | Entity::Element(_) => {}
    }
}

// Notes the faults of an assignment whose target denotes this.
#[tactic(auto, using(aud_typing::proofs::Notes::noted_append))]
fn check_assigned(target: &Denoting, value: &Operand, faults: &mut Least)
    ensures { faults.new ≡ noted faults.old
        (assigned_faults (plain_entity target.now.entity) target.now.at
        value.now.at (plain_typed value.now.typed.value)) }
{
    check_target(&target.entity, target.at, faults);
    let base = base_of(&value.typed);
    right_type(target_base(&target.entity), value.at, base, faults);
}

// An assignment to what has this meaning; a faulty one is left as a null statement.
fn meaning_assigned(meaning: Meaning, at: Pos, value: Typed) -> TypedStatement
    ensures { plain_typed_statement result ≡ meaning_assigned meaning at (plain_typed value) }
{
    let Meaning::Object(object) = meaning else {
        return null_for(at, value);
    };
    match object.subtype {
        None => null_for(at, value),
        Some(subtype) => {
            let reference = Reference::Scalar(object.variable, subtype);
            TypedStatement::Assign(at, reference, value_for(subtype, value))
        }
    }
}

// An assignment to an element.
fn element_assigned(element: Element, at: Pos, value: Typed) -> TypedStatement
    ensures { plain_typed_statement result ≡ assigned_at element.array
        (plain_integer element.index) element.subtype at (plain_typed value) }
{
    let Element {
        array,
        index,
        subtype,
    } = element;
    match subtype {
        None => null_for(at, (index, value)),
        Some(subtype) => {
            let reference = Reference::Element(array, index, subtype);
            TypedStatement::Assign(at, reference, value_for(subtype, value))
        }
    }
}

// An assignment to what a name denotes.
fn assigned(target: Entity, at: Pos, value: Operand) -> TypedStatement
    ensures { plain_typed_statement result
        ≡ assigned (plain_entity target) at (plain_typed value.typed.value) }
{
    let value = value.opened();
    match target {
        Entity::Whole(meaning) => meaning_assigned(meaning, at, value),
        Entity::Element(element) => element_assigned(element, at, value),
        other => null_for(at, (other, value)),
    }
}

/// Checks the assignment of an expression to what a name denotes, in a statement that begins at a place: notes its faults, and
/// answers what is left of it.
#[tactic(auto, using(aud_typing::proofs::Notes::noted_append))]
pub fn expression_assigned(
    target: Denoting,
    value: &Expression,
    begin: Pos,
    scope: &Scope<'_>,
    faults: &mut Least,
) -> Left<TypedStatement>
    ensures { Leaves (in_box plain_typed_statement) result faults.old faults.new
        ((checked_expression (plain_expression value.now) scope.now).faults
        ++ assigned_faults (plain_entity target.entity) target.at
        (expression_at (plain_expression value.now))
        (checked_expression (plain_expression value.now) scope.now).typed)
        (assigned (plain_entity target.entity) begin
        (checked_expression (plain_expression value.now) scope.now).typed) }
{
    let (target, typed) = both(target, expression(value, scope, faults))?;
    let at = expression_at(value);
    let value = Operand { at, typed };
    check_assigned(&target, &value, faults);
    let statement = assigned(target.entity, begin, value);
    boxed(scope.alloc(), statement)
}
