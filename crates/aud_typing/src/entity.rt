// What names denote with the arguments of their last parts.

ghost use Rattle.std.specs.Prelude.{◌≡◌, IfOk};
ghost use Rattle.aud_syntax.specs.Ties.View.{plain_name, plain_part, part_list, plain_expressions};
ghost use Rattle.aud_typed.specs.Ties.View.{plain_integer};
ghost use Rattle.aud_fault.specs.Least.{noted};
ghost use Rattle.aud_typing.specs.Expressions.{no_entity, element_with, array_indexed, task_with, tasks_indexed, before_point, element_faults, prefix_faults, indexed, denoting, read_faults, name_faults, stored_at, meaning_read, value_read};
ghost use Rattle.aud_typing.specs.Ties.Typing.{plain_typed};
ghost use Rattle.aud_typing.specs.Ties.Entities.{plain_entity};

use crate::expression::expression_at;
use crate::typed::{Typed, stored, wants};
use aud_fault::fault::Least;
use aud_names::array::{array_at, task_array_at};
use aud_names::behind::Made;
use aud_names::names::{Array, Meaning, Scope, TaskArray};
use aud_names::resolution::{last_args, note_no_value, resolve};
use aud_names::rules::{Base, wrong_kind_of_name, wrong_number_of_arguments};
use aud_syntax::tree::{Expression, Name, NamePart};
use aud_text::place::Pos;
use aud_typed::program::{ArrayAt, BooleanExpression, IntegerExpression, Subtype};
use std::alloc::Global;

/// An element of an array: its index, and its subtype, where that is known (RM 4.1.1).
#[derive(Drop)]
pub struct Element {
    pub array: ArrayAt,
    pub index: IntegerExpression,
    pub subtype: Option<Subtype>,
}

/// What a name denotes.
#[derive(Drop)]
pub enum Entity {
    /// The name is faulty.
    Nothing,
    Whole(Meaning),
    Element(Element),
    /// A task of an array, by its index (RM 9.1, 4.1.1).
    Task(ArrayAt, IntegerExpression),
}

/// What a name denotes, and where the identifier stands that decides.
#[derive(Drop)]
pub struct Denoting {
    pub entity: Entity,
    pub at: Pos,
}

// What an index denotes that is no number.
fn nothing(index: Typed) -> Entity
    ensures { plain_entity result ≡ no_entity }
{
    drop(index);
    Entity::Nothing
}

fn element_with(array: Array, index: Typed) -> Entity
    ensures { plain_entity result ≡ element_with array (plain_typed index) }
{
    match index {
        Typed::Number(index) => Entity::Element(Element {
            array: array_at(array),
            index,
            subtype: array.subtype,
        }),
        other => nothing(other),
    }
}

// An array with these arguments, of which the last is typed.
fn array_indexed(
    array: Array,
    args: &[Expression],
    at: Pos,
    last: Typed,
    faults: &mut Least,
) -> Entity
    ensures entity { plain_entity result
        ≡ (array_indexed array (plain_expressions args.now) at (plain_typed last)).entity }
    ensures noted { faults.new ≡ noted faults.old
        (array_indexed array (plain_expressions args.now) at (plain_typed last)).faults }
{
    match args.split_first() {
        None => {
            drop(last);
            Entity::Whole(Meaning::Array(array))
        }
        Some((index, others)) => match others.split_first() {
            None => {
                wants(Base::Whole, expression_at(index), &last, faults);
                element_with(array, last)
            }
            Some(_) => {
                drop(last);
                wrong_number_of_arguments(at, faults);
                Entity::Nothing
            }
        },
    }
}

fn task_with(array: TaskArray, index: Typed) -> Entity
    ensures { plain_entity result ≡ task_with array (plain_typed index) }
{
    match index {
        Typed::Number(index) => Entity::Task(task_array_at(array), index),
        other => nothing(other),
    }
}

// Notes where an array of tasks has these arguments, of which the last is typed, and they are no index of it.
fn check_index(array: TaskArray, args: &[Expression], at: Pos, last: &Typed, faults: &mut Least)
    ensures { faults.new ≡ noted faults.old (tasks_indexed array
        (plain_expressions args.now) at (plain_typed last.now)).faults }
{
    match args.split_first() {
        None => {}
        Some((index, others)) => match others.split_first() {
            None => wants(Base::Whole, expression_at(index), last, faults),
            Some(_) => wrong_number_of_arguments(at, faults),
        },
    }
}

// Notes where an array has these arguments before a point, of which the last is typed: that they are no index of it, or
// else that an element stands there.
fn check_element(array: Array, args: &[Expression], at: Pos, last: &Typed, faults: &mut Least)
    ensures { faults.new ≡ noted faults.old (element_faults (array_indexed array
        (plain_expressions args.now) at (plain_typed last.now)) at) }
{
    match args.split_first() {
        None => {}
        Some((index, others)) => match (others.split_first(), last) {
            (None, Typed::Number(_)) => wrong_kind_of_name(at, faults),
            (None, _) => wants(Base::Whole, expression_at(index), last, faults),
            (Some(_), _) => wrong_number_of_arguments(at, faults),
        },
    }
}

// Notes where what has a meaning stands before a point with arguments that do not fit it; the last of them is typed.
fn before_point(
    meaning: Option<Meaning>,
    first: &NamePart,
    others: &[NamePart],
    last: &Typed,
    faults: &mut Least,
)
    ensures { faults.new ≡ noted faults.old (before_point meaning
        (plain_part first.now) (part_list others.now) (plain_typed last.now)) }
{
    let at = first.ident.at;
    match (meaning, others.first()) {
        (Some(Meaning::TaskArray(array)), Some(_)) => {
            check_index(array, &first.args, at, last, faults);
        }
        (Some(Meaning::Array(array)), Some(_)) => {
            check_element(array, &first.args, at, last, faults);
        }
        _ => {}
    }
}

/// Notes where the arguments before a point do not fit what stands there; the last of them is typed.
pub fn check_prefix(
    first: &NamePart,
    others: &[NamePart],
    last: &Typed,
    scope: &Scope<'_>,
    faults: &mut Least,
)
    ensures { faults.new ≡ noted faults.old (prefix_faults (plain_part first.now)
        (part_list others.now) (plain_typed last.now) scope.now) }
{
    let meaning = scope.visible(&first.ident.name);
    before_point(meaning, first, others, last, faults);
}

// An array of tasks with these arguments, of which the last is typed.
fn tasks_indexed(
    array: TaskArray,
    args: &[Expression],
    at: Pos,
    last: Typed,
    faults: &mut Least,
) -> Entity
    ensures entity { plain_entity result
        ≡ (tasks_indexed array (plain_expressions args.now) at (plain_typed last)).entity }
    ensures noted { faults.new ≡ noted faults.old
        (tasks_indexed array (plain_expressions args.now) at (plain_typed last)).faults }
{
    match args.split_first() {
        None => {
            drop(last);
            Entity::Whole(Meaning::TaskArray(array))
        }
        Some((index, others)) => match others.split_first() {
            None => {
                wants(Base::Whole, expression_at(index), &last, faults);
                task_with(array, last)
            }
            Some(_) => {
                drop(last);
                wrong_number_of_arguments(at, faults);
                Entity::Nothing
            }
        },
    }
}

// What has a meaning, with these arguments.
fn indexed(
    meaning: Option<Meaning>,
    args: &[Expression],
    at: Pos,
    last: Typed,
    faults: &mut Least,
) -> Entity
    ensures entity { plain_entity result
        ≡ (indexed meaning (plain_expressions args.now) at (plain_typed last)).entity }
    ensures noted { faults.new ≡ noted faults.old
        (indexed meaning (plain_expressions args.now) at (plain_typed last)).faults }
{
    match meaning {
        None => {
            drop(last);
            Entity::Nothing
        }
        Some(Meaning::Array(array)) => array_indexed(array, args, at, last, faults),
        Some(Meaning::TaskArray(array)) => tasks_indexed(array, args, at, last, faults),
        Some(meaning) => {
            drop(last);
            Entity::Whole(meaning)
        }
    }
}

/// What a name denotes whose last argument is typed (RM 4.1): notes its faults, but not those in its arguments.
#[tactic(auto, using(crate::proofs::Notes::noted_append))]
#[inline(never)]
pub fn name_denotes(
    name: &Name,
    last: Box<Typed>,
    scope: &Scope<'_>,
    faults: &mut Least,
) -> Denoting
    ensures entity { plain_entity result.entity
        ≡ (denoting (plain_name name.now) (plain_typed last.value) scope.now).entity }
    ensures at { result.at
        ≡ (denoting (plain_name name.now) (plain_typed last.value) scope.now).at }
    ensures noted { faults.new ≡ noted faults.old
        (denoting (plain_name name.now) (plain_typed last.value) scope.now).faults }
{
    let denoted = resolve(name, scope, faults);
    let last = Box::into_inner(last);
    let entity = indexed(denoted.meaning, last_args(name), denoted.at, last, faults);
    Denoting {
        entity,
        at: denoted.at,
    }
}

// Notes where what is read has no value (RM 4.1, 4.4).
fn check_read(meaning: Meaning, at: Pos, faults: &mut Least)
    ensures { faults.new ≡ noted faults.old (read_faults meaning at) }
{
    match meaning {
        Meaning::Object(_) | Meaning::Literal(_) => {}
        Meaning::ScalarType(_)
        | Meaning::Array(_)
        | Meaning::Exception(_)
        | Meaning::Builtin(_)
        | Meaning::Procedure(_)
        | Meaning::TaskType(_)
        | Meaning::Task(_)
        | Meaning::TaskArray(_)
        | Meaning::Entry(_)
        | Meaning::Protected(_)
        | Meaning::Barred => wrong_kind_of_name(at, faults),
        Meaning::Operation(_) => note_no_value(meaning, at, faults),
    }
}

/// Notes where what a name denotes has no value.
pub fn check_name(entity: &Entity, at: Pos, faults: &mut Least)
    ensures { faults.new ≡ noted faults.old (name_faults (plain_entity entity.now) at) }
{
    match entity {
        Entity::Whole(meaning) => check_read(*meaning, at, faults),
        Entity::Nothing | Entity::Element(_) => {}
        Entity::Task(_, _) => wrong_kind_of_name(at, faults),
    }
}

/// The value of an element.
pub fn stored_at(alloc: Global, element: Element) -> Made<Typed>
    ensures { IfOk result (λ typed. plain_typed typed
        ≡ stored_at element.array (plain_integer element.index) element.subtype) }
{
    let Element {
        array,
        index,
        subtype,
    } = element;
    match subtype {
        None => Ok(Typed::Unknown),
        Some(Subtype::Integer | Subtype::Natural | Subtype::Positive) => {
            let index = Box::new(alloc, index)?;
            Ok(Typed::Number(IntegerExpression::Element(array, index)))
        }
        Some(Subtype::Boolean) => Ok(Typed::Truth(BooleanExpression::Element(array, index))),
    }
}

fn meaning_read(meaning: Meaning) -> Typed
    ensures { plain_typed result ≡ meaning_read meaning }
{
    match meaning {
        Meaning::Object(object) => stored(object.variable, object.subtype),
        Meaning::Literal(value) => Typed::Truth(BooleanExpression::Truth(value)),
        _ => Typed::Unknown,
    }
}

/// The value of what a name denotes.
pub fn value_read(alloc: Global, entity: Entity) -> Made<Typed>
    ensures { IfOk result (λ typed. plain_typed typed ≡ value_read (plain_entity entity)) }
{
    match entity {
        Entity::Nothing => Ok(Typed::Unknown),
        Entity::Whole(meaning) => Ok(meaning_read(meaning)),
        Entity::Element(element) => stored_at(alloc, element),
        Entity::Task(_, _) => Ok(Typed::Unknown),
    }
}
