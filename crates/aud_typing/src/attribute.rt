// Attributes (RM 4.1.4, K.2).

ghost use Rattle.std.specs.Prelude.{◌≡◌, option_map};
ghost use Rattle.std.specs.Str.{bytes_eq};
ghost use Rattle.std.specs.Map.{lookup};
ghost use Rattle.aud_names.specs.Resolution.{are_none};
ghost use Rattle.aud_names.specs.Rules.{wrong_kind_of_name, function_call_out_of_place};
ghost use Rattle.aud_typing.specs.Expressions.{unknown, attributes, without_argument, image_of, image_of_type, image_with, image, first_of, last_of, at_most_last, length_of, bound, callable_of, terminated_of, asked, count_value, count_if, no_arguments, counted, count, attribute_of, entity, element_attribute, task_attribute, attribute_if};
ghost use Rattle.aud_syntax.specs.Ties.View.{plain_expressions};
ghost use Rattle.aud_typed.specs.Ties.View.{plain_boolean, plain_task};
ghost use Rattle.aud_fault.specs.Least.{noted};
ghost use Rattle.aud_typing.specs.Ties.Typing.{plain_typed, plain_argument, Leaves};
ghost use Rattle.aud_typing.specs.Ties.Entities.{plain_entity};

use crate::entity::{Denoting, Entity, stored_at};
use crate::typed::{Operand, Typed, stored, unknown, wants};
use aud_fault::fault::Least;
use aud_names::array::length_between;
use aud_names::behind::Made;
use aud_names::names::{Entry, Meaning, Owner, Scope};
use aud_names::resolution::{are_none, is_function};
use aud_names::rules::{
    Base, accept_or_count_in_place, base_of_subtype, function_call_out_of_place,
    wrong_kind_of_name, wrong_number_of_arguments,
};
use aud_names::table::listed;
use aud_syntax::tree::{Expression, Ident};
use aud_text::int32::Int32;
use aud_text::name::Name;
use aud_text::place::Pos;
use aud_typed::program::{BooleanExpression, IntegerExpression, Subtype, TaskName, TextExpression};

/// An attribute of the language.
#[derive(Clone, Copy)]
pub enum Attribute {
    Image,
    First,
    Last,
    Length,
    Callable,
    Terminated,
    Count,
}

/// Where an attribute's prefix and its designator stand.
#[derive(Clone, Copy)]
struct Places {
    prefix: Pos,
    designator: Pos,
}

const ATTRIBUTES: [(&[u8], Attribute); 7] = [
    (b"IMAGE", Attribute::Image),
    (b"FIRST", Attribute::First),
    (b"LAST", Attribute::Last),
    (b"LENGTH", Attribute::Length),
    (b"COUNT", Attribute::Count),
    (b"CALLABLE", Attribute::Callable),
    (b"TERMINATED", Attribute::Terminated),
];

// The attribute of this name.
fn attribute_named(name: &Name) -> Option<Attribute>
    ensures { result ≡ lookup (bytes_eq name.now) attributes }
{
    listed(&ATTRIBUTES, name)
}

// The value of an attribute that has no argument.
fn without_argument(
    designator: Pos,
    argument: Option<Operand>,
    value: Typed,
    faults: &mut Least,
) -> Typed
    ensures typed { plain_typed result
        ≡ (without_argument designator (plain_argument argument) (plain_typed value)).typed }
    ensures noted { faults.new ≡ noted faults.old
        (without_argument designator (plain_argument argument) (plain_typed value)).faults }
{
    match argument {
        None => value,
        Some(argument) => {
            drop((argument, value));
            wrong_number_of_arguments(designator, faults);
            Typed::Unknown
        }
    }
}

fn image_of(value: Typed) -> Typed
    ensures { plain_typed result ≡ image_of (plain_typed value) }
{
    match value {
        Typed::Number(x) => Typed::Text(TextExpression::Image(x)),
        Typed::Truth(x) => Typed::Text(TextExpression::ImageTruth(x)),
        other => unknown(other),
    }
}

fn image_of_type(base: Base, value: Typed) -> Typed
    ensures { plain_typed result ≡ image_of_type base (plain_typed value) }
{
    match (base, value) {
        (Base::Whole, Typed::Number(x)) => Typed::Text(TextExpression::Image(x)),
        (Base::Truth, Typed::Truth(x)) => Typed::Text(TextExpression::ImageTruth(x)),
        (_, other) => unknown(other),
    }
}

// Image of a type.
fn image_with(base: Base, designator: Pos, argument: Option<Operand>, faults: &mut Least) -> Typed
    ensures typed { plain_typed result
        ≡ (image_with base designator (plain_argument argument)).typed }
    ensures noted { faults.new
        ≡ noted faults.old (image_with base designator (plain_argument argument)).faults }
{
    let Some(argument) = argument else {
        wrong_number_of_arguments(designator, faults);
        return Typed::Unknown;
    };
    wants(base, argument.at, &argument.typed, faults);
    image_of_type(base, argument.opened())
}

// What an attribute is that its prefix has not, or that is none: nothing.
fn wrong_kind(at: Pos, argument: Option<Operand>, faults: &mut Least) -> Typed
    ensures typed { plain_typed result ≡ unknown }
    ensures noted { faults.new ≡ noted faults.old (wrong_kind_of_name at) }
{
    drop(argument);
    wrong_kind_of_name(at, faults);
    Typed::Unknown
}

// What an attribute of a function's call is: nothing.
fn out_of_place(at: Pos, argument: Option<Operand>, faults: &mut Least) -> Typed
    ensures typed { plain_typed result ≡ unknown }
    ensures noted { faults.new ≡ noted faults.old (function_call_out_of_place at) }
{
    drop(argument);
    function_call_out_of_place(at, faults);
    Typed::Unknown
}

fn image(meaning: Meaning, at: Places, argument: Option<Operand>, faults: &mut Least) -> Typed
    ensures typed { plain_typed result
        ≡ (image meaning at.prefix at.designator (plain_argument argument)).typed }
    ensures noted { faults.new ≡ noted faults.old
        (image meaning at.prefix at.designator (plain_argument argument)).faults }
{
    let designator = at.designator;
    match meaning {
        Meaning::ScalarType(subtype) => {
            image_with(base_of_subtype(subtype), designator, argument, faults)
        }
        Meaning::Object(object) => {
            let value = image_of(stored(object.variable, object.subtype));
            without_argument(designator, argument, value, faults)
        }
        Meaning::Literal(value) => {
            let text = TextExpression::ImageTruth(BooleanExpression::Truth(value));
            without_argument(designator, argument, Typed::Text(text), faults)
        }
        Meaning::Array(_)
        | Meaning::Exception(_)
        | Meaning::Builtin(_)
        | Meaning::Procedure(_)
        | Meaning::TaskType(_)
        | Meaning::Task(_)
        | Meaning::TaskArray(_)
        | Meaning::Entry(_)
        | Meaning::Protected(_)
        | Meaning::Operation(_)
        | Meaning::Barred => wrong_kind(at.prefix, argument, faults),
    }
}

fn first_of(meaning: Meaning) -> Option<Int32>
    ensures { result ≡ first_of meaning }
{
    match meaning {
        Meaning::ScalarType(Subtype::Integer) => Some(Int32::new(i32::MIN)),
        Meaning::ScalarType(Subtype::Natural) => Some(Int32::new(0)),
        Meaning::ScalarType(Subtype::Positive) => Some(Int32::new(1)),
        Meaning::Array(array) => Some(Int32::new(array.low)),
        Meaning::TaskArray(array) => Some(Int32::new(array.low)),
        _ => None,
    }
}

fn last_of(meaning: Meaning) -> Option<Int32>
    ensures { result ≡ last_of meaning }
{
    match meaning {
        Meaning::ScalarType(Subtype::Integer | Subtype::Natural | Subtype::Positive) => {
            Some(Int32::new(i32::MAX))
        }
        Meaning::Array(array) => Some(Int32::new(array.high)),
        Meaning::TaskArray(array) => Some(Int32::new(array.high)),
        _ => None,
    }
}

// A number, or the last Integer where that is less.
fn at_most_last(number: usize) -> Int32
    ensures { result ≡ at_most_last number }
{
    match i32::try_from(number) {
        Ok(value) => Int32::new(value),
        Err(_) => Int32::new(i32::MAX),
    }
}

fn length_of(meaning: Meaning) -> Option<Int32>
    ensures { result ≡ length_of meaning }
{
    match meaning {
        Meaning::Array(array) => Some(at_most_last(length_between(array.low, array.high))),
        Meaning::TaskArray(array) => Some(at_most_last(length_between(array.low, array.high))),
        _ => None,
    }
}

// A bound of a subtype or array, or an array's length, if it has one.
fn bound(value: Option<Int32>, at: Places, argument: Option<Operand>, faults: &mut Least) -> Typed
    ensures typed { plain_typed result
        ≡ (bound value at.prefix at.designator (plain_argument argument)).typed }
    ensures noted { faults.new ≡ noted faults.old
        (bound value at.prefix at.designator (plain_argument argument)).faults }
{
    match value {
        None => wrong_kind(at.prefix, argument, faults),
        Some(value) => {
            let number = Typed::Number(IntegerExpression::Number(value));
            without_argument(at.designator, argument, number, faults)
        }
    }
}

fn callable_of(meaning: Meaning) -> Option<BooleanExpression>
    ensures { option_map plain_boolean result ≡ callable_of meaning }
{
    match meaning {
        Meaning::Task(task) => Some(BooleanExpression::Callable(TaskName::Single(task.variable))),
        _ => None,
    }
}

fn terminated_of(meaning: Meaning) -> Option<BooleanExpression>
    ensures { option_map plain_boolean result ≡ terminated_of meaning }
{
    match meaning {
        Meaning::Task(task) => Some(BooleanExpression::Terminated(TaskName::Single(task.variable))),
        _ => None,
    }
}

// What is asked of a task, if the prefix is one (RM 9.9(2, 3)).
fn asked(
    value: Option<BooleanExpression>,
    at: Places,
    argument: Option<Operand>,
    faults: &mut Least,
) -> Typed
    ensures typed { plain_typed result ≡ (asked (option_map plain_boolean value)
        at.prefix at.designator (plain_argument argument)).typed }
    ensures noted { faults.new ≡ noted faults.old (asked (option_map plain_boolean value)
        at.prefix at.designator (plain_argument argument)).faults }
{
    match value {
        None => wrong_kind(at.prefix, argument, faults),
        Some(value) => without_argument(at.designator, argument, Typed::Truth(value), faults),
    }
}

fn count_value(owner: Owner, number: usize) -> Typed
    ensures { plain_typed result ≡ count_value owner number }
{
    match owner {
        Owner::Single(cell) => Typed::Number(IntegerExpression::Count(cell, number)),
        Owner::Element(_) => Typed::Unknown,
        Owner::Object(instance) => {
            Typed::Number(IntegerExpression::Count(instance.variable, number))
        }
    }
}

fn count_if(good: bool, entry: Entry) -> Typed
    ensures { plain_typed result ≡ count_if good entry }
{
    if good {
        count_value(entry.owner, entry.number)
    } else {
        Typed::Unknown
    }
}

// Notes where there are arguments: whether there are none.
fn no_arguments(args: &[Expression], at: Pos, faults: &mut Least) -> bool
    ensures alone { result ≡ are_none (plain_expressions args.now) }
    ensures noted { faults.new
        ≡ noted faults.old (no_arguments (plain_expressions args.now) at) }
{
    let alone = are_none(args);
    if !alone {
        wrong_kind_of_name(at, faults);
    }
    alone
}

// How many calls are queued on an entry whose name has these arguments.
#[tactic(auto, using(crate::proofs::Notes::noted_append))]
fn counted(
    entry: Entry,
    args: &[Expression],
    at: Pos,
    scope: &Scope<'_>,
    faults: &mut Least,
) -> Typed
    ensures typed { plain_typed result
        ≡ (counted entry (plain_expressions args.now) at scope.now).typed }
    ensures noted { faults.new ≡ noted faults.old
        (counted entry (plain_expressions args.now) at scope.now).faults }
{
    let alone = no_arguments(args, at, faults);
    let countable = scope.is_countable(entry);
    accept_or_count_in_place(countable, at, faults);
    count_if(alone && countable, entry)
}

// Count of what has a meaning and these arguments, if that is an entry (RM 9.9(5)).
#[tactic(auto, using(crate::proofs::Notes::noted_append))]
fn count(
    meaning: Meaning,
    args: &[Expression],
    at: Places,
    argument: Option<Operand>,
    scope: &Scope<'_>,
    faults: &mut Least,
) -> Typed
    ensures typed { plain_typed result ≡ (count meaning (plain_expressions args.now)
        at.prefix at.designator (plain_argument argument) scope.now).typed }
    ensures noted { faults.new ≡ noted faults.old (count meaning (plain_expressions args.now)
        at.prefix at.designator (plain_argument argument) scope.now).faults }
{
    match meaning {
        Meaning::Entry(entry) => {
            let value = counted(entry, args, at.prefix, scope, faults);
            without_argument(at.designator, argument, value, faults)
        }
        _ => wrong_kind(at.prefix, argument, faults),
    }
}

// An attribute of what has a meaning and these arguments.
fn attribute_of(
    attribute: Attribute,
    meaning: Meaning,
    args: &[Expression],
    at: Places,
    argument: Option<Operand>,
    scope: &Scope<'_>,
    faults: &mut Least,
) -> Typed
    ensures typed { plain_typed result
        ≡ (attribute_of attribute meaning (plain_expressions args.now)
        at.prefix at.designator (plain_argument argument) scope.now).typed }
    ensures noted { faults.new ≡ noted faults.old
        (attribute_of attribute meaning (plain_expressions args.now)
        at.prefix at.designator (plain_argument argument) scope.now).faults }
{
    match attribute {
        Attribute::Image => image(meaning, at, argument, faults),
        Attribute::First => bound(first_of(meaning), at, argument, faults),
        Attribute::Last => bound(last_of(meaning), at, argument, faults),
        Attribute::Length => bound(length_of(meaning), at, argument, faults),
        Attribute::Callable => asked(callable_of(meaning), at, argument, faults),
        Attribute::Terminated => asked(terminated_of(meaning), at, argument, faults),
        Attribute::Count => count(meaning, args, at, argument, scope, faults),
    }
}

// An attribute of this name of what has a meaning and these arguments.
fn meaning_attribute(
    meaning: Meaning,
    args: &[Expression],
    prefix: Pos,
    designator: &Ident,
    argument: Option<Operand>,
    scope: &Scope<'_>,
    faults: &mut Least,
) -> Typed
    ensures typed { plain_typed result
        ≡ (attribute_if (entity meaning) (plain_expressions args.now) prefix
        designator.now (plain_argument argument) scope.now).typed }
    ensures noted { faults.new ≡ noted faults.old
        (attribute_if (entity meaning) (plain_expressions args.now) prefix
        designator.now (plain_argument argument) scope.now).faults }
{
    if is_function(meaning) {
        return out_of_place(prefix, argument, faults);
    }
    match attribute_named(&designator.name) {
        None => wrong_kind(designator.at, argument, faults),
        Some(attribute) => {
            let at = Places {
                prefix,
                designator: designator.at,
            };
            attribute_of(attribute, meaning, args, at, argument, scope, faults)
        }
    }
}

// An attribute of this name of an element with this value (RM 4.10(40)).
fn element_attribute(
    value: Typed,
    prefix: Pos,
    designator: &Ident,
    argument: Option<Operand>,
    faults: &mut Least,
) -> Typed
    ensures typed { plain_typed result
        ≡ (element_attribute (lookup (bytes_eq designator.now.name) attributes)
        (plain_typed value) prefix designator.now.at (plain_argument argument)).typed }
    ensures noted { faults.new ≡ noted faults.old
        (element_attribute (lookup (bytes_eq designator.now.name) attributes)
        (plain_typed value) prefix designator.now.at (plain_argument argument)).faults }
{
    match attribute_named(&designator.name) {
        None => {
            drop(value);
            wrong_kind(designator.at, argument, faults)
        }
        Some(Attribute::Image) => {
            without_argument(designator.at, argument, image_of(value), faults)
        }
        Some(_) => {
            drop(value);
            wrong_kind(prefix, argument, faults)
        }
    }
}

// An attribute of this name of a task of an array.
fn task_attribute(
    task: TaskName,
    prefix: Pos,
    designator: &Ident,
    argument: Option<Operand>,
    faults: &mut Least,
) -> Typed
    ensures typed { plain_typed result
        ≡ (task_attribute (lookup (bytes_eq designator.now.name) attributes)
        (plain_task task) prefix designator.now.at (plain_argument argument)).typed }
    ensures noted { faults.new ≡ noted faults.old
        (task_attribute (lookup (bytes_eq designator.now.name) attributes)
        (plain_task task) prefix designator.now.at (plain_argument argument)).faults }
{
    let at = designator.at;
    match attribute_named(&designator.name) {
        None => {
            drop(task);
            wrong_kind(at, argument, faults)
        }
        Some(Attribute::Callable) => {
            let value = Typed::Truth(BooleanExpression::Callable(task));
            without_argument(at, argument, value, faults)
        }
        Some(Attribute::Terminated) => {
            let value = Typed::Truth(BooleanExpression::Terminated(task));
            without_argument(at, argument, value, faults)
        }
        Some(_) => {
            drop(task);
            wrong_kind(prefix, argument, faults)
        }
    }
}

/// An attribute of what a name with these last arguments denotes, with its own argument, if it has one.
pub fn attribute_value(
    prefix: Denoting,
    args: &[Expression],
    designator: &Ident,
    argument: Option<Operand>,
    scope: &Scope<'_>,
    faults: &mut Least,
) -> Made<Typed>
    ensures { Leaves plain_typed result faults.old faults.new
        (attribute_if (plain_entity prefix.entity) (plain_expressions args.now) prefix.at
        designator.now (plain_argument argument) scope.now).faults
        (attribute_if (plain_entity prefix.entity) (plain_expressions args.now) prefix.at
        designator.now (plain_argument argument) scope.now).typed }
{
    let at = prefix.at;
    match prefix.entity {
        Entity::Nothing => {
            drop(argument);
            Ok(Typed::Unknown)
        }
        Entity::Whole(meaning) => {
            let value = meaning_attribute(meaning, args, at, designator, argument, scope, faults);
            Ok(value)
        }
        Entity::Element(element) => {
            let value = stored_at(scope.alloc(), element)?;
            Ok(element_attribute(value, at, designator, argument, faults))
        }
        Entity::Task(array, index) => {
            let task = TaskName::Element(array, index);
            Ok(task_attribute(task, at, designator, argument, faults))
        }
    }
}
