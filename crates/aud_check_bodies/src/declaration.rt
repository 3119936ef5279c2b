// Declarations of variables, constants, arrays and exceptions, and of procedures' names.

ghost use Rattle.std.specs.Prelude.{◌≡◌, [], ◌∷◌, ◌++◌, map, false, IfOk, OnOk};
ghost use Rattle.aud_typed.specs.Tree.{declare_array};
ghost use Rattle.aud_syntax.specs.Ties.View.{plain_expression};
ghost use Rattle.aud_typed.specs.Ties.View.{plain_integer, plain_value, plain_statements as plain_typed_statements};
ghost use Rattle.aud_fault.specs.Least.{noted};
ghost use Rattle.aud_names.specs.Names.{visible, is_declared};
ghost use Rattle.aud_check_bodies.specs.Tables.{no_tables};
ghost use Rattle.aud_names.specs.Rules.{declared_once};
ghost use Rattle.aud_check_bodies.specs.Declarations.{subtype_faults, subtype_meant, given_faults, given_value, initial_faults, initial_value, default_value, value_for, integer_of, known, with_symbol, with_name, declared_names, twice_faults, elaboration, marked, leaving, checked_object, checked_array, task_type_meant, tasks_meant, checked_objects, checked_arrays, with_exception, declared_exceptions, exceptions_twice, with_procedure};
ghost use Rattle.aud_typing.specs.Ties.Typing.{plain_typed, Leaves};
ghost use Rattle.aud_check_bodies.specs.Ties.DeclarativePart.{Declares, plain_initial, plain_exceptions};
ghost use Rattle.aud_names.specs.Ties.Regions.{plain_region, plain_place, names_in};

use crate::task::{task_rows, tasks};
use aud_fault::fault::Least;
use aud_names::array::{Kind, Scalar, bound, cells_of, new_meaning, row_between};
use aud_names::behind::{Made, add_last, both};
use aud_names::names::{Meaning, Object, Region, Scope, insert};
use aud_names::resolution::note_no_value;
use aud_names::rules::{base_asked, declared_once, name_not_declared, right_type};
use aud_syntax::tree::{Bound, Expression, Ident, Identifiers};
use aud_text::int32::Int32;
use aud_text::name::Name;
use aud_text::place::Pos;
use aud_typed::program::{
    BooleanExpression, Exception, IntegerExpression, Statement, Subtype, ValueExpression,
};
use aud_typing::expression::{expression, expression_at};
use aud_typing::typed::{Typed, base_of};
use std::alloc::AllocError;

/// The region of a declarative part, and its elaborations (RM 3.11).
#[derive(Drop)]
pub struct DeclarativePart {
    pub region: Region,
    pub elaborations: Vec<Statement>,
}

// Notes where a subtype mark is not that of a subtype (RM 3.2.2).
fn check_subtype(meaning: Option<Meaning>, at: Pos, faults: &mut Least)
    ensures { faults.new ≡ noted faults.old (subtype_faults meaning at) }
{
    match meaning {
        None => name_not_declared(at, faults),
        Some(Meaning::ScalarType(_)) => {}
        Some(meaning) => note_no_value(meaning, at, faults),
    }
}

fn subtype_meant(meaning: Option<Meaning>) -> Option<Subtype>
    ensures { result ≡ subtype_meant meaning }
{
    match meaning {
        Some(Meaning::ScalarType(subtype)) => Some(subtype),
        _ => None,
    }
}

/// The subtype that a mark names, if it names one.
pub fn subtype_mark(mark: &Ident, scope: &Scope<'_>, faults: &mut Least) -> Option<Subtype>
    ensures subtype { result ≡ subtype_meant (visible mark.now.name scope.now) }
    ensures noted { faults.new
        ≡ noted faults.old (subtype_faults (visible mark.now.name scope.now) mark.now.at) }
{
    let meaning = scope.visible(&mark.name);
    check_subtype(meaning, mark.at, faults);
    subtype_meant(meaning)
}

// What a variable without an initial value starts with.
fn default_value(subtype: Subtype) -> ValueExpression
    ensures { plain_value result ≡ default_value subtype }
{
    match subtype {
        Subtype::Integer | Subtype::Natural => {
            ValueExpression::Whole(subtype, IntegerExpression::Number(Int32::new(0)))
        }
        Subtype::Positive => {
            ValueExpression::Whole(subtype, IntegerExpression::Number(Int32::new(1)))
        }
        Subtype::Boolean => ValueExpression::Truth(BooleanExpression::Truth(false)),
    }
}

/// A value for a place that asks for a subtype, in whose range a number must be (RM 4.6(51)).
pub fn value_for(subtype: Subtype, value: Typed) -> ValueExpression
    ensures { plain_value result ≡ value_for subtype (plain_typed value) }
{
    match value {
        Typed::Number(value) => ValueExpression::Whole(subtype, value),
        Typed::Truth(value) => ValueExpression::Truth(value),
        other => {
            drop(other);
            default_value(subtype)
        }
    }
}

/// An Integer; what stands for another value has no meaning.
pub fn integer_of(typed: Typed) -> IntegerExpression
    ensures { plain_integer result ≡ integer_of (plain_typed typed) }
{
    match typed {
        Typed::Number(value) => value,
        other => {
            drop(other);
            IntegerExpression::Number(Int32::new(0))
        }
    }
}

/// A subtype; one that is not known is of a faulty program.
pub fn known(subtype: Option<Subtype>) -> Subtype
    ensures { result ≡ known subtype }
{
    match subtype {
        None => Subtype::Integer,
        Some(subtype) => subtype,
    }
}

/// A value for a place that asks for a subtype, where that is known: notes its faults, and answers what is left of it.
#[tactic(auto, using(aud_typing::proofs::Notes::noted_append))]
pub fn given_value(
    value: &Expression,
    subtype: Option<Subtype>,
    scope: &Scope<'_>,
    faults: &mut Least,
) -> Made<ValueExpression>
    ensures { Leaves plain_value result faults.old faults.new
        (given_faults (plain_expression value.now) subtype scope.now)
        (given_value (plain_expression value.now) subtype scope.now) }
{
    let typed = expression(value, scope, faults)?;
    right_type(
        base_asked(subtype),
        expression_at(value),
        base_of(&typed),
        faults,
    );
    Ok(value_for(known(subtype), Box::into_inner(typed)))
}

pub fn initial_value(
    initial: Option<&Expression>,
    subtype: Option<Subtype>,
    scope: &Scope<'_>,
    faults: &mut Least,
) -> Made<ValueExpression>
    ensures { Leaves plain_value result faults.old faults.new
        (initial_faults (plain_initial initial.entry) subtype scope.now)
        (initial_value (plain_initial initial.entry) subtype scope.now) }
{
    match initial {
        None => Ok(default_value(known(subtype))),
        Some(value) => given_value(value, subtype, scope, faults),
    }
}

/// Declares a name that the region has not yet, with cells of its own.
pub fn add_symbol(name: &Name, kind: Kind, region: &mut Region) -> Made<()>
    requires { is_declared name.now region.now.symbols.entries ≡ false }
    ensures { OnOk result (plain_region region.new
        ≡ with_symbol name.now kind (plain_region region.old)) }
{
    let cells = region.cells.checked_add(cells_of(kind)).ok_or(AllocError)?;
    let names = region.names.checked_add(1).ok_or(AllocError)?;
    let name = name.try_clone(region.alloc)?;
    let meaning = new_meaning(kind, region.level, region.cells);
    insert(&mut region.symbols, name, meaning)?;
    region.cells = cells;
    region.names = names;
    Ok(())
}

// Declares one name more, with cells of its own.
fn declare_name(ident: &Ident, kind: Kind, region: &mut Region, faults: &mut Least) -> Made<()>
    ensures region { OnOk result (plain_region region.new
        ≡ with_name ident.now kind (plain_region region.old)) }
    ensures noted { OnOk result (faults.new ≡ noted faults.old
        (declared_once ident.now.name ident.now.at region.old.symbols.entries)) }
{
    if declared_once(ident, &region.symbols, faults) {
        add_symbol(&ident.name, kind, region)?;
    }
    Ok(())
}

/// Declares names one after the other, with cells of their own.
pub fn declare(names: &Identifiers, kind: Kind, region: &mut Region, faults: &mut Least) -> Made<()>
    ensures region { OnOk result (plain_region region.new
        ≡ declared_names (names_in names.now) kind (plain_region region.old)) }
    ensures noted { OnOk result (faults.new ≡ noted faults.old
        (twice_faults (names_in names.now) kind (plain_region region.old))) }
{
    declare_name(&names.first, kind, region, faults)?;
    for other in &names.others {
        declare_name(other, kind, region, faults)?;
    }
    Ok(())
}

// The elaboration of the names that were declared last, of which the first stands at this place.
fn elaborate(
    at: Pos,
    value: ValueExpression,
    region: &Region,
    elaborations: &mut Vec<Statement>,
) -> Made<()>
    ensures { OnOk result (plain_typed_statements elaborations.new.items
        ≡ plain_typed_statements elaborations.old.items
        ++ elaboration at (plain_region region.now) (plain_value value) ∷ []) }
{
    add_last(elaborations, Statement::Declare(at, region.names, value))
}

// What a mark stands for within a declaration of these names.
fn marked<'x>(
    mark: &Ident,
    names: &'x Identifiers,
    region: &'x Region,
    outer: &'x [&'x Region],
) -> Made<Option<Meaning>>
    ensures { IfOk result (λ meaning. meaning
        ≡ marked mark.now (names_in names.now) (plain_place region.now outer.now)) }
{
    let scope = Scope::within(region, outer, names)?;
    let meaning = scope.visible(&mark.name);
    drop(scope);
    Ok(meaning)
}

// The type of tasks that a mark names.
fn task_type_meant(meaning: Option<Meaning>) -> Option<usize>
    ensures { result ≡ task_type_meant meaning }
{
    match meaning {
        Some(Meaning::TaskType(number)) => Some(number),
        _ => None,
    }
}

// The type of tasks that a declaration of objects declares (RM 9.1).
fn tasks_meant(
    meaning: Option<Meaning>,
    initial: Option<&Expression>,
    constant: bool,
) -> Option<usize>
    ensures { result ≡ tasks_meant meaning (plain_initial initial.entry) constant }
{
    match initial {
        Some(_) => None,
        None => {
            if constant {
                None
            } else {
                task_type_meant(meaning)
            }
        }
    }
}

// Declares variables or constants of a subtype.
#[tactic(auto, using(aud_typing::proofs::Notes::noted_append))]
fn scalars(
    names: &Identifiers,
    mark: &Ident,
    initial: Option<&Expression>,
    constant: bool,
    outer: &[&Region],
    part: &mut DeclarativePart,
    faults: &mut Least,
) -> Made<()>
    ensures { OnOk result (Declares faults.old faults.new outer.now part.old part.new no_tables
        (leaving no_tables (checked_object (names_in names.now) names.now.first.at mark.now
        (plain_initial initial.entry) constant (plain_place part.old.region outer.now)))) }
{
    let scope = Scope::within(&part.region, outer, names)?;
    let subtype = subtype_mark(mark, &scope, faults);
    let value = initial_value(initial, subtype, &scope, faults);
    drop(scope);
    let region = &mut part.region;
    let kind = Kind::Scalar(Scalar { subtype, constant });
    let (value, ()) = both(value?, declare(names, kind, region, faults))?;
    elaborate(names.first.at, value, region, &mut part.elaborations)
}

/// Declares variables, constants or tasks (RM 3.3.1, 9.1).
pub fn objects(
    names: &Identifiers,
    mark: &Ident,
    initial: Option<&Expression>,
    constant: bool,
    outer: &[&Region],
    part: &mut DeclarativePart,
    faults: &mut Least,
) -> Made<()>
    ensures { OnOk result (Declares faults.old faults.new outer.now part.old part.new no_tables
        (leaving no_tables (checked_objects (names_in names.now) names.now.first.at mark.now
        (plain_initial initial.entry) constant (plain_place part.old.region outer.now)))) }
{
    let meaning = marked(mark, &*names, &part.region, &*outer)?;
    match tasks_meant(meaning, initial, constant) {
        None => scalars(names, mark, initial, constant, outer, part, faults),
        Some(number) => tasks(names, number, outer, part, faults),
    }
}

// The elaborations of arrays, one for each of the names.
fn elaborate_arrays(
    names: &Identifiers,
    subtype: Subtype,
    length: usize,
    elaborations: &mut Vec<Statement>,
) -> Made<()>
    ensures { OnOk result (plain_typed_statements elaborations.new.items
        ≡ plain_typed_statements elaborations.old.items
        ++ map (λ i. declare_array names.now.first.at subtype length) (names_in names.now)) }
{
    let at = names.first.at;
    add_last(elaborations, Statement::DeclareArray(at, subtype, length))?;
    for _ in &names.others {
        add_last(elaborations, Statement::DeclareArray(at, subtype, length))?;
    }
    Ok(())
}

// Declares arrays of a subtype, whose mark stands for this.
#[tactic(auto, using(aud_typing::proofs::Notes::noted_append))]
fn rows(
    names: &Identifiers,
    bounds: (Bound, Bound),
    mark: &Ident,
    meaning: Option<Meaning>,
    outer: &[&Region],
    part: &mut DeclarativePart,
    faults: &mut Least,
) -> Made<()>
    requires { meaning ≡ marked mark.now (names_in names.now)
        (plain_place part.now.region outer.now) }
    ensures { OnOk result (Declares faults.old faults.new outer.now part.old part.new no_tables
        (leaving no_tables (checked_array (names_in names.now) names.now.first.at bounds.0
        bounds.1 mark.now (plain_place part.old.region outer.now)))) }
{
    let low = bound(bounds.0, faults);
    let high = bound(bounds.1, faults);
    check_subtype(meaning, mark.at, faults);
    let subtype = subtype_meant(meaning);
    let kind = row_between(low, high, subtype);
    declare(names, kind, &mut part.region, faults)?;
    elaborate_arrays(
        names,
        known(subtype),
        cells_of(kind),
        &mut part.elaborations,
    )
}

/// Declares arrays, of tasks too (RM 3.6, 9.1).
#[inline(never)]
pub fn arrays(
    names: &Identifiers,
    bounds: (Bound, Bound),
    mark: &Ident,
    outer: &[&Region],
    part: &mut DeclarativePart,
    faults: &mut Least,
) -> Made<()>
    ensures { OnOk result (Declares faults.old faults.new outer.now part.old part.new no_tables
        (leaving no_tables (checked_arrays (names_in names.now) names.now.first.at bounds.0
        bounds.1 mark.now (plain_place part.old.region outer.now)))) }
{
    let meaning = marked(mark, &*names, &part.region, &*outer)?;
    match task_type_meant(meaning) {
        None => rows(names, bounds, mark, meaning, outer, part, faults),
        Some(number) => task_rows(names, bounds, number, outer, part, faults),
    }
}

// Declares one exception more, which has the next number.
fn declare_exception(
    ident: &Ident,
    region: &mut Region,
    exceptions: &mut Vec<Name>,
    faults: &mut Least,
) -> Made<()>
    ensures declared { OnOk result (plain_exceptions region.new exceptions.new
        ≡ with_exception ident.now (plain_exceptions region.old exceptions.old)) }
    ensures noted { OnOk result (faults.new ≡ noted faults.old
        (declared_once ident.now.name ident.now.at region.old.symbols.entries)) }
{
    if declared_once(ident, &region.symbols, faults) {
        let meaning = Meaning::Exception(Exception::Declared(exceptions.len()));
        let name = ident.name.try_clone(region.alloc)?;
        insert(&mut region.symbols, name, meaning)?;
        let name = ident.name.try_clone(region.alloc)?;
        exceptions.push(name)?;
    }
    Ok(())
}

/// Declares exceptions (RM 11.1).
#[inline(never)]
pub fn exceptions(
    names: &Identifiers,
    region: &mut Region,
    exceptions: &mut Vec<Name>,
    faults: &mut Least,
) -> Made<()>
    ensures declared { OnOk result (plain_exceptions region.new exceptions.new
        ≡ declared_exceptions (names_in names.now)
        (plain_exceptions region.old exceptions.old)) }
    ensures noted { OnOk result (faults.new ≡ noted faults.old (exceptions_twice
        (names_in names.now) (plain_exceptions region.old exceptions.old))) }
{
    declare_exception(&names.first, region, exceptions, faults)?;
    for other in &names.others {
        declare_exception(other, region, exceptions, faults)?;
    }
    Ok(())
}

/// Declares the name of a procedure (RM 6.1), whose unit has this number.
pub fn declare_procedure(
    ident: &Ident,
    number: usize,
    region: &mut Region,
    faults: &mut Least,
) -> Made<()>
    ensures region { OnOk result (plain_region region.new
        ≡ with_procedure ident.now number (plain_region region.old)) }
    ensures noted { OnOk result (faults.new ≡ noted faults.old
        (declared_once ident.now.name ident.now.at region.old.symbols.entries)) }
{
    if declared_once(ident, &region.symbols, faults) {
        let name = ident.name.try_clone(region.alloc)?;
        insert(&mut region.symbols, name, Meaning::Procedure(number))?;
    }
    Ok(())
}
