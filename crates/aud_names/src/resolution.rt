// What names with several parts and arguments denote.

ghost use Rattle.std.specs.Prelude.{◌≡◌, None, if◌then◌else◌};
ghost use Rattle.aud_syntax.specs.Plain.{more_parts};
ghost use Rattle.aud_syntax.specs.Ties.View.{plain_name, plain_part, part_list, plain_expressions};
ghost use Rattle.aud_fault.specs.Least.{noted};
ghost use Rattle.aud_names.specs.Names.{named_in, predefined};
ghost use Rattle.aud_names.specs.Rules.{name_not_declared};
ghost use Rattle.aud_names.specs.Resolution.{resolved, or_in_library, in_library, in_text_io, no_entry, entry_selected, is_value, is_function, value_faults, is_barred, of_object, kind_selected, part_selected, inside_selected, object_selected, selected, denoted_by, takes_arguments, is_plainly, is_text_io, is_last, may_stand, are_none, first_args, last_of, last_args};

use crate::names::{
    Entry, Instance, Meaning, Operation, Owner, Scope, Subprogram, is_inside, predefined,
};
use crate::parts::{Part, PartKind};
use crate::rules::{
    function_call_out_of_place, name_not_declared, parameter_in_barrier, wrong_kind_of_name,
};
use aud_fault::fault::Least;
use aud_syntax::tree::{Expression, Name, NamePart};
use aud_text::place::Pos;

const ADA: &[u8] = b"ADA";

const TEXT_IO: &[u8] = b"TEXT_IO";

/// What a name denotes, nothing where it is faulty, and where the identifier stands that decides.
#[derive(Clone, Copy)]
pub struct Denoted {
    pub meaning: Option<Meaning>,
    pub at: Pos,
}

/// The arguments of a name's first part.
pub fn first_args(name: &Name) -> &[Expression]
    ensures { plain_expressions result.now ≡ first_args (plain_name name.now) }
{
    &name.first.args
}

/// The arguments of a name's last part.
pub fn last_args(name: &Name) -> &[Expression]
    ensures { plain_expressions result.now ≡ last_args (plain_name name.now) }
{
    last_of(&name.first, &name.others)
}

fn last_of<'a>(part: &'a NamePart, others: &'a [NamePart]) -> &'a [Expression]
    ensures { plain_expressions result.now
        ≡ last_of (plain_part part.now) (part_list others.now) }
{
    match others.split_first() {
        None => &part.args,
        Some((next, rest)) => last_of(next, rest),
    }
}

/// Whether there are no arguments.
pub fn are_none(args: &[Expression]) -> bool
    ensures { result ≡ are_none (plain_expressions args.now) }
{
    match args.first() {
        None => true,
        Some(_) => false,
    }
}

fn is_last(others: &[NamePart]) -> bool
    ensures { result ≡ is_last (part_list others.now) }
{
    match others.first() {
        None => true,
        Some(_) => false,
    }
}

/// Whether a subprogram is a function.
pub fn is_value(subprogram: Subprogram) -> bool
    ensures { result ≡ is_value subprogram }
{
    match subprogram {
        Subprogram::Function(_) => true,
        Subprogram::Procedure => false,
    }
}

/// A function of a protected object.
pub fn is_function(meaning: Meaning) -> bool
    ensures { result ≡ is_function meaning }
{
    match meaning {
        Meaning::Operation(operation) => is_value(operation.subprogram),
        _ => false,
    }
}

/// Notes of what has no value there that a function's call is out of place, or that it is of the wrong kind.
pub fn note_no_value(meaning: Meaning, at: Pos, faults: &mut Least)
    ensures { faults.new ≡ noted faults.old (value_faults meaning at) }
{
    if is_function(meaning) {
        function_call_out_of_place(at, faults);
    } else {
        wrong_kind_of_name(at, faults);
    }
}

fn takes_arguments(meaning: Meaning) -> bool
    ensures { result ≡ takes_arguments meaning }
{
    match meaning {
        Meaning::Array(_)
        | Meaning::Builtin(_)
        | Meaning::Procedure(_)
        | Meaning::TaskArray(_)
        | Meaning::Entry(_)
        | Meaning::Operation(_) => true,
        Meaning::ScalarType(_)
        | Meaning::Literal(_)
        | Meaning::Object(_)
        | Meaning::Exception(_)
        | Meaning::TaskType(_)
        | Meaning::Task(_)
        | Meaning::Protected(_)
        | Meaning::Barred => false,
    }
}

fn is_barred(meaning: Meaning) -> bool
    ensures { result ≡ is_barred meaning }
{
    match meaning {
        Meaning::Barred => true,
        _ => false,
    }
}

fn may_stand(meaning: Meaning, part: &NamePart, others: &[NamePart]) -> bool
    ensures { result ≡ may_stand meaning (plain_part part.now) (part_list others.now) }
{
    !is_barred(meaning) && (is_last(others) && (takes_arguments(meaning) || are_none(&part.args)))
}

// What stands behind a point and is no entry.
fn no_entry(is_visible: bool, part: &NamePart, faults: &mut Least) -> Denoted
    ensures denoted { result ≡ (no_entry is_visible (plain_part part.now)).denoted }
    ensures noted { faults.new
        ≡ noted faults.old (no_entry is_visible (plain_part part.now)).faults }
{
    let at = part.ident.at;
    if is_visible {
        wrong_kind_of_name(at, faults);
    } else {
        name_not_declared(at, faults);
    }
    Denoted { meaning: None, at }
}

// What stands behind a point, where an entry of this number stands, if there is one.
fn entry_selected(
    number: Option<usize>,
    owner: Owner,
    is_visible: bool,
    part: &NamePart,
    others: &[NamePart],
    faults: &mut Least,
) -> Denoted
    ensures denoted { result ≡ (entry_selected number owner is_visible
        (plain_part part.now) (part_list others.now)).denoted }
    ensures noted { faults.new ≡ noted faults.old (entry_selected number owner is_visible
        (plain_part part.now) (part_list others.now)).faults }
{
    let at = part.ident.at;
    let Some(number) = number else {
        return no_entry(is_visible, part, faults);
    };
    if is_last(others) {
        return Denoted {
            meaning: Some(Meaning::Entry(Entry { number, owner })),
            at,
        };
    }
    wrong_kind_of_name(at, faults);
    Denoted { meaning: None, at }
}

// An entry or an operation of an object, behind which these parts stand.
fn of_object(meaning: Meaning, part: &NamePart, others: &[NamePart], faults: &mut Least) -> Denoted
    ensures denoted { result
        ≡ (of_object meaning (plain_part part.now) (part_list others.now)).denoted }
    ensures noted { faults.new ≡ noted faults.old
        (of_object meaning (plain_part part.now) (part_list others.now)).faults }
{
    let at = part.ident.at;
    if is_last(others) {
        return Denoted {
            meaning: Some(meaning),
            at,
        };
    }
    note_no_value(meaning, at, faults);
    Denoted { meaning: None, at }
}

fn kind_selected(
    kind: PartKind,
    instance: Instance,
    part: &NamePart,
    others: &[NamePart],
    faults: &mut Least,
) -> Denoted
    ensures denoted { result ≡ (kind_selected kind instance
        (plain_part part.now) (part_list others.now)).denoted }
    ensures noted { faults.new ≡ noted faults.old (kind_selected kind instance
        (plain_part part.now) (part_list others.now)).faults }
{
    let at = part.ident.at;
    match kind {
        PartKind::Entry(number, _) => {
            let owner = Owner::Object(instance);
            of_object(
                Meaning::Entry(Entry { number, owner }),
                part,
                others,
                faults,
            )
        }
        PartKind::Operation(unit, subprogram) => {
            let operation = Operation {
                unit,
                subprogram,
                instance,
            };
            of_object(Meaning::Operation(operation), part, others, faults)
        }
        PartKind::Component(_) => {
            wrong_kind_of_name(at, faults);
            Denoted { meaning: None, at }
        }
    }
}

// What stands behind the name of an object and a point, where the object declares this by the name, if anything.
fn part_selected(
    found: Option<Part>,
    instance: Instance,
    part: &NamePart,
    others: &[NamePart],
    faults: &mut Least,
) -> Denoted
    ensures denoted { result ≡ (part_selected found instance
        (plain_part part.now) (part_list others.now)).denoted }
    ensures noted { faults.new ≡ noted faults.old (part_selected found instance
        (plain_part part.now) (part_list others.now)).faults }
{
    match found {
        None => not_declared(part.ident.at, faults),
        Some(found) => {
            if found.is_private {
                not_declared(part.ident.at, faults)
            } else {
                kind_selected(found.kind, instance, part, others, faults)
            }
        }
    }
}

// The same in the object's body, which declares this by the name, if anything.
fn inside_selected(
    found: Option<Meaning>,
    part: &NamePart,
    others: &[NamePart],
    faults: &mut Least,
) -> Denoted
    ensures denoted { result
        ≡ (inside_selected found (plain_part part.now) (part_list others.now)).denoted }
    ensures noted { faults.new ≡ noted faults.old
        (inside_selected found (plain_part part.now) (part_list others.now)).faults }
{
    let at = part.ident.at;
    match found {
        None => not_declared(at, faults),
        Some(Meaning::Entry(entry)) => of_object(Meaning::Entry(entry), part, others, faults),
        Some(Meaning::Operation(operation)) => {
            of_object(Meaning::Operation(operation), part, others, faults)
        }
        Some(_) => {
            wrong_kind_of_name(at, faults);
            Denoted { meaning: None, at }
        }
    }
}

fn object_selected(
    inside: bool,
    instance: Instance,
    part: &NamePart,
    others: &[NamePart],
    scope: &Scope<'_>,
    faults: &mut Least,
) -> Denoted
    ensures denoted { result ≡ (object_selected inside instance
        (plain_part part.now) (part_list others.now) scope.now).denoted }
    ensures noted { faults.new ≡ noted faults.old (object_selected inside instance
        (plain_part part.now) (part_list others.now) scope.now).faults }
{
    let name = &part.ident.name;
    if inside {
        let found = scope.named_inside(instance.variable, name);
        return inside_selected(found, part, others, faults);
    }
    let found = scope.part_named(instance.object, name);
    part_selected(found, instance, part, others, faults)
}

// What a name denotes that has further parts, or arguments which do not fit what its first identifier means: an entry of a
// task, an entry or operation of an object, or nothing.
fn selected(
    meaning: Meaning,
    first: &NamePart,
    others: &[NamePart],
    scope: &Scope<'_>,
    faults: &mut Least,
) -> Denoted
    ensures denoted { result ≡ (selected meaning (plain_part first.now)
        (part_list others.now) scope.now).denoted }
    ensures noted { faults.new ≡ noted faults.old (selected meaning
        (plain_part first.now) (part_list others.now) scope.now).faults }
{
    let at = first.ident.at;
    match (meaning, first.args.first(), others.split_first()) {
        (Meaning::Task(task), None, Some((second, further))) => {
            let own = task.variable;
            let name = &second.ident.name;
            let number = scope.entry_named(task.task_type, name);
            let is_visible = scope.is_in_own_body(&first.ident.name, own, name);
            entry_selected(
                number,
                Owner::Single(own),
                is_visible,
                second,
                further,
                faults,
            )
        }
        (Meaning::TaskArray(tasks), Some(_), Some((second, further))) => {
            let number = scope.entry_named(tasks.task_type, &second.ident.name);
            entry_selected(
                number,
                Owner::Element(tasks),
                false,
                second,
                further,
                faults,
            )
        }
        (Meaning::Protected(instance), None, Some((second, further))) => {
            let inside = is_inside(instance.access);
            object_selected(inside, instance, second, further, scope, faults)
        }
        (Meaning::Array(_), Some(_), Some(_)) => Denoted { meaning: None, at },
        (Meaning::Barred, _, _) => {
            parameter_in_barrier(at, faults);
            Denoted { meaning: None, at }
        }
        _ => {
            note_no_value(meaning, at, faults);
            Denoted { meaning: None, at }
        }
    }
}

// What a name denotes whose first identifier has this meaning.
fn denoted_by(
    meaning: Meaning,
    first: &NamePart,
    others: &[NamePart],
    scope: &Scope<'_>,
    faults: &mut Least,
) -> Denoted
    ensures denoted { result ≡ (denoted_by meaning (plain_part first.now)
        (part_list others.now) scope.now).denoted }
    ensures noted { faults.new ≡ noted faults.old (denoted_by meaning
        (plain_part first.now) (part_list others.now) scope.now).faults }
{
    let at = first.ident.at;
    if may_stand(meaning, first, others) {
        return Denoted {
            meaning: Some(meaning),
            at,
        };
    }
    selected(meaning, first, others, scope, faults)
}

// What a name of Ada.Text_IO denotes.
fn in_text_io(
    first: &NamePart,
    others: &[NamePart],
    scope: &Scope<'_>,
    faults: &mut Least,
) -> Denoted
    ensures denoted { result ≡ (in_text_io (named_in first.now.ident.name predefined)
        (plain_part first.now) (part_list others.now) scope.now).denoted }
    ensures noted { faults.new ≡ noted faults.old (in_text_io
        (named_in first.now.ident.name predefined)
        (plain_part first.now) (part_list others.now) scope.now).faults }
{
    match predefined(&first.ident.name) {
        Some(Meaning::Builtin(builtin)) => {
            denoted_by(Meaning::Builtin(builtin), first, others, scope, faults)
        }
        _ => not_declared(first.ident.at, faults),
    }
}

fn not_declared(at: Pos, faults: &mut Least) -> Denoted
    ensures denoted { result ≡ record { meaning = None; at = at } }
    ensures noted { faults.new ≡ noted faults.old (name_not_declared at) }
{
    name_not_declared(at, faults);
    Denoted { meaning: None, at }
}

// Whether a part is this name without arguments.
fn is_plainly(name: &[u8], part: &NamePart) -> bool
    ensures { result ≡ is_plainly name.now (plain_part part.now) }
{
    part.ident.name.as_bytes() == name && are_none(&part.args)
}

fn is_text_io(first: &NamePart, second: &NamePart, scope: &Scope<'_>) -> bool
    ensures { result ≡ is_text_io (plain_part first.now) (plain_part second.now) scope.now }
{
    is_plainly(ADA, first) && is_plainly(TEXT_IO, second) && !scope.is_taken(&first.ident.name)
}

// What a name of at least two parts denotes whose first identifier is not visible.
fn in_package(
    first: &NamePart,
    second: &NamePart,
    others: &[NamePart],
    scope: &Scope<'_>,
    faults: &mut Least,
) -> Denoted
    ensures denoted { result ≡ (in_library (plain_part first.now)
        (more_parts (plain_part second.now) (part_list others.now)) scope.now).denoted }
    ensures noted { faults.new ≡ noted faults.old (in_library (plain_part first.now)
        (more_parts (plain_part second.now) (part_list others.now)) scope.now).faults }
{
    match others.split_first() {
        None => not_declared(first.ident.at, faults),
        Some((third, rest)) => {
            if is_text_io(first, second, scope) {
                in_text_io(third, rest, scope, faults)
            } else {
                not_declared(first.ident.at, faults)
            }
        }
    }
}

// What a name denotes whose first identifier is not visible.
fn in_library(
    first: &NamePart,
    others: &[NamePart],
    scope: &Scope<'_>,
    faults: &mut Least,
) -> Denoted
    ensures denoted { result
        ≡ (in_library (plain_part first.now) (part_list others.now) scope.now).denoted }
    ensures noted { faults.new ≡ noted faults.old
        (in_library (plain_part first.now) (part_list others.now) scope.now).faults }
{
    match others.split_first() {
        None => not_declared(first.ident.at, faults),
        Some((second, rest)) => in_package(first, second, rest, scope, faults),
    }
}

/// What a name denotes (RM 4.1, 8.3): notes its faults, but not those in its arguments.
pub fn resolve(name: &Name, scope: &Scope<'_>, faults: &mut Least) -> Denoted
    ensures denoted { result ≡ (resolved (plain_name name.now) scope.now).denoted }
    ensures noted { faults.new
        ≡ noted faults.old (resolved (plain_name name.now) scope.now).faults }
{
    match scope.visible(&name.first.ident.name) {
        Some(meaning) => denoted_by(meaning, &name.first, &name.others, scope, faults),
        None => in_library(&name.first, &name.others, scope, faults),
    }
}
