// Calls of entries.

ghost use Rattle.std.specs.Prelude.{◌≡◌, IfOk};
ghost use Rattle.aud_syntax.specs.Ties.View.{plain_name};
ghost use Rattle.aud_typed.specs.Ties.View.{plain_arguments, plain_form, plain_statement as plain_typed_statement};
ghost use Rattle.aud_typed.specs.Tree.{plainly, nothing, part_of};
ghost use Rattle.aud_fault.specs.Least.{noted};
ghost use Rattle.aud_names.specs.Resolution.{name_ident};
ghost use Rattle.aud_typing.specs.Ties.Typing.{plain_typed, in_box, Leaves};
ghost use Rattle.aud_check_bodies.specs.Calls.{index_checked, owner_faults, called_object, called_owner, called_with, entry_call_faults, entry_called, entry_call_to, entry_call_of};
ghost use Rattle.aud_check_bodies.specs.Ties.Arms.{plain_items};
ghost use Rattle.aud_check_bodies.specs.Ties.Passed.{plain_all_passed, plain_whose, plain_maybe_whose, plain_maybe_called};
ghost use Rattle.aud_check_bodies.specs.Ties.Tables.{plain_tables};

use crate::call::{all_given, may_change};
use crate::tables::Tables;
use aud_fault::fault::Least;
use aud_names::array::task_array_at;
use aud_names::behind::{Left, Made, both, boxed};
use aud_names::names::{Entry, Instance, Owner, Scope, is_inside};
use aud_names::rules::no_change_within_function;
use aud_syntax::tree::Name;
use aud_text::place::Pos;
use aud_typed::program::{Argument, CallForm, Callee, EntryCallStatement, Statement, TaskName};
use aud_typing::expression::prefix;
use aud_typing::typed::Typed;
use std::alloc::Global;

/// Whose entry is called: that of the object in whose body the call stands, or another's.
#[derive(Drop)]
pub enum Whose {
    Own,
    Other(Callee),
}

/// Which entry of which task or object is called, with what arguments (RM 9.5.3).
#[derive(Drop)]
pub struct EntryCalled {
    pub whose: Whose,
    pub entry: usize,
    pub arguments: Vec<Argument>,
}

/// The index of the array of tasks before the point behind which an entry of one of them stands.
pub fn index(owner: Owner, name: &Name, scope: &Scope<'_>, faults: &mut Least) -> Left<Typed>
    ensures { Leaves (in_box plain_typed) result faults.old faults.new
        (index_checked owner (plain_name name.now) scope.now).faults
        (index_checked owner (plain_name name.now) scope.now).typed }
{
    match owner {
        Owner::Single(_) | Owner::Object(_) => boxed(scope.alloc(), Typed::Unknown),
        Owner::Element(_) => prefix(name, scope, faults),
    }
}

// An object whose entry is called, from within its body or from outside.
fn called_object(inside: bool, instance: Instance) -> Whose
    ensures { plain_whose result ≡ called_object inside instance }
{
    if inside {
        Whose::Own
    } else {
        Whose::Other(Callee::Object(instance.variable))
    }
}

// Whose entry is called, if the index of a task is a number.
fn called_owner(owner: Owner, index: Typed) -> Option<Whose>
    ensures { plain_maybe_whose result ≡ called_owner owner (plain_typed index) }
{
    match owner {
        Owner::Single(cell) => {
            drop(index);
            Some(Whose::Other(Callee::Task(TaskName::Single(cell))))
        }
        Owner::Element(array) => match index {
            Typed::Number(index) => {
                let task = TaskName::Element(task_array_at(array), index);
                Some(Whose::Other(Callee::Task(task)))
            }
            other => {
                drop(other);
                None
            }
        },
        Owner::Object(instance) => {
            drop(index);
            Some(called_object(is_inside(instance.access), instance))
        }
    }
}

// An entry with what is passed, if neither has a fault.
fn called_with(
    entry: usize,
    whose: Option<Whose>,
    passed: Option<Vec<Argument>>,
) -> Option<EntryCalled>
    ensures { plain_maybe_called result
        ≡ called_with entry (plain_maybe_whose whose) (plain_all_passed passed) }
{
    let Some(whose) = whose else {
        drop(passed);
        return None;
    };
    let Some(arguments) = passed else {
        drop(whose);
        return None;
    };
    Some(EntryCalled {
        whose,
        entry,
        arguments,
    })
}

// Notes where an entry is called of an object that may not be changed (RM 9.5.1(2)).
fn check_owner(owner: Owner, at: Pos, faults: &mut Least)
    ensures { faults.new ≡ noted faults.old (owner_faults owner at) }
{
    match owner {
        Owner::Object(instance) => {
            no_change_within_function(may_change(instance), at, faults);
        }
        Owner::Single(_) | Owner::Element(_) => {}
    }
}

/// Checks what a call of an entry calls, whose name stands at a place: notes its faults, and answers what is left of
/// it, if it has none.
#[tactic(auto, using(aud_typing::proofs::Notes::noted_append))]
pub fn entry_called(
    entry: Entry,
    name: &Name,
    at: Pos,
    scope: &Scope<'_>,
    tables: &Tables,
    faults: &mut Least,
) -> Made<Option<EntryCalled>>
    ensures { Leaves plain_maybe_called result faults.old faults.new
        (entry_call_faults entry (plain_name name.now) at scope.now (plain_tables tables.now))
        (entry_called entry (plain_name name.now) scope.now (plain_tables tables.now)) }
{
    check_owner(entry.owner, at, faults);
    let index = index(entry.owner, name, scope, faults)?;
    let whose = called_owner(entry.owner, Box::into_inner(index));
    let profile = tables.entry_profile(entry.number);
    let (whose, passed) = both(whose, all_given(profile, name, at, scope, faults))?;
    Ok(called_with(entry.number, whose, passed))
}

// A call of an entry with these arguments at a place; neither what follows it nor what is done in place of it is left
// where the entry is one of the object in whose body it stands.
fn entry_call_to(
    alloc: Global,
    at: Pos,
    form: CallForm,
    called: EntryCalled,
    parts: (Vec<Statement>, Vec<Statement>),
) -> Left<Statement>
    ensures { IfOk result (λ typed. plain_typed_statement typed.value
        ≡ entry_call_to (plain_whose called.whose) at called.entry
        (plain_arguments called.arguments.items) (plain_form form)
        (part_of (plain_items parts.0)) (part_of (plain_items parts.1))) }
{
    let EntryCalled {
        whose,
        entry,
        arguments,
    } = called;
    let Whose::Other(callee) = whose else {
        drop(parts);
        return boxed(alloc, Statement::OwnEntryCall(at, arguments, form));
    };
    let (after, otherwise) = parts;
    let statement = boxed(
        alloc,
        EntryCallStatement {
            at,
            callee,
            entry,
            arguments,
            form,
            after,
            otherwise,
        },
    )?;
    boxed(alloc, Statement::EntryCall(statement))
}

/// A call of an entry at a place, with what follows it, and what is done in place of it; a faulty one is left as a null
/// statement.
#[inline(never)]
pub fn entry_call_of(
    alloc: Global,
    at: Pos,
    form: CallForm,
    called: Option<EntryCalled>,
    parts: (Vec<Statement>, Vec<Statement>),
) -> Left<Statement>
    ensures { IfOk result (λ typed. plain_typed_statement typed.value
        ≡ entry_call_of at (plain_form form) (part_of (plain_items parts.0))
        (part_of (plain_items parts.1)) (plain_maybe_called called)) }
{
    let Some(called) = called else {
        drop((form, parts));
        return boxed(alloc, Statement::Null(at));
    };
    entry_call_to(alloc, at, form, called, parts)
}

/// A call of an entry by itself.
pub fn entry_call(
    entry: Entry,
    name: &Name,
    at: Pos,
    scope: &Scope<'_>,
    tables: &Tables,
    faults: &mut Least,
) -> Left<Statement>
    ensures { Leaves (in_box plain_typed_statement) result faults.old faults.new
        (entry_call_faults entry (plain_name name.now) at scope.now (plain_tables tables.now))
        (entry_call_of (name_ident (plain_name name.now)).at plainly nothing nothing
        (entry_called entry (plain_name name.now) scope.now (plain_tables tables.now))) }
{
    let called = entry_called(entry, name, at, scope, tables, faults)?;
    let alloc = scope.alloc();
    let parts = (Vec::new(alloc), Vec::new(alloc));
    entry_call_of(alloc, name.first.ident.at, CallForm::Plain, called, parts)
}
