// Requeue statements.

ghost use Rattle.std.specs.Prelude.{◌≡◌, ◌++◌, List, IfOk, is_some, option_map};
ghost use Rattle.aud_names.specs.declared.names.NamedParameter.{NamedParameter};
ghost use Rattle.aud_syntax.specs.Ties.View.{plain_name};
ghost use Rattle.aud_typed.specs.Ties.View.{plain_callee, plain_statement as plain_typed_statement};
ghost use Rattle.aud_fault.specs.Least.{noted};
ghost use Rattle.aud_names.specs.Names.{declaring};
ghost use Rattle.aud_typing.specs.Ties.Typing.{plain_typed, in_box, Leaves};
ghost use Rattle.aud_check_bodies.specs.Calls.{index_checked, array_called};
ghost use Rattle.aud_names.specs.Resolution.{last_args};
ghost use Rattle.aud_check_bodies.specs.Requeues.{may_take, is_own_object, is_inside_object, goes_to_object, is_outside, no_arguments, entry_target_faults, target_faults_in, target_faults, requeue_faults, target_callee, has_formals, requeued_to, requeued, typed_requeue};
ghost use Rattle.aud_check_bodies.specs.Ties.Tables.{plain_tables};
ghost use Rattle.aud_check_bodies.specs.Ties.Within.{plain_requeuing};

use crate::call::{array_called, no_argument};
use crate::entry_call::index;
use crate::tables::Tables;
use crate::within::Requeuing;
use aud_fault::fault::Least;
use aud_names::array::task_array_at;
use aud_names::behind::{Left, boxed};
use aud_names::names::{Entry, Meaning, NamedParameter, Owner, Scope};
use aud_names::resolution::{Denoted, last_args, resolve};
use aud_names::rules::{
    declared_outside, formals_conform, in_own_object, not_an_entry, requeue_in_place,
    same_parameters, wrong_kind_of_name,
};
use aud_syntax::tree::{Ident, Name};
use aud_text::place::Pos;
use aud_typed::program::{Callee, Requeue, Statement, TaskName};
use aud_typing::expression::arguments;
use aud_typing::typed::Typed;
use std::alloc::Global;

// Whether there is a call that can be made again.
fn is_somewhere(requeuing: Requeuing) -> bool
    ensures { (profile : List NamedParameter) → result ≡ is_some (plain_requeuing requeuing profile) }
{
    match requeuing {
        Requeuing::Nowhere => false,
        Requeuing::Accept | Requeuing::Entry(_) => true,
    }
}

// Whether a target has no formals, or those of the accept or entry body but for their names (RM 9.5.4(3)).
fn may_take(target: &[NamedParameter], given: &[NamedParameter]) -> bool
    ensures { result ≡ may_take target.now given.now }
{
    match target.first() {
        None => true,
        Some(_) => same_parameters(target, given),
    }
}

fn is_own_object(object: usize, owner: Owner) -> bool
    ensures { result ≡ is_own_object object owner }
{
    match owner {
        Owner::Object(instance) => instance.object == object,
        Owner::Single(_) | Owner::Element(_) => false,
    }
}

// An accept may name any entry, an entry body those of its object.
fn is_inside_object(object: Option<usize>, owner: Owner) -> bool
    ensures { result ≡ is_inside_object object owner }
{
    match object {
        None => true,
        Some(object) => is_own_object(object, owner),
    }
}

// Whether the target is an object's entry and the requeue stands in an accept.
fn goes_to_object(object: Option<usize>, owner: Owner) -> bool
    ensures { result ≡ goes_to_object object owner }
{
    match (object, owner) {
        (None, Owner::Object(_)) => true,
        _ => false,
    }
}

// Whether the target's task or object, which is what the name begins with or what declares that, is declared outside.
fn is_outside(object: Option<usize>, owner: Owner, ident: &Ident, scope: &Scope<'_>) -> bool
    ensures { result ≡ is_outside object owner (declaring ident.now.name scope.now.regions) }
{
    let name = &ident.name;
    !scope.is_from_accept(name) && !(goes_to_object(object, owner) && scope.is_from_task(name))
}

// Notes the faults of a target that is an entry, where a call can be made again.
#[tactic(auto, using(aud_typing::proofs::Notes::noted_append))]
fn check_again(
    entry: Entry,
    name: &Name,
    at: Pos,
    object: Option<usize>,
    profile: &[NamedParameter],
    scope: &Scope<'_>,
    tables: &Tables,
    faults: &mut Least,
)
    ensures { faults.new ≡ noted faults.old (entry_target_faults entry (plain_name name.now) at
        (record { profile = profile.now; object = object }) scope.now
        (plain_tables tables.now)) }
{
    let target = tables.entry_profile(entry.number);
    formals_conform(may_take(target, profile), at, faults);
    in_own_object(is_inside_object(object, entry.owner), at, faults);
    let outside = is_outside(object, entry.owner, &name.first.ident, scope);
    declared_outside(outside, at, faults);
}

fn check_entry(
    entry: Entry,
    name: &Name,
    at: Pos,
    requeuing: Requeuing,
    profile: &[NamedParameter],
    scope: &Scope<'_>,
    tables: &Tables,
    faults: &mut Least,
)
    ensures { faults.new ≡ noted faults.old (target_faults_in
        (plain_requeuing requeuing profile.now) entry (plain_name name.now) at scope.now
        (plain_tables tables.now)) }
{
    match requeuing {
        Requeuing::Nowhere => {}
        Requeuing::Accept => check_again(entry, name, at, None, profile, scope, tables, faults),
        Requeuing::Entry(object) => {
            check_again(
                entry,
                name,
                at,
                Some(object),
                profile,
                scope,
                tables,
                faults,
            );
        }
    }
}

fn no_arguments(name: &Name, at: Pos, faults: &mut Least)
    ensures { faults.new ≡ noted faults.old (no_arguments (plain_name name.now) at) }
{
    no_argument(last_args(name), at, faults);
}

fn array_named(name: &Name, at: Pos, last: &Typed, faults: &mut Least)
    ensures { faults.new ≡ noted faults.old
        (array_called (last_args (plain_name name.now)) at (plain_typed last.now)) }
{
    array_called(last_args(name), at, last, faults);
}

// Notes the faults of a target that is an entry.
#[tactic(auto, using(aud_typing::proofs::Notes::noted_append))]
fn entry_named(
    entry: Entry,
    name: &Name,
    at: Pos,
    requeuing: Requeuing,
    profile: &[NamedParameter],
    scope: &Scope<'_>,
    tables: &Tables,
    faults: &mut Least,
)
    ensures { faults.new ≡ noted faults.old (no_arguments (plain_name name.now) at
        ++ target_faults_in (plain_requeuing requeuing profile.now) entry (plain_name name.now) at
        scope.now (plain_tables tables.now)) }
{
    no_arguments(name, at, faults);
    check_entry(entry, name, at, requeuing, profile, scope, tables, faults);
}

// Notes where a target is no entry, and the faults of one that is.
fn check_target(
    denoted: Denoted,
    name: &Name,
    requeuing: Requeuing,
    profile: &[NamedParameter],
    last: &Typed,
    scope: &Scope<'_>,
    tables: &Tables,
    faults: &mut Least,
)
    ensures { faults.new ≡ noted faults.old (target_faults denoted.meaning (plain_name name.now)
        denoted.at (plain_requeuing requeuing profile.now) (plain_typed last.now) scope.now
        (plain_tables tables.now)) }
{
    let at = denoted.at;
    match denoted.meaning {
        None => {}
        Some(Meaning::Entry(entry)) => {
            entry_named(entry, name, at, requeuing, profile, scope, tables, faults);
        }
        Some(Meaning::Builtin(_) | Meaning::Procedure(_) | Meaning::Operation(_)) => {
            not_an_entry(at, faults);
        }
        Some(Meaning::Array(_) | Meaning::TaskArray(_)) => {
            array_named(name, at, last, faults);
        }
        Some(
            Meaning::ScalarType(_)
            | Meaning::Literal(_)
            | Meaning::Object(_)
            | Meaning::Exception(_)
            | Meaning::TaskType(_)
            | Meaning::Task(_)
            | Meaning::Protected(_)
            | Meaning::Barred,
        ) => {
            wrong_kind_of_name(at, faults);
        }
    }
}

// The index of a target's array of tasks, whose faults have been noted.
fn checked_index(owner: Owner, name: &Name, scope: &Scope<'_>) -> Left<Typed>
    ensures { IfOk result (λ typed. plain_typed typed.value
        ≡ (index_checked owner (plain_name name.now) scope.now).typed) }
{
    let mut again = Least::new();
    index(owner, name, scope, &mut again)
}

fn target_callee(owner: Owner, index: Typed) -> Option<Callee>
    ensures { option_map plain_callee result ≡ target_callee owner (plain_typed index) }
{
    match owner {
        Owner::Single(cell) => {
            drop(index);
            Some(Callee::Task(TaskName::Single(cell)))
        }
        Owner::Element(array) => match index {
            Typed::Number(index) => {
                let task = TaskName::Element(task_array_at(array), index);
                Some(Callee::Task(task))
            }
            other => {
                drop(other);
                None
            }
        },
        Owner::Object(instance) => {
            drop(index);
            Some(Callee::Object(instance.variable))
        }
    }
}

fn has_formals(profile: &[NamedParameter]) -> bool
    ensures { result ≡ has_formals profile.now }
{
    match profile.first() {
        None => false,
        Some(_) => true,
    }
}

// A requeue to an entry; one without a task or object is left as a null statement.
fn requeued_to(
    alloc: Global,
    at: Pos,
    entry: Entry,
    with_abort: bool,
    callee: Option<Callee>,
    tables: &Tables,
) -> Left<Statement>
    ensures { IfOk result (λ typed. plain_typed_statement typed.value
        ≡ requeued_to at entry with_abort (option_map plain_callee callee)
        (plain_tables tables.now)) }
{
    let Some(callee) = callee else {
        return boxed(alloc, Statement::Null(at));
    };
    let with_formals = has_formals(tables.entry_profile(entry.number));
    let requeue = boxed(
        alloc,
        Requeue {
            callee,
            entry: entry.number,
            with_formals,
            with_abort,
        },
    )?;
    boxed(alloc, Statement::Requeue(at, requeue))
}

// What is left of a requeue to an entry.
fn to_entry(
    at: Pos,
    entry: Entry,
    name: &Name,
    with_abort: bool,
    scope: &Scope<'_>,
    tables: &Tables,
) -> Left<Statement>
    ensures { IfOk result (λ typed. plain_typed_statement typed.value
        ≡ requeued_to at entry with_abort (target_callee entry.owner
        (index_checked entry.owner (plain_name name.now) scope.now).typed)
        (plain_tables tables.now)) }
{
    let index = checked_index(entry.owner, name, scope)?;
    let callee = target_callee(entry.owner, Box::into_inner(index));
    requeued_to(scope.alloc(), at, entry, with_abort, callee, tables)
}

// What is left of a requeue to what a name denotes; a faulty one is left as a null statement.
fn requeued(
    at: Pos,
    meaning: Option<Meaning>,
    name: &Name,
    with_abort: bool,
    scope: &Scope<'_>,
    tables: &Tables,
) -> Left<Statement>
    ensures { IfOk result (λ typed. plain_typed_statement typed.value
        ≡ requeued at meaning (plain_name name.now) with_abort scope.now
        (plain_tables tables.now)) }
{
    match meaning {
        Some(Meaning::Entry(entry)) => to_entry(at, entry, name, with_abort, scope, tables),
        _ => boxed(scope.alloc(), Statement::Null(at)),
    }
}

/// Checks a requeue statement (RM 9.5.4): notes its faults, and answers what is left of it.
#[tactic(auto, using(aud_typing::proofs::Notes::noted_append))]
#[inline(never)]
pub fn requeue(
    at: Pos,
    name: &Name,
    with_abort: bool,
    requeuing: Requeuing,
    profile: &[NamedParameter],
    scope: &Scope<'_>,
    tables: &Tables,
    faults: &mut Least,
) -> Left<Statement>
    ensures { Leaves (in_box plain_typed_statement) result faults.old faults.new
        (requeue_faults at (plain_name name.now) (plain_requeuing requeuing profile.now) scope.now
        (plain_tables tables.now))
        (typed_requeue at (plain_name name.now) with_abort scope.now
        (plain_tables tables.now)) }
{
    requeue_in_place(is_somewhere(requeuing), at, faults);
    let denoted = resolve(name, scope, faults);
    let last = arguments(name, scope, faults)?;
    check_target(
        denoted, name, requeuing, profile, &last, scope, tables, faults,
    );
    drop(last);
    requeued(at, denoted.meaning, name, with_abort, scope, tables)
}
