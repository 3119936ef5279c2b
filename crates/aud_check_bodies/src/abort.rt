// Abort statements.

ghost use Rattle.std.specs.Prelude.{◌≡◌, ◌++◌, OnOk, option_map};
ghost use Rattle.aud_syntax.specs.Ties.View.{plain_name, plain_names};
ghost use Rattle.aud_typed.specs.Ties.View.{plain_task, plain_task_names, plain_statement as plain_typed_statement};
ghost use Rattle.aud_fault.specs.Least.{noted};
ghost use Rattle.aud_check_bodies.specs.Aborts.{aborted_faults, aborted, named_faults, named_task, listed, others_faults, other_tasks, abort_faults, typed_abort};
ghost use Rattle.aud_typing.specs.Ties.Entities.{plain_entity};
ghost use Rattle.aud_typing.specs.Ties.Typing.{in_box, Leaves};

use aud_fault::fault::Least;
use aud_names::behind::{Left, Made, add_last, both, boxed};
use aud_names::names::{Meaning, Scope};
use aud_names::resolution::note_no_value;
use aud_names::rules::wrong_kind_of_name;
use aud_syntax::tree::{AbortStatement, Name};
use aud_text::place::Pos;
use aud_typed::program::{Statement, TaskName};
use aud_typing::entity::{Entity, name_denotes};
use aud_typing::expression::arguments;

// Notes where what is named is no task (RM 9.8(3)).
fn check_task(entity: &Entity, at: Pos, faults: &mut Least)
    ensures { faults.new ≡ noted faults.old (aborted_faults (plain_entity entity.now) at) }
{
    match entity {
        Entity::Nothing | Entity::Whole(Meaning::Task(_)) | Entity::Task(_, _) => {}
        Entity::Whole(meaning) => note_no_value(*meaning, at, faults),
        Entity::Element(_) => wrong_kind_of_name(at, faults),
    }
}

// The task that is named, if it is one.
fn aborted(entity: Entity) -> Option<TaskName>
    ensures { option_map plain_task result ≡ aborted (plain_entity entity) }
{
    match entity {
        Entity::Whole(Meaning::Task(task)) => Some(TaskName::Single(task.variable)),
        Entity::Task(array, index) => Some(TaskName::Element(array, index)),
        other => {
            drop(other);
            None
        }
    }
}

// Checks a name of a task.
#[tactic(auto, using(aud_typing::proofs::Notes::noted_append))]
fn task(name: &Name, scope: &Scope<'_>, faults: &mut Least) -> Made<Option<TaskName>>
    ensures { Leaves (λ t. option_map plain_task t) result faults.old faults.new
        (named_faults (plain_name name.now) scope.now)
        (named_task (plain_name name.now) scope.now) }
{
    let last = arguments(name, scope, faults)?;
    let denoting = name_denotes(name, last, scope, faults);
    check_task(&denoting.entity, denoting.at, faults);
    Ok(aborted(denoting.entity))
}

// Adds a task to others, if it is one.
fn add(all: &mut Vec<TaskName>, task: Option<TaskName>) -> Made<()>
    ensures { OnOk result (plain_task_names all.new.items
        ≡ plain_task_names all.old.items ++ listed (option_map plain_task task)) }
{
    match task {
        None => Ok(()),
        Some(task) => add_last(all, task),
    }
}

// Checks further names of tasks.
#[tactic(auto, using(aud_typing::proofs::Notes::noted_append))]
fn others(
    first: Vec<TaskName>,
    names: &[Name],
    scope: &Scope<'_>,
    faults: &mut Least,
) -> Made<Vec<TaskName>>
    ensures { Leaves (λ v. plain_task_names v.items) result faults.old faults.new
        (others_faults (plain_names names.now) scope.now)
        (plain_task_names first.items ++ other_tasks (plain_names names.now) scope.now) }
{
    let mut all = first;
    for name in names {
        let (rest, next) = both(all, task(name, scope, faults))?;
        all = rest;
        add(&mut all, next)?;
    }
    Ok(all)
}

/// Checks an abort statement (RM 9.8).
#[tactic(auto, using(aud_typing::proofs::Notes::noted_append))]
#[inline(never)]
pub fn abort(source: &AbortStatement, scope: &Scope<'_>, faults: &mut Least) -> Left<Statement>
    ensures { Leaves (in_box plain_typed_statement) result faults.old faults.new
        (abort_faults (plain_name source.now.first)
        (plain_names source.now.others.items) scope.now)
        (typed_abort source.now.at (plain_name source.now.first)
        (plain_names source.now.others.items) scope.now) }
{
    let mut tasks = Vec::new(scope.alloc());
    let first = task(&source.first, scope, faults)?;
    add(&mut tasks, first)?;
    let tasks = others(tasks, &source.others, scope, faults)?;
    boxed(scope.alloc(), Statement::Abort(source.at, tasks))
}
