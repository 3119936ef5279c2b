// Declarations of tasks and task types, and what their bodies need.

ghost use Rattle.std.specs.Prelude.{◌≡◌, ◌+◌, ◌++◌, ◌∷◌, [], pos, false, IfOk, OnOk};
ghost use Rattle.aud_syntax.specs.Ties.View.{plain_definition};
ghost use Rattle.aud_typed.specs.Tree.{activation};
ghost use Rattle.aud_typed.specs.Ties.View.{plain_statement, plain_statements as plain_typed_statements};
ghost use Rattle.aud_fault.specs.Least.{noted};
ghost use Rattle.aud_names.specs.Names.{is_declared, awaited_task, body_come, running};
ghost use Rattle.aud_names.specs.Rules.{declared_once, right_name_at_end};
ghost use Rattle.aud_names.specs.Ties.Regions.{plain_region, plain_place, names_in};
ghost use Rattle.aud_check_bodies.specs.Tables.{no_tables};
ghost use Rattle.aud_check_bodies.specs.Declarations.{leaving, task_elaborations, checked_tasks, checked_task_rows};
ghost use Rattle.aud_check_bodies.specs.Tasks.{name_behind, with_task_symbol, with_task, created_by, checked_task, without_bodies, matched_faults, body_unit, body_task, body_tables, creates, create_tasks, with_activation};
ghost use Rattle.aud_check_bodies.specs.Ties.DeclarativePart.{Declares};
ghost use Rattle.aud_check_bodies.specs.Ties.Tables.{plain_tables};

use crate::declaration::{DeclarativePart, add_symbol, declare};
use crate::entry::{entries_of, name_entries};
use crate::tables::Tables;
use aud_fault::fault::Least;
use aud_names::array::{Kind, TaskRow, bound, cells_of, or_zero};
use aud_names::awaited::Awaited;
use aud_names::behind::{Made, add_last};
use aud_names::names::{Meaning, Region, insert};
use aud_names::rules::{declared_once, no_matching_body, right_name_at_end};
use aud_syntax::tree::{Bound, Ident, Identifiers, TaskDeclaration, TaskDefinition};
use aud_text::name::Name;
use aud_text::place::Pos;
use aud_typed::program::{Statement, Tasks};
use std::alloc::{AllocError, Global};

/// What the tasks of each name of a declaration are: their type, and of arrays the lower bound and the length (RM 9.1).
#[derive(Clone, Copy)]
pub struct Creation {
    pub task_type: usize,
    pub low: i32,
    pub is_array: bool,
    pub length: usize,
}

/// A task of a type.
pub fn one_task(task_type: usize) -> Creation
    ensures { result ≡ record { task_type = task_type; low = pos 0; is_array = false; length = 1 } }
{
    Creation {
        task_type,
        low: 0,
        is_array: false,
        length: 1,
    }
}

// The creation of the tasks of a name, whose declaration begins at a place.
fn create(
    ident: &Ident,
    at: Pos,
    creation: Creation,
    alloc: Global,
    elaborations: &mut Vec<Statement>,
) -> Made<()>
    ensures { OnOk result (plain_typed_statements elaborations.new.items
        ≡ plain_typed_statements elaborations.old.items
        ++ task_elaborations (ident.now ∷ []) at creation.task_type creation.low
        creation.is_array creation.length) }
{
    let name = ident.name.try_clone(alloc)?;
    let Creation {
        task_type,
        low,
        is_array,
        length,
    } = creation;
    let tasks = Tasks {
        task_type,
        name,
        low,
        is_array,
        length,
    };
    add_last(elaborations, Statement::DeclareTasks(at, tasks))
}

// The creations of the tasks of these names.
fn create_all(
    names: &Identifiers,
    creation: Creation,
    alloc: Global,
    elaborations: &mut Vec<Statement>,
) -> Made<()>
    ensures { OnOk result (plain_typed_statements elaborations.new.items
        ≡ plain_typed_statements elaborations.old.items
        ++ task_elaborations (names_in names.now) names.now.first.at creation.task_type
        creation.low creation.is_array creation.length) }
{
    let at = names.first.at;
    create(&names.first, at, creation, alloc, elaborations)?;
    for other in &names.others {
        create(other, at, creation, alloc, elaborations)?;
    }
    Ok(())
}

/// Declares tasks of a type as variables (RM 9.1).
#[tactic(auto, using(aud_typing::proofs::Notes::noted_append))]
pub fn tasks(
    names: &Identifiers,
    number: usize,
    outer: &[&Region],
    part: &mut DeclarativePart,
    faults: &mut Least,
) -> Made<()>
    ensures { OnOk result (Declares faults.old faults.new outer.now part.old part.new no_tables
        (leaving no_tables (checked_tasks (names_in names.now) names.now.first.at number
        (plain_place part.old.region outer.now)))) }
{
    declare(names, Kind::Task(number), &mut part.region, faults)?;
    let alloc = part.region.alloc;
    create_all(names, one_task(number), alloc, &mut part.elaborations)
}

/// Declares arrays of tasks of a type (RM 9.1, 3.6).
#[tactic(auto, using(aud_typing::proofs::Notes::noted_append))]
pub fn task_rows(
    names: &Identifiers,
    bounds: (Bound, Bound),
    number: usize,
    outer: &[&Region],
    part: &mut DeclarativePart,
    faults: &mut Least,
) -> Made<()>
    ensures { OnOk result (Declares faults.old faults.new outer.now part.old part.new no_tables
        (leaving no_tables (checked_task_rows (names_in names.now) names.now.first.at bounds.0
        bounds.1 number (plain_place part.old.region outer.now)))) }
{
    let low = or_zero(bound(bounds.0, faults));
    let high = or_zero(bound(bounds.1, faults));
    let kind = Kind::TaskRow(TaskRow {
        low,
        high,
        task_type: number,
    });
    declare(names, kind, &mut part.region, faults)?;
    let length = cells_of(kind);
    let creation = Creation {
        task_type: number,
        low,
        is_array: true,
        length,
    };
    let alloc = part.region.alloc;
    create_all(names, creation, alloc, &mut part.elaborations)
}

// Adds the name of a task, or of a task type, which the region has not yet (RM 9.1).
fn add_task_symbol(task: &TaskDeclaration, number: usize, region: &mut Region) -> Made<()>
    requires { is_declared task.now.name.name region.now.symbols.entries ≡ false }
    ensures { OnOk result (plain_region region.new ≡ with_task_symbol task.now.is_type
        task.now.name.name number (plain_region region.old)) }
{
    let name = &task.name.name;
    if !task.is_type {
        return add_symbol(name, Kind::Task(number), region);
    }
    let name = name.try_clone(region.alloc)?;
    insert(&mut region.symbols, name, Meaning::TaskType(number))
}

// Declares the name of a task or a task type, whose type and unit have these numbers. Its body is still to come.
fn declare_name(
    task: &TaskDeclaration,
    number: usize,
    unit: usize,
    region: &mut Region,
    faults: &mut Least,
) -> Made<()>
    ensures region { OnOk result (plain_region region.new
        ≡ with_task task.now.is_type task.now.name number unit (plain_region region.old)) }
    ensures noted { OnOk result (faults.new ≡ noted faults.old
        (declared_once task.now.name.name task.now.name.at region.old.symbols.entries)) }
{
    let ident = &task.name;
    if declared_once(ident, &region.symbols, faults) {
        add_task_symbol(task, number, region)?;
        let name = ident.name.try_clone(region.alloc)?;
        let at = ident.at;
        let awaited = Awaited {
            name,
            task_type: number,
            unit,
            at,
        };
        return add_last(&mut region.awaited, awaited);
    }
    Ok(())
}

// The name behind the end of a task's declaration is the task's (RM 9.1(7)).
fn right_name_behind(ident: &Ident, definition: &Option<TaskDefinition>, faults: &mut Least)
    ensures { faults.new ≡ noted faults.old
        (right_name_at_end ident.now.name (name_behind (plain_definition definition.now))) }
{
    if let Some(definition) = definition {
        right_name_at_end(&ident.name, &definition.end_name, faults);
    }
}

// Creates a single task; a type creates none (RM 9.1).
fn create_single(
    task: &TaskDeclaration,
    number: usize,
    alloc: Global,
    elaborations: &mut Vec<Statement>,
) -> Made<()>
    ensures { OnOk result (plain_typed_statements elaborations.new.items
        ≡ plain_typed_statements elaborations.old.items
        ++ created_by task.now.is_type task.now.name task.now.at number) }
{
    if task.is_type {
        return Ok(());
    }
    create(&task.name, task.at, one_task(number), alloc, elaborations)
}

/// Declares a task or a task type, and its entries (RM 9.1).
#[inline(never)]
pub fn declare_task(
    task: &TaskDeclaration,
    outer: &[&Region],
    part: &mut DeclarativePart,
    tables: &mut Tables,
    faults: &mut Least,
) -> Made<()>
    ensures { OnOk result (Declares faults.old faults.new outer.now part.old part.new
        (plain_tables tables.new)
        (checked_task task.now.at task.now.is_type task.now.name
        (plain_definition task.now.definition) (plain_place part.old.region outer.now)
        (plain_tables tables.old))) }
{
    let number = tables.next_task();
    let unit = tables.next_unit();
    let alloc = part.region.alloc;
    declare_name(task, number, unit, &mut part.region, faults)?;
    let definition = &task.definition;
    let names = entries_of(number, definition, &part.region, &*outer, tables, faults)?;
    right_name_behind(&task.name, definition, faults);
    let entries = name_entries(names, &mut part.region)?;
    create_single(task, number, alloc, &mut part.elaborations)?;
    tables.keep_task(alloc, entries)
}

/// Notes what waits for a body still at the end of a declarative part (RM 3.11.1).
pub fn without_bodies(awaited: &[Awaited], faults: &mut Least)
    ensures { faults.new ≡ noted faults.old (without_bodies awaited.now) }
{
    for task in awaited {
        no_matching_body(task.at, faults);
    }
}

/// The numbers of a task's unit and of its type.
#[derive(Clone, Copy)]
pub struct Numbers {
    pub unit: usize,
    pub task_type: usize,
}

/// Those of the task whose body has this name. A body of no task that waits for one is checked as a task of its own.
#[inline(never)]
pub fn body_numbers(
    ident: &Ident,
    region: &mut Region,
    tables: &mut Tables,
    faults: &mut Least,
) -> Made<Numbers>
    ensures unit { IfOk result (λ numbers. numbers.unit ≡ body_unit
        (awaited_task ident.now.name region.old.awaited.items) (plain_tables tables.old)) }
    ensures task_type { IfOk result (λ numbers. numbers.task_type ≡ body_task
        (awaited_task ident.now.name region.old.awaited.items) (plain_tables tables.old)) }
    ensures region { OnOk result (plain_region region.new
        ≡ body_come ident.now.name (plain_region region.old)) }
    ensures tables { OnOk result (plain_tables tables.new ≡ body_tables
        (awaited_task ident.now.name region.old.awaited.items) (plain_tables tables.old)) }
    ensures noted { OnOk result (faults.new ≡ noted faults.old (matched_faults
        (awaited_task ident.now.name region.old.awaited.items) ident.now.at)) }
{
    match region.body_comes(&ident.name) {
        Some(found) => Ok(Numbers {
            unit: found.unit,
            task_type: found.task_type,
        }),
        None => {
            no_matching_body(ident.at, faults);
            let unit = tables.next_unit();
            let task_type = tables.next_task();
            let alloc = region.alloc;
            tables.keep_task(alloc, Vec::new(alloc))?;
            Ok(Numbers { unit, task_type })
        }
    }
}

/// The region around the body of a task of this name and type that is declared in this region: the task that runs it
/// has the name.
#[inline(never)]
pub fn running_within(name: &Name, task_type: usize, region: &Region) -> Made<Region>
    ensures region { IfOk result (λ around. plain_region around
        ≡ running name.now (region.now.level + 1) task_type) }
    ensures level { IfOk result (λ around. around.level ≡ region.now.level + 1) }
{
    let level = region.level.checked_add(1).ok_or(AllocError)?;
    Region::running(region.alloc, name, level, task_type)
}

// Whether a statement creates a task: an array without elements is none.
#[tactic(auto, using(aud_typed::proofs::Opened::if_open, aud_typed::proofs::Opened::block_open))]
fn creates(statement: &Statement) -> bool
    ensures { result ≡ creates (plain_statement statement.now) }
{
    match statement {
        Statement::DeclareTasks(_, tasks) => tasks.length != 0,
        _ => false,
    }
}

// Whether one of these does.
fn create_tasks(elaborations: &[Statement]) -> bool
    ensures { result ≡ create_tasks (plain_typed_statements elaborations.now) }
{
    elaborations.iter().any(|statement| creates(statement))
}

/// Adds to the elaborations before the `begin` of a task's body that its own activation has ended (RM 9.2(5)), and answers
/// whether tasks that they have created are activated there (RM 9.2(3)).
pub fn with_activation(of_task: bool, begin: Pos, elaborations: &mut Vec<Statement>) -> Made<bool>
    ensures { IfOk result (λ activates. plain_typed_statements elaborations.new.items
        ++ activation activates begin
        ≡ with_activation of_task begin (plain_typed_statements elaborations.old.items)) }
{
    let activates = create_tasks(&*elaborations);
    if of_task {
        add_last(elaborations, Statement::Activated(begin))?;
    }
    Ok(activates)
}
