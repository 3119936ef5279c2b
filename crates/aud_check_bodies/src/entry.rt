// Entries of tasks.

ghost use Rattle.std.specs.Prelude.{◌≡◌, ◌++◌, map, IfOk, OnOk};
ghost use Rattle.aud_syntax.specs.Ties.View.{plain_entry, plain_definition};
ghost use Rattle.aud_fault.specs.Least.{noted};
ghost use Rattle.aud_names.specs.Names.{is_declared};
ghost use Rattle.aud_names.specs.Ties.Regions.{plain_region, plain_regions, plain_place};
ghost use Rattle.aud_typing.specs.Ties.Typing.{Leaves};
ghost use Rattle.aud_check_bodies.specs.Entries.{entry_formals, entry_added, one_entry, declared_entries, entry_faults, entries_faults, entries_of, entry_numbers, naming, no_entries};
ghost use Rattle.aud_check_bodies.specs.Ties.Entries.{plain_entries, plain_formals};
ghost use Rattle.aud_check_bodies.specs.Ties.Tables.{plain_tables};
ghost use Rattle.aud_names.specs.Names.{body_frame};

use crate::formal::formals;
use crate::tables::Tables;
use aud_fault::fault::Least;
use aud_names::behind::{Made, both};
use aud_names::entries::EntryName;
use aud_names::names::{NamedParameter, Region, frame_within};
use aud_names::rules::declared_once;
use aud_syntax::tree::{EntryDeclaration, TaskDefinition};
use aud_text::name::Name;
use std::alloc::Global;

/// What the entries of a task have declared so far: the region in which they are with the declarations of its body, and what
/// is found behind the task's name.
#[derive(Drop)]
pub struct Entries {
    pub own: Region,
    pub names: Vec<EntryName>,
}

// The formals of an entry (RM 9.5.2): notes their faults, and answers what calls and accepts see of them.
fn entry_formals(
    entry: &EntryDeclaration,
    own: &Region,
    outer: &[&Region],
    faults: &mut Least,
) -> Made<Vec<NamedParameter>>
    ensures { Leaves plain_formals result faults.old faults.new
        (entry_formals (plain_entry entry.now) (plain_region own.now)
        (plain_regions outer.now)).faults
        (entry_formals (plain_entry entry.now) (plain_region own.now)
        (plain_regions outer.now)).profile }
{
    let (regions, mut region) = frame_within(own, outer)?;
    formals(&entry.formals, &regions, &mut region, faults)
}

// Adds an entry of a type of tasks, which the task has not yet.
fn add_entry(
    task_type: usize,
    name: &Name,
    profile: Vec<NamedParameter>,
    entries: &mut Entries,
    tables: &mut Tables,
) -> Made<()>
    ensures { OnOk result (plain_entries entries.new tables.new
        ≡ entry_added task_type name.now profile.items (plain_entries entries.old tables.old)) }
{
    let alloc = entries.own.alloc;
    let number = tables.next_entry();
    entries.own.add_entry(name, number)?;
    let found = name.try_clone(alloc)?;
    entries.names.push(EntryName {
        task_type,
        name: found,
        number,
    })?;
    let listed = name.try_clone(alloc)?;
    tables.keep_entry(listed, profile)
}

// Declares one entry more.
#[tactic(auto, using(aud_typing::proofs::Notes::noted_append))]
fn declare_entry(
    task_type: usize,
    entry: &EntryDeclaration,
    outer: &[&Region],
    entries: &mut Entries,
    tables: &mut Tables,
    faults: &mut Least,
) -> Made<()>
    ensures declared { OnOk result (plain_entries entries.new tables.new
        ≡ one_entry task_type (plain_entry entry.now) (plain_regions outer.now)
        (plain_entries entries.old tables.old)) }
    ensures noted { OnOk result (faults.new ≡ noted faults.old
        (entry_faults (plain_entry entry.now) (plain_region entries.old.own)
        (plain_regions outer.now))) }
{
    let once = declared_once(&entry.name, &entries.own.symbols, faults);
    let profile = entry_formals(entry, &entries.own, &*outer, faults)?;
    if once {
        return add_entry(task_type, &entry.name.name, profile, entries, tables);
    }
    drop(profile);
    Ok(())
}

// Declares entries one after the other.
fn declare_entries(
    task_type: usize,
    list: &[EntryDeclaration],
    outer: &[&Region],
    entries: &mut Entries,
    tables: &mut Tables,
    faults: &mut Least,
) -> Made<()>
    ensures declared { OnOk result (plain_entries entries.new tables.new
        ≡ declared_entries task_type (map plain_entry list.now) (plain_regions outer.now)
        (plain_entries entries.old tables.old)) }
    ensures noted { OnOk result (faults.new ≡ noted faults.old
        (entries_faults task_type (map plain_entry list.now) (plain_regions outer.now)
        (plain_entries entries.old tables.old))) }
{
    for next in list {
        declare_entry(task_type, next, outer, entries, tables, faults)?;
    }
    Ok(())
}

/// Declares the entries of a task that is declared in this region, which lies in those (RM 9.1): notes their faults, adds them
/// to the tables, and answers what is found behind the task's name.
pub fn entries_of(
    task_type: usize,
    definition: &Option<TaskDefinition>,
    region: &Region,
    outer: &[&Region],
    tables: &mut Tables,
    faults: &mut Least,
) -> Made<Vec<EntryName>>
    ensures names { IfOk result (λ names. names.items ≡ (declared_entries task_type
        (entries_of (plain_definition definition.now)) (plain_place region.now outer.now).regions
        (no_entries (body_frame (plain_place region.now outer.now))
        (plain_tables tables.old))).names) }
    ensures tables { OnOk result (plain_tables tables.new ≡ (declared_entries task_type
        (entries_of (plain_definition definition.now)) (plain_place region.now outer.now).regions
        (no_entries (body_frame (plain_place region.now outer.now))
        (plain_tables tables.old))).tables) }
    ensures noted { OnOk result (faults.new ≡ noted faults.old (entries_faults task_type
        (entries_of (plain_definition definition.now)) (plain_place region.now outer.now).regions
        (no_entries (body_frame (plain_place region.now outer.now)) (plain_tables tables.old)))) }
{
    let (regions, own) = frame_within(region, outer)?;
    let names = Vec::new(region.alloc);
    let mut entries = Entries { own, names };
    if let Some(definition) = definition {
        let list = &definition.entries;
        declare_entries(task_type, list, &regions, &mut entries, tables, faults)?;
    }
    let Entries { own, names } = entries;
    drop(own);
    Ok(names)
}

// The numbers of entries.
fn numbers_of(names: &[EntryName], alloc: Global) -> Made<Vec<usize>>
    ensures { IfOk result (λ numbers. numbers.items ≡ entry_numbers names.now) }
{
    let mut numbers = Vec::with_capacity(alloc, names.len())?;
    for entry in names {
        numbers.push(entry.number)?;
    }
    Ok(numbers)
}

/// Adds what is found behind a task's name to the region that declares it: the numbers of the entries.
pub fn name_entries(names: Vec<EntryName>, region: &mut Region) -> Made<Vec<usize>>
    ensures numbers { IfOk result (λ numbers. numbers.items ≡ entry_numbers names.items) }
    ensures region { OnOk result (plain_region region.new
        ≡ naming names.items (plain_region region.old)) }
{
    let numbers = numbers_of(&names, region.alloc);
    let (mut names, numbers) = both(names, numbers)?;
    let appended = region.entries.append(&mut names);
    drop(names);
    let (numbers, ()) = both(numbers, appended)?;
    Ok(numbers)
}
