// Protected objects: where what they declare is visible.

ghost use Rattle.std.specs.Prelude.{◌≡◌, ◌+◌, ◌++◌, IfOk, OnOk};
ghost use Rattle.aud_names.specs.Names.{innermost};
ghost use Rattle.aud_names.specs.Objects.{own_instance, part_meaning, part_cells, with_part, with_parts, object_frame, object_region, around_object, one_barred, barrier_place, awaits, awaited_parts};
ghost use Rattle.aud_names.specs.Ties.Regions.{plain_region, plain_place};

use crate::awaited::AwaitedPart;
use crate::behind::Made;
use crate::names::{
    Access, Entry, Instance, Meaning, Object, Operation, Owner, Region, insert, is_in_function,
};
use crate::parts::{ObjectPart, PartKind};
use aud_text::name::Name;
use aud_text::place::Pos;
use aud_typed::program::Variable;
use std::alloc::{AllocError, Global};

/// An object that is named by itself, whose frame is at a level.
pub fn own_instance(level: usize, object: usize, access: Access) -> Instance
    ensures { result ≡ own_instance level object access }
{
    Instance {
        variable: Variable { level, index: 0 },
        object,
        access,
    }
}

/// The object of this number in its body, which is declared in a region.
pub fn body_instance(object: usize, access: Access, region: &Region) -> Made<Instance>
    ensures { IfOk result (λ instance. instance
        ≡ own_instance (region.now.level + 1) object access) }
{
    let level = region.level.checked_add(1).ok_or(AllocError)?;
    Ok(own_instance(level, object, access))
}

fn part_meaning(kind: PartKind, instance: Instance, cell: Variable) -> Meaning
    ensures { result ≡ part_meaning kind instance cell }
{
    match kind {
        PartKind::Entry(number, _) => Meaning::Entry(Entry {
            number,
            owner: Owner::Object(instance),
        }),
        PartKind::Operation(unit, subprogram) => Meaning::Operation(Operation {
            unit,
            subprogram,
            instance,
        }),
        PartKind::Component(subtype) => Meaning::Object(Object {
            variable: cell,
            subtype,
            constant: false,
            locked: is_in_function(instance.access),
        }),
    }
}

fn part_cells(kind: PartKind) -> usize
    ensures { result ≡ part_cells kind }
{
    match kind {
        PartKind::Component(_) => 1,
        PartKind::Entry(_, _) | PartKind::Operation(_, _) => 0,
    }
}

/// Declares a part of an object in the object's region; a name that this has already stays what it was.
pub fn add_part(name: &Name, kind: PartKind, instance: Instance, region: &mut Region) -> Made<()>
    ensures { OnOk result (plain_region region.new
        ≡ with_part name.now kind instance (plain_region region.old)) }
{
    if region.symbols.contains_key(name) {
        return Ok(());
    }
    let cells = region
        .cells
        .checked_add(part_cells(kind))
        .ok_or(AllocError)?;
    let names = region
        .names
        .checked_add(part_cells(kind))
        .ok_or(AllocError)?;
    let cell = Variable {
        level: region.level,
        index: region.cells,
    };
    let name = name.try_clone(region.alloc)?;
    let meaning = part_meaning(kind, instance, cell);
    insert(&mut region.symbols, name, meaning)?;
    region.cells = cells;
    region.names = names;
    Ok(())
}

// Declares those of these parts that are of an object.
fn add_parts(parts: &[ObjectPart], instance: Instance, region: &mut Region) -> Made<()>
    ensures { OnOk result (plain_region region.new
        ≡ with_parts instance parts.now (plain_region region.old)) }
{
    for part in parts {
        if instance.object == part.object {
            add_part(&part.name, part.part.kind, instance, region)?;
        }
    }
    Ok(())
}

/// The frame of an object that is declared in a region, with the object's own number (RM 9.4).
pub fn object_frame(around: &Region, outer: &[&Region]) -> Made<Region>
    ensures region { IfOk result (λ region. plain_region region
        ≡ object_frame (plain_place around.now outer.now)) }
    ensures level { IfOk result (λ region. region.level ≡ around.now.level + 1) }
{
    let level = around.level.checked_add(1).ok_or(AllocError)?;
    let mut region = Region::new(around.alloc, level);
    region.cells = 1;
    region.names = 1;
    Ok(region)
}

/// The region of an object in its body, which is declared in a region.
pub fn object_region(instance: Instance, around: &Region, outer: &[&Region]) -> Made<Region>
    ensures { IfOk result (λ region. plain_region region
        ≡ object_region instance (plain_place around.now outer.now)) }
{
    let mut region = object_frame(around, outer)?;
    add_parts(&around.parts, instance, &mut region)?;
    Ok(region)
}

/// The region around the body of an object, in which its name is the object itself.
pub fn around_object(
    name: &Name,
    instance: Instance,
    around: &Region,
    outer: &[&Region],
) -> Made<Region>
    ensures { IfOk result (λ region. plain_region region
        ≡ around_object name.now instance (plain_place around.now outer.now)) }
{
    let level = around.level.checked_add(1).ok_or(AllocError)?;
    let mut region = Region::new(around.alloc, level);
    let name = name.try_clone(around.alloc)?;
    insert(&mut region.symbols, name, Meaning::Protected(instance))?;
    Ok(region)
}

// A formal that may not be named.
fn add_barred(name: &Name, region: &mut Region) -> Made<()>
    ensures { OnOk result (plain_region region.new
        ≡ one_barred name.now (plain_region region.old)) }
{
    if region.symbols.contains_key(name) {
        return Ok(());
    }
    let name = name.try_clone(region.alloc)?;
    insert(&mut region.symbols, name, Meaning::Barred)?;
    Ok(())
}

/// The region of the barrier of an entry with these formals, in its object's region (RM 9.5.2(18)).
pub fn barrier_region(formals: &Region, object: &Region, outer: &[&Region]) -> Made<Region>
    ensures { IfOk result (λ region. plain_region region ≡ innermost (barrier_place
        (plain_region formals.now) (plain_place object.now outer.now))) }
{
    let mut region = Region::new(object.alloc, object.level);
    for (name, _) in &formals.symbols {
        add_barred(name, &mut region)?;
    }
    Ok(region)
}

// Adds an operation or entry to those that wait.
fn await_part(kind: PartKind, at: Pos, awaited: &mut Vec<AwaitedPart>) -> Made<()>
    ensures { OnOk result (awaited.new.items ≡ awaited.old.items ++ awaits kind at) }
{
    match kind {
        PartKind::Entry(_, unit) | PartKind::Operation(unit, _) => {
            awaited.push(AwaitedPart { unit, at })?;
        }
        PartKind::Component(_) => {}
    }
    Ok(())
}

/// The operations and entries of an object, which wait for their bodies.
pub fn awaited_parts(alloc: Global, parts: &[ObjectPart], object: usize) -> Made<Vec<AwaitedPart>>
    ensures { IfOk result (λ awaited. awaited.items ≡ awaited_parts object parts.now) }
{
    let mut awaited = Vec::new(alloc);
    for part in parts {
        if object == part.object {
            await_part(part.part.kind, part.at, &mut awaited)?;
        }
    }
    Ok(awaited)
}
