// The bodies of a protected object's operations and entries: what is checked before their declarations.

ghost use Rattle.std.specs.Prelude.{◌≡◌, ◌++◌, ◌∷◌, List, map, is_some, if◌then◌else◌, IfOk, OnOk};
ghost use Rattle.aud_syntax.specs.Ties.View.{plain_formal};
ghost use Rattle.aud_fault.specs.Least.{noted};
ghost use Rattle.aud_names.specs.declared.names.Access.TheVariants as access;
ghost use Rattle.aud_names.specs.declared.names.NamedParameter.{NamedParameter};
ghost use Rattle.aud_names.specs.Objects.{part_in, object_place, first_with, is_unit};
ghost use Rattle.aud_names.specs.Ties.Regions.{plain_region, plain_regions, plain_place};
ghost use Rattle.aud_typing.specs.Ties.Typing.{Leaves as Shown};
ghost use Rattle.aud_check_bodies.specs.Operations.{is_function_head, head_result, result_faults, head_leaves, shape_of, shape_faults, same_kind, part_unit, if_awaited, still_awaited, part_profile, same_result, operation_matched, operation_unit, operation_kept, barrier_faults, barrier_of, barrier_kept, operation_tables};
ghost use Rattle.aud_check_bodies.specs.Ties.Objects.{plain_head, plain_shape, plain_barrier, body_place};
ghost use Rattle.aud_check_bodies.specs.Statements.{in_entry};
ghost use Rattle.aud_check_bodies.specs.Ties.Tables.{plain_tables};
ghost use Rattle.aud_check_bodies.specs.Ties.Within.{plain_requeuing};

use crate::formal::{formals, result_mark};
use crate::tables::Tables;
use crate::within::{Leaves, Requeuing, regions_within};
use aud_fault::fault::Least;
use aud_names::awaited::{AwaitedPart, index_of_unit};
use aud_names::behind::{Made, both};
use aud_names::names::{
    Access, NamedParameter, Region, Scope, Subprogram, frame_within, task_within,
};
use aud_names::objects::{around_object, barrier_region, body_instance, object_region};
use aud_names::parts::{ObjectPart, Part, PartKind, part_in};
use aud_names::rules::{agree, conform, formals_conform, no_matching_body};
use aud_syntax::tree::{Formal, Ident, OperationKind};
use aud_text::name::Name;
use aud_text::place::Pos;
use aud_typed::program::{BooleanExpression, Subtype};
use aud_typing::condition::condition;
use std::alloc::Global;

/// Where the bodies of an object stand: in the object's region, and around that in one in which its name is the object itself.
#[derive(Drop)]
pub struct ObjectBody {
    pub own: Region,
    pub around: Region,
}

/// Where the bodies of the object of this name and number stand, which is declared in a region that lies within these; in a
/// function the object may not be changed.
#[inline(never)]
pub fn object_body(
    name: &Name,
    object: usize,
    access: Access,
    region: &Region,
    outer: &[&Region],
) -> Made<ObjectBody>
    ensures { IfOk result (λ body. body_place body region.now outer.now
        ≡ object_place name.now object access (plain_place region.now outer.now)) }
{
    let instance = body_instance(object, access, region)?;
    let around = around_object(name, instance, region, outer)?;
    let own = object_region(instance, region, outer)?;
    Ok(ObjectBody { own, around })
}

/// The same of its procedures and entries, and of its functions.
#[inline(never)]
pub fn object_bodies(
    name: &Name,
    object: usize,
    region: &Region,
    outer: &[&Region],
) -> Made<(ObjectBody, ObjectBody)>
    ensures inside { IfOk result (λ bodies. body_place bodies.0 region.now outer.now
        ≡ object_place name.now object access.Inside (plain_place region.now outer.now)) }
    ensures in_function { IfOk result (λ bodies. body_place bodies.1 region.now outer.now
        ≡ object_place name.now object access.InFunction (plain_place region.now outer.now)) }
{
    let inside = object_body(name, object, Access::Inside, region, outer)?;
    let in_function = object_body(name, object, Access::InFunction, region, outer);
    both(inside, in_function)
}

/// The regions around both, in the region that declares the object and lies within these.
#[inline(never)]
pub fn around_bodies<'a>(
    inside: &'a ObjectBody,
    in_function: &'a ObjectBody,
    region: &'a Region,
    outer: &'a [&'a Region],
) -> Made<(Vec<&'a Region>, Vec<&'a Region>)>
    ensures inside { IfOk result (λ regions. plain_regions regions.0.items
        ≡ plain_region inside.now.around ∷ (plain_place region.now outer.now).regions) }
    ensures in_function { IfOk result (λ regions. plain_regions regions.1.items
        ≡ plain_region in_function.now.around ∷ (plain_place region.now outer.now).regions) }
{
    let around = task_within(&inside.around, region, outer)?;
    let around_function = task_within(&in_function.around, region, outer);
    both(around, around_function)
}

/// Whether it is a function's.
pub fn is_function(kind: &OperationKind) -> bool
    ensures { result ≡ is_function_head (plain_head kind.now) }
{
    match kind {
        OperationKind::Function(_) => true,
        OperationKind::Entry(_) | OperationKind::Procedure => false,
    }
}

/// Where a body stands, if those of functions stand elsewhere than the others.
pub fn place_of<'a>(
    kind: &OperationKind,
    inside: (&'a Region, &'a [&'a Region]),
    in_function: (&'a Region, &'a [&'a Region]),
) -> (&'a Region, &'a [&'a Region])
    ensures { plain_place result.0.now result.1.now ≡ if is_function_head (plain_head kind.now)
        then plain_place in_function.entry.0.now in_function.entry.1.now
        else plain_place inside.entry.0.now inside.entry.1.now }
{
    if is_function(kind) {
        in_function
    } else {
        inside
    }
}

// The subtype of a function's value.
fn head_result(
    kind: &OperationKind,
    formals: &Region,
    outer: &[&Region],
    faults: &mut Least,
) -> Option<Subtype>
    ensures subtype { result ≡ head_result (plain_head kind.now) (plain_region formals.now)
        (plain_regions outer.now) }
    ensures noted { faults.new ≡ noted faults.old (result_faults (plain_head kind.now)
        (plain_region formals.now) (plain_regions outer.now)) }
{
    match kind {
        OperationKind::Function(mark) => result_mark(mark, formals, outer, faults),
        OperationKind::Entry(_) | OperationKind::Procedure => None,
    }
}

/// What a return leaves in a body, whose value has this subtype, if it is a function's.
pub fn head_leaves(kind: &OperationKind, returned: Option<Subtype>) -> Leaves
    ensures { result ≡ head_leaves (plain_head kind.now) returned }
{
    match kind {
        OperationKind::Function(_) => Leaves::Function(returned),
        OperationKind::Entry(_) | OperationKind::Procedure => Leaves::Procedure,
    }
}

/// Which call a requeue makes again in a body of an object of this number (RM 9.5.4).
pub fn in_entry(kind: &OperationKind, number: usize) -> Requeuing
    ensures { (profile : List NamedParameter) →
        plain_requeuing result profile ≡ in_entry (plain_head kind.now) profile number }
{
    match kind {
        OperationKind::Entry(_) => Requeuing::Entry(number),
        OperationKind::Procedure | OperationKind::Function(_) => Requeuing::Nowhere,
    }
}

/// What is known of a body before its declarations: the region of its formals, these, and the subtype of its value.
#[derive(Drop)]
pub struct Shape {
    pub region: Region,
    pub profile: Vec<NamedParameter>,
    pub returned: Option<Subtype>,
}

/// The formals of a body in an object's region, which lies within those, and the subtype of its value: notes their faults.
#[tactic(auto, using(aud_typing::proofs::Notes::noted_append))]
#[inline(never)]
pub fn body_shape(
    kind: &OperationKind,
    list: &[Formal],
    own: &Region,
    outer: &[&Region],
    faults: &mut Least,
) -> Made<Shape>
    ensures { Shown plain_shape result faults.old faults.new
        (shape_faults (plain_head kind.now) (map plain_formal list.now)
        (plain_place own.now outer.now))
        (shape_of (plain_head kind.now) (map plain_formal list.now)
        (plain_place own.now outer.now)) }
{
    let (regions, mut region) = frame_within(own, outer)?;
    let profile = formals(list, &regions, &mut region, faults)?;
    let returned = head_result(kind, &region, &regions, faults);
    Ok(Shape {
        region,
        profile,
        returned,
    })
}

// Whether a declaration is of a body's kind.
fn same_kind(kind: &OperationKind, part: PartKind) -> bool
    ensures { result ≡ same_kind (plain_head kind.now) part }
{
    match (kind, part) {
        (OperationKind::Entry(_), PartKind::Entry(_, _))
        | (OperationKind::Procedure, PartKind::Operation(_, Subprogram::Procedure))
        | (OperationKind::Function(_), PartKind::Operation(_, Subprogram::Function(_))) => true,
        _ => false,
    }
}

fn part_unit(part: PartKind) -> usize
    ensures { result ≡ part_unit part }
{
    match part {
        PartKind::Entry(_, unit) | PartKind::Operation(unit, _) => unit,
        PartKind::Component(_) => 0,
    }
}

// Whether the operation or entry of a unit waits for its body.
fn is_waiting(unit: usize, awaited: &[AwaitedPart]) -> bool
    ensures { result ≡ is_some (first_with (is_unit unit) awaited.now) }
{
    index_of_unit(awaited, unit).is_some()
}

// What is declared by the name of a body, where that is of its kind and waits for it.
fn if_awaited(
    kind: &OperationKind,
    awaited: &[AwaitedPart],
    found: Option<Part>,
) -> Option<PartKind>
    ensures { result ≡ if_awaited (plain_head kind.now) awaited.now found }
{
    match found {
        None => None,
        Some(part) => {
            let unit = part_unit(part.kind);
            if same_kind(kind, part.kind) && is_waiting(unit, awaited) {
                Some(part.kind)
            } else {
                None
            }
        }
    }
}

// It waits no more.
fn comes(found: Option<PartKind>, awaited: &mut Vec<AwaitedPart>)
    ensures { awaited.new.items ≡ still_awaited found awaited.old.items }
{
    let Some(part) = found else {
        return;
    };
    if let Some(index) = index_of_unit(awaited, part_unit(part)) {
        awaited.remove(index);
    }
}

// What calls see of an operation or entry.
fn part_profile(part: PartKind, tables: &Tables) -> &[NamedParameter]
    ensures { result.now ≡ part_profile part (plain_tables tables.now) }
{
    match part {
        PartKind::Entry(number, _) => tables.entry_profile(number),
        PartKind::Operation(unit, _) => tables.profile(unit),
        PartKind::Component(_) => &[],
    }
}

fn same_result(part: PartKind, returned: Option<Subtype>) -> bool
    ensures { result ≡ same_result part returned }
{
    match part {
        PartKind::Operation(_, Subprogram::Function(subtype)) => agree(subtype, returned),
        _ => true,
    }
}

// Notes where a body has no declaration, or does not conform to it (RM 3.11.1, 6.3.1).
fn check_matched(
    found: Option<PartKind>,
    at: Pos,
    shape: &Shape,
    tables: &Tables,
    faults: &mut Least,
)
    ensures { faults.new ≡ noted faults.old (operation_matched found at
        shape.now.profile.items shape.now.returned (plain_tables tables.now)) }
{
    match found {
        None => no_matching_body(at, faults),
        Some(part) => {
            let declared = part_profile(part, tables);
            let good = conform(declared, &shape.profile) && same_result(part, shape.returned);
            formals_conform(good, at, faults);
        }
    }
}

// The barrier of an entry with these formals (RM 9.5.2(7)).
fn barrier(
    kind: &OperationKind,
    formals: &Region,
    own: &Region,
    outer: &[&Region],
    faults: &mut Least,
) -> Made<Option<BooleanExpression>>
    ensures { Shown plain_barrier result faults.old faults.new
        (barrier_faults (plain_head kind.now) (plain_region formals.now)
        (plain_place own.now outer.now))
        (barrier_of (plain_head kind.now) (plain_region formals.now)
        (plain_place own.now outer.now)) }
{
    let OperationKind::Entry(e) = kind else {
        return Ok(None);
    };
    let region = barrier_region(formals, own, outer)?;
    let regions = regions_within(own, outer)?;
    let scope = Scope::new(&region, &regions);
    let typed = condition(e, &scope, faults);
    drop(scope);
    Ok(Some(Box::into_inner(typed?)))
}

// Puts it into the tables, where it is that of an entry which waits for its body.
fn keep_barrier(found: Option<PartKind>, barrier: Option<BooleanExpression>, tables: &mut Tables)
    ensures { plain_tables tables.new
        ≡ barrier_kept found (plain_barrier barrier) (plain_tables tables.old) }
{
    match (found, barrier) {
        (Some(PartKind::Entry(number, _)), Some(barrier)) => {
            tables.put_barrier(number, barrier);
        }
        (_, barrier) => drop(barrier),
    }
}

// The unit of a body. Another one is checked as that of an operation of its own.
fn unit_number(found: Option<PartKind>, alloc: Global, tables: &mut Tables) -> Made<usize>
    ensures unit { IfOk result (λ unit. unit ≡ operation_unit found (plain_tables tables.old)) }
    ensures tables { OnOk result (plain_tables tables.new
        ≡ operation_kept found (plain_tables tables.old)) }
{
    match found {
        None => {
            let unit = tables.next_unit();
            tables.keep_unit(alloc, Vec::new(alloc))?;
            Ok(unit)
        }
        Some(part) => Ok(part_unit(part)),
    }
}

/// What declares the bodies of an object: its number, and what it declares.
#[derive(Clone, Copy)]
pub struct DeclaredParts<'s> {
    pub object: usize,
    pub parts: &'s [ObjectPart],
}

/// The unit of a body of this shape in an object's region: notes where it has no declaration, or does not conform to that, and
/// the faults of a barrier, which is put into the tables.
#[tactic(auto, using(aud_typing::proofs::Notes::noted_append))]
#[inline(never)]
pub fn matched(
    kind: &OperationKind,
    ident: &Ident,
    shape: &Shape,
    declared: DeclaredParts<'_>,
    own: &Region,
    outer: &[&Region],
    awaited: &mut Vec<AwaitedPart>,
    tables: &mut Tables,
    faults: &mut Least,
) -> Made<usize>
    ensures unit { IfOk result (λ unit. unit ≡ operation_unit
        (if_awaited (plain_head kind.now) awaited.old.items (part_in ident.now.name
        declared.entry.object declared.entry.parts.now)) (plain_tables tables.old)) }
    ensures tables { OnOk result (plain_tables tables.new ≡ operation_tables
        (plain_head kind.now) (if_awaited (plain_head kind.now) awaited.old.items
        (part_in ident.now.name declared.entry.object declared.entry.parts.now))
        (plain_region shape.now.region) (plain_place own.now outer.now)
        (plain_tables tables.old)) }
    ensures awaited { OnOk result (awaited.new.items ≡ still_awaited
        (if_awaited (plain_head kind.now) awaited.old.items (part_in ident.now.name
        declared.entry.object declared.entry.parts.now)) awaited.old.items) }
    ensures noted { OnOk result (faults.new ≡ noted faults.old (operation_matched
        (if_awaited (plain_head kind.now) awaited.old.items (part_in ident.now.name
        declared.entry.object declared.entry.parts.now)) ident.now.at
        shape.now.profile.items shape.now.returned (plain_tables tables.old)
        ++ barrier_faults (plain_head kind.now) (plain_region shape.now.region)
        (plain_place own.now outer.now))) }
{
    let part = part_in(declared.parts, declared.object, &ident.name);
    let found = if_awaited(kind, &*awaited, part);
    check_matched(found, ident.at, shape, &*tables, faults);
    let barrier = barrier(kind, &shape.region, own, outer, faults)?;
    let (barrier, unit) = both(barrier, unit_number(found, own.alloc, tables))?;
    keep_barrier(found, barrier, tables);
    comes(found, awaited);
    Ok(unit)
}
