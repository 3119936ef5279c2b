// Declarations of protected objects, and what they declare.

ghost use Rattle.std.specs.Prelude.{◌≡◌, ◌++◌, ◌∷◌, [], false, not, map, IfOk, OnOk};
ghost use Rattle.aud_syntax.specs.Ties.View.{plain_formal, plain_entry, plain_operation, plain_private_item, plain_private};
ghost use Rattle.aud_typed.specs.Tree.{declare_object};
ghost use Rattle.aud_typed.specs.Ties.View.{plain_values, plain_statements as plain_typed_statements};
ghost use Rattle.aud_fault.specs.Least.{noted};
ghost use Rattle.aud_names.specs.declared.names.Access.TheVariants as access;
ghost use Rattle.aud_names.specs.Names.{is_declared};
ghost use Rattle.aud_names.specs.Objects.{own_instance, with_part, awaited_object, object_come};
ghost use Rattle.aud_names.specs.Rules.{declared_once};
ghost use Rattle.aud_names.specs.Ties.Regions.{plain_region, plain_regions, plain_place, names_in};
ghost use Rattle.aud_typing.specs.Ties.Typing.{Leaves};
ghost use Rattle.aud_check_bodies.specs.Declarations.{subtype_meant, initial_faults, initial_value};
ghost use Rattle.aud_check_bodies.specs.Objects.{object_part, with_object_parts, operation_formals, signature_faults, signature as plain_signature_of, function_signature, head_faults, function_faults, with_entry, with_procedure, with_function, one_operation, operation_faults, declared_operations, operations_faults, with_all_parts, parts_twice, component_meant, component_values_faults, component_values, component_parts, declared_components, components_faults, one_item, item_faults, declared_items, items_faults, hidden_items, with_object, parts_declared, parts_faults, checked_protected, without_object_bodies, without_part_bodies, object_matched, body_object, object_tables};
ghost use Rattle.aud_check_bodies.specs.Tables.{next_object};
ghost use Rattle.aud_check_bodies.specs.Ties.DeclarativePart.{Declares, plain_initial};
ghost use Rattle.aud_check_bodies.specs.Ties.Entries.{plain_formals};
ghost use Rattle.aud_check_bodies.specs.Ties.Objects.{plain_parts, plain_signature, plain_components};
ghost use Rattle.aud_check_bodies.specs.Ties.Tables.{plain_tables};

use crate::declaration::{DeclarativePart, add_symbol, initial_value, subtype_mark};
use crate::formal::{formals, result_mark};
use crate::tables::{Tables, names_of};
use crate::within::regions_within;
use aud_fault::fault::Least;
use aud_names::array::Kind;
use aud_names::awaited::{AwaitedObject, AwaitedPart};
use aud_names::behind::{Made, add_last, both};
use aud_names::names::{Access, Instance, NamedParameter, Region, Scope, Subprogram, frame_within};
use aud_names::objects::{add_part, around_object, body_instance, object_frame, own_instance};
use aud_names::parts::{ObjectPart, Part, PartKind};
use aud_names::rules::{declared_once, no_matching_body, right_name_at_end};
use aud_syntax::tree::{
    EntryDeclaration, Expression, Formal, Ident, Identifiers, Operation, PrivateItem,
    ProtectedDeclaration,
};
use aud_text::place::Pos;
use aud_typed::program::{Statement, Subtype, ValueExpression};

/// What an object has declared so far: its own region, the initial values of its components, and the numbers of its entries.
#[derive(Drop)]
pub struct ObjectParts {
    pub own: Region,
    pub values: Vec<ValueExpression>,
    pub entries: Vec<usize>,
}

/// Of which object something is a part, and whether it stands behind `private`.
#[derive(Clone, Copy)]
struct Of {
    object: usize,
    is_private: bool,
}

// Within its declaration an object is named by itself from outside its body.
fn declared_instance(object: usize, own: &Region) -> Instance
    ensures { result ≡ own_instance own.now.level object access.Outside }
{
    own_instance(own.level, object, Access::Outside)
}

// Adds what is found behind an object's name to the region that declares it.
fn add_object_part(of: Of, ident: &Ident, kind: PartKind, around: &mut Region) -> Made<()>
    ensures { OnOk result (plain_region around.new ≡ with_object_parts
        (object_part of.object of.is_private ident.now kind ∷ []) (plain_region around.old)) }
{
    let name = ident.name.try_clone(around.alloc)?;
    let part = Part {
        is_private: of.is_private,
        kind,
    };
    let declared = ObjectPart {
        object: of.object,
        name,
        at: ident.at,
        part,
    };
    add_last(&mut around.parts, declared)
}

// Declares an operation or entry.
fn add_operation(
    of: Of,
    ident: &Ident,
    kind: PartKind,
    own: &mut Region,
    around: &mut Region,
) -> Made<()>
    ensures own { OnOk result (plain_region own.new ≡ with_part ident.now.name kind
        (own_instance own.old.level of.object access.Outside) (plain_region own.old)) }
    ensures around { OnOk result (plain_region around.new ≡ with_object_parts
        (object_part of.object of.is_private ident.now kind ∷ []) (plain_region around.old)) }
{
    let instance = declared_instance(of.object, &*own);
    add_part(&ident.name, kind, instance, own)?;
    add_object_part(of, ident, kind, around)
}

// The formals of an operation, in a region of their own within that of its object: notes their faults, and answers what calls
// see of them.
fn operation_profile(
    list: &[Formal],
    own: &Region,
    around: &Region,
    outer: &[&Region],
    faults: &mut Least,
) -> Made<Vec<NamedParameter>>
    ensures { Leaves plain_formals result faults.old faults.new
        (operation_formals (map plain_formal list.now) (plain_region own.now)
        (plain_region around.now ∷ plain_regions outer.now)).faults
        (operation_formals (map plain_formal list.now) (plain_region own.now)
        (plain_region around.now ∷ plain_regions outer.now)).profile }
{
    let rest = regions_within(around, outer)?;
    let (regions, mut region) = frame_within(own, &rest)?;
    formals(list, &regions, &mut region, faults)
}

// The same of an operation whose name is declared too.
#[tactic(auto, using(aud_typing::proofs::Notes::noted_append))]
fn head(
    ident: &Ident,
    list: &[Formal],
    own: &Region,
    around: &Region,
    outer: &[&Region],
    faults: &mut Least,
) -> Made<Vec<NamedParameter>>
    ensures { Leaves plain_formals result faults.old faults.new
        (head_faults ident.now (map plain_formal list.now) (plain_region own.now)
        (plain_region around.now ∷ plain_regions outer.now))
        (operation_formals (map plain_formal list.now) (plain_region own.now)
        (plain_region around.now ∷ plain_regions outer.now)).profile }
{
    declared_once(ident, &own.symbols, faults);
    operation_profile(list, own, around, outer, faults)
}

// The formals of a function, and the subtype of its value.
fn signature(
    list: &[Formal],
    mark: &Ident,
    outer: &[&Region],
    region: Region,
    faults: &mut Least,
) -> Made<(Vec<NamedParameter>, Option<Subtype>)>
    ensures { Leaves plain_signature result faults.old faults.new
        (signature_faults (map plain_formal list.now) mark.now (plain_region region)
        (plain_regions outer.now))
        (plain_signature_of (map plain_formal list.now) mark.now (plain_region region)
        (plain_regions outer.now)) }
{
    let mut region = region;
    let profile = formals(list, outer, &mut region, faults)?;
    let result = result_mark(mark, &region, outer, faults);
    Ok((profile, result))
}

// The same of a function whose name is declared too.
#[tactic(auto, using(aud_typing::proofs::Notes::noted_append))]
fn function_head(
    head: (&Ident, &[Formal], &Ident),
    own: &Region,
    around: &Region,
    outer: &[&Region],
    faults: &mut Least,
) -> Made<(Vec<NamedParameter>, Option<Subtype>)>
    ensures { Leaves plain_signature result faults.old faults.new
        (function_faults head.entry.0.now (map plain_formal head.entry.1.now) head.entry.2.now
        (plain_region own.now) (plain_region around.now ∷ plain_regions outer.now))
        (function_signature (map plain_formal head.entry.1.now) head.entry.2.now
        (plain_region own.now) (plain_region around.now ∷ plain_regions outer.now)) }
{
    let (ident, list, mark) = head;
    declared_once(ident, &own.symbols, faults);
    let rest = regions_within(around, outer)?;
    let (regions, region) = frame_within(own, &rest)?;
    signature(list, mark, &regions, region, faults)
}

// Declares an entry (RM 9.5.2).
fn declare_entry(
    of: Of,
    entry: &EntryDeclaration,
    outer: &[&Region],
    parts: &mut ObjectParts,
    around: &mut Region,
    tables: &mut Tables,
    faults: &mut Least,
) -> Made<()>
    ensures declared { OnOk result (plain_parts parts.new around.new tables.new
        ≡ with_entry of.object of.is_private entry.now.name (operation_formals (plain_entry entry.now).formals (plain_region parts.old.own)
        (plain_region around.old ∷ plain_regions outer.now)).profile
        (plain_parts parts.old around.old tables.old)) }
    ensures noted { OnOk result (faults.new ≡ noted faults.old (head_faults entry.now.name
        (plain_entry entry.now).formals (plain_region parts.old.own)
        (plain_region around.old ∷ plain_regions outer.now))) }
{
    let ident = &entry.name;
    let alloc = around.alloc;
    let profile = head(ident, &entry.formals, &parts.own, &*around, outer, faults)?;
    let number = tables.next_entry();
    let kind = PartKind::Entry(number, tables.next_unit());
    add_operation(of, ident, kind, &mut parts.own, around)?;
    parts.entries.push(number)?;
    let name = ident.name.try_clone(alloc)?;
    tables.keep_protected_entry(alloc, name, profile)
}

// Declares a procedure.
fn declare_procedure(
    of: Of,
    ident: &Ident,
    list: &[Formal],
    outer: &[&Region],
    parts: &mut ObjectParts,
    around: &mut Region,
    tables: &mut Tables,
    faults: &mut Least,
) -> Made<()>
    ensures declared { OnOk result (plain_parts parts.new around.new tables.new
        ≡ with_procedure of.object of.is_private ident.now (operation_formals (map plain_formal list.now) (plain_region parts.old.own)
        (plain_region around.old ∷ plain_regions outer.now)).profile
        (plain_parts parts.old around.old tables.old)) }
    ensures noted { OnOk result (faults.new ≡ noted faults.old (head_faults ident.now
        (map plain_formal list.now) (plain_region parts.old.own)
        (plain_region around.old ∷ plain_regions outer.now))) }
{
    let alloc = around.alloc;
    let profile = head(ident, list, &parts.own, &*around, outer, faults)?;
    let kind = PartKind::Operation(tables.next_unit(), Subprogram::Procedure);
    add_operation(of, ident, kind, &mut parts.own, around)?;
    tables.keep_unit(alloc, profile)
}

// Declares a function.
fn declare_function(
    of: Of,
    head: (&Ident, &[Formal], &Ident),
    outer: &[&Region],
    parts: &mut ObjectParts,
    around: &mut Region,
    tables: &mut Tables,
    faults: &mut Least,
) -> Made<()>
    ensures declared { OnOk result (plain_parts parts.new around.new tables.new
        ≡ with_function of.object of.is_private head.entry.0.now
        (function_signature (map plain_formal head.entry.1.now) head.entry.2.now
        (plain_region parts.old.own) (plain_region around.old ∷ plain_regions outer.now))
        (plain_parts parts.old around.old tables.old)) }
    ensures noted { OnOk result (faults.new ≡ noted faults.old (function_faults head.entry.0.now
        (map plain_formal head.entry.1.now) head.entry.2.now (plain_region parts.old.own)
        (plain_region around.old ∷ plain_regions outer.now))) }
{
    let alloc = around.alloc;
    let (profile, result) = function_head(head, &parts.own, &*around, outer, faults)?;
    let kind = PartKind::Operation(tables.next_unit(), Subprogram::Function(result));
    add_operation(of, head.0, kind, &mut parts.own, around)?;
    tables.keep_unit(alloc, profile)
}

// Declares an operation or entry (RM 9.4(5)).
fn declare_operation(
    of: Of,
    operation: &Operation,
    outer: &[&Region],
    parts: &mut ObjectParts,
    around: &mut Region,
    tables: &mut Tables,
    faults: &mut Least,
) -> Made<()>
    ensures declared { OnOk result (plain_parts parts.new around.new tables.new
        ≡ one_operation of.object of.is_private (plain_operation operation.now)
        (plain_regions outer.now) (plain_parts parts.old around.old tables.old)) }
    ensures noted { OnOk result (faults.new ≡ noted faults.old (operation_faults
        (plain_operation operation.now) (plain_regions outer.now)
        (plain_parts parts.old around.old tables.old))) }
{
    match operation {
        Operation::Entry(entry) => declare_entry(of, entry, outer, parts, around, tables, faults),
        Operation::Procedure(ident, list) => {
            declare_procedure(of, ident, list, outer, parts, around, tables, faults)
        }
        Operation::Function(ident, list, mark) => {
            let head = (ident, &**list, mark);
            declare_function(of, head, outer, parts, around, tables, faults)
        }
    }
}

// Declares the operations of an object that others see.
fn declare_operations(
    object: usize,
    list: &[Operation],
    outer: &[&Region],
    parts: &mut ObjectParts,
    around: &mut Region,
    tables: &mut Tables,
    faults: &mut Least,
) -> Made<()>
    ensures declared { OnOk result (plain_parts parts.new around.new tables.new
        ≡ declared_operations object (map plain_operation list.now) (plain_regions outer.now)
        (plain_parts parts.old around.old tables.old)) }
    ensures noted { OnOk result (faults.new ≡ noted faults.old (operations_faults object
        (map plain_operation list.now) (plain_regions outer.now)
        (plain_parts parts.old around.old tables.old))) }
{
    let of = Of {
        object,
        is_private: false,
    };
    for next in list {
        declare_operation(of, next, outer, parts, around, tables, faults)?;
    }
    Ok(())
}

// The initial values of components, one for each of the names. The faults of a value that is typed again are noted already.
fn initial_values(
    names: &Identifiers,
    initial: Option<&Expression>,
    subtype: Option<Subtype>,
    scope: &Scope<'_>,
    faults: &mut Least,
) -> Made<Vec<ValueExpression>>
    ensures noted { OnOk result (faults.new ≡ noted faults.old
        (initial_faults (plain_initial initial.entry) subtype scope.now)) }
    ensures values { IfOk result (λ values. plain_values values.items
        ≡ map (λ i. initial_value (plain_initial initial.entry) subtype scope.now)
        (names_in names.now)) }
{
    let first = initial_value(initial, subtype, scope, faults)?;
    let mut values = Vec::new(scope.alloc());
    add_last(&mut values, first)?;
    for _ in &names.others {
        let mut noted = Least::new();
        let next = initial_value(initial, subtype, scope, &mut noted)?;
        add_last(&mut values, next)?;
    }
    Ok(values)
}

// The subtype of components, where that is known, and their initial values.
#[tactic(auto, using(aud_typing::proofs::Notes::noted_append))]
fn values_of(
    names: &Identifiers,
    mark: &Ident,
    initial: Option<&Expression>,
    own: &Region,
    rest: &[&Region],
    faults: &mut Least,
) -> Made<(Option<Subtype>, Vec<ValueExpression>)>
    ensures { Leaves plain_components result faults.old faults.new
        (component_values_faults (names_in names.now) mark.now (plain_initial initial.entry)
        (plain_region own.now) (plain_regions rest.now)) (
          subtype_meant (component_meant (names_in names.now) mark.now (plain_region own.now)
              (plain_regions rest.now)),
          component_values (names_in names.now) mark.now
              (plain_initial initial.entry) (plain_region own.now) (plain_regions rest.now),
        ) }
{
    let scope = Scope::within(own, rest, names)?;
    let subtype = subtype_mark(mark, &scope, faults);
    let values = initial_values(names, initial, subtype, &scope, faults);
    drop(scope);
    Ok((subtype, values?))
}

// Declares a component in its object's region.
fn add_component(
    ident: &Ident,
    kind: PartKind,
    instance: Instance,
    own: &mut Region,
    faults: &mut Least,
) -> Made<()>
    ensures region { OnOk result (plain_region own.new
        ≡ with_part ident.now.name kind instance (plain_region own.old)) }
    ensures noted { OnOk result (faults.new ≡ noted faults.old
        (declared_once ident.now.name ident.now.at own.old.symbols.entries)) }
{
    declared_once(ident, &own.symbols, faults);
    add_part(&ident.name, kind, instance, own)
}

// Declares components one after the other.
fn add_components(
    names: &Identifiers,
    kind: PartKind,
    instance: Instance,
    own: &mut Region,
    faults: &mut Least,
) -> Made<()>
    ensures region { OnOk result (plain_region own.new
        ≡ with_all_parts (names_in names.now) kind instance (plain_region own.old)) }
    ensures noted { OnOk result (faults.new ≡ noted faults.old
        (parts_twice (names_in names.now) kind instance (plain_region own.old))) }
{
    add_component(&names.first, kind, instance, own, faults)?;
    for other in &names.others {
        add_component(other, kind, instance, own, faults)?;
    }
    Ok(())
}

// Adds them to what is found behind the object's name.
fn add_component_parts(
    object: usize,
    names: &Identifiers,
    kind: PartKind,
    around: &mut Region,
) -> Made<()>
    ensures { OnOk result (plain_region around.new ≡ with_object_parts
        (component_parts object (names_in names.now) kind) (plain_region around.old)) }
{
    let of = Of {
        object,
        is_private: true,
    };
    add_object_part(of, &names.first, kind, around)?;
    for other in &names.others {
        add_object_part(of, other, kind, around)?;
    }
    Ok(())
}

// Declares components (RM 9.4(6)).
#[tactic(auto, using(aud_typing::proofs::Notes::noted_append))]
fn declare_components(
    object: usize,
    names: &Identifiers,
    mark: &Ident,
    initial: Option<&Expression>,
    outer: &[&Region],
    parts: &mut ObjectParts,
    around: &mut Region,
    tables: &Tables,
    faults: &mut Least,
) -> Made<()>
    ensures declared { OnOk result (plain_parts parts.new around.new tables.now
        ≡ declared_components object (names_in names.now) mark.now (plain_initial initial.entry)
        (plain_regions outer.now) (plain_parts parts.old around.old tables.now)) }
    ensures noted { OnOk result (faults.new ≡ noted faults.old (components_faults object
        (names_in names.now) mark.now (plain_initial initial.entry) (plain_regions outer.now)
        (plain_parts parts.old around.old tables.now))) }
{
    let rest = regions_within(&*around, outer)?;
    let (subtype, mut values) = values_of(names, mark, initial, &parts.own, &rest, faults)?;
    drop(rest);
    let kind = PartKind::Component(subtype);
    let instance = declared_instance(object, &parts.own);
    add_components(names, kind, instance, &mut parts.own, faults)?;
    add_component_parts(object, names, kind, around)?;
    parts.values.append(&mut values)?;
    Ok(())
}

// Declares what stands behind `private`.
fn declare_item(
    object: usize,
    item: &PrivateItem,
    outer: &[&Region],
    parts: &mut ObjectParts,
    around: &mut Region,
    tables: &mut Tables,
    faults: &mut Least,
) -> Made<()>
    ensures declared { OnOk result (plain_parts parts.new around.new tables.new
        ≡ one_item object (plain_private_item item.now) (plain_regions outer.now)
        (plain_parts parts.old around.old tables.old)) }
    ensures noted { OnOk result (faults.new ≡ noted faults.old (item_faults object
        (plain_private_item item.now) (plain_regions outer.now)
        (plain_parts parts.old around.old tables.old))) }
{
    match item {
        PrivateItem::Operation(operation) => {
            let of = Of {
                object,
                is_private: true,
            };
            declare_operation(of, operation, outer, parts, around, tables, faults)
        }
        PrivateItem::Components(names, mark, initial) => {
            let initial = initial.as_ref();
            declare_components(
                object, names, mark, initial, outer, parts, around, &*tables, faults,
            )
        }
    }
}

fn declare_items(
    object: usize,
    list: &[PrivateItem],
    outer: &[&Region],
    parts: &mut ObjectParts,
    around: &mut Region,
    tables: &mut Tables,
    faults: &mut Least,
) -> Made<()>
    ensures declared { OnOk result (plain_parts parts.new around.new tables.new
        ≡ declared_items object (map plain_private_item list.now) (plain_regions outer.now)
        (plain_parts parts.old around.old tables.old)) }
    ensures noted { OnOk result (faults.new ≡ noted faults.old (items_faults object
        (map plain_private_item list.now) (plain_regions outer.now)
        (plain_parts parts.old around.old tables.old))) }
{
    for next in list {
        declare_item(object, next, outer, parts, around, tables, faults)?;
    }
    Ok(())
}

// Declares an object of this number, which has a cell, and whose name the region has not yet. Its body is still to come.
fn add_object(ident: &Ident, number: usize, region: &mut Region) -> Made<()>
    requires { is_declared ident.now.name region.now.symbols.entries ≡ false }
    ensures { OnOk result (plain_region region.new
        ≡ with_object ident.now number (plain_region region.old)) }
{
    add_symbol(&ident.name, Kind::Protected(number), region)?;
    let name = ident.name.try_clone(region.alloc)?;
    let awaited = AwaitedObject {
        name,
        object: number,
        at: ident.at,
    };
    add_last(&mut region.objects, awaited)
}

// The same of one that is declared once; another name stays what it was.
#[tactic(auto, using(crate::proofs::Declared::not_declared_yet, crate::proofs::Declared::stays_declared))]
fn name_object(once: bool, ident: &Ident, number: usize, region: &mut Region) -> Made<()>
    requires { once ≡ not (is_declared ident.now.name region.now.symbols.entries) }
    ensures { OnOk result (plain_region region.new
        ≡ with_object ident.now number (plain_region region.old)) }
{
    if once {
        add_object(ident, number, region)
    } else {
        Ok(())
    }
}

// The elaboration of an object of this number, with the initial values of its components.
fn elaborate_object(
    at: Pos,
    number: usize,
    values: Vec<ValueExpression>,
    elaborations: &mut Vec<Statement>,
) -> Made<()>
    ensures { OnOk result (plain_typed_statements elaborations.new.items
        ≡ plain_typed_statements elaborations.old.items
        ++ declare_object at number (plain_values values.items) ∷ []) }
{
    add_last(elaborations, Statement::DeclareObject(at, number, values))
}

// Declares what an object of this number declares, in regions that lie within these.
#[tactic(auto, using(aud_typing::proofs::Notes::noted_append))]
fn declare_all(
    number: usize,
    node: &ProtectedDeclaration,
    outer: &[&Region],
    parts: &mut ObjectParts,
    around: &mut Region,
    tables: &mut Tables,
    faults: &mut Least,
) -> Made<()>
    ensures declared { OnOk result (plain_parts parts.new around.new tables.new
        ≡ declared_items number (hidden_items (plain_private node.now.private_items))
        (plain_regions outer.now) (declared_operations number
        (map plain_operation node.now.operations.items) (plain_regions outer.now)
        (plain_parts parts.old around.old tables.old))) }
    ensures noted { OnOk result (faults.new ≡ noted faults.old (operations_faults number
        (map plain_operation node.now.operations.items) (plain_regions outer.now)
        (plain_parts parts.old around.old tables.old)
        ++ items_faults number (hidden_items (plain_private node.now.private_items))
        (plain_regions outer.now) (declared_operations number
        (map plain_operation node.now.operations.items) (plain_regions outer.now)
        (plain_parts parts.old around.old tables.old)))) }
{
    let list = &node.operations;
    declare_operations(number, list, outer, parts, around, tables, faults)?;
    if let Some(items) = &node.private_items {
        declare_items(number, items, outer, parts, around, tables, faults)?;
    }
    Ok(())
}

// What an object of this number declares, whose declaration stands in a region that lies within these, and what is
// found behind its name.
#[tactic(auto, using(aud_typing::proofs::Notes::noted_append))]
fn parts_of(
    number: usize,
    node: &ProtectedDeclaration,
    region: &Region,
    outer: &[&Region],
    tables: &mut Tables,
    faults: &mut Least,
) -> Made<(ObjectParts, Region)>
    requires { number ≡ next_object (plain_tables tables.now) }
    ensures declared { IfOk result (λ parts. plain_parts parts.0 parts.1 tables.new
        ≡ parts_declared node.now.name.name (map plain_operation node.now.operations.items)
        (plain_private node.now.private_items) (plain_place region.now outer.now)
        (plain_tables tables.old)) }
    ensures noted { OnOk result (faults.new ≡ noted faults.old (parts_faults node.now.name.name
        (map plain_operation node.now.operations.items) (plain_private node.now.private_items)
        (plain_place region.now outer.now) (plain_tables tables.old))) }
{
    let alloc = region.alloc;
    let instance = body_instance(number, Access::Outside, region)?;
    let regions = regions_within(region, outer)?;
    let mut around = around_object(&node.name.name, instance, region, outer)?;
    let mut parts = ObjectParts {
        own: object_frame(region, outer)?,
        values: Vec::new(alloc),
        entries: Vec::new(alloc),
    };
    let declared = declare_all(
        number,
        node,
        &regions,
        &mut parts,
        &mut around,
        tables,
        faults,
    );
    drop(regions);
    let ((parts, around), ()) = both((parts, around), declared)?;
    Ok((parts, around))
}

// What is found behind an object's name is found in the region that declares it.
fn name_parts(around: Region, region: &mut Region) -> Made<()>
    ensures { OnOk result (plain_region region.new
        ≡ with_object_parts around.parts.items (plain_region region.old)) }
{
    let mut around = around;
    region.parts.append(&mut around.parts)
}

// Adds an object of this number, and what is found behind its name, to the region that declares it.
fn name_all(
    once: bool,
    ident: &Ident,
    number: usize,
    around: Region,
    region: &mut Region,
) -> Made<()>
    requires { once ≡ not (is_declared ident.now.name region.now.symbols.entries) }
    ensures { OnOk result (plain_region region.new ≡ with_object_parts around.parts.items
        (with_object ident.now number (plain_region region.old))) }
{
    let named = name_object(once, ident, number, region);
    let (around, ()) = both(around, named)?;
    name_parts(around, region)
}

/// Declares a protected object, and what it declares (RM 9.4).
#[inline(never)]
pub fn declare_protected(
    node: &ProtectedDeclaration,
    outer: &[&Region],
    part: &mut DeclarativePart,
    tables: &mut Tables,
    faults: &mut Least,
) -> Made<()>
    ensures { OnOk result (Declares faults.old faults.new outer.now part.old part.new
        (plain_tables tables.new)
        (checked_protected node.now.at node.now.name
        (map plain_operation node.now.operations.items) (plain_private node.now.private_items)
        node.now.end_name (plain_place part.old.region outer.now) (plain_tables tables.old))) }
{
    let number = tables.next_object();
    let alloc = part.region.alloc;
    let once = declared_once(&node.name, &part.region.symbols, faults);
    let (parts, around) = parts_of(number, node, &part.region, outer, tables, faults)?;
    right_name_at_end(&node.name.name, &node.end_name, faults);
    let named = name_all(once, &node.name, number, around, &mut part.region);
    let (parts, ()) = both(parts, named)?;
    let ObjectParts {
        own,
        values,
        entries,
    } = parts;
    let level = own.level;
    let components = names_of(&own);
    drop(own);
    let elaborated = elaborate_object(node.at, number, values, &mut part.elaborations);
    let (entries, ()) = both(entries, elaborated)?;
    let (entries, components) = both(entries, components)?;
    let name = node.name.name.try_clone(alloc);
    let ((entries, components), name) = both((entries, components), name)?;
    tables.keep_object(name, level, components, entries)
}

/// Notes the objects that wait for a body still at the end of a declarative part (RM 3.11.1).
pub fn without_object_bodies(awaited: &[AwaitedObject], faults: &mut Least)
    ensures { faults.new ≡ noted faults.old (without_object_bodies awaited.now) }
{
    for object in awaited {
        no_matching_body(object.at, faults);
    }
}

/// Notes the operations that wait for a body still at the end of their object's.
pub fn without_part_bodies(awaited: &[AwaitedPart], faults: &mut Least)
    ensures { faults.new ≡ noted faults.old (without_part_bodies awaited.now) }
{
    for part in awaited {
        no_matching_body(part.at, faults);
    }
}

/// The number of the object whose body has this name. A body of no object that waits for one is checked as that of an
/// object of its own.
#[inline(never)]
pub fn body_number(
    ident: &Ident,
    region: &mut Region,
    tables: &mut Tables,
    faults: &mut Least,
) -> Made<usize>
    ensures number { IfOk result (λ number. number ≡ body_object
        (awaited_object ident.now.name region.old.objects.items) (plain_tables tables.old)) }
    ensures region { OnOk result (plain_region region.new
        ≡ object_come ident.now.name (plain_region region.old)) }
    ensures tables { OnOk result (plain_tables tables.new ≡ object_tables
        (awaited_object ident.now.name region.old.objects.items) ident.now
        (plain_tables tables.old)) }
    ensures noted { OnOk result (faults.new ≡ noted faults.old (object_matched
        (awaited_object ident.now.name region.old.objects.items) ident.now.at)) }
{
    match region.object_comes(&ident.name) {
        Some(found) => Ok(found.object),
        None => {
            no_matching_body(ident.at, faults);
            let number = tables.next_object();
            let alloc = region.alloc;
            let name = ident.name.try_clone(alloc)?;
            tables.keep_object(name, 0, Vec::new(alloc), Vec::new(alloc))?;
            Ok(number)
        }
    }
}
