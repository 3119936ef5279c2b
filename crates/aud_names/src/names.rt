// Names, and what they stand for.

ghost use Rattle.std.specs.Prelude.{◌≡◌, ◌∷◌, ◌&&◌, not, [], IfOk, OnOk};
ghost use Rattle.std.specs.Str.{bytes_eq};
ghost use Rattle.indexmap.specs.IndexMap.{insert_entry};
ghost use Rattle.aud_names.specs.Names.{Place as Plain, empty_region, named_in, predefined, declared, hiding, is_hidden, is_taken, visible, library, outermost, innermost, body_frame, next_frame, accept_frame, declaring, are_in_accept, are_in_task, awaited_task, body_come, own_task, own_region, with_entry, with_entries, task_region, running, has_cell, is_declared, is_in_own_body, named_inside, entry_named, same_cell, is_cell_of, is_own, is_inside, is_in_function, is_around, is_countable, is_standard};
ghost use Rattle.aud_names.specs.Objects.{awaited_object, object_come, part_named};
ghost use Rattle.aud_names.specs.Ties.Regions.{plain_region, plain_regions, plain_place, names_in, hidden_names};

use crate::awaited::{Awaited, AwaitedObject, index_of, index_of_object};
use crate::behind::{Made, both};
use crate::entries::{EntryName, entry_in};
use crate::further_out::{are_in_accept, are_in_task, is_from_accept, is_from_task};
use crate::hidden::Hidden;
use crate::parts::{ObjectPart, Part, part_in};
use crate::table::listed;
use aud_syntax::tree::{Ident, Identifiers, Mode};
use aud_text::name::Name;
use aud_text::raise::Raise;
use aud_typed::program::{Exception, Subtype, Variable};
use indexmap::IndexMap;
use std::alloc::{AllocError, Global};
use std::marker::Model;

/// What a visible name stands for (RM 8.3).
#[derive(Clone, Copy)]
pub enum Meaning {
    /// Integer, Natural, Positive or Boolean (RM 3.5.3, 3.5.4).
    ScalarType(Subtype),
    /// False or True (RM 3.5.3).
    Literal(bool),
    Object(Object),
    Array(Array),
    /// RM 11.1.
    Exception(Exception),
    Builtin(Builtin),
    /// A procedure, by the number of its unit (RM 6.1): the main procedure's is 0.
    Procedure(usize),
    /// A task type, by its number (RM 9.1).
    TaskType(usize),
    Task(Task),
    TaskArray(TaskArray),
    Entry(Entry),
    /// RM 9.4.
    Protected(Instance),
    Operation(Operation),
    /// A formal, seen from its entry's barrier (RM 9.5.2(18)).
    Barred,
}

/// A variable, constant or component (RM 3.3.1, 9.4): its subtype, which is not known where its declaration is faulty, and
/// whether it is a component in the body of one of its object's functions, which may not change it (RM 9.5.1(2)).
#[derive(Clone, Copy)]
pub struct Object {
    pub variable: Variable,
    pub subtype: Option<Subtype>,
    pub constant: bool,
    pub locked: bool,
}

/// An array (RM 3.6): the cell of its first element, its bounds, and the subtype of its elements, which is not
/// known where its declaration is faulty.
#[derive(Clone, Copy)]
pub struct Array {
    pub first: Variable,
    pub low: i32,
    pub high: i32,
    pub subtype: Option<Subtype>,
}

/// A task (RM 9.1): the cell with its number, and the number of its type.
#[derive(Clone, Copy)]
pub struct Task {
    pub variable: Variable,
    pub task_type: usize,
}

/// An array of tasks (RM 9.1, 3.6): the cell of its first element, its bounds, and the number of the tasks' type.
#[derive(Clone, Copy)]
pub struct TaskArray {
    pub first: Variable,
    pub low: i32,
    pub high: i32,
    pub task_type: usize,
}

/// An entry, by its number, and whose it is (RM 9.5.2).
#[derive(Clone, Copy)]
pub struct Entry {
    pub number: usize,
    pub owner: Owner,
}

/// The task of an entry: the one behind whose name and a point it stands, or the one that runs the body where it stands
/// by itself; or the protected object.
#[derive(Clone, Copy)]
pub enum Owner {
    /// The task with the number in this cell.
    Single(Variable),
    /// An element of an array; its index are the arguments of the name's first part.
    Element(TaskArray),
    Object(Instance),
}

/// From where an object is named: from outside its body, or from within, maybe in the body of one of its functions (RM
/// 9.5(3, 4)).
#[derive(Clone, Copy)]
pub enum Access {
    Outside,
    Inside,
    InFunction,
}

/// A protected object where it is named: the cell with its number, and the number of its declaration (RM 9.4).
#[derive(Clone, Copy)]
pub struct Instance {
    pub variable: Variable,
    pub object: usize,
    pub access: Access,
}

/// A procedure, or a function with the subtype of its value, which is not known where its declaration is faulty (RM 6.1).
#[derive(Clone, Copy)]
pub enum Subprogram {
    Procedure,
    Function(Option<Subtype>),
}

/// A procedure or function of a protected object, by the number of its unit (RM 9.4).
#[derive(Clone, Copy)]
pub struct Operation {
    pub unit: usize,
    pub subprogram: Subprogram,
    pub instance: Instance,
}

/// A formal parameter as calls see it (RM 6.1): its subtype is not known where its declaration is faulty.
#[derive(Clone, Copy)]
pub struct Parameter {
    pub mode: Mode,
    pub subtype: Option<Subtype>,
}

/// A formal parameter with its name.
pub struct NamedParameter {
    pub name: Name,
    pub parameter: Parameter,
}

// One call wherever it is dropped.
impl Drop for NamedParameter {
    fn drop(self) {
        let NamedParameter { name, parameter: _ } = self;
        drop(name);
    }
}

/// The procedures that put out texts (RM A.10).
#[derive(Clone, Copy)]
pub enum Builtin {
    Put,
    PutLine,
    NewLine,
}

/// The names that a region declares, in the order of their declarations, and what they stand for.
pub type Symbols = IndexMap<Name, Meaning>;

/// Has a name stand for something. `IndexMap::insert` gives both back where memory is refused; they are dropped here.
pub fn insert(symbols: &mut Symbols, name: Name, meaning: Meaning) -> Made<()>
    ensures { OnOk result (symbols.new.entries
        ≡ insert_entry bytes_eq symbols.old.entries name meaning) }
{
    symbols.insert(name, meaning)?;
    Ok(())
}

/// A region of declarations (RM 8.1): its names, how many frames are further out than its own, the cells
/// and the names of variables, constants, tasks and objects that its frame has so far, the tasks and the objects whose
/// bodies are still to come, the entries of the tasks that it declares, what its objects declare, where it is
/// directly in a task's body the cell with that task's own number, whether it is that of an accept's formals, and what
/// allocates them.
pub struct Region {
    pub alloc: Global,
    pub symbols: Symbols,
    pub level: usize,
    pub cells: usize,
    pub names: usize,
    pub awaited: Vec<Awaited>,
    pub objects: Vec<AwaitedObject>,
    pub entries: Vec<EntryName>,
    pub parts: Vec<ObjectPart>,
    pub own: Option<Variable>,
    pub accept: bool,
}

impl Drop for Region {
    fn drop(self) {
        let Region {
            alloc: _,
            symbols,
            level: _,
            cells: _,
            names: _,
            awaited,
            objects,
            entries,
            parts,
            own: _,
            accept: _,
        } = self;
        drop(symbols);
        drop(awaited);
        drop(objects);
        drop(entries);
        drop(parts);
    }
}

impl Region {
    /// A region with no names yet, which is in no task's body.
    pub fn new(alloc: Global, level: usize) -> Self
        ensures { plain_region result ≡ empty_region level }
    {
        Region {
            alloc,
            symbols: Symbols::new(alloc),
            level,
            cells: 0,
            names: 0,
            awaited: Vec::new(alloc),
            objects: Vec::new(alloc),
            entries: Vec::new(alloc),
            parts: Vec::new(alloc),
            own: None,
            accept: false,
        }
    }

    /// The region of the library, which has this main procedure (RM 10.1.1).
    pub fn library(alloc: Global, main: &Name) -> Made<Self>
        ensures { IfOk result (λ region. plain_region region ≡ library main.now) }
    {
        let mut library = Region::new(alloc, 0);
        let name = main.try_clone(alloc)?;
        insert(&mut library.symbols, name, Meaning::Procedure(0))?;
        Ok(library)
    }

    /// The region of the body at a level of a task of a type, whose first cell has the task's own number (RM 9.1):
    /// as yet without the task's entries.
    pub fn own(alloc: Global, level: usize, task_type: usize) -> Made<Self>
        ensures { IfOk result (λ region. plain_region region ≡ own_region level task_type) }
    {
        let mut region = Region::new(alloc, level);
        let no_name = Name::from_source(alloc, &[])?;
        let own = own_task(level, task_type);
        insert(&mut region.symbols, no_name, Meaning::Task(own))?;
        region.cells = 1;
        region.names = 1;
        region.own = Some(own.variable);
        Ok(region)
    }

    /// Adds an entry to the region of its task's body; a name that this has already stays what it was.
    pub fn add_entry(&mut self, name: &Name, number: usize) -> Made<()>
        ensures { OnOk result (plain_region self.new
            ≡ with_entry name.now number (plain_region self.old)) }
    {
        if self.symbols.contains_key(name) {
            return Ok(());
        }
        let own = Variable {
            level: self.level,
            index: 0,
        };
        let entry = Entry {
            number,
            owner: Owner::Single(own),
        };
        let name = name.try_clone(self.alloc)?;
        insert(&mut self.symbols, name, Meaning::Entry(entry))?;
        Ok(())
    }

    /// The region of the body at a level of a task of a type, which has some of these entries.
    pub fn of_task(
        alloc: Global,
        level: usize,
        task_type: usize,
        entries: &[EntryName],
    ) -> Made<Self>
        ensures { IfOk result (λ region. plain_region region
            ≡ task_region level task_type entries.now) }
    {
        let mut region = Region::own(alloc, level, task_type)?;
        for entry in entries {
            if task_type == entry.task_type {
                region.add_entry(&entry.name, entry.number)?;
            }
        }
        Ok(region)
    }

    /// The region around the body at a level of a task of a type, in which its name is the task that runs it (RM 8.6(17)).
    pub fn running(alloc: Global, name: &Name, level: usize, task_type: usize) -> Made<Self>
        ensures { IfOk result (λ region. plain_region region
            ≡ running name.now level task_type) }
    {
        let mut region = Region::new(alloc, level);
        let name = name.try_clone(alloc)?;
        let own = own_task(level, task_type);
        insert(&mut region.symbols, name, Meaning::Task(own))?;
        Ok(region)
    }

    /// The task of this name that waits for its body, if one does. From now on it waits no more.
    pub fn body_comes(&mut self, name: &Name) -> Option<Awaited>
        ensures task { result ≡ awaited_task name.now self.old.awaited.items }
        ensures region { plain_region self.new ≡ body_come name.now (plain_region self.old) }
    {
        match index_of(&self.awaited, name) {
            None => None,
            Some(index) => Some(self.awaited.remove(index)),
        }
    }

    /// The protected object of this name that waits for its body, if one does. From now on it waits no more.
    pub fn object_comes(&mut self, name: &Name) -> Option<AwaitedObject>
        ensures object { result ≡ awaited_object name.now self.old.objects.items }
        ensures region { plain_region self.new ≡ object_come name.now (plain_region self.old) }
    {
        match index_of_object(&self.objects, name) {
            None => None,
            Some(index) => Some(self.objects.remove(index)),
        }
    }
}

// The task of a type that runs the body at a level.
fn own_task(level: usize, task_type: usize) -> Task
    ensures { result ≡ own_task level task_type }
{
    let variable = Variable { level, index: 0 };
    Task {
        variable,
        task_type,
    }
}

/// The regions around those of a program's frames: that of the library, and the predefined names further out.
pub fn regions_of_library<'a>(library: &'a Region) -> Made<Vec<&'a Region>>
    ensures { IfOk result (λ regions. plain_regions regions.items
        ≡ plain_region library.now ∷ outermost) }
{
    let mut regions = Vec::new(library.alloc);
    regions.push(library)?;
    Ok(regions)
}

/// What is visible at a place, which may stand within a declaration: the innermost region, and those further
/// out, the next one first. The predefined names are further out still.
pub struct Scope<'a> {
    innermost: &'a Region,
    outer: &'a [&'a Region],
    hidden: Option<Hidden<'a>>,
}

impl<'a> Drop for Scope<'a> {
    fn drop(self) {
        let Scope {
            innermost: _,
            outer: _,
            hidden,
        } = self;
        drop(hidden);
    }
}

impl<'a> Model for Scope<'a> {
    ghost Value = { Plain };

    ghost view = { λ scope. hiding (hidden_names scope.hidden)
        (plain_place scope.innermost.now scope.outer.now) };
}

impl<'a> Scope<'a> {
    /// A place behind the declarations of a region.
    pub fn new(innermost: &'a Region, outer: &'a [&'a Region]) -> Self
        ensures { result ≡ plain_place innermost.now outer.now }
    {
        Scope {
            innermost,
            outer,
            hidden: None,
        }
    }

    /// The place within the declaration of these names in a region.
    pub fn within(
        innermost: &'a Region,
        outer: &'a [&'a Region],
        names: &'a Identifiers,
    ) -> Made<Self>
        ensures { IfOk result (λ scope.
            scope ≡ hiding (names_in names.now) (plain_place innermost.now outer.now)) }
    {
        let hidden = Hidden::new(innermost.alloc, &names.first, &names.others)?;
        Ok(Scope {
            innermost,
            outer,
            hidden: Some(hidden),
        })
    }

    /// The place within the declaration of this name alone.
    pub fn within_one(&self, name: &'a Ident) -> Made<Self>
        ensures { IfOk result (λ scope. scope ≡ hiding (name.now ∷ []) self.now) }
    {
        let hidden = Hidden::new(self.alloc(), name, &[])?;
        Ok(Scope {
            innermost: self.innermost,
            outer: self.outer,
            hidden: Some(hidden),
        })
    }

    /// The region of a frame within the innermost one, in the same body (RM 5.6, 8.1).
    pub fn frame(&self) -> Made<Region>
        ensures { IfOk result (λ region. plain_region region ≡ next_frame self.now) }
    {
        let mut region = self.body_frame()?;
        region.own = self.innermost.own;
        Ok(region)
    }

    /// The region of an accept's formals, in the same body (RM 9.5.2).
    pub fn accept_frame(&self) -> Made<Region>
        ensures { IfOk result (λ region. plain_region region ≡ accept_frame self.now) }
    {
        let mut region = self.frame()?;
        region.accept = true;
        Ok(region)
    }

    // That of a body of its own (RM 6.3).
    fn body_frame(&self) -> Made<Region>
        ensures { IfOk result (λ region. plain_region region ≡ body_frame self.now) }
    {
        let level = self.innermost.level.checked_add(1).ok_or(AllocError)?;
        Ok(Region::new(self.alloc(), level))
    }

    /// The regions around such a frame.
    pub fn regions(&self) -> Made<Vec<&'a Region>>
        ensures { IfOk result (λ regions. plain_regions regions.items ≡ self.now.regions) }
    {
        let mut regions = Vec::with_capacity(self.alloc(), self.outer.len())?;
        regions.push(self.innermost)?;
        regions.extend_from_slice(self.outer)?;
        Ok(regions)
    }

    /// What is made for the place is allocated by this.
    pub fn alloc(&self) -> Global {
        self.innermost.alloc
    }

    // What the regions around the place declare a name to be.
    fn declared(&self, name: &Name) -> Option<Meaning>
        ensures { result ≡ declared name.now self.now.regions }
    {
        match self.innermost.symbols.get(name) {
            Some(meaning) => Some(*meaning),
            None => declared(self.outer, name),
        }
    }

    /// Whether the body around the place that the task of this name runs, whose number is in the cell, declares another name.
    pub fn is_in_own_body(&self, task: &Name, own: Variable, name: &Name) -> bool
        ensures { result ≡ is_in_own_body task.now own name.now self.now.regions }
    {
        if has_cell(own, self.innermost) {
            return is_among(task, name, self.innermost);
        }
        is_in_own_body(self.outer, task, own, name)
    }

    /// What the body of an object around the place, whose frame has this cell, declares a name to be.
    pub fn named_inside(&self, own: Variable, name: &Name) -> Option<Meaning>
        ensures { result ≡ named_inside name.now own self.now.regions }
    {
        if has_cell(own, self.innermost) {
            return named_in(self.innermost, name);
        }
        named_inside(self.outer, own, name)
    }

    /// The number of the entry of this name of a type of tasks, if it has one.
    pub fn entry_named(&self, task_type: usize, name: &Name) -> Option<usize>
        ensures { result ≡ entry_named name.now task_type self.now.regions }
    {
        match entry_in(&self.innermost.entries, task_type, name) {
            Some(number) => Some(number),
            None => entry_named(self.outer, task_type, name),
        }
    }

    /// What a protected object declares by this name (RM 9.4).
    pub fn part_named(&self, object: usize, name: &Name) -> Option<Part>
        ensures { result ≡ part_named name.now object self.now.regions }
    {
        match part_in(&self.innermost.parts, object, name) {
            Some(part) => Some(part),
            None => part_named(self.outer, object, name),
        }
    }

    /// Whether what a name stands for is declared within an accept that is around the place (RM 9.5.4(6)).
    pub fn is_from_accept(&self, name: &Name) -> bool
        ensures { result ≡ are_in_accept (declaring name.now self.now.regions) }
    {
        if self.innermost.symbols.contains_key(name) {
            return self.innermost.accept || are_in_accept(self.outer);
        }
        is_from_accept(self.outer, name)
    }

    /// Whether it is declared within a task's body (RM 9.5.4(6)).
    pub fn is_from_task(&self, name: &Name) -> bool
        ensures { result ≡ are_in_task (declaring name.now self.now.regions) }
    {
        if self.innermost.symbols.contains_key(name) {
            return self.innermost.own.is_some() || are_in_task(self.outer);
        }
        is_from_task(self.outer, name)
    }

    /// Whether the calls of an entry may be counted at the place (RM 9.9(4)).
    pub fn is_countable(&self, entry: Entry) -> bool
        ensures { result ≡ is_countable entry self.now }
    {
        is_around(entry.owner) || self.is_own(entry)
    }

    /// Whether an entry is one of the task in whose body the place directly is (RM 9.5.2(14), 9.9(4)).
    pub fn is_own(&self, entry: Entry) -> bool
        ensures { result ≡ is_own entry self.now }
    {
        is_cell_of(entry.owner, self.innermost.own)
    }

    /// Whether a declaration around the place has taken a name, also the one that lasts there, or it is predefined.
    pub fn is_taken(&self, name: &Name) -> bool
        ensures { result ≡ is_taken name.now self.now }
    {
        is_hidden(name, &self.hidden) || self.declared(name).is_some()
    }

    /// What a name stands for, none where no declaration of it is visible (RM 8.3).
    pub fn visible(&self, name: &Name) -> Option<Meaning>
        ensures { result ≡ visible name.now self.now }
    {
        if is_hidden(name, &self.hidden) {
            return None;
        }
        self.declared(name)
    }
}

/// The regions around the frame of a body within this region, which lies in those, and the frame's own (RM 6.1, 8.1).
pub fn frame_within<'a>(
    innermost: &'a Region,
    outer: &'a [&'a Region],
) -> Made<(Vec<&'a Region>, Region)>
    ensures regions { IfOk result (λ frame. plain_regions frame.0.items
        ≡ (plain_place innermost.now outer.now).regions) }
    ensures own { IfOk result (λ frame. plain_region frame.1
        ≡ body_frame (plain_place innermost.now outer.now)) }
{
    let scope = Scope::new(innermost, outer);
    both(scope.regions()?, scope.body_frame())
}

/// The regions around the body of a task that is declared in this region, which lies in those: first that in which its name
/// is the task that runs it.
pub fn task_within<'a>(
    running: &'a Region,
    innermost: &'a Region,
    outer: &'a [&'a Region],
) -> Made<Vec<&'a Region>>
    ensures { IfOk result (λ regions. plain_regions regions.items
        ≡ plain_region running.now ∷ (plain_place innermost.now outer.now).regions) }
{
    let mut regions = Vec::with_capacity(innermost.alloc, outer.len())?;
    regions.push(running)?;
    regions.push(innermost)?;
    regions.extend_from_slice(outer)?;
    Ok(regions)
}

fn is_hidden(name: &Name, hidden: &Option<Hidden<'_>>) -> bool
    ensures { result ≡ is_hidden name.now (hidden_names hidden.now) }
{
    match hidden {
        None => false,
        Some(names) => names.has(name),
    }
}

// What regions declare a name to be.
fn declared(regions: &[&Region], name: &Name) -> Option<Meaning>
    ensures { result ≡ declared name.now (plain_regions regions.now) }
{
    match regions.split_first() {
        None => predefined(name),
        Some((region, further_out)) => match region.symbols.get(name) {
            Some(meaning) => Some(*meaning),
            None => declared(further_out, name),
        },
    }
}

fn has_cell(cell: Variable, region: &Region) -> bool
    ensures { result ≡ has_cell cell (plain_region region.now) }
{
    cell.index < region.cells && region.level == cell.level
}

// Whether a region declares a name, and not that of a task.
fn is_among(task: &Name, name: &Name, region: &Region) -> bool
    ensures { result ≡ (not (is_declared task.now (plain_region region.now).symbols)
        && is_declared name.now (plain_region region.now).symbols) }
{
    !region.symbols.contains_key(task) && region.symbols.contains_key(name)
}

fn is_in_own_body(regions: &[&Region], task: &Name, own: Variable, name: &Name) -> bool
    ensures { result ≡ is_in_own_body task.now own name.now (plain_regions regions.now) }
{
    match regions.split_first() {
        None => false,
        Some((region, further_out)) => {
            if has_cell(own, region) {
                is_among(task, name, region)
            } else {
                is_in_own_body(further_out, task, own, name)
            }
        }
    }
}

fn named_in(region: &Region, name: &Name) -> Option<Meaning>
    ensures { result ≡ named_in name.now (plain_region region.now).symbols }
{
    match region.symbols.get(name) {
        None => None,
        Some(meaning) => Some(*meaning),
    }
}

fn named_inside(regions: &[&Region], own: Variable, name: &Name) -> Option<Meaning>
    ensures { result ≡ named_inside name.now own (plain_regions regions.now) }
{
    match regions.split_first() {
        None => None,
        Some((region, further_out)) => {
            if has_cell(own, region) {
                named_in(region, name)
            } else {
                named_inside(further_out, own, name)
            }
        }
    }
}

// The number of an entry of a type of tasks.
fn entry_named(regions: &[&Region], task_type: usize, name: &Name) -> Option<usize>
    ensures { result ≡ entry_named name.now task_type (plain_regions regions.now) }
{
    match regions.split_first() {
        None => None,
        Some((region, further_out)) => match entry_in(&region.entries, task_type, name) {
            Some(number) => Some(number),
            None => entry_named(further_out, task_type, name),
        },
    }
}

// What a protected object declares by this name.
fn part_named(regions: &[&Region], object: usize, name: &Name) -> Option<Part>
    ensures { result ≡ part_named name.now object (plain_regions regions.now) }
{
    match regions.split_first() {
        None => None,
        Some((region, further_out)) => match part_in(&region.parts, object, name) {
            Some(part) => Some(part),
            None => part_named(further_out, object, name),
        },
    }
}

/// Whether an object is named in its own body.
pub fn is_inside(access: Access) -> bool
    ensures { result ≡ is_inside access }
{
    match access {
        Access::Outside => false,
        Access::Inside | Access::InFunction => true,
    }
}

/// Whether that is the body of one of its functions.
pub fn is_in_function(access: Access) -> bool
    ensures { result ≡ is_in_function access }
{
    match access {
        Access::Outside | Access::Inside => false,
        Access::InFunction => true,
    }
}

fn is_around(owner: Owner) -> bool
    ensures { result ≡ is_around owner }
{
    match owner {
        Owner::Object(instance) => is_inside(instance.access),
        Owner::Single(_) | Owner::Element(_) => false,
    }
}

fn same_cell(left: Variable, right: Variable) -> bool
    ensures { result ≡ same_cell left right }
{
    left.level == right.level && left.index == right.index
}

fn is_cell_of(owner: Owner, own: Option<Variable>) -> bool
    ensures { result ≡ is_cell_of owner own }
{
    match (owner, own) {
        (Owner::Single(cell), Some(own)) => same_cell(cell, own),
        _ => false,
    }
}

const PREDEFINED: [(&[u8], Meaning); 13] = [
    (b"INTEGER", Meaning::ScalarType(Subtype::Integer)),
    (b"NATURAL", Meaning::ScalarType(Subtype::Natural)),
    (b"POSITIVE", Meaning::ScalarType(Subtype::Positive)),
    (b"BOOLEAN", Meaning::ScalarType(Subtype::Boolean)),
    (b"FALSE", Meaning::Literal(false)),
    (b"TRUE", Meaning::Literal(true)),
    (
        b"CONSTRAINT_ERROR",
        Meaning::Exception(Exception::Predefined(Raise::Constraint)),
    ),
    (
        b"PROGRAM_ERROR",
        Meaning::Exception(Exception::Predefined(Raise::Program)),
    ),
    (
        b"STORAGE_ERROR",
        Meaning::Exception(Exception::Predefined(Raise::Storage)),
    ),
    (
        b"TASKING_ERROR",
        Meaning::Exception(Exception::Predefined(Raise::Tasking)),
    ),
    (b"PUT", Meaning::Builtin(Builtin::Put)),
    (b"PUT_LINE", Meaning::Builtin(Builtin::PutLine)),
    (b"NEW_LINE", Meaning::Builtin(Builtin::NewLine)),
];

/// Whether it is a type or an exception that is declared in Standard (RM A.1).
pub fn is_standard(meaning: Option<Meaning>) -> bool
    ensures { result ≡ is_standard meaning }
{
    match meaning {
        Some(Meaning::ScalarType(_)) | Some(Meaning::Exception(_)) => true,
        _ => false,
    }
}

/// What the outermost region declares a name to be.
pub fn predefined(name: &Name) -> Option<Meaning>
    ensures { result ≡ named_in name.now predefined }
{
    listed(&PREDEFINED, name)
}
