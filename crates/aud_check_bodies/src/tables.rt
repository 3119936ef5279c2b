// The tables of a program, as a check of its text makes them.

ghost use Rattle.std.specs.Prelude.{◌≡◌, [], ◌++◌, option_map, IfOk, OnOk};
ghost use Rattle.aud_typed.specs.Ties.View.{entry_with, plain_boolean, plain_shown, plain_region as plain_named_region, plain_unit};
ghost use Rattle.aud_check_bodies.specs.Regions.{shown_of, shown_row, shown, shown_before, shown_names, loop_region};
ghost use Rattle.aud_check_bodies.specs.Tables.{no_tables, next_region, with_region, region_kept, region_named, next_unit, no_body, unit_kept, with_unit, next_task, task_kept, next_entry, entry_kept, protected_entry_kept, with_barrier, next_object, object_kept, profile_of, entry_profile_of};
ghost use Rattle.aud_names.specs.Ties.Regions.{plain_region};
ghost use Rattle.aud_check_bodies.specs.Ties.Tables.{plain_tables};

use crate::made::null_at;
use aud_names::array::length_between;
use aud_names::behind::{Made, add_last};
use aud_names::names::{Meaning, NamedParameter, Object, Region, Scope, insert};
use aud_syntax::tree::Ident;
use aud_text::name::Name;
use aud_text::place::Pos;
use aud_typed::program::{
    Body, BooleanExpression, Entry, EntryBody, Named, ProtectedObject, Shown, Statement,
    Statements, Subtype, TaskType, Unit, Variable,
};
use std::alloc::Global;
use std::mem::replace;

/// The variables and constants of each region that has been entered, by the regions' numbers, and the
/// names of the exceptions, by theirs; of each procedure, task, operation and protected entry that has been declared its
/// formals, and its body, by the number of its unit; the task types and the protected objects, by theirs; and of each entry
/// what it is and its formals, by theirs.
#[derive(Drop)]
pub struct Tables {
    pub regions: Vec<Vec<Named>>,
    pub exceptions: Vec<Name>,
    pub profiles: Vec<Vec<NamedParameter>>,
    pub units: Vec<Unit>,
    pub tasks: Vec<TaskType>,
    pub objects: Vec<ProtectedObject>,
    pub entries: Vec<Entry>,
    pub entry_profiles: Vec<Vec<NamedParameter>>,
}

impl Tables {
    /// Those of a program of which nothing is checked yet.
    pub fn new(alloc: Global) -> Self
        ensures { plain_tables result ≡ no_tables }
    {
        Tables {
            regions: Vec::new(alloc),
            exceptions: Vec::new(alloc),
            profiles: Vec::new(alloc),
            units: Vec::new(alloc),
            tasks: Vec::new(alloc),
            objects: Vec::new(alloc),
            entries: Vec::new(alloc),
            entry_profiles: Vec::new(alloc),
        }
    }

    /// The number of the region that is entered next.
    pub fn next_region(&self) -> usize
        ensures { result ≡ next_region (plain_tables self.now) }
    {
        self.regions.len()
    }

    /// Enters a region that has all its names: its number.
    pub fn enter(&mut self, region: &Region) -> Made<usize>
        ensures number { IfOk result (λ number. number ≡ next_region (plain_tables self.old)) }
        ensures tables { OnOk result (plain_tables self.new
            ≡ with_region (shown_names region.now.symbols.entries) (plain_tables self.old)) }
    {
        let number = self.regions.len();
        let names = names_of(region)?;
        add_last(&mut self.regions, names)?;
        Ok(number)
    }

    /// Keeps the place of a region that is entered before its declarations.
    pub fn keep_region(&mut self, alloc: Global) -> Made<()>
        ensures { OnOk result (plain_tables self.new ≡ region_kept (plain_tables self.old)) }
    {
        add_last(&mut self.regions, Vec::new(alloc))
    }

    /// Puts the names of a region where its place was kept.
    #[tactic(auto, using(crate::proofs::Kept::region_set, crate::proofs::Kept::region_past))]
    pub fn name_region(&mut self, number: usize, region: &Region) -> Made<()>
        ensures { OnOk result (plain_tables self.new
            ≡ region_named number (shown_names region.now.symbols.entries)
            (plain_tables self.old)) }
    {
        let names = names_of(region)?;
        if number < self.regions.len() {
            drop(replace(&mut self.regions[number], names));
        } else {
            drop(names);
        }
        Ok(())
    }

    /// The number of the unit that is declared next.
    pub fn next_unit(&self) -> usize
        ensures { result ≡ next_unit (plain_tables self.now) }
    {
        self.units.len()
    }

    /// Keeps the place of a unit with these formals.
    pub fn keep_unit(&mut self, alloc: Global, profile: Vec<NamedParameter>) -> Made<()>
        ensures { OnOk result (plain_tables self.new
            ≡ unit_kept profile.items (plain_tables self.old)) }
    {
        add_last(&mut self.profiles, profile)?;
        let unit = no_body(alloc)?;
        add_last(&mut self.units, unit)
    }

    /// Puts a unit where its place was kept.
    #[tactic(auto, using(crate::proofs::Kept::unit_set, crate::proofs::Kept::unit_past))]
    pub fn put_unit(&mut self, number: usize, unit: Unit)
        ensures { plain_tables self.new
            ≡ with_unit number (plain_unit unit) (plain_tables self.old) }
    {
        if number < self.units.len() {
            drop(replace(&mut self.units[number], unit));
        } else {
            drop(unit);
        }
    }

    /// The number of the task type that is declared next.
    pub fn next_task(&self) -> usize
        ensures { result ≡ next_task (plain_tables self.now) }
    {
        self.tasks.len()
    }

    /// Keeps the place of the body of a task type with these entries, which has the next unit.
    pub fn keep_task(&mut self, alloc: Global, entries: Vec<usize>) -> Made<()>
        ensures { OnOk result (plain_tables self.new
            ≡ task_kept entries.items (plain_tables self.old)) }
    {
        let unit = self.units.len();
        self.keep_unit(alloc, Vec::new(alloc))?;
        add_last(&mut self.tasks, TaskType { unit, entries })
    }

    /// The number of the entry that is declared next.
    pub fn next_entry(&self) -> usize
        ensures { result ≡ next_entry (plain_tables self.now) }
    {
        self.entries.len()
    }

    /// Adds an entry of a task, of this name and with these formals.
    pub fn keep_entry(&mut self, name: Name, profile: Vec<NamedParameter>) -> Made<()>
        ensures { OnOk result (plain_tables self.new
            ≡ entry_kept name profile.items (plain_tables self.old)) }
    {
        let formals = profile.len();
        add_last(&mut self.entry_profiles, profile)?;
        let entry = Entry {
            name,
            formals,
            body: None,
        };
        add_last(&mut self.entries, entry)
    }

    /// Adds a protected entry of this name and with these formals, and keeps the place of its body, which has the next unit.
    pub fn keep_protected_entry(
        &mut self,
        alloc: Global,
        name: Name,
        profile: Vec<NamedParameter>,
    ) -> Made<()>
        ensures { OnOk result (plain_tables self.new
            ≡ protected_entry_kept name profile.items (plain_tables self.old)) }
    {
        let unit = self.units.len();
        let formals = profile.len();
        add_last(&mut self.entry_profiles, profile)?;
        self.keep_unit(alloc, Vec::new(alloc))?;
        let barrier = BooleanExpression::Truth(true);
        let body = Some(EntryBody { unit, barrier });
        let entry = Entry {
            name,
            formals,
            body,
        };
        add_last(&mut self.entries, entry)
    }

    /// Puts the barrier of an entry where its place was kept (RM 9.5.2(7)).
    #[tactic(auto, using(crate::proofs::Kept::entry_past))]
    pub fn put_barrier(&mut self, number: usize, barrier: BooleanExpression)
        ensures { plain_tables self.new
            ≡ with_barrier number (plain_boolean barrier) (plain_tables self.old) }
    {
        if number < self.entries.len() {
            let entry = &mut self.entries[number];
            let unit = body_unit(&entry.body);
            let body = Some(EntryBody { unit, barrier });
            drop(replace(&mut entry.body, body));
        } else {
            drop(barrier);
        }
    }

    /// The number of the protected object that is declared next.
    pub fn next_object(&self) -> usize
        ensures { result ≡ next_object (plain_tables self.now) }
    {
        self.objects.len()
    }

    /// Adds a protected object of this name and level with these components and entries.
    pub fn keep_object(
        &mut self,
        name: Name,
        level: usize,
        components: Vec<Named>,
        entries: Vec<usize>,
    ) -> Made<()>
        ensures { OnOk result (plain_tables self.new
            ≡ object_kept name level (plain_named_region components) entries.items (plain_tables self.old)) }
    {
        let object = ProtectedObject {
            name,
            level,
            components,
            entries,
        };
        add_last(&mut self.objects, object)
    }

    /// The formals of a unit.
    pub fn profile(&self, unit: usize) -> &[NamedParameter]
        ensures { result.now ≡ profile_of unit (plain_tables self.now) }
    {
        match self.profiles.get(unit) {
            None => &[],
            Some(profile) => profile,
        }
    }

    /// The formals of an entry.
    pub fn entry_profile(&self, entry: usize) -> &[NamedParameter]
        ensures { result.now ≡ entry_profile_of entry (plain_tables self.now) }
    {
        match self.entry_profiles.get(entry) {
            None => &[],
            Some(profile) => profile,
        }
    }
}

// The unit of an entry's body, if it has one.
fn body_unit(body: &Option<EntryBody>) -> usize
    ensures { result ≡ (entry_with [] 0 body.now).unit }
{
    match body {
        None => 0,
        Some(body) => body.unit,
    }
}

// What stands in the place of a unit whose body is not checked yet.
fn no_body(alloc: Global) -> Made<Unit>
    ensures { IfOk result (λ unit. plain_unit unit ≡ no_body) }
{
    let at = Pos { line: 0, col: 0 };
    let first = null_at(alloc, at)?;
    Ok(Unit {
        level: 0,
        region: 0,
        is_function: false,
        at,
        body: Body {
            declarations: Vec::new(alloc),
            begin: at,
            activates: false,
            statements: Statements {
                first,
                others: Vec::new(alloc),
            },
            handlers: Vec::new(alloc),
            end: at,
        },
    })
}

fn shown_of(subtype: Option<Subtype>) -> Shown
    ensures { plain_shown result ≡ shown_of subtype }
{
    match subtype {
        Some(Subtype::Boolean) => Shown::Truth,
        _ => Shown::Whole,
    }
}

fn shown_row(subtype: Option<Subtype>, count: usize) -> Shown
    ensures { plain_shown result ≡ shown_row subtype count }
{
    match subtype {
        Some(Subtype::Boolean) => Shown::Truths(count),
        _ => Shown::Wholes(count),
    }
}

// How a variable, constant, array, task or protected object is shown; what stands for something else has no cells.
fn shown(meaning: Meaning) -> Option<Shown>
    ensures { option_map plain_shown result ≡ shown meaning }
{
    match meaning {
        Meaning::Object(object) => Some(shown_of(object.subtype)),
        Meaning::Array(array) => {
            let count = length_between(array.low, array.high);
            Some(shown_row(array.subtype, count))
        }
        Meaning::Task(_) | Meaning::Protected(_) => Some(Shown::Hidden(1)),
        Meaning::TaskArray(array) => Some(Shown::Hidden(length_between(array.low, array.high))),
        _ => None,
    }
}

// Adds a name to those that are shown, if it has cells.
fn add(name: &Name, meaning: Meaning, alloc: Global, names: &mut Vec<Named>) -> Made<()>
    ensures { OnOk result (plain_named_region names.new
        ≡ plain_named_region names.old ++ shown_before name.now (shown meaning) []) }
{
    match shown(meaning) {
        None => Ok(()),
        Some(shown) => {
            let name = name.try_clone(alloc)?;
            add_last(names, Named { name, shown })
        }
    }
}

/// The names of a region that have cells, in the order of their declarations.
pub fn names_of(region: &Region) -> Made<Vec<Named>>
    ensures { IfOk result (λ names. plain_named_region names
        ≡ shown_names region.now.symbols.entries) }
{
    let mut names = Vec::with_capacity(region.alloc, region.names)?;
    for (name, meaning) in &region.symbols {
        add(name, *meaning, region.alloc, &mut names)?;
    }
    Ok(names)
}

/// The region of the statements of a loop with this parameter (RM 5.5(4)).
pub fn loop_region(parameter: &Ident, scope: &Scope<'_>) -> Made<Region>
    ensures { IfOk result (λ region. plain_region region
        ≡ loop_region parameter.now scope.now) }
{
    let mut region = scope.frame()?;
    let name = parameter.name.try_clone(scope.alloc())?;
    let variable = Variable {
        level: region.level,
        index: 0,
    };
    let parameter = Object {
        variable,
        subtype: Some(Subtype::Integer),
        constant: true,
        locked: false,
    };
    insert(&mut region.symbols, name, Meaning::Object(parameter))?;
    region.cells = 1;
    region.names = 1;
    Ok(region)
}
