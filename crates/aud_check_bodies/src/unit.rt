// Programs.

ghost use Rattle.std.specs.Prelude.{◌≡◌, ◌∷◌};
ghost use Rattle.aud_syntax.specs.Ties.View.{plain_unit};
ghost use Rattle.aud_typed.specs.Ties.View.{plain_program};
ghost use Rattle.aud_names.specs.Names.{library, outermost};
ghost use Rattle.aud_check_bodies.specs.Programs.{faults as program_faults, typed as typed_program, program_with};
ghost use Rattle.aud_check_bodies.specs.Tables.{no_tables};
ghost use Rattle.aud_check_bodies.specs.Ties.Tables.{plain_tables};
ghost use Rattle.aud_names.specs.Ties.Regions.{plain_regions};
ghost use Rattle.aud_typing.specs.Ties.Typing.{Leaves as Shown};

use crate::made::unit_of;
use crate::statement::{body_behind, declared};
use crate::tables::Tables;
use crate::within::{Entering, Leaves, Requeuing};
use aud_fault::fault::Least;
use aud_names::behind::{Made, both};
use aud_names::names::{Region, regions_of_library};
use aud_names::rules::{program_named, right_name_at_end};
use aud_syntax::tree::Unit;
use aud_text::name::Name;
use aud_typed::program::Program;
use std::alloc::Global;

// Checks a program that stands in these regions: that of the library, and those further out. All of it comes into the tables
// but its name, which is answered.
fn fill<'a>(
    alloc: Global,
    node: &'a Unit,
    outer: &'a [&'a Region],
    tables: &mut Tables,
    faults: &mut Least,
) -> Made<Name>
    requires regions { plain_regions outer.now ≡ library node.now.name.name ∷ outermost }
    requires tables { plain_tables tables.now ≡ no_tables }
    ensures { Shown (λ name. program_with name (plain_tables tables.new)) result
        faults.old faults.new (program_faults (plain_unit node.now))
        (typed_program (plain_unit node.now)) }
{
    program_named(&node.name, faults);
    tables.keep_unit(alloc, Vec::new(alloc))?;
    let region = Region::new(alloc, 0);
    let number = tables.next_region();
    let part = declared(&node.declarations, region, outer, tables, faults)?;
    let entering = Entering {
        outer,
        labels: &[],
        in_handler: false,
        leaves: Leaves::Procedure,
        accepting: &[],
        requeuing: Requeuing::Nowhere,
        profile: &[],
        of_task: false,
    };
    let body = body_behind(part, &node.body, entering, tables, faults)?;
    right_name_at_end(&node.name.name, &node.body.name, faults);
    let main = unit_of(alloc, 0, number, false, node.at, body)?;
    tables.put_unit(0, Box::into_inner(main));
    node.name.name.try_clone(alloc)
}

// The same, with all of it.
fn typed_within<'a>(
    alloc: Global,
    node: &'a Unit,
    outer: &'a [&'a Region],
    faults: &mut Least,
) -> Made<Program>
    requires { plain_regions outer.now ≡ library node.now.name.name ∷ outermost }
    ensures { Shown plain_program result faults.old faults.new
        (program_faults (plain_unit node.now))
        (typed_program (plain_unit node.now)) }
{
    let mut tables = Tables::new(alloc);
    let name = fill(alloc, node, outer, &mut tables, faults);
    let (tables, name) = both(tables, name)?;
    let Tables {
        regions,
        exceptions,
        profiles: _,
        units,
        tasks,
        objects,
        entries,
        entry_profiles: _,
    } = tables;
    Ok(Program {
        name,
        units,
        tasks,
        objects,
        entries,
        regions,
        exceptions,
    })
}

/// Checks a program (RM 10.1.1): notes its faults, and answers what is left of it.
pub fn typed(alloc: Global, unit: &Unit, faults: &mut Least) -> Made<Program>
    ensures { Shown plain_program result faults.old faults.new
        (program_faults (plain_unit unit.now))
        (typed_program (plain_unit unit.now)) }
{
    let library = Region::library(alloc, &unit.name.name)?;
    let outer = regions_of_library(&library)?;
    typed_within(alloc, unit, &outer, faults)
}
