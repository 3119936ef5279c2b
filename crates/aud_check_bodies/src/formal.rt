// Formal parameters of procedures, entries and accepts.

ghost use Rattle.std.specs.Prelude.{◌≡◌, [], ◌++◌, ◌∷◌, IfOk, OnOk, map};
ghost use Rattle.aud_syntax.specs.Ties.View.{plain_formal};
ghost use Rattle.aud_fault.specs.Least.{noted};
ghost use Rattle.aud_check_bodies.specs.Declarations.{subtype_faults, subtype_meant, marked};
ghost use Rattle.aud_check_bodies.specs.Formals.{is_in, parameters_of, checked_formal, checked_formals, body_formals};
ghost use Rattle.aud_check_bodies.specs.Objects.{result_meant};
ghost use Rattle.aud_check_bodies.specs.Ties.DeclarativePart.{DeclaresFormals};
ghost use Rattle.aud_names.specs.Ties.Regions.{plain_region, plain_regions, plain_place, names_in};

use crate::declaration::{declare, subtype_mark};
use aud_fault::fault::Least;
use aud_names::array::{Kind, Scalar};
use aud_names::behind::{Made, add_last};
use aud_names::names::{NamedParameter, Parameter, Region, Scope, frame_within};
use aud_syntax::tree::{Formal, Ident, Identifiers, Mode};
use aud_typed::program::Subtype;
use std::alloc::Global;

/// Whether a formal is a constant, as one of mode in is (RM 3.3, 6.1).
pub fn is_in(mode: Mode) -> bool
    ensures { result ≡ is_in mode }
{
    match mode {
        Mode::Unstated | Mode::In(_) => true,
        Mode::Out(_) | Mode::InOut(_) => false,
    }
}

// The subtype that the mark of formals names.
fn marked<'x>(
    formal: &'x Formal,
    region: &'x Region,
    outer: &'x [&'x Region],
    faults: &mut Least,
) -> Made<Option<Subtype>>
    ensures subtype { IfOk result (λ subtype. subtype ≡ subtype_meant
        (marked formal.now.subtype (names_in formal.now.names)
        (plain_place region.now outer.now))) }
    ensures noted { OnOk result (faults.new ≡ noted faults.old (subtype_faults
        (marked formal.now.subtype (names_in formal.now.names)
        (plain_place region.now outer.now)) formal.now.subtype.at)) }
{
    let scope = Scope::within(region, outer, &formal.names)?;
    let subtype = subtype_mark(&formal.subtype, &scope, faults);
    drop(scope);
    Ok(subtype)
}

// Adds a formal.
fn add_one(
    ident: &Ident,
    parameter: Parameter,
    alloc: Global,
    profile: &mut Vec<NamedParameter>,
) -> Made<()>
    ensures { OnOk result (profile.new.items
        ≡ profile.old.items ++ parameters_of (ident.now ∷ []) parameter) }
{
    let name = ident.name.try_clone(alloc)?;
    add_last(profile, NamedParameter { name, parameter })
}

// Adds formals that are alike, one for each of the names.
fn add(
    names: &Identifiers,
    parameter: Parameter,
    alloc: Global,
    profile: &mut Vec<NamedParameter>,
) -> Made<()>
    ensures { OnOk result (profile.new.items
        ≡ profile.old.items ++ parameters_of (names_in names.now) parameter) }
{
    add_one(&names.first, parameter, alloc, profile)?;
    for other in &names.others {
        add_one(other, parameter, alloc, profile)?;
    }
    Ok(())
}

// Declares formals of one mode and subtype.
#[tactic(auto, using(aud_typing::proofs::Notes::noted_append))]
fn formal(
    formal: &Formal,
    outer: &[&Region],
    region: &mut Region,
    profile: &mut Vec<NamedParameter>,
    faults: &mut Least,
) -> Made<()>
    ensures { OnOk result (DeclaresFormals faults.old faults.new region.new
        profile.old.items profile.new.items
        (checked_formal (plain_formal formal.now)
        (plain_region region.old) (plain_regions outer.now))) }
{
    let subtype = marked(formal, &*region, &*outer, faults)?;
    let mode = formal.mode;
    let kind = Kind::Scalar(Scalar {
        subtype,
        constant: is_in(mode),
    });
    declare(&formal.names, kind, region, faults)?;
    let parameter = Parameter { mode, subtype };
    add(&formal.names, parameter, region.alloc, profile)
}

/// The subtype of the value of a function whose formals are declared in a region that lies within these: notes its faults.
pub fn result_mark(
    mark: &Ident,
    region: &Region,
    outer: &[&Region],
    faults: &mut Least,
) -> Option<Subtype>
    ensures subtype { result ≡ subtype_meant
        (result_meant mark.now (plain_region region.now) (plain_regions outer.now)) }
    ensures noted { faults.new ≡ noted faults.old (subtype_faults
        (result_meant mark.now (plain_region region.now) (plain_regions outer.now)) mark.now.at) }
{
    let scope = Scope::new(region, outer);
    let subtype = subtype_mark(mark, &scope, faults);
    drop(scope);
    subtype
}

/// Declares formals in a region, which lies within these (RM 6.1): notes their faults, and answers what calls and accepts
/// see of them.
pub fn formals(
    formals: &[Formal],
    outer: &[&Region],
    region: &mut Region,
    faults: &mut Least,
) -> Made<Vec<NamedParameter>>
    ensures { IfOk result (λ profile. DeclaresFormals faults.old faults.new region.new
        [] profile.items
        (checked_formals (map plain_formal formals.now)
        (plain_region region.old) (plain_regions outer.now))) }
{
    let mut profile = Vec::with_capacity(region.alloc, formals.len())?;
    for next in formals {
        formal(next, outer, region, &mut profile, faults)?;
    }
    Ok(profile)
}

/// The same of a declaration in this region, which lies within those: in a region of their own, which is answered too (RM 8.1).
pub fn body_formals(
    list: &[Formal],
    innermost: &Region,
    outer: &[&Region],
    faults: &mut Least,
) -> Made<(Region, Vec<NamedParameter>)>
    ensures { IfOk result (λ made. DeclaresFormals faults.old faults.new made.0 [] made.1.items
        (body_formals (map plain_formal list.now) (plain_place innermost.now outer.now))) }
{
    let (regions, mut region) = frame_within(innermost, outer)?;
    let profile = formals(list, &regions, &mut region, faults)?;
    Ok((region, profile))
}
