// Accepts: which entry is accepted, and whether it may be accepted there.

ghost use Rattle.std.specs.Prelude.{◌≡◌, map, IfOk, OnOk};
ghost use Rattle.aud_syntax.specs.Ties.View.{plain_formal};
ghost use Rattle.aud_fault.specs.Least.{noted};
ghost use Rattle.aud_names.specs.Ties.Regions.{plain_region};
ghost use Rattle.aud_check_bodies.specs.Accepts.{accept_formals, entry_meant, is_accepted, entry_faults, accepted_faults, accept_faults, accepted, number_of, with_accepted};
ghost use Rattle.aud_check_bodies.specs.Ties.Tables.{plain_tables};

use crate::formal::formals;
use crate::tables::Tables;
use aud_fault::fault::Least;
use aud_names::behind::Made;
use aud_names::names::{Entry, Meaning, NamedParameter, Region, Scope};
use aud_names::resolution::note_no_value;
use aud_names::rules::{accept_or_count_in_place, conform, formals_conform, name_not_declared};
use aud_syntax::tree::{Formal, Ident};
use aud_text::place::Pos;
use std::alloc::Global;

/// The head of an accept: its formals, with their region, and the entry that is accepted, if it is one.
#[derive(Drop)]
pub struct Head {
    pub region: Region,
    pub profile: Vec<NamedParameter>,
    pub entry: Option<Entry>,
}

fn entry_meant(meaning: Option<Meaning>) -> Option<Entry>
    ensures { result ≡ entry_meant meaning }
{
    match meaning {
        Some(Meaning::Entry(entry)) => Some(entry),
        _ => None,
    }
}

fn is_accepted(number: usize, within: &[usize]) -> bool
    ensures { result ≡ is_accepted number within.now }
{
    within.iter().any(|other| number == *other)
}

// Notes where an entry is not accepted directly in the body of its own task, where it is accepted already, and where the formals
// do not conform to its own (RM 9.5.2(14, 15)).
#[tactic(auto, using(aud_typing::proofs::Notes::noted_append))]
fn check_entry(
    entry: Entry,
    at: Pos,
    given: &[NamedParameter],
    within: &[usize],
    scope: &Scope<'_>,
    tables: &Tables,
    faults: &mut Least,
)
    ensures { faults.new ≡ noted faults.old
        (entry_faults entry at given.now within.now scope.now (plain_tables tables.now)) }
{
    let in_place = scope.is_own(entry) && !is_accepted(entry.number, within);
    accept_or_count_in_place(in_place, at, faults);
    let declared = tables.entry_profile(entry.number);
    formals_conform(conform(declared, given), at, faults);
}

// Notes where what is accepted is no entry, or may not be accepted there.
fn check_accepted(
    meaning: Option<Meaning>,
    at: Pos,
    given: &[NamedParameter],
    within: &[usize],
    scope: &Scope<'_>,
    tables: &Tables,
    faults: &mut Least,
)
    ensures { faults.new ≡ noted faults.old
        (accepted_faults meaning at given.now within.now scope.now (plain_tables tables.now)) }
{
    match meaning {
        None => name_not_declared(at, faults),
        Some(Meaning::Entry(entry)) => check_entry(entry, at, given, within, scope, tables, faults),
        Some(meaning) => note_no_value(meaning, at, faults),
    }
}

/// Checks the head of an accept within accepts of these entries (RM 9.5.2).
#[tactic(auto, using(aud_typing::proofs::Notes::noted_append))]
#[inline(never)]
pub fn accept_head(
    name: &Ident,
    source: &[Formal],
    within: &[usize],
    scope: &Scope<'_>,
    tables: &Tables,
    faults: &mut Least,
) -> Made<Head>
    ensures region { IfOk result (λ head. plain_region head.region
        ≡ (accept_formals (map plain_formal source.now) scope.now).region) }
    ensures profile { IfOk result (λ head. head.profile.items
        ≡ (accept_formals (map plain_formal source.now) scope.now).profile) }
    ensures entry { IfOk result (λ head. head.entry ≡ accepted name.now scope.now) }
    ensures noted { OnOk result (faults.new ≡ noted faults.old
        (accept_faults name.now (map plain_formal source.now) within.now scope.now
        (plain_tables tables.now))) }
{
    let regions = scope.regions()?;
    let mut region = scope.accept_frame()?;
    let profile = formals(source, &regions, &mut region, faults)?;
    let meaning = scope.visible(&name.name);
    check_accepted(meaning, name.at, &profile, within, scope, tables, faults);
    let entry = entry_meant(meaning);
    Ok(Head {
        region,
        profile,
        entry,
    })
}

/// The number of the entry that is accepted.
pub fn number_of(entry: Option<Entry>) -> usize
    ensures { result ≡ number_of entry }
{
    match entry {
        None => 0,
        Some(entry) => entry.number,
    }
}

/// The entries of the accepts around what an accept of this entry does.
pub fn with_accepted(alloc: Global, entry: Option<Entry>, within: &[usize]) -> Made<Vec<usize>>
    ensures { IfOk result (λ inner. inner.items ≡ with_accepted entry within.now) }
{
    let mut inner = Vec::with_capacity(alloc, within.len())?;
    if let Some(entry) = entry {
        inner.push(entry.number)?;
    }
    inner.extend_from_slice(within)?;
    Ok(inner)
}
