// Where what a name stands for is declared: within an accept, or within a task's body (RM 9.5.4(6)).

ghost use Rattle.std.specs.Prelude.{◌≡◌};
ghost use Rattle.aud_names.specs.Names.{declaring, are_in_accept, are_in_task};
ghost use Rattle.aud_names.specs.Ties.Regions.{plain_regions};

use crate::names::Region;
use aud_text::name::Name;

/// Whether one of these regions is that of an accept's formals.
pub fn are_in_accept(regions: &[&Region]) -> bool
    ensures { result ≡ are_in_accept (plain_regions regions.now) }
{
    match regions.split_first() {
        None => false,
        Some((region, further_out)) => region.accept || are_in_accept(further_out),
    }
}

/// Whether one of these regions is directly in a task's body.
pub fn are_in_task(regions: &[&Region]) -> bool
    ensures { result ≡ are_in_task (plain_regions regions.now) }
{
    match regions.split_first() {
        None => false,
        Some((region, further_out)) => region.own.is_some() || are_in_task(further_out),
    }
}

/// Whether what a name stands for in these regions is declared within an accept.
#[tactic(auto, using(crate::proofs::FurtherOut::no_accept))]
pub fn is_from_accept(regions: &[&Region], name: &Name) -> bool
    ensures { result ≡ are_in_accept (declaring name.now (plain_regions regions.now)) }
{
    match regions.split_first() {
        None => false,
        Some((region, further_out)) => {
            if region.symbols.contains_key(name) {
                are_in_accept(regions)
            } else {
                is_from_accept(further_out, name)
            }
        }
    }
}

/// Whether it is declared within a task's body.
#[tactic(auto, using(crate::proofs::FurtherOut::no_task))]
pub fn is_from_task(regions: &[&Region], name: &Name) -> bool
    ensures { result ≡ are_in_task (declaring name.now (plain_regions regions.now)) }
{
    match regions.split_first() {
        None => false,
        Some((region, further_out)) => {
            if region.symbols.contains_key(name) {
                are_in_task(regions)
            } else {
                is_from_task(further_out, name)
            }
        }
    }
}
