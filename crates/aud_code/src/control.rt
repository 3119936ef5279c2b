// Where a task goes on.

ghost use Rattle.std.specs.Prelude.{◌≡◌, List, ℕ, slice_get};
ghost use Rattle.aud_code.specs.Control.{come_out, going};
ghost use Rattle.aud_code.specs.Places.{Spot};
ghost use Rattle.aud_code.specs.View.{behind_offers, beside, bodies_in, bodies_of, bodies_offered, inside_of, ways_of};

use crate::line::{Among, Ending, Last, Offer};
use crate::sound_code::SoundCode;
use aud_meaning::state::Construct;

/// Where the part of this number begins of the step that begins at a place; the same place where it has none.
pub fn taken(code: &SoundCode, place: usize, part: usize) -> usize
    ensures { (returns : List ℕ) → (let s : Spot = record { place = place; returns = returns } in
        record s { place = result } ≡ (going code.now).takes part s) }
{
    match code.ending(place) {
        Some(end) => match way(&end.last, part) {
            Some(to) => to,
            None => place,
        },
        None => place,
    }
}

/// Where what a task does begins that accepts a call, by the alternative of this number of the step that begins at a
/// place; the same place where there is none.
pub fn accepted(code: &SoundCode, place: usize, alternative: usize) -> usize
    ensures { (returns : List ℕ) → (let s : Spot = record { place = place; returns = returns } in
        record s { place = result } ≡ (going code.now).accepts alternative s) }
{
    match code.ending(place) {
        Some(end) => match body(&end.last, alternative) {
            Some(to) => to,
            None => place,
        },
        None => place,
    }
}

/// Where a task goes on behind the construct whose end is at a place; none where that is a body, from which it goes back.
pub fn behind(code: &SoundCode, place: usize) -> Option<usize>
    ensures { (returns : List ℕ) → (let s : Spot = record { place = place; returns = returns } in
        come_out code.now result returns ≡ (going code.now).behind s) }
{
    match code.ending(place) {
        Some(end) => match &end.last {
            Last::Ends(Construct::Unit, _) => None,
            Last::Ends(Construct::Block | Construct::Accept, next) => Some(*next),
            Last::Leaves { to, .. } => Some(*to),
            Last::Does(_, _) | Last::Concerns(_, _) | Last::Continues { .. } | Last::Guards(_) =>
                Some(place),
        },
        None => None,
    }
}

// The place of its part of this number.
fn way(last: &Last, part: usize) -> Option<usize>
    ensures { result ≡ slice_get (ways_of last.now) part }
{
    match last {
        Last::Does(ending, next) => match part {
            0 => Some(*next),
            1 => inside(*ending),
            _ => None,
        },
        Last::Concerns(among, next) => {
            if part == 0 {
                Some(*next)
            } else {
                beside(among, part - 1)
            }
        }
        Last::Continues { behind, inside, .. } => match part {
            0 => Some(*behind),
            1 => Some(*inside),
            _ => None,
        },
        Last::Guards(_) | Last::Ends(_, _) | Last::Leaves { .. } => None,
    }
}

// Where what it does begins that accepts a call by the alternative of this number.
fn body(last: &Last, alternative: usize) -> Option<usize>
    ensures { result ≡ slice_get (bodies_of last.now) alternative }
{
    match last {
        Last::Concerns(among, _) => body_of(among, alternative),
        Last::Does(_, _)
        | Last::Continues { .. }
        | Last::Guards(_)
        | Last::Ends(_, _)
        | Last::Leaves { .. } => None,
    }
}

// The same of what concerns others.
fn body_of(among: &Among, alternative: usize) -> Option<usize>
    ensures { result ≡ slice_get (bodies_in among.now) alternative }
{
    match among {
        Among::Accept { body, .. } => if alternative == 0 { Some(*body) } else { None },
        Among::Select { own, offers, .. } => {
            if alternative == 0 {
                Some(*own)
            } else {
                body_offered(offers, alternative - 1)
            }
        }
        Among::DeclareTasks(_)
        | Among::DeclareObject(_)
        | Among::Activate
        | Among::Activated
        | Among::Call { .. }
        | Among::CallObject { .. }
        | Among::Operation { .. }
        | Among::Delay
        | Among::Abort
        | Among::RequeueTask { .. }
        | Among::RequeueObject { .. } => None,
    }
}

// Where what concerns others leads besides.
fn beside(among: &Among, part: usize) -> Option<usize>
    ensures { result ≡ slice_get (beside among.now) part }
{
    match among {
        Among::Call { otherwise, .. } | Among::CallObject { otherwise, .. } => {
            if part == 0 { Some(*otherwise) } else { None }
        }
        Among::Select { offers, .. } => behind_offered(offers, part),
        Among::DeclareTasks(_)
        | Among::DeclareObject(_)
        | Among::Activate
        | Among::Activated
        | Among::Operation { .. }
        | Among::Delay
        | Among::Accept { .. }
        | Among::Abort
        | Among::RequeueTask { .. }
        | Among::RequeueObject { .. } => None,
    }
}

fn behind_offered(offers: &[Offer], number: usize) -> Option<usize>
    ensures { result ≡ slice_get (behind_offers offers.now) number }
{
    match offers.get(number) {
        Some(offer) => Some(offer.behind),
        None => None,
    }
}

fn body_offered(offers: &[Offer], number: usize) -> Option<usize>
    ensures { result ≡ slice_get (bodies_offered offers.now) number }
{
    match offers.get(number) {
        Some(offer) => Some(offer.body),
        None => None,
    }
}

// Where a statement's step leads besides.
fn inside(ending: Ending) -> Option<usize>
    ensures { result ≡ slice_get (inside_of ending) 0 }
{
    match ending {
        Ending::Declare { again, .. } => Some(again),
        Ending::If(inside)
        | Ending::While(inside)
        | Ending::Loop { inside, .. }
        | Ending::Block { inside, .. } => Some(inside),
        Ending::DeclareArray(_, _)
        | Ending::Null
        | Ending::Assign
        | Ending::Put
        | Ending::Exit(_)
        | Ending::Raise(_)
        | Ending::RaiseAgain
        | Ending::Return(_)
        | Ending::ReturnValue(_)
        | Ending::Call(_)
        | Ending::OwnCall => None,
    }
}
