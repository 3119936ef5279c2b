// Where an exception goes that is pending at a place (RM 11.4).

ghost use Rattle.std.specs.Prelude.{◌≡◌, List, ℕ, map, IfSome, ◌||◌};
ghost use Rattle.aud_meaning.specs.Items.{names_it};
ghost use Rattle.aud_code.specs.Control.{come_out};
ghost use Rattle.aud_code.specs.Places.{guarded};
ghost use Rattle.aud_code.specs.Flat.{end_at, end_by, handler_at, left_by};
ghost use Rattle.aud_code.specs.Sound.{IsStart};
ghost use Rattle.aud_code.specs.View.{plain_guard};

use aud_code::line::{Guard, Last};
use aud_code::sound_code::SoundCode;
use aud_meaning::state::Construct;
use aud_typed::program::Exception;

/// Where the innermost construct around a place handles an exception, if it does.
pub fn find_handler(code: &SoundCode, place: usize, exception: Exception) -> Option<usize>
    ensures value { (returns : List ℕ) →
        result ≡ handler_at code.now exception (record { place = place; returns = returns }) }
    ensures begins { IfSome result (λ to. IsStart code.now.lines to) }
{
    match &code.ending(out_of(code, place))?.last {
        Last::Guards(guards) => guarding(guards, exception),
        _ => None,
    }
}

/// Where a task stands once a pending exception has left the innermost construct around its place; none where that was a body,
/// from which it goes back.
pub fn unwind(code: &SoundCode, place: usize) -> Option<usize>
    ensures value { (returns : List ℕ) → come_out code.now result returns
        ≡ left_by code.now (end_at code.now place).out
        (record { place = place; returns = returns }) }
    ensures begins { IsStart code.now.lines place →
        IfSome result (λ to. IsStart code.now.lines to) }
{
    let end = construct_end(code, out_of(code, place));
    match &code.ending(end)?.last {
        Last::Ends(Construct::Unit, _) => None,
        Last::Ends(Construct::Block | Construct::Accept, _) | Last::Leaves { .. } => Some(end),
        Last::Does(_, _) | Last::Concerns(_, _) | Last::Continues { .. } | Last::Guards(_) => Some(
            place,
        ),
    }
}

// Where an exception goes that is pending at a place.
fn out_of(code: &SoundCode, place: usize) -> usize
    ensures value { result ≡ (end_at code.now place).out }
    ensures begins { IsStart code.now.lines place → IsStart code.now.lines result }
{
    match code.ending(place) {
        Some(end) => end.out,
        None => place,
    }
}

// The end of the innermost construct, from where its exceptions go: guarded statements have it behind their handlers.
fn construct_end(code: &SoundCode, out: usize) -> usize
    ensures value { result ≡ end_by code.now (end_at code.now out).last out }
    ensures begins { IsStart code.now.lines out → IsStart code.now.lines result }
{
    match code.ending(out) {
        Some(end) if matches!(end.last, Last::Guards(_)) => end.out,
        _ => out,
    }
}

// The place of the first that handles an exception.
fn guarding(guards: &[Guard], exception: Exception) -> Option<usize>
    ensures { result ≡ guarded exception (map plain_guard guards.now) }
{
    guards
        .iter()
        .find(|guard| handles(guard, exception))
        .map(|guard| guard.to)
}

fn handles(guard: &Guard, exception: Exception) -> bool
    ensures { result ≡ (guard.now.others || names_it exception guard.now.choices.items) }
{
    guard.others || guard.choices.contains(&exception)
}
