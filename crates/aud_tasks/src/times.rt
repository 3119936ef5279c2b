// The times that tasks wait for.

ghost use Rattle.std.specs.Prelude.{◌≡◌, None, Option, map};
ghost use Rattle.aud_typed.specs.Tree.{Plan};
ghost use Rattle.aud_meaning.specs.Run.{seen, times_from};
ghost use Rattle.aud_meaning.specs.declared.state.OpenDelay.{OpenDelay as Open};
ghost use Rattle.aud_code.specs.Flat.{barrier_at, flat_controls};
ghost use Rattle.aud_tasks.specs.Moving as moving;
ghost use Rattle.aud_tasks.specs.Moving.{times_of};

use crate::turn::{Turn, turn_of};
use aud_code::sound_code::SoundCode;
use aud_meaning::state::OpenDelay;
use aud_state::state::State;

/// The soonest time that a task waits for.
pub(crate) fn soonest(state: &State, code: &SoundCode) -> Option<u64>
    ensures { (plan : Plan) → result ≡ moving.soonest None (times_from plan (barrier_at code.now) 0
        (seen plan (flat_controls plan code.now) state.now).tasks
        (seen plan (flat_controls plan code.now) state.now)) }
{
    let mut found = None;
    for task in 0..state.len() {
        found = soonest_of(state, code, task, found);
    }
    found
}

// The soonest of those of one task, and of what was found before.
fn soonest_of(state: &State, code: &SoundCode, task: usize, found: Option<u64>) -> Option<u64>
    ensures { (plan : Plan) → result ≡ moving.soonest found (times_of plan code.now task state.now) }
{
    match turn_of(state, code, task) {
        Turn::Expiring => soonest_delay(state.delays(task), found),
        Turn::Cancelling => match state.cancelled_from(task) {
            Some(time) => Some(sooner(found, time)),
            None => found,
        },
        _ => found,
    }
}

// The soonest of those of some delays, and of what was found before.
fn soonest_delay(delays: &[OpenDelay], found: Option<u64>) -> Option<u64>
    ensures { result ≡ moving.soonest found (map (λ (d : Open). d.time) delays.now) }
{
    let mut first = found;
    for delay in delays {
        first = Some(sooner(first, delay.time));
    }
    first
}

// The sooner one of a time and of what was found before.
fn sooner(found: Option<u64>, time: u64) -> u64
    ensures { result ≡ moving.sooner found time }
{
    match found {
        Some(first) => first.min(time),
        None => time,
    }
}
