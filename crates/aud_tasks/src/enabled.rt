// The moves of one task.

ghost use Rattle.std.specs.Prelude.{◌≡◌, ◌∷◌, ◌++◌, ℕ, [], length, slice_get, OnOk};
ghost use Rattle.aud_meaning.specs.Run.{own_move, picks};
ghost use Rattle.aud_tasks.specs.Enabled.{each_or_one, enabled_moves};
ghost use Rattle.aud_tasks.specs.Moving.{picked};

use aud_meaning::state::{Move, OpenDelay};
use aud_select::expiring::expired;
use std::alloc::AllocError;

/// The moves that a task has: none; its next step alone; one for each of these alternatives, and its next step alone
/// where there are none of them; or one for each of these delays whose time has come.
#[derive(Drop)]
pub(crate) enum Enabled<'a> {
    None,
    One,
    Alternatives(Vec<usize>),
    Delays(&'a [OpenDelay]),
}

/// How many these are.
pub(crate) fn count(enabled: &Enabled<'_>, task: usize, clock: u64) -> usize
    ensures { result ≡ length (enabled_moves task clock enabled.now) }
{
    match enabled {
        Enabled::None => 0,
        Enabled::One => 1,
        Enabled::Alternatives(numbers) => count_alternatives(numbers),
        Enabled::Delays(delays) => count_ended(delays, task, clock),
    }
}

/// The one of this index.
pub(crate) fn nth(enabled: &Enabled<'_>, task: usize, clock: u64, index: usize) -> Option<Move>
    ensures { result ≡ slice_get (enabled_moves task clock enabled.now) index }
{
    match enabled {
        Enabled::None => None,
        Enabled::One => nth_only(task, index),
        Enabled::Alternatives(numbers) => nth_alternative(numbers, task, index),
        Enabled::Delays(delays) => nth_ended(delays, task, clock, index),
    }
}

/// All of them are put behind others.
pub(crate) fn list(
    enabled: &Enabled<'_>,
    task: usize,
    clock: u64,
    moves: &mut Vec<Move>,
) -> Result<(), AllocError>
    ensures { OnOk result (moves.new.items ≡
        moves.old.items ++ enabled_moves task clock enabled.now) }
{
    match enabled {
        Enabled::None => Ok(()),
        Enabled::One => {
            moves.push(only_move(task))?;
            Ok(())
        }
        Enabled::Alternatives(numbers) => list_alternatives(numbers, task, moves),
        Enabled::Delays(delays) => list_ended(delays, task, clock, moves),
    }
}

/// The only move of a task.
pub(crate) fn only_move(task: usize) -> Move
    ensures { result ≡ own_move task }
{
    Move {
        task,
        alternative: None,
    }
}

// It, where its index is asked for.
fn nth_only(task: usize, index: usize) -> Option<Move>
    ensures { result ≡ slice_get (own_move task ∷ []) index }
{
    if index == 0 {
        Some(only_move(task))
    } else {
        None
    }
}

// How many there are for these alternatives.
fn count_alternatives(numbers: &[usize]) -> usize
    ensures { (task : ℕ) → result ≡ length (each_or_one task numbers.now) }
{
    if numbers.is_empty() { 1 } else { numbers.len() }
}

// The one of this index among those for these alternatives.
fn nth_alternative(numbers: &[usize], task: usize, index: usize) -> Option<Move>
    ensures { result ≡ slice_get (each_or_one task numbers.now) index }
{
    if numbers.is_empty() {
        return nth_only(task, index);
    }
    match numbers.get(index) {
        Some(number) => Some(pick(task, *number)),
        None => None,
    }
}

// Those for these alternatives are put behind others.
fn list_alternatives(
    numbers: &[usize],
    task: usize,
    moves: &mut Vec<Move>,
) -> Result<(), AllocError>
    ensures { OnOk result (moves.new.items ≡ moves.old.items ++ each_or_one task numbers.now) }
{
    if numbers.is_empty() {
        moves.push(only_move(task))?;
        return Ok(());
    }
    for number in numbers {
        moves.push(pick(task, *number))?;
    }
    Ok(())
}

// Its move that takes the alternative of this number.
fn pick(task: usize, alternative: usize) -> Move
    ensures { result ≡ picks task alternative }
{
    if alternative == 0 {
        only_move(task)
    } else {
        Move {
            task,
            alternative: Some(alternative),
        }
    }
}

// How many of these delays have ended.
fn count_ended(delays: &[OpenDelay], task: usize, clock: u64) -> usize
    ensures { result ≡ length (picked task clock delays.now) }
{
    let mut count = 0;
    for delay in delays {
        if expired(delay, clock) {
            count += 1;
        }
    }
    count
}

// The move for the one of this index among them.
fn nth_ended(delays: &[OpenDelay], task: usize, clock: u64, index: usize) -> Option<Move>
    ensures { result ≡ slice_get (picked task clock delays.now) index }
{
    let mut left = index;
    for delay in delays {
        if expired(delay, clock) {
            if left == 0 {
                return Some(pick(task, delay.alternative));
            }
            left -= 1;
        }
    }
    None
}

// The moves for all of them are put behind others.
fn list_ended(
    delays: &[OpenDelay],
    task: usize,
    clock: u64,
    moves: &mut Vec<Move>,
) -> Result<(), AllocError>
    ensures { OnOk result (moves.new.items ≡
        moves.old.items ++ picked task clock delays.now) }
{
    for delay in delays {
        if expired(delay, clock) {
            moves.push(pick(task, delay.alternative))?;
        }
    }
    Ok(())
}
