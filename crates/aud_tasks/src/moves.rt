// What can happen next.

ghost use Rattle.std.specs.Prelude.{◌≡◌, ◌<◌, ◌-◌, ◌^◌, ℕ, [], length, not, ◌||◌, ◌++◌, IfNone, IfOk, IfSome, IsTrue, OnOk, slice_get, true};
ghost use Rattle.aud_typed.specs.Tree.{Plan};
ghost use Rattle.aud_typed.specs.Ties.View.{plain_program};
ghost use Rattle.aud_meaning.specs.Parts.{is_terminated, own_of};
ghost use Rattle.aud_meaning.specs.Run.{acting_moves, cancelling, moves_at, seen, serve_moves, state_at, turn_moves};
ghost use Rattle.aud_meaning.specs.Tasks.{eligible};
ghost use Rattle.aud_code.specs.Flat.{barrier_at, flat_controls, Flat};
ghost use Rattle.aud_tasks.specs.Enabled.{enabled_moves};
ghost use Rattle.aud_code.specs.Starts.{AreSpots};
ghost use Rattle.aud_tasks.specs.Choices.{ComesTo};
ghost use Rattle.aud_tasks.specs.Running.{ActsSimply, AreSimple};
ghost use Rattle.aud_tasks.specs.Moving.{alone_if, has_some, moves_behind, moves_of, picked, IsNextMover, IsSimple, IsSingle};
ghost use Rattle.aud_state.specs.Reads.{IsPlain};
ghost use Rattle.aud_tasks.specs.Turning.{coming_in};

use crate::again::again_at;
use crate::barriers::Evaluator;
use crate::choice::{Choice, choice_at, is_simple, start_at};
use crate::compiled::Compiled;
use crate::enabled::{Enabled, count, list, nth, only_move};
use crate::times::soonest;
use crate::turn::{Turn, turn_of};
use aud_code::sound_code::SoundCode;
use aud_expr::operands::Operands;
use aud_masters::ending::{can_leave, closable};
use aud_meaning::state::{Move, OpenDelay, State as Standing, Status};
use aud_protected::barriers::{EligibleEntries, eligible};
use aud_protected::starting::may_begin;
use aud_select::selecting::open_set;
use aud_state::state::State;
use std::alloc::{AllocError, Global};

/// The enabled moves, by their tasks' numbers in ascending order and then by their alternatives. None once the program
/// has ended or its output is full.
///
/// # Errors
///
/// Where memory is refused.
pub fn moves(state: &State, alloc: Global, compiled: Compiled<'_>) -> Result<Vec<Move>, AllocError>
    requires { AreSpots compiled.code.now.lines state.now.tasks }
    ensures { IfOk result (λ moves. let plan = (plain_program compiled.entry.program.now).plan in
        moves.items ≡ moves_at plan (flat_controls plan compiled.entry.code.now) state.now) }
{
    let mut operands = Operands::new(alloc);
    let mut moves = Vec::new(alloc);
    list_moves(state, alloc, compiled, &mut operands, &mut moves)?;
    Ok(moves)
}

/// Puts them in the place of what the list had, and tells whether each task that has some acts simply. Where no move is
/// enabled since the program has ended or its output is full, it tells that this is not so.
///
/// # Errors
///
/// Where memory is refused.
pub(crate) fn list_moves(
    state: &State,
    alloc: Global,
    compiled: Compiled<'_>,
    operands: &mut Operands,
    moves: &mut Vec<Move>,
) -> Result<bool, AllocError>
    requires { AreSpots compiled.code.now.lines state.now.tasks }
    ensures listed { OnOk result (let plan = (plain_program compiled.entry.program.now).plan in
        moves.new.items ≡ moves_at plan (flat_controls plan compiled.entry.code.now) state.now) }
    ensures simple { IfOk result (λ all. IsTrue all → AreSimple (plain_program compiled.entry.program.now).plan
        compiled.entry.code.now state.now) }
{
    moves.clear();
    if !may_move(state) {
        return Ok(false);
    }
    let mut are_simple = true;
    let mut task = state.next_awake(0);
    while task < state.len() {
        let is_simple = list_task(state, alloc, compiled, operands, task, moves)?;
        are_simple = are_simple && is_simple;
        task = state.next_awake(task + 1);
    }
    Ok(are_simple)
}

// Puts those of one task at the end of the list, and tells whether it acts simply or has none.
fn list_task(
    state: &State,
    alloc: Global,
    compiled: Compiled<'_>,
    operands: &mut Operands,
    task: usize,
    moves: &mut Vec<Move>,
) -> Result<bool, AllocError>
    requires spots { AreSpots compiled.code.now.lines state.now.tasks }
    requires within { task < length state.now.tasks }
    ensures listed { OnOk result (moves.new.items ≡ moves.old.items
        ++ moves_of (plain_program compiled.entry.program.now).plan compiled.entry.code.now task state.now) }
    ensures simple { IfOk result (λ is. IsTrue is → ActsSimply (plain_program compiled.entry.program.now).plan
        compiled.entry.code.now task state.now) }
{
    let clock = state.clock();
    if acts_simply(state, compiled.code, task) {
        list(&Enabled::One, task, clock, moves)?;
        return Ok(true);
    }
    let enabled = enabled_of(state, alloc, compiled, operands, task)?;
    let before = moves.len();
    list(&enabled, task, clock, moves)?;
    Ok(moves.len() == before)
}

/// The move of this index, counted from 0.
///
/// # Errors
///
/// Where memory is refused.
pub(crate) fn nth_move(
    state: &State,
    alloc: Global,
    compiled: Compiled<'_>,
    operands: &mut Operands,
    index: usize,
) -> Result<Option<Move>, AllocError>
    requires { AreSpots compiled.code.now.lines state.now.tasks }
    ensures { IfOk result (λ found. let plan = (plain_program compiled.entry.program.now).plan in
        found ≡ slice_get (moves_at plan (flat_controls plan compiled.entry.code.now) state.now) index) }
{
    if !may_move(state) {
        return Ok(None);
    }
    let clock = state.clock();
    let mut left = index;
    let mut task = state.next_awake(0);
    while task < state.len() {
        if left == 0 && acts_simply(state, compiled.code, task) {
            return Ok(Some(only_move(task)));
        }
        let enabled = enabled_of(state, alloc, compiled, operands, task)?;
        if let Some(found) = nth(&enabled, task, clock, left) {
            return Ok(Some(found));
        }
        left -= count(&enabled, task, clock);
        task = state.next_awake(task + 1);
    }
    Ok(None)
}

/// The one of this index in a list.
pub(crate) fn move_at(moves: &[Move], index: usize) -> Option<Move>
    ensures { result ≡ slice_get moves.now index }
{
    moves.get(index).copied()
}

/// The first task from this number on that has a move.
pub(crate) fn next_mover(state: &State, compiled: Compiled<'_>, from: usize) -> Option<usize>
    ensures some { IfSome result (λ task. IsNextMover (plain_program compiled.entry.program.now).plan
        compiled.entry.code.now from task state.now) }
    ensures none { IfNone result (moves_behind (plain_program compiled.entry.program.now).plan
        compiled.entry.code.now from state.now ≡ []) }
    ensures few { IfSome result (λ task. task < 2 ^ 64 - 1) }
{
    let mut task = state.next_awake(from);
    while task < state.len() {
        if has_move(state, compiled, task) {
            return Some(task);
        }
        task = state.next_awake(task + 1);
    }
    None
}

/// What can happen next.
pub fn state_of(state: &State, compiled: Compiled<'_>) -> Standing
    ensures { let plan = (plain_program compiled.entry.program.now).plan in
        result ≡ state_at plan (flat_controls plan compiled.entry.code.now) state.now }
{
    if has_ended(state) {
        return Standing::Ended;
    }
    if state.is_cut() {
        return Standing::OutputFull;
    }
    match next_mover(state, compiled, 0) {
        Some(_) => Standing::More,
        None => match soonest(state, compiled.code) {
            Some(time) => Standing::Waiting(time),
            None => Standing::Stuck,
        },
    }
}

// Whether the main procedure is terminated.
fn has_ended(state: &State) -> bool
    ensures { result ≡ is_terminated (own_of 0 state.now).status }
{
    matches!(state.status(0), Status::Terminated)
}

/// Whether the program hasn't ended and its output isn't full.
pub(crate) fn may_move(state: &State) -> bool
    ensures { result ≡ not (is_terminated (own_of 0 state.now).status || state.now.shared.cut) }
{
    !(has_ended(state) || state.is_cut())
}

/// Whether the task of this number has a move.
pub(crate) fn has_move(state: &State, compiled: Compiled<'_>, task: usize) -> bool
    ensures { result ≡ has_some (moves_of (plain_program compiled.entry.program.now).plan
        compiled.entry.code.now task state.now) }
{
    if acts_simply(state, compiled.code, task) {
        return true;
    }
    if state.rests(task) {
        return false;
    }
    match turn_of(state, compiled.code, task) {
        Turn::Resting => false,
        Turn::Closing => closable(state, state.body_master(task)),
        Turn::Completing => true,
        Turn::Serving(_) => true,
        Turn::Restarting(restart) => may_begin(state, task, false, restart.object),
        Turn::Withdrawing(object) => state.is_idle(object),
        Turn::Expiring => has_ended_delay(state.delays(task), task, state.clock()),
        Turn::Cancelling => can_be_cancelled(state, task),
        Turn::Acting => can_act(state, compiled, task),
    }
}

// Whether the time of one of these delays has come.
fn has_ended_delay(delays: &[OpenDelay], task: usize, clock: u64) -> bool
    ensures { result ≡ has_some (picked task clock delays.now) }
{
    nth(&Enabled::Delays(delays), task, clock, 0).is_some()
}

/// Whether a task's own next step is its only move, as far as one look tells.
pub(crate) fn acts_simply(state: &State, code: &SoundCode, task: usize) -> bool
    ensures alone { IsTrue result → (plan : Plan) → moves_of plan code.now task state.now ≡ alone_if true task }
    ensures plain { IsTrue result → IsPlain (own_of task state.now) }
    ensures simple { IsTrue result → (plan : Plan) → IsSimple (coming_in plan code.now task state.now) }
{
    if state.is_plain(task) {
        return is_simple(state, code, task);
    }
    false
}

// The moves of the task of this number.
fn enabled_of<'a>(
    state: &'a State,
    alloc: Global,
    compiled: Compiled<'_>,
    operands: &mut Operands,
    task: usize,
) -> Result<Enabled<'a>, AllocError>
    requires spots { AreSpots compiled.code.now.lines state.now.tasks }
    requires within { task < length state.now.tasks }
    ensures { IfOk result (λ enabled. enabled_moves task state.now.clock enabled
        ≡ moves_of (plain_program compiled.entry.program.now).plan compiled.entry.code.now task state.now) }
{
    match turn_of(state, compiled.code, task) {
        Turn::Resting => Ok(Enabled::None),
        Turn::Closing => Ok(one_if(closable(state, state.body_master(task)))),
        Turn::Completing => Ok(Enabled::One),
        Turn::Serving(serving) => serves(state, alloc, compiled, serving.object),
        Turn::Restarting(restart) => { Ok(one_if(may_begin(state, task, false, restart.object))) }
        Turn::Withdrawing(object) => Ok(one_if(state.is_idle(object))),
        Turn::Expiring => Ok(Enabled::Delays(state.delays(task))),
        Turn::Cancelling => Ok(one_if(can_be_cancelled(state, task))),
        Turn::Acting => acting(state, alloc, compiled, operands, task),
    }
}

// Those of one whose statements go on.
fn acting<'a>(
    state: &'a State,
    alloc: Global,
    compiled: Compiled<'_>,
    operands: &mut Operands,
    task: usize,
) -> Result<Enabled<'a>, AllocError>
    requires spots { AreSpots compiled.code.now.lines state.now.tasks }
    requires within { task < length state.now.tasks }
    ensures { IfOk result (λ enabled. let plan = (plain_program compiled.entry.program.now).plan in
        let code = compiled.entry.code.now in enabled_moves task state.now.clock enabled
        ≡ acting_moves plan (barrier_at code) (coming_in plan code task state.now) task
        (seen plan (flat_controls plan code) state.now)) }
{
    let code = compiled.code;
    if is_simple(state, code, task) {
        return Ok(Enabled::One);
    }
    match choice_at(state, code, task) {
        None => unchosen(state, alloc, compiled, task),
        Some(choice) => choose(state, alloc, code, operands, task, choice),
    }
}

// Those of one at no choice: its own, if that is enabled; at the end of an accept that makes its call again, those of a call.
fn unchosen<'a>(
    state: &'a State,
    alloc: Global,
    compiled: Compiled<'_>,
    task: usize,
) -> Result<Enabled<'a>, AllocError>
    requires within { task < length state.now.tasks }
    requires single { IsSingle (coming_in (plain_program compiled.program.now).plan compiled.code.now task state.now) }
    ensures { IfOk result (λ enabled. let plan = (plain_program compiled.entry.program.now).plan in
        let code = compiled.entry.code.now in enabled_moves task state.now.clock enabled
        ≡ acting_moves plan (barrier_at code) (coming_in plan code task state.now) task
        (seen plan (flat_controls plan code) state.now)) }
{
    match again_at(state, compiled.code, task) {
        Some(target) => {
            let numbers = state.open_alternatives(alloc, target.task, target.entry)?;
            Ok(Enabled::Alternatives(numbers))
        }
        None => Ok(one_if(can_act(state, compiled, task))),
    }
}

// Those of one that services an object: one for each entry that is eligible.
fn serves<'a>(
    state: &State,
    alloc: Global,
    compiled: Compiled<'_>,
    object: usize,
) -> Result<Enabled<'a>, AllocError>
    ensures { IfOk result (λ enabled. let plan = (plain_program compiled.entry.program.now).plan in
        let code = compiled.entry.code.now in (task : ℕ) → enabled_moves task state.now.clock enabled
        ≡ serve_moves plan (barrier_at code) (eligible plan (barrier_at code) object state.now) task) }
{
    let mut barriers = Evaluator::new(alloc, compiled);
    match eligible(state, alloc, &mut barriers, object)? {
        EligibleEntries::Raises(_) => Ok(Enabled::One),
        EligibleEntries::Are(entries) => Ok(Enabled::Alternatives(entries)),
    }
}

// Those of one at such a choice: what is open, or who is called, is evaluated.
fn choose<'a>(
    state: &'a State,
    alloc: Global,
    code: &SoundCode,
    operands: &mut Operands,
    task: usize,
    choice: Choice,
) -> Result<Enabled<'a>, AllocError>
    requires spots { AreSpots code.now.lines state.now.tasks }
    requires within { task < length state.now.tasks }
    requires comes { (plan : Plan) → ComesTo choice plan code.now task state.now }
    ensures { IfOk result (λ enabled. (plan : Plan) → enabled_moves task state.now.clock enabled
        ≡ acting_moves plan (barrier_at code.now) (coming_in plan code.now task state.now) task
        (seen plan (flat_controls plan code.now) state.now)) }
{
    let is_marked = state.evaluate_to_mark(code, task, operands)?;
    if !is_marked {
        return Ok(Enabled::One);
    }
    match choice {
        Choice::Select => {
            let numbers = open_set(state, alloc, task, operands.accepts())?;
            Ok(Enabled::Alternatives(numbers))
        }
        Choice::Call(entry) => match operands.callee() {
            Some(callee) => {
                let numbers = state.open_alternatives(alloc, callee, entry)?;
                Ok(Enabled::Alternatives(numbers))
            }
            None => Ok(Enabled::One),
        },
    }
}

// Its next step alone, if that is enabled.
fn one_if<'a>(is_enabled: bool) -> Enabled<'a>
    ensures { (task : ℕ) → (clock : ℕ) → enabled_moves task clock result ≡ alone_if is_enabled task }
{
    if is_enabled {
        Enabled::One
    } else {
        Enabled::None
    }
}

// Whether its call can be cancelled by now.
fn can_be_cancelled(state: &State, task: usize) -> bool
    ensures { (plan : Plan) → (code : Flat) → alone_if result task ≡ turn_moves plan (barrier_at code)
        (cancelling (own_of task state.now).call) task (seen plan (flat_controls plan code) state.now) }
{
    match state.cancelled_from(task) {
        Some(time) => time <= state.clock(),
        None => false,
    }
}

// Whether its own next step is enabled: not where an action of another is in the way of a call, nor where others keep
// the master that it leaves.
fn can_act(state: &State, compiled: Compiled<'_>, task: usize) -> bool
    requires { task < length state.now.tasks }
    ensures { let plan = (plain_program compiled.entry.program.now).plan in
        let code = compiled.entry.code.now in
        result ≡ has_some (acting_moves plan (barrier_at code)
        (coming_in plan code task state.now) task (seen plan (flat_controls plan code) state.now)) }
{
    match start_at(state, compiled, task) {
        Some(start) => may_begin(state, task, start.reading, start.object),
        None => can_leave(state, compiled.code, task),
    }
}
