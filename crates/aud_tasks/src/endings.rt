// What the endings of steps do.

ghost use Rattle.std.specs.Prelude.{◌≡◌, ◌≤◌, ℕ, Some, IfOk, OnOk, Option, slice_get};
ghost use Rattle.aud_typed.specs.Ties.View.{plain_program, plain_tasks};
ghost use Rattle.aud_meaning.specs.Configuration.{TaskAt};
ghost use Rattle.aud_meaning.specs.Control.{activates, declares_tasks, ends_activation};
ghost use Rattle.aud_meaning.specs.Parts.{task_plan};
ghost use Rattle.aud_code.specs.Eval.{asked_end};
ghost use Rattle.aud_code.specs.Flat.{end_at};
ghost use Rattle.aud_code.specs.Instruction.{Raised, Reached};
ghost use Rattle.aud_code.specs.Places.{loops_of, Spot};
ghost use Rattle.aud_code.specs.Sound.{counts_of, EndingFine, LastFine};
ghost use Rattle.aud_code.specs.View.{plain_among, plain_end, plain_last, way_beside};
ghost use Rattle.aud_sequential.specs.Steps.{IsOfOne};
ghost use Rattle.aud_state.specs.Fast.{scene};
ghost use Rattle.aud_tasks.specs.Counting.{most_of_barriers};
ghost use Rattle.aud_tasks.specs.Acting.{DoesAsked, DoesEnd};
ghost use Rattle.aud_tasks.specs.Endings.{is_declaration, is_statement, is_too_long};

use crate::compiled::Compiled;
use crate::leave::leave;
use crate::{entries, objects, requeues};
use aud_abort::aborting;
use aud_code::line::{Among, EndLine, Ending, Last};
use aud_expr::operands::Operands;
use aud_masters::{activation, creation};
use aud_meaning::state::OpenAccept;
use aud_state::state::State;
use aud_text::limits::ELEMENTS;
use aud_text::place::Pos;
use aud_text::raise::Raise;
use aud_typed::program::{Exception, Tasks};
use std::alloc::{AllocError, Global};

/// What the ending of a step does with its operands. It gives the instructions of barriers that were executed.
pub(crate) fn finish(
    state: &mut State,
    alloc: Global,
    compiled: Compiled<'_>,
    alternative: Option<usize>,
    n: usize,
    end: &EndLine,
    operands: &mut Operands,
) -> Result<u64, AllocError>
    requires there { (t : TaskAt Spot) → slice_get state.old.tasks n ≡ Some t →
        plain_end end.now ≡ end_at compiled.code.now t.control.place }
    requires fine { LastFine (plain_last end.now.last) (counts_of operands.old) }
    ensures does { OnOk result (DoesEnd (plain_program compiled.entry.program.now).plan
        compiled.entry.code.now compiled.entry.limits alternative n (plain_end end.now)
        (Reached operands.old) state.old state.new) }
    ensures few { IfOk result (λ ticks. ticks ≤ most_of_barriers
        (plain_program compiled.entry.program.now).plan compiled.entry.code.now) }
{
    if is_too_long(&end.last) {
        let code = compiled.code;
        activation::raise_in_part(state, alloc, code, n, Raise::Storage, end.at)?;
        return Ok(0);
    }
    match &end.last {
        Last::Does(_, _) => {
            step_alone(state, compiled, n, end, operands)?;
            Ok(0)
        }
        Last::Concerns(among, _) => concern(
            state,
            alloc,
            compiled,
            alternative,
            n,
            among,
            end.at,
            operands,
        ),
        Last::Continues { .. } => {
            step_alone(state, compiled, n, end, operands)?;
            Ok(0)
        }
        Last::Guards(_) => {
            step_alone(state, compiled, n, end, operands)?;
            Ok(0)
        }
        Last::Ends(_, _) => leave(state, alloc, compiled, alternative, n, 0),
        Last::Leaves { loops, .. } => leave(state, alloc, compiled, alternative, n, *loops),
    }
}

/// What it does where the evaluation before it raises: the exception is pending there, and ends the part of a
/// declaration. Where nothing is evaluated it does what it does.
pub(crate) fn fail(
    state: &mut State,
    alloc: Global,
    compiled: Compiled<'_>,
    alternative: Option<usize>,
    n: usize,
    end: &EndLine,
    raise: Raise,
    operands: &mut Operands,
) -> Result<u64, AllocError>
    requires { (t : TaskAt Spot) → slice_get state.old.tasks n ≡ Some t →
        plain_end end.now ≡ end_at compiled.code.now t.control.place }
    ensures does { OnOk result (DoesEnd (plain_program compiled.entry.program.now).plan
        compiled.entry.code.now compiled.entry.limits alternative n (plain_end end.now)
        (Raised raise) state.old state.new) }
    ensures few { IfOk result (λ ticks. ticks ≤ most_of_barriers
        (plain_program compiled.entry.program.now).plan compiled.entry.code.now) }
{
    if is_declaration(&end.last) {
        activation::raise_in_part(state, alloc, compiled.code, n, raise, end.at)?;
        return Ok(0);
    }
    if is_statement(&end.last) {
        state.raise(n, Exception::Predefined(raise), end.at);
        return Ok(0);
    }
    finish(state, alloc, compiled, alternative, n, end, operands)
}

// What it does that concerns others.
fn concern(
    state: &mut State,
    alloc: Global,
    compiled: Compiled<'_>,
    alternative: Option<usize>,
    n: usize,
    among: &Among,
    at: Pos,
    operands: &Operands,
) -> Result<u64, AllocError>
    requires there { (t : TaskAt Spot) → slice_get state.old.tasks n ≡ Some t →
        (end_at compiled.code.now t.control.place).exit ≡ way_beside among.now }
    requires fine { EndingFine (plain_among among.now) (counts_of operands.now) }
    ensures does { OnOk result (DoesAsked (plain_program compiled.entry.program.now).plan
        compiled.entry.code.now compiled.entry.limits alternative n
        (asked_end (plain_among among.now) (loops_of (way_beside among.now)) at (scene n state.old) operands.now)
        state.old state.new) }
    ensures few { IfOk result (λ ticks. ticks ≤ most_of_barriers
        (plain_program compiled.entry.program.now).plan compiled.entry.code.now) }
{
    match among {
        Among::DeclareTasks(tasks) => declare(state, alloc, compiled, n, tasks, at)?,
        Among::DeclareObject(declaration) => {
            objects::declare(state, alloc, compiled, n, *declaration, at, operands)?;
        }
        Among::Activate => activate(state, alloc, compiled, n, at)?,
        Among::Activated => end_activation(state, compiled, n)?,
        Among::Call { entry, kind, .. } => entries::call(
            state,
            alloc,
            compiled,
            alternative,
            n,
            *entry,
            *kind,
            at,
            operands,
        )?,
        Among::CallObject {
            object,
            entry,
            kind,
            ..
        } => {
            return objects::call(
                state, alloc, compiled, n, *object, *entry, *kind, at, operands,
            );
        }
        Among::Operation { object, unit } => {
            objects::start(state, alloc, compiled, n, *object, *unit, at, operands)?;
        }
        Among::Delay => entries::delay(state, alloc, compiled, n, at, operands)?,
        Among::Accept { entry, region, .. } => {
            let accept = OpenAccept {
                alternative: 0,
                entry: *entry,
                at,
                region: *region,
            };
            entries::accept(state, alloc, compiled, n, accept)?;
        }
        Among::Select { has_else, .. } => entries::select(
            state,
            alloc,
            compiled,
            alternative,
            n,
            *has_else,
            at,
            operands,
        )?,
        Among::Abort => aborting::abort(state, alloc, compiled.code, operands.names(), at, n)?,
        Among::RequeueTask { again, way } => {
            requeues::on_task(state, compiled, n, *again, *way, at, operands);
        }
        Among::RequeueObject { object, again, way } => {
            requeues::on_object(state, compiled, n, *object, *again, *way, at, operands);
        }
    }
    Ok(0)
}

// What it does that concerns the task alone.
fn step_alone(
    state: &mut State,
    compiled: Compiled<'_>,
    n: usize,
    end: &EndLine,
    operands: &mut Operands,
) -> Result<(), AllocError>
    requires there { (t : TaskAt Spot) → slice_get state.old.tasks n ≡ Some t →
        plain_end end.now ≡ end_at compiled.code.now t.control.place }
    requires alone { IsOfOne end.now.last }
    requires fine { LastFine (plain_last end.now.last) (counts_of operands.old) }
    ensures { OnOk result ((alternative : Option ℕ) →
        DoesEnd (plain_program compiled.entry.program.now).plan compiled.entry.code.now
        compiled.entry.limits alternative n (plain_end end.now) (Reached operands.old) state.old state.new) }
{
    state.step_alone(n, end, compiled.code, &compiled.program.units, operands)
}

// The tasks are activated that the declarative part has created.
fn activate(
    state: &mut State,
    alloc: Global,
    compiled: Compiled<'_>,
    n: usize,
    at: Pos,
) -> Result<(), AllocError>
    ensures { OnOk result ((alternative : Option ℕ) →
        DoesAsked (plain_program compiled.entry.program.now).plan
        compiled.entry.code.now compiled.entry.limits alternative n (activates at) state.old state.new) }
{
    let units = &compiled.program.units;
    activation::begin_activation(state, alloc, compiled.code, units, n, at)
}

// The activation of the task ends.
fn end_activation(state: &mut State, compiled: Compiled<'_>, n: usize) -> Result<(), AllocError>
    ensures { OnOk result ((alternative : Option ℕ) →
        DoesAsked (plain_program compiled.entry.program.now).plan
        compiled.entry.code.now compiled.entry.limits alternative n ends_activation state.old state.new) }
{
    activation::end_activation(state, compiled.code, n, false);
    state.take(compiled.code, n, 0);
    Ok(())
}

// Tasks are declared.
fn declare(
    state: &mut State,
    alloc: Global,
    compiled: Compiled<'_>,
    n: usize,
    tasks: &Tasks,
    at: Pos,
) -> Result<(), AllocError>
    ensures { OnOk result ((alternative : Option ℕ) →
        DoesAsked (plain_program compiled.entry.program.now).plan
        compiled.entry.code.now compiled.entry.limits alternative n (declares_tasks at (plain_tasks tasks.now))
        state.old state.new) }
{
    let unit = unit_of_type(compiled, tasks.task_type);
    let units = &compiled.program.units;
    let limits = compiled.limits;
    creation::create(
        state,
        alloc,
        compiled.code,
        units,
        unit,
        limits,
        n,
        tasks,
        at,
    )
}

// The number of the body of a task type.
fn unit_of_type(compiled: Compiled<'_>, task_type: usize) -> usize
    ensures { result ≡
        (task_plan (plain_program compiled.entry.program.now).plan task_type).unit }
{
    match compiled.program.tasks.get(task_type) {
        Some(task_type) => task_type.unit,
        None => 0,
    }
}

// Whether it is a declaration of an array with too many elements.
fn is_too_long(last: &Last) -> bool
    ensures { result ≡ is_too_long last.now }
{
    match last {
        Last::Does(Ending::DeclareArray(_, count), _) => *count > ELEMENTS as usize,
        _ => false,
    }
}

// Whether it is a declaration of a variable with a value, or of an object.
fn is_declaration(last: &Last) -> bool
    ensures { result ≡ is_declaration last.now }
{
    matches!(
        last,
        Last::Does(Ending::Declare { .. }, _) | Last::Concerns(Among::DeclareObject(_), _)
    )
}

// Whether what is evaluated before it may raise.
fn is_statement(last: &Last) -> bool
    ensures { result ≡ is_statement last.now }
{
    matches!(last, Last::Does(_, _) | Last::Concerns(_, _))
}
