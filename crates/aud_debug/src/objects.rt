// Protected objects.

ghost use Rattle.std.specs.Prelude.{◌≡◌, ◌∷◌, [], drop, length, map, nat_eq, slice_index, IfOk};
ghost use Rattle.aud_text.specs.Ties.Adds.{Adds};
ghost use Rattle.aud_typed.specs.Ties.View.{plain_named, plain_program};
ghost use Rattle.aud_meaning.specs.Evaluation.{frame_at};
ghost use Rattle.aud_meaning.specs.Listings.{view, view_at};
ghost use Rattle.aud_meaning.specs.Listings.Objects.{action_words, barrier_lines, barrier_word, component_lines, is_open, lines_of_object, part_around, within};
ghost use Rattle.aud_meaning.specs.Listings.Values.{frame_lines, numbered};
ghost use Rattle.aud_meaning.specs.Parts.{any, object_of};
ghost use Rattle.aud_code.specs.Flat.{barrier_at, flat_controls};
ghost use Rattle.aud_store.specs.Ties.Extents.{extent_in};
ghost use Rattle.aud_machine.specs.Shown.{program_in};
ghost use Rattle.aud_machine.specs.Shows.{IfShows};
ghost use Rattle.aud_debug.specs.Listed.{as_lines};
ghost use Rattle.aud_debug.specs.Ties.Pages.{AddsLines};
ghost use Rattle.aud_debug.specs.Ties.Watched.{barrier_line, component_line, declared_in, object_head, object_lines_of, tasks_of};

use crate::declared::{components_of, entry_name, object_level, object_name, protected_entries_of};
use crate::lines::Lines;
use crate::names::number_of;
use crate::page::Page;
use crate::values::{cells_of, is_hidden, push_values};
use aud_expr::operands::Operands;
use aud_machine::compiled::Compiled;
use aud_machine::machine::Machine;
use aud_meaning::state::Action;
use aud_state::state::State;
use aud_store::stack::Open;
use aud_text::digits::push_decimal;
use aud_text::int32::Int32;
use aud_text::raise::Raise;
use aud_typed::program::Named;
use std::alloc::{AllocError, Global};

/// The protected objects whose declarative parts are not left, by their numbers: a line with the tasks whose actions are under way,
/// one for each component, with its value, and one for each entry, with what its barrier comes to now.
pub(crate) fn objects(machine: &Machine, alloc: Global) -> Result<Lines, AllocError>
    ensures { IfOk result (λ lines. IfShows machine.now (λ c.
        lines ≡ as_lines (view (program_in machine.now) c).objects)) }
{
    let mut page = Page::new(alloc);
    let mut operands = Operands::new(alloc);
    push_objects(
        &mut page,
        machine.parts(),
        machine.compiled(),
        &mut operands,
    )?;
    Ok(page.into_lines())
}

// Writes those of all objects.
fn push_objects(
    page: &mut Page,
    state: &State,
    compiled: Compiled<'_>,
    operands: &mut Operands,
) -> Result<(), AllocError>
    ensures { let plan = (plain_program compiled.entry.program.now).plan in AddsLines result page.old page.new
        (view_at plan (flat_controls plan compiled.entry.code.now) state.now).objects }
{
    for object in 0..state.objects() {
        push_object(page, state, compiled, operands, object)?;
    }
    Ok(())
}

// Writes those of an object, unless its declarative part is left.
fn push_object(
    page: &mut Page,
    state: &State,
    compiled: Compiled<'_>,
    operands: &mut Operands,
    object: usize,
) -> Result<(), AllocError>
    ensures { let plan = (plain_program compiled.entry.program.now).plan in AddsLines result page.old page.new
        (object_lines_of plan compiled.entry.code.now object state.now) }
{
    if is_open(state, part_around(state, compiled, object)) {
        push_shown(page, state, compiled, operands, object)
    } else {
        Ok(())
    }
}

// Writes those of an object.
fn push_shown(
    page: &mut Page,
    state: &State,
    compiled: Compiled<'_>,
    operands: &mut Operands,
    object: usize,
) -> Result<(), AllocError>
    ensures { let plan = (plain_program compiled.entry.program.now).plan in AddsLines result page.old page.new
        (lines_of_object plan (barrier_at compiled.entry.code.now) object (declared_in plan object state.now)
        (object_of object state.now) state.now) }
{
    push_first(page, state, compiled, object)?;
    push_components(page, state, compiled, object)?;
    push_barriers(page, state, compiled, operands, object)?;
    Ok(())
}

// The frame of the declarative part that declares an object.
fn part_around(state: &State, compiled: Compiled<'_>, object: usize) -> usize
    ensures { let plan = (plain_program compiled.entry.program.now).plan in
        result ≡ part_around (declared_in plan object state.now) (object_of object state.now) }
{
    let level = object_level(compiled, state.declaration(object));
    number_at(state.object_display(object), level.saturating_sub(1))
}

// The number at a place of a list, and 0 past its end.
fn number_at(numbers: &[usize], index: usize) -> usize
    ensures { result ≡ slice_index numbers.now index }
{
    match numbers.get(index) {
        Some(number) => *number,
        None => 0,
    }
}

// Whether a task has a frame open.
fn is_open(state: &State, frame: usize) -> bool
    ensures { result ≡ is_open frame state.now }
{
    for task in 0..state.len() {
        if has_open(state.opened(task), frame) {
            return true;
        }
    }
    false
}

// Whether one of these is this frame.
fn has_open(opened: &[Open], frame: usize) -> bool
    ensures { result ≡ any (λ e. nat_eq e.frame frame) (map extent_in opened.now) }
{
    for open in opened {
        if open.frame == frame {
            return true;
        }
    }
    false
}

// Writes the line of an object itself.
fn push_first(
    page: &mut Page,
    state: &State,
    compiled: Compiled<'_>,
    object: usize,
) -> Result<(), AllocError>
    ensures { AddsLines result page.old page.new
        (object_head (plain_program compiled.entry.program.now).plan object state.now ∷ []) }
{
    push_head(&mut page.bytes, state, compiled, object)?;
    page.end_line()?;
    Ok(())
}

// Writes its number, its name, and the tasks that have an action under way.
fn push_head(
    out: &mut Vec<u8>,
    state: &State,
    compiled: Compiled<'_>,
    object: usize,
) -> Result<(), AllocError>
    ensures { Adds result out.old out.new
        (object_head (plain_program compiled.entry.program.now).plan object state.now) }
{
    push_decimal(out, number_of(object)?)?;
    out.extend_from_slice(b" ")?;
    out.extend_from_slice(object_name(compiled, state.declaration(object)))?;
    push_actions(out, state.actions(object))?;
    Ok(())
}

fn push_actions(out: &mut Vec<u8>, actions: &[Action]) -> Result<(), AllocError>
    ensures { Adds result out.old out.new (action_words actions.now) }
{
    if actions.is_empty() {
        out.extend_from_slice(b" idle")?;
        return Ok(());
    }
    push_tasks(out, actions)
}

fn push_tasks(out: &mut Vec<u8>, actions: &[Action]) -> Result<(), AllocError>
    ensures { Adds result out.old out.new (numbered (tasks_of actions.now)) }
{
    for action in actions {
        out.extend_from_slice(b" ")?;
        push_decimal(out, number_of(action.task)?)?;
    }
    Ok(())
}

// Writes the components of an object.
fn push_components(
    page: &mut Page,
    state: &State,
    compiled: Compiled<'_>,
    object: usize,
) -> Result<(), AllocError>
    ensures { let plan = (plain_program compiled.entry.program.now).plan in AddsLines result page.old page.new
        (component_lines object (declared_in plan object state.now) (object_of object state.now)
        state.now.shared.frames) }
{
    let number = number_of(object)?;
    let declaration = state.declaration(object);
    let name = object_name(compiled, declaration);
    let components = components_of(compiled, declaration);
    push_cells(
        page,
        number,
        name,
        components,
        object_cells(state, compiled, object),
    )?;
    Ok(())
}

// The cells of the frame that the bodies of an object see at its level, but for the first one, which has the object's own number.
fn object_cells<'a>(state: &'a State, compiled: Compiled<'_>, object: usize) -> &'a [Int32]
    ensures { let plan = (plain_program compiled.entry.program.now).plan in result.now
        ≡ drop 1 (frame_at (object_of object state.now).display state.now.shared.frames
        (declared_in plan object state.now).level) }
{
    let level = object_level(compiled, state.declaration(object));
    let cells = state.frame(number_at(state.object_display(object), level));
    cells.split_at(1usize.min(cells.len())).1
}

// Writes these components of an object of this number and name, one a line.
fn push_cells(
    page: &mut Page,
    number: u64,
    name: &[u8],
    components: &[Named],
    cells: &[Int32],
) -> Result<(), AllocError>
    ensures { AddsLines result page.old page.new (frame_lines number (length components.now)
        (map (within name.now) (map plain_named components.now)) cells.now) }
{
    let mut left = cells;
    for component in components {
        let (own, behind) = left.split_at(cells_of(component.shown).min(left.len()));
        push_component(page, number, name, component, own)?;
        left = behind;
    }
    Ok(())
}

// Writes a component with its value, unless it is hidden.
fn push_component(
    page: &mut Page,
    number: u64,
    name: &[u8],
    component: &Named,
    cells: &[Int32],
) -> Result<(), AllocError>
    ensures { AddsLines result page.old page.new
        (component_line number name.now (plain_named component.now) cells.now) }
{
    if is_hidden(component.shown) {
        return Ok(());
    }
    push_decimal(&mut page.bytes, number)?;
    page.bytes.extend_from_slice(b" ")?;
    page.bytes.extend_from_slice(name)?;
    page.bytes.extend_from_slice(b".")?;
    page.bytes.extend_from_slice(component.name.as_bytes())?;
    page.bytes.extend_from_slice(b" =")?;
    push_values(&mut page.bytes, component.shown, cells)?;
    page.end_line()?;
    Ok(())
}

// Writes the barriers of its entries.
fn push_barriers(
    page: &mut Page,
    state: &State,
    compiled: Compiled<'_>,
    operands: &mut Operands,
    object: usize,
) -> Result<(), AllocError>
    ensures { let plan = (plain_program compiled.entry.program.now).plan in
        let d = declared_in plan object state.now in AddsLines result page.old page.new
        (barrier_lines plan (barrier_at compiled.entry.code.now) object d d.entries state.now) }
{
    let entries = protected_entries_of(compiled, state.declaration(object));
    for entry in entries {
        push_barrier(page, state, compiled, operands, object, *entry)?;
    }
    Ok(())
}

// Writes that of an entry.
fn push_barrier(
    page: &mut Page,
    state: &State,
    compiled: Compiled<'_>,
    operands: &mut Operands,
    object: usize,
    entry: usize,
) -> Result<(), AllocError>
    ensures { let plan = (plain_program compiled.entry.program.now).plan in AddsLines result page.old page.new
        (barrier_line plan compiled.entry.code.now object entry state.now ∷ []) }
{
    push_decision(&mut page.bytes, state, compiled, operands, object, entry)?;
    page.end_line()?;
    Ok(())
}

fn push_decision(
    out: &mut Vec<u8>,
    state: &State,
    compiled: Compiled<'_>,
    operands: &mut Operands,
    object: usize,
    entry: usize,
) -> Result<(), AllocError>
    ensures { let plan = (plain_program compiled.entry.program.now).plan in
        Adds result out.old out.new (barrier_line plan compiled.entry.code.now object entry state.now) }
{
    push_decimal(out, number_of(object)?)?;
    out.extend_from_slice(b" ")?;
    out.extend_from_slice(object_name(compiled, state.declaration(object)))?;
    out.extend_from_slice(b".")?;
    out.extend_from_slice(entry_name(compiled, entry))?;
    out.extend_from_slice(b" ")?;
    let decision = state.decide(compiled.code, object, entry, operands)?;
    out.extend_from_slice(barrier_word(decision.met))?;
    Ok(())
}

fn barrier_word(met: Result<bool, Raise>) -> &'static [u8]
    ensures { result.now ≡ barrier_word met }
{
    match met {
        Ok(true) => b"TRUE",
        Ok(false) => b"FALSE",
        Err(raise) => raise.name(),
    }
}
