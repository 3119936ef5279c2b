// Variables.

ghost use Rattle.std.specs.Prelude.{◌≡◌, [], map, slice_index_or, take, IfOk};
ghost use Rattle.aud_typed.specs.Ties.View.{plain_named, plain_region};
ghost use Rattle.aud_meaning.specs.Listings.{view};
ghost use Rattle.aud_store.specs.Ties.Extents.{extent_in};
ghost use Rattle.aud_machine.specs.Shown.{program_in};
ghost use Rattle.aud_machine.specs.Shows.{IfShows};
ghost use Rattle.aud_debug.specs.Ties.Extents.{extent_lines};
ghost use Rattle.aud_debug.specs.Listed.{variables_of};
ghost use Rattle.aud_debug.specs.Ties.Pages.{AddsLines};

use crate::lines::Lines;
use crate::page::Page;
use crate::values::push_frame;
use aud_machine::machine::Machine;
use aud_state::state::State;
use aud_store::stack::Open;
use aud_typed::program::Named;
use std::alloc::{AllocError, Global};

/// The variables in the open frames of the task of this number, which counts from 1: from the outermost frame inwards, those
/// that are elaborated, in the order of their declarations, one a line: the frame's depth, the name, and the value. None where
/// there is no such task.
pub(crate) fn variables(
    machine: &Machine,
    alloc: Global,
    task: u32,
) -> Result<Option<Lines>, AllocError>
    ensures { IfOk result (λ lines. IfShows machine.now (λ c.
        lines ≡ variables_of task (view (program_in machine.now) c))) }
{
    let state = machine.parts();
    let Some(task) = (task as usize).checked_sub(1) else {
        return Ok(None);
    };
    if state.len() <= task {
        return Ok(None);
    }
    let regions = &machine.program().regions;
    let mut page = Page::new(alloc);
    push_frames(&mut page, state, regions, state.opened(task))?;
    Ok(Some(page.into_lines()))
}

// Writes the variables of these frames, of which the outermost one is the first and has the depth 1.
fn push_frames(
    page: &mut Page,
    state: &State,
    regions: &[Vec<Named>],
    opened: &[Open],
) -> Result<(), AllocError>
    ensures { AddsLines result page.old page.new
        (extent_lines (map plain_region regions.now) 1 (map extent_in opened.now) state.now.shared.frames) }
{
    for (further_out, open) in opened.iter().enumerate() {
        let depth = further_out as u64 + 1;
        let names = elaborated(regions, *open);
        push_frame(page, depth, names, state.frame(open.frame))?;
    }
    Ok(())
}

// The names of a frame that are elaborated.
fn elaborated(regions: &[Vec<Named>], frame: Open) -> &[Named]
    ensures { map plain_named result.now ≡
        take frame.elaborated (slice_index_or (map plain_region regions.now) frame.region []) }
{
    let names = names_of(regions, frame.region);
    &names[..frame.elaborated.min(names.len())]
}

// The names of the table of this number.
fn names_of(regions: &[Vec<Named>], region: usize) -> &[Named]
    ensures { map plain_named result.now ≡ slice_index_or (map plain_region regions.now) region [] }
{
    match regions.get(region) {
        Some(names) => names,
        None => &[],
    }
}
