// The table of frames beside code.

ghost use Rattle.std.specs.Prelude.{◌≡◌, ◌≤◌, List, ℕ, length, map, IfOk, OnOk, Some};
ghost use Rattle.std.specs.Prelude.{slice_index_or};
ghost use Rattle.aud_code.specs.View.{plain_line};
ghost use Rattle.aud_layout.specs.Opened.{opened_in, BodiesCount};
ghost use Rattle.aud_gen.specs.Opening.{level_in, AreCounted, AreOrdered, Grows, StepWithin};

use aud_code::line::Line;
use aud_layout::sum::sum;
use aud_typed::program::Unit;
use std::alloc::{AllocError, Global};

/// How many frames are open before each line of these bodies, which begin at these places. They are refused only where memory is
/// refused.
pub fn frames(
    alloc: Global,
    lines: &[Line],
    starts: &[usize],
    spare: usize,
    units: &[Unit],
) -> Result<Vec<usize>, AllocError>
    requires long { length starts.now ≡ length units.now }
    requires order { AreOrdered 0 starts.now spare (length lines.now) }
    ensures { IfOk result (λ seen. BodiesCount (map plain_line lines.now) seen.items
        (map level_in units.now) starts.now spare) }
{
    let mut seen = Vec::with_capacity(alloc, lines.len())?;
    for (body, unit) in units.iter().enumerate() {
        let own = sum(unit.level, 1)?;
        let next = start(starts, spare, body + 1);
        count_body(&mut seen, lines, own, next)?;
    }
    count_body(&mut seen, lines, 1, lines.len())?;
    Ok(seen)
}

// Where a body begins; behind the last one, what is run for a number that none has.
fn start(starts: &[usize], spare: usize, body: usize) -> usize
    ensures { result ≡ slice_index_or starts.now body spare }
{
    match starts.get(body) {
        Some(place) => *place,
        None => spare,
    }
}

// Those of a body's lines, up to its end; directly in it there are so many.
fn count_body(
    seen: &mut Vec<usize>,
    lines: &[Line],
    own: usize,
    end: usize,
) -> Result<(), AllocError>
    requires from { length seen.old.items ≤ end }
    requires within { end ≤ length lines.now }
    ensures grown { OnOk result (Grows seen.old.items seen.new.items) }
    ensures long { OnOk result (length seen.new.items ≡ end) }
    ensures counted { OnOk result (AreCounted (map plain_line lines.now) own
        (length seen.old.items) end seen.new.items) }
{
    let mut opened = step_within(lines, seen.len());
    for place in seen.len()..end {
        let count = open_within(seen, own, opened)?;
        seen.push(count)?;
        match &lines[place] {
            Line::Instruction(_) => {}
            Line::End(_) => opened = step_within(lines, place + 1),
        }
    }
    Ok(())
}

// How many are open within a frame.
fn open_within(seen: &[usize], own: usize, opened: Option<usize>) -> Result<usize, AllocError>
    ensures { IfOk result (λ count. count ≡ opened_in seen.now own opened) }
{
    match opened {
        Some(place) => sum(count_at(seen, place), 1),
        None => Ok(own),
    }
}

fn count_at(seen: &[usize], place: usize) -> usize
    ensures { result ≡ slice_index_or seen.now place 0 }
{
    match seen.get(place) {
        Some(count) => *count,
        None => 0,
    }
}

// The frame within which the step stands that begins at a place.
fn step_within(lines: &[Line], first: usize) -> Option<usize>
    ensures { StepWithin (map plain_line lines.now) first result }
{
    for place in first..lines.len() {
        match &lines[place] {
            Line::Instruction(_) => {}
            Line::End(end) => return end.within,
        }
    }
    None
}
