// The values of variables.

ghost use Rattle.std.specs.Prelude.{◌≡◌, length, map};
ghost use Rattle.aud_text.specs.Ties.Adds.{Adds};
ghost use Rattle.aud_typed.specs.Ties.View.{plain_named, plain_shown};
ghost use Rattle.aud_meaning.specs.Evaluation.{image_of_truth};
ghost use Rattle.aud_meaning.specs.Listings.{cells_of, frame_lines, is_hidden, shown_one, values};
ghost use Rattle.aud_debug.specs.Ties.Pages.{variable_lines, AddsLines};

use crate::numbers::push_number;
use crate::page::Page;
use aud_expr::operators::truth_of;
use aud_text::digits::push_decimal;
use aud_text::int32::Int32;
use aud_typed::program::{Named, Shown};
use std::alloc::AllocError;

/// Writes the variables of a frame, which has this depth and these cells, one a line: those that have these names.
pub(crate) fn push_frame(
    page: &mut Page,
    depth: u64,
    names: &[Named],
    cells: &[Int32],
) -> Result<(), AllocError>
    ensures { AddsLines result page.old page.new
        (frame_lines depth (length names.now) (map plain_named names.now) cells.now) }
{
    let mut left = cells;
    for named in names {
        let (own, behind) = left.split_at(cells_of(named.shown).min(left.len()));
        push_variable(page, depth, named, own)?;
        left = behind;
    }
    Ok(())
}

// Writes a variable, unless it is hidden: the depth of its frame, its name, and the values of its cells.
fn push_variable(
    page: &mut Page,
    depth: u64,
    named: &Named,
    cells: &[Int32],
) -> Result<(), AllocError>
    ensures { AddsLines result page.old page.new
        (variable_lines depth (plain_named named.now) cells.now) }
{
    if is_hidden(named.shown) {
        return Ok(());
    }
    push_decimal(&mut page.bytes, depth)?;
    page.bytes.extend_from_slice(b" ")?;
    page.bytes.extend_from_slice(named.name.as_bytes())?;
    page.bytes.extend_from_slice(b" =")?;
    push_values(&mut page.bytes, named.shown, cells)?;
    page.end_line()
}

/// Writes values, each behind a space.
pub(crate) fn push_values(
    out: &mut Vec<u8>,
    shown: Shown,
    cells: &[Int32],
) -> Result<(), AllocError>
    ensures { Adds result out.old out.new (values (plain_shown shown) cells.now) }
{
    for cell in cells {
        out.extend_from_slice(b" ")?;
        push_value(out, shown, *cell)?;
    }
    Ok(())
}

fn push_value(out: &mut Vec<u8>, shown: Shown, cell: Int32) -> Result<(), AllocError>
    ensures { Adds result out.old out.new (shown_one (plain_shown shown) cell) }
{
    match shown {
        Shown::Whole | Shown::Wholes(_) => push_number(out, i64::from(cell.get())),
        Shown::Truth | Shown::Truths(_) => out.extend_from_slice(image_of_truth(truth_of(cell))),
        Shown::Hidden(_) => Ok(()),
    }
}

fn image_of_truth(value: bool) -> &'static [u8]
    ensures { result.now ≡ image_of_truth value }
{
    if value { b"TRUE" } else { b"FALSE" }
}

/// How many cells it has.
pub(crate) fn cells_of(shown: Shown) -> usize
    ensures { result ≡ cells_of (plain_shown shown) }
{
    match shown {
        Shown::Whole | Shown::Truth => 1,
        Shown::Wholes(cells) | Shown::Truths(cells) | Shown::Hidden(cells) => cells,
    }
}

/// Whether it is not shown.
pub(crate) fn is_hidden(shown: Shown) -> bool
    ensures { result ≡ is_hidden (plain_shown shown) }
{
    matches!(shown, Shown::Hidden(_))
}
