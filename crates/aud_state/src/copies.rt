// What calls give back (RM 6.4.1(17)).

ghost use Rattle.std.specs.Prelude.{◌≡◌, pos, slice_index_or};
ghost use Rattle.aud_meaning.specs.Effects.{copied_back};
ghost use Rattle.aud_state.specs.Returning.{valued};

use aud_expr::operators::in_range;
use aud_sequential::progress::Progress;
use aud_store::target::{Back, Target};
use aud_text::int32::Int32;
use aud_text::raise::Raise;

// Formals with these values are copied back in the order of the text, each range checked. After a check that fails no more are,
// and its exception is told.
pub(crate) fn copy_back(progress: &mut Progress, values: &[Int32], backs: &[Back]) -> Option<Raise>
    ensures raised { result ≡ (copied_back values.now backs.now progress.old.frames).raised }
    ensures frames { progress.new ≡ record progress.old {
      frames = (copied_back values.now backs.now progress.old.frames).frames;
    } }
{
    for back in backs {
        let target = back.target();
        match in_range(target.subtype(), value_of(values, back.formal())) {
            Ok(value) => progress.assign_at(target, value),
            Err(raise) => return Some(raise),
        }
    }
    None
}

// A function's value is assigned to its target, the range checked, if it has both.
pub(crate) fn give_value(
    progress: &mut Progress,
    into: Option<Target>,
    value: Option<Int32>,
) -> Option<Raise>
    ensures raised { result ≡ (valued into value progress.old.frames).raised }
    ensures frames { progress.new ≡ record progress.old {
      frames = (valued into value progress.old.frames).frames;
    } }
{
    let target = into?;
    let value = value?;
    match in_range(target.subtype(), value) {
        Ok(value) => {
            progress.assign_at(target, value);
            None
        }
        Err(raise) => Some(raise),
    }
}

// What a cell holds, or 0 where there is none.
fn value_of(cells: &[Int32], index: usize) -> Int32
    ensures { result ≡ slice_index_or cells.now index (pos 0) }
{
    match cells.get(index) {
        Some(value) => *value,
        None => Int32::new(0),
    }
}
