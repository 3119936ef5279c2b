// The cells of a frame.

ghost use Rattle.std.specs.Prelude.{◌≡◌, ◌++◌, ◌∷◌, [], pos, replicate, slice_set, OnOk, OnErr};

use aud_text::int32::Int32;
use smallvec::SmallVec;
use std::alloc::{AllocError, Global};

/// The cells of a frame; few need no memory of their own.
pub type Cells = SmallVec<Int32, 6>;

/// One cell, for which no memory is taken.
pub fn one_cell(alloc: Global) -> Cells
    ensures { result.items ≡ pos 0 ∷ [] }
{
    let mut cells = SmallVec::new(alloc);
    cells.push_reserved(Int32::new(0));
    cells
}

/// More cells: so many, each with this value.
pub(crate) fn lengthen(cells: &mut Cells, count: usize, value: Int32) -> Result<(), AllocError>
    ensures longer { OnOk result (cells.new.items ≡ cells.old.items ++ replicate count value) }
    ensures kept { OnErr result (cells.new.items ≡ cells.old.items) }
{
    cells.reserve(count)?;
    for _ in 0..count {
        cells.push_reserved(value);
    }
    Ok(())
}

/// Another value of a cell; where there is none of this number, nothing changes.
#[inline(always)]
pub fn write(cells: &mut [Int32], index: usize, value: Int32)
    ensures { cells.new ≡ slice_set cells.old index value }
{
    if index < cells.len() {
        cells[index] = value;
    }
}
