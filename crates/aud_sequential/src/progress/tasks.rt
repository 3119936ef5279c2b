// What tasks do that others have created.

ghost use Rattle.std.specs.Prelude.{◌≡◌, ◌∷◌, [], pos, OnOk, IfOk, IfSome, IfNone};
ghost use Rattle.aud_meaning.specs.Configuration.{for_body};
ghost use Rattle.aud_sequential.specs.Parked.{numbers_from};
ghost use Rattle.aud_store.specs.Ties.Stored.{declared, entered};
ghost use Rattle.aud_sequential.specs.Shown.{plans_of, unit_in};
ghost use Rattle.aud_sequential.specs.Steps.{on_stored};

use crate::progress::Progress;
use crate::units::{place_of, region_of};
use aud_store::purpose::Purpose;
use aud_text::int32::Int32;
use aud_typed::program::Unit;
use std::alloc::{AllocError, Global};

impl Progress {
    /// One more variable of the innermost frame, so many tasks, by their numbers from the first one on.
    pub fn declare_tasks(
        &mut self,
        alloc: Global,
        first: usize,
        count: usize,
    ) -> Result<(), AllocError>
        ensures { OnOk result (self.new ≡
            on_stored (declared (numbers_from first count)) self.old) }
    {
        let cells = cells_of(alloc, first, count)?;
        self.store.declare_cells(&cells)?;
        Ok(())
    }

    /// The task begins its declarations, in a frame whose first cell is its own number (RM 9.2).
    pub fn begin_body(
        &mut self,
        alloc: Global,
        units: &[Unit],
        unit: usize,
        number: usize,
    ) -> Result<(), AllocError>
        ensures { OnOk result (self.new ≡ on_stored
            (entered for_body (unit_in (plans_of units.now) unit).region
            (unit_in (plans_of units.now) unit).at (pos number ∷ []) 1) self.old) }
    {
        let own = [cell_of(number)?];
        let region = region_of(units, unit);
        let at = place_of(units, unit);
        self.store
            .enter(alloc, Purpose::Body, &[], region, at, &own, 1)?;
        Ok(())
    }

    /// The next choice, which is used up; none where none waits.
    pub fn use_choice(&mut self) -> Option<u32>
        ensures used { IfSome result (λ choice.
            self.old.choices ≡ choice ∷ self.new.choices) }
        ensures none { IfNone result (self.old.choices ≡ []) }
        ensures still { IfNone result (self.new ≡ self.old) }
        ensures kept { self.new ≡ record self.old { choices = self.new.choices } }
    {
        self.choices.pop_front()
    }
}

// So many tasks, by their numbers from the first one on, as the values of a variable.
fn cells_of(alloc: Global, first: usize, count: usize) -> Result<Vec<Int32>, AllocError>
    ensures { IfOk result (λ cells. cells.items ≡ numbers_from first count) }
{
    let mut cells = Vec::new(alloc);
    for index in 0..count {
        let number = first.checked_add(index).ok_or(AllocError)?;
        cells.push(cell_of(number)?)?;
    }
    Ok(cells)
}

// A task's number as the value of a variable.
fn cell_of(number: usize) -> Result<Int32, AllocError>
    ensures { IfOk result (λ cell. cell ≡ pos number) }
{
    match i32::try_from(number) {
        Ok(number) => Ok(Int32::new(number)),
        Err(_) => Err(AllocError),
    }
}
