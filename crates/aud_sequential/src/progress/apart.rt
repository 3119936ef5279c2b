// Bodies of objects, which see other frames than the statements that enter them (RM 9.5.1).

ghost use Rattle.std.specs.Prelude.{◌≡◌, ◌++◌, ◌∷◌, [], length, IfOk, OnOk};
ghost use Rattle.aud_store.specs.Ties.Stored.{copies_of, entered_after, plain_purpose, with_function_value};
ghost use Rattle.aud_sequential.specs.Shown.{plans_of, unit_in};
ghost use Rattle.aud_sequential.specs.Steps.{on_stored};

use crate::progress::Progress;
use crate::units::region_of;
use aud_store::purpose::Purpose;
use aud_store::target::Back;
use aud_text::int32::Int32;
use aud_text::place::Pos;
use aud_typed::program::Unit;
use std::alloc::{AllocError, Global};

impl Progress {
    /// A frame with these cells is made that no task opens, that of an object's components. It gives the frame's number.
    ///
    /// # Errors
    ///
    /// Where memory is refused. Nothing is said of it then.
    pub fn make_frame(&mut self, alloc: Global, cells: &[Int32]) -> Result<usize, AllocError>
        ensures number { IfOk result (λ frame. frame ≡ length self.old.frames) }
        ensures made { OnOk result (self.new ≡ record self.old {
          frames = self.old.frames ++ cells.now ∷ [];
        }) }
    {
        let frame = self.store.make(alloc, cells)?;
        Ok(frame)
    }

    /// A function's value waits for the end of its call (RM 6.5).
    pub(crate) fn set_value(&mut self, value: Int32)
        ensures { self.new ≡ record self.old { stack = with_function_value value self.old.stack } }
    {
        self.store.set_value(value);
    }

    /// The frame of a body is opened, with the values of its formals; it sees the frames of a display. These formals
    /// are copied back at its end.
    ///
    /// # Errors
    ///
    /// Where memory is refused. Nothing is said of it then.
    pub fn open_apart(
        &mut self,
        alloc: Global,
        units: &[Unit],
        unit: usize,
        purpose: Purpose,
        backs: &[Back],
        display: &[usize],
        at: Pos,
        values: &[Int32],
    ) -> Result<(), AllocError>
        requires copies { copies_of purpose ≡ length backs.now }
        ensures { OnOk result (self.new ≡ on_stored
            (entered_after (plain_purpose purpose backs.now)
            (unit_in (plans_of units.now) unit).region at values.now (length values.now)
            display.now) self.old) }
    {
        let region = region_of(units, unit);
        self.store
            .enter_apart(alloc, purpose, backs, display, region, at, values)?;
        Ok(())
    }
}
