// The main procedure before its first step.

ghost use Rattle.std.specs.Prelude.{◌≡◌, [], OnOk};
ghost use Rattle.aud_meaning.specs.Configuration.{for_body};
ghost use Rattle.aud_store.specs.Ties.Stored.{entered};
ghost use Rattle.aud_sequential.specs.Shown.{plans_of, unit_in};
ghost use Rattle.aud_sequential.specs.Steps.{on_stored};

use crate::progress::Progress;
use crate::units::{place_of, region_of};
use aud_store::purpose::Purpose;
use aud_typed::program::Unit;
use std::alloc::{AllocError, Global};

impl Progress {
    /// The main procedure's frame is opened, with no variable yet.
    pub fn open_main(&mut self, alloc: Global, units: &[Unit]) -> Result<(), AllocError>
        ensures { OnOk result (self.new ≡ on_stored
            (entered for_body (unit_in (plans_of units.now) 0).region
            (unit_in (plans_of units.now) 0).at [] 0) self.old) }
    {
        let region = region_of(units, 0);
        let at = place_of(units, 0);
        self.store
            .enter(alloc, Purpose::Body, &[], region, at, &[], 0)?;
        Ok(())
    }
}
