// What accepts do (RM 9.5.2).

ghost use Rattle.std.specs.Prelude.{◌≡◌, length, OnOk};
ghost use Rattle.aud_meaning.specs.Configuration.{for_accept};
ghost use Rattle.aud_store.specs.Ties.Stored.{entered};
ghost use Rattle.aud_sequential.specs.Steps.{on_stored};

use crate::progress::Progress;
use aud_store::purpose::Purpose;
use aud_text::int32::Int32;
use aud_text::place::Pos;
use std::alloc::{AllocError, Global};

impl Progress {
    /// The frame of an accept is opened for a call, with the values of its formals.
    pub fn open_accept(
        &mut self,
        alloc: Global,
        call: usize,
        region: usize,
        at: Pos,
        values: &[Int32],
    ) -> Result<(), AllocError>
        ensures { OnOk result (self.new ≡ on_stored
            (entered (for_accept call) region at values.now (length values.now)) self.old) }
    {
        let purpose = Purpose::Accept { call };
        self.store
            .enter(alloc, purpose, &[], region, at, values, values.len())?;
        Ok(())
    }
}
