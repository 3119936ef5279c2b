// Calls of procedures and functions (RM 6.4).

ghost use Rattle.std.specs.Prelude.{◌≡◌, OnOk};
ghost use Rattle.aud_sequential.specs.Steps.{called};

use crate::progress::Progress;
use aud_expr::operands::Operands;
use aud_store::purpose::{Purpose, Returns};
use aud_text::place::Pos;
use aud_text::raise::Raise;
use aud_typed::program::Exception;
use std::alloc::AllocError;

impl Progress {
    /// The frame of a procedure or function of this level and with this table is opened, if there is room for one more
    /// (RM 11.1(6)), and the step leads to its beginning, the place `start`.
    pub(crate) fn call(
        &mut self,
        level: usize,
        region: usize,
        is_function: bool,
        start: usize,
        at: Pos,
        operands: &Operands,
    ) -> Result<(), AllocError>
        ensures { OnOk result (self.new ≡
            called level region is_function start at operands.now self.old) }
    {
        if !self.store.has_room() {
            self.raise(Exception::Predefined(Raise::Storage), at);
            return Ok(());
        }
        let alloc = *self.output.allocator();
        let values = operands.values();
        let backs = operands.backs();
        let purpose = Purpose::Procedure {
            level,
            returns: Returns {
                is_function,
                backs: backs.len(),
                into: operands.newest_target(),
                value: None,
            },
        };
        self.store
            .enter(alloc, purpose, backs, region, at, values, values.len())?;
        self.returns.push(self.place)?;
        self.go(start);
        Ok(())
    }
}
