// Lines that are being written.

ghost use Rattle.std.specs.Prelude.{◌≡◌, ◌++◌, ◌∷◌, [], suc, OnOk};

use crate::lines::Lines;
use aud_text::text::Text;
use std::alloc::{AllocError, Global};

/// Lines that are whole, each with its line feed, and behind them what there is of the next one; and how many are whole.
#[derive(Drop)]
pub(crate) struct Page {
    pub count: usize,
    pub bytes: Vec<u8>,
}

impl Page {
    /// No lines.
    pub(crate) fn new(alloc: Global) -> Self
        ensures bytes { result.bytes.items ≡ [] }
        ensures count { result.count ≡ 0 }
    {
        Page {
            count: 0,
            bytes: Vec::new(alloc),
        }
    }

    /// Ends a line.
    pub(crate) fn end_line(&mut self) -> Result<(), AllocError>
        ensures bytes { OnOk result (self.new.bytes.items ≡ self.old.bytes.items ++ 10 ∷ []) }
        ensures count { OnOk result (self.new.count ≡ suc self.old.count) }
    {
        let count = self.count.checked_add(1).ok_or(AllocError)?;
        self.bytes.push(b'\n')?;
        self.count = count;
        Ok(())
    }

    /// The lines, all of which are whole.
    pub(crate) fn into_lines(self) -> Lines
        ensures { result ≡ record { count = self.count; text = self.bytes.items } }
    {
        Lines {
            count: self.count,
            text: Text::new(self.bytes),
        }
    }
}
