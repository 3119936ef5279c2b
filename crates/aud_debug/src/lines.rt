// Lines.

ghost use Rattle.std.specs.Prelude.{◌≡◌, IfOk};

use aud_text::text::Text;
use std::alloc::{AllocError, Global};

/// The lines of a listing, each followed by a line feed, and how many they are.
#[derive(Drop)]
pub struct Lines {
    pub count: usize,
    pub text: Text,
}

impl Lines {
    /// Another owner of the same lines.
    ///
    /// # Errors
    ///
    /// Where memory is refused.
    pub fn try_clone(&self, alloc: Global) -> Result<Self, AllocError>
        ensures { IfOk result (λ lines. lines ≡ self.now) }
    {
        Ok(Lines {
            count: self.count,
            text: self.text.try_clone(alloc)?,
        })
    }
}
