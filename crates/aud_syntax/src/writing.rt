// Text that is written, with a refusal of memory kept to its end.

ghost use Rattle.std.specs.Prelude.{◌≡◌, [], ◌∷◌, false, IfOk};
ghost use Rattle.std.specs.Fmt.{decimal};
ghost use Rattle.aud_syntax.specs.Ties.Writes.{Appends};

use aud_text::digits;
use aud_text::text::Text;
use std::alloc::{AllocError, Global};

/// Text that is written. Once memory was refused, nothing more is.
#[derive(Drop)]
pub struct Written {
    text: Vec<u8>,
    refused: bool,
}

impl Written {
    /// No text yet.
    pub fn new(alloc: Global) -> Self
        ensures refused { result.refused ≡ false }
        ensures text { result.text.items ≡ [] }
    {
        Written {
            text: Vec::new(alloc),
            refused: false,
        }
    }

    /// A byte at its end.
    pub fn push(&mut self, byte: u8)
        ensures { Appends self.old self.new (byte ∷ []) }
    {
        if self.refused {
            return;
        }
        self.refused = self.text.push(byte).is_err();
    }

    /// Bytes at its end.
    pub fn push_bytes(&mut self, bytes: &[u8])
        ensures { Appends self.old self.new bytes.now }
    {
        if self.refused {
            return;
        }
        self.refused = self.text.extend_from_slice(bytes).is_err();
    }

    /// A number at its end, in decimal digits.
    pub fn push_decimal(&mut self, number: u64)
        ensures { Appends self.old self.new (decimal number) }
    {
        if self.refused {
            return;
        }
        self.refused = digits::push_decimal(&mut self.text, number).is_err();
    }

    /// The text.
    ///
    /// # Errors
    ///
    /// Where memory was refused.
    pub fn finish(self) -> Result<Text, AllocError>
        ensures { IfOk result (λ text. (self.refused ≡ false) × (text ≡ self.text.items)) }
    {
        if self.refused {
            return Err(AllocError);
        }
        Ok(Text::new(self.text))
    }
}
