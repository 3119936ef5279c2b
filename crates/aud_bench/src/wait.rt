// The time that an ADVANCE lets pass.

ghost use Rattle.std.specs.Prelude.{◌≡◌, ◌≤◌};
ghost use Rattle.aud_text.specs.declared.limits.TheConstants.{WAIT};

use std::marker::Model;

/// A time in milliseconds, at most 1,000,000,000.
#[derive(Clone, Copy, PartialEq, Eq)]
pub struct Wait {
    milliseconds: u32,
}

impl Model for Wait {
    ghost use Rattle.std.specs.Prelude.{◌≤◌, ℕ};
    ghost use Rattle.aud_text.specs.declared.limits.TheConstants.{WAIT};

    ghost Value = { ℕ };

    ghost view = { λ wait. wait.milliseconds };

    ghost inverse = { λ milliseconds. record { milliseconds = milliseconds } };

    ghost invariant = { λ wait. wait.milliseconds ≤ WAIT };
}

impl Wait {
    /// So many milliseconds.
    pub fn new(milliseconds: u32) -> Self
        requires { milliseconds ≤ WAIT }
        ensures { result ≡ milliseconds }
    {
        Wait { milliseconds }
    }

    /// How many milliseconds they are.
    pub fn milliseconds(self) -> u64
        ensures value { result ≡ self }
        ensures within { result ≤ WAIT }
    {
        u64::from(self.milliseconds)
    }
}
