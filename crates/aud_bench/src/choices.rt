// Choices of a schedule, as a user sends them.

ghost use Rattle.std.specs.Prelude.{◌≡◌, ◌≤◌, ℕ, List, [], ◌∷◌, ◌++◌, All, IfOk, OnOk, OnErr};
ghost use Rattle.aud_text.specs.declared.limits.TheConstants.{CHOICE};

use std::alloc::{AllocError, Global};
use std::marker::Model;

/// Choices in order, each a number of at most 9,999.
#[derive(Drop)]
pub struct Choices {
    numbers: Vec<u32>,
}

impl Model for Choices {
    ghost use Rattle.std.specs.Prelude.{◌≤◌, ℕ, List, All};
    ghost use Rattle.aud_text.specs.declared.limits.TheConstants.{CHOICE};

    ghost Value = { List ℕ };

    ghost view = { λ choices. choices.numbers.items };

    ghost invariant = { λ choices. All (λ n. n ≤ CHOICE) choices.numbers.items };
}

impl Choices {
    /// None so far.
    pub fn new(alloc: Global) -> Self
        ensures { result ≡ [] }
    {
        Choices {
            numbers: Vec::new(alloc),
        }
    }

    /// Adds a choice behind the others.
    ///
    /// # Errors
    ///
    /// Where memory is refused. Nothing is added then.
    pub fn push(&mut self, choice: u32) -> Result<(), AllocError>
        requires { choice ≤ CHOICE }
        ensures ok { OnOk result (self.new ≡ self.old ++ choice ∷ []) }
        ensures err { OnErr result (self.new ≡ self.old) }
    {
        self.numbers.push(choice)?;
        Ok(())
    }

    /// Another owner of the same choices.
    ///
    /// # Errors
    ///
    /// Where memory is refused.
    pub fn try_clone(&self, alloc: Global) -> Result<Self, AllocError>
        ensures { IfOk result (λ choices. choices ≡ self.now) }
    {
        let numbers = self.numbers.to_vec(alloc)?;
        Ok(Choices { numbers })
    }

    /// The choices in order.
    pub fn as_slice(&self) -> &[u32]
        ensures value { result.now ≡ self.now }
        ensures within { All (λ n. n ≤ CHOICE) result.now }
    {
        &self.numbers
    }
}
