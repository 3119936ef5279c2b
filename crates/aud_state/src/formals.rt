// The formals of entry calls (RM 6.4.1).

ghost use Rattle.std.specs.Prelude.{◌≡◌, ◌++◌, ℕ, Bool, Result, IfOk, take};
ghost use Rattle.aud_text.specs.declared.raise.Raise.{Raise as RaiseOf};
ghost use Rattle.aud_typed.specs.Tree.{Plan};
ghost use Rattle.aud_meaning.specs.Evaluation.{Sight};
ghost use Rattle.aud_meaning.specs.Orders.{Orders};
ghost use Rattle.aud_meaning.specs.Parts.{call_of};
ghost use Rattle.aud_meaning.specs.Tasks as effect;
ghost use Rattle.aud_code.specs.Places.{Spot};

use crate::state::State;
use aud_meaning::state::Owner;
use aud_text::int32::Int32;
use std::alloc::{AllocError, Global};

impl State {
    /// What a call is queued on.
    pub fn call_owner(&self, id: usize) -> Owner
        ensures { result ≡ (call_of id self.now).owner }
    {
        self.calls.owner(id)
    }

    /// The values of the formals with which a call was made.
    ///
    /// # Errors
    ///
    /// Where memory is refused.
    pub fn values(&self, alloc: Global, id: usize) -> Result<Vec<Int32>, AllocError>
        ensures { IfOk result (λ values. values.items ≡ (call_of id self.now).values) }
    {
        let mut values = Vec::new(alloc);
        values.extend_from_slice(self.calls.values(id))?;
        Ok(values)
    }

    /// The values of all formals with which a call was made, those last that its entry has not.
    ///
    /// # Errors
    ///
    /// Where memory is refused.
    pub fn all_values(&self, alloc: Global, id: usize) -> Result<Vec<Int32>, AllocError>
        ensures { IfOk result (λ values. values.items ≡
            (call_of id self.now).values ++ (call_of id self.now).unseen) }
    {
        let mut values = self.values(alloc, id)?;
        values.extend_from_slice(self.calls.unseen(id))?;
        Ok(values)
    }

    /// The values of all formals of a call now: the first variables of this frame, and those that its entry has not.
    ///
    /// # Errors
    ///
    /// Where memory is refused.
    pub fn formals(&self, alloc: Global, id: usize, frame: usize) -> Result<Vec<Int32>, AllocError>
        ensures { IfOk result (λ values. (go : Orders Spot) → (plan : Plan) →
            (barrier : ℕ → Sight → Result Bool RaiseOf) → values.items ≡
            effect.present_values go plan barrier id frame self.now) }
    {
        let cells = self.frame(frame);
        let count = self.calls.values(id).len();
        let mut values = Vec::new(alloc);
        values.extend_from_slice(first_of(cells, count))?;
        values.extend_from_slice(self.calls.unseen(id))?;
        Ok(values)
    }
}

// The first so many of these; all where they are fewer.
fn first_of(cells: &[Int32], count: usize) -> &[Int32]
    ensures { result.now ≡ take count cells.now }
{
    &cells[..count.min(cells.len())]
}
