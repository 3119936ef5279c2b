// Entry calls that are made again (RM 9.5.4).

ghost use Rattle.std.specs.Prelude.{◌≡◌, ℕ, false, not, Bool, Result, OnOk, slice_index_or};
ghost use Rattle.aud_text.specs.declared.raise.Raise.{Raise as RaiseOf};
ghost use Rattle.aud_typed.specs.Tree.{Plan};
ghost use Rattle.aud_meaning.specs.Evaluation.{Sight};
ghost use Rattle.aud_meaning.specs.Orders.{Orders};
ghost use Rattle.aud_meaning.specs.Parts.{changed, is_queued, no_call};
ghost use Rattle.aud_meaning.specs.Tasks as effect;
ghost use Rattle.aud_code.specs.Places.{Spot};
ghost use Rattle.aud_calls.specs.View.{plain_call};

use crate::calls::{Call, Calls};
use aud_meaning::state::{Again, CallState, Form, Owner};
use aud_text::int32::Int32;
use std::alloc::AllocError;

impl Call {
    /// It is made again, as this says, with these values of its formals. Where the entry has none, they wait for the call's end.
    pub(crate) fn retarget(&mut self, again: Again, values: Vec<Int32>)
        ensures does { (go : Orders Spot) → (plan : Plan) →
            (barrier : ℕ → Sight → Result Bool RaiseOf) → plain_call self.new ≡
            effect.retargeted go plan barrier again values.items (plain_call self.old) }
        ensures settled { is_queued (plain_call self.new).state ≡ false }
    {
        self.set_values(again.with_formals, values);
        self.entry = again.entry;
        self.form = form_again(self.form);
        self.stays = !again.with_abort;
        self.state = CallState::Selected;
    }

    // It has these values of its formals, which its entry has if the flag holds.
    fn set_values(&mut self, seen: bool, values: Vec<Int32>)
        ensures { (go : Orders Spot) → (plan : Plan) → (barrier : ℕ → Sight → Result Bool RaiseOf) →
            plain_call self.new ≡ record (plain_call self.old) {
              values = effect.if_seen go plan barrier seen values.items;
              unseen = effect.if_seen go plan barrier (not seen) values.items;
            } }
    {
        if seen {
            self.values = values;
            self.unseen.clear();
        } else {
            self.unseen = values;
            self.values.clear();
        }
    }
}

impl Calls {
    /// A call is made again, as this says, with these values of its formals.
    ///
    /// # Errors
    ///
    /// Where memory is refused. Nothing is said of the call then.
    pub fn retarget(
        &mut self,
        id: usize,
        again: Again,
        values: Vec<Int32>,
    ) -> Result<(), AllocError>
        ensures { OnOk result ((go : Orders Spot) → (plan : Plan) →
            (barrier : ℕ → Sight → Result Bool RaiseOf) → self.new ≡ record self.old {
              calls = changed id (effect.retargeted go plan barrier again values.items) self.old.calls;
            }) }
    {
        self.settle(id, CallState::Selected);
        self.aim(id, again, values)?;
        Ok(())
    }

    // A call that is not queued is made again, as this says.
    fn aim(&mut self, id: usize, again: Again, values: Vec<Int32>) -> Result<(), AllocError>
        requires { is_queued (slice_index_or self.old.calls id no_call).state ≡ false }
        ensures { OnOk result ((go : Orders Spot) → (plan : Plan) →
            (barrier : ℕ → Sight → Result Bool RaiseOf) → self.new ≡ record self.old {
              calls = changed id (effect.retargeted go plan barrier again values.items) self.old.calls;
            }) }
    {
        if id >= self.calls.len() {
            return Ok(());
        }
        let alloc = *self.calls.allocator();
        self.calls[id].retarget(alloc, again, values)?;
        Ok(())
    }

    /// A call is made on an entry of this task or object.
    ///
    /// # Errors
    ///
    /// Where memory is refused. Nothing is said of the call then.
    pub fn call_on(&mut self, id: usize, owner: Owner) -> Result<(), AllocError>
        ensures { OnOk result ((go : Orders Spot) → (plan : Plan) →
            (barrier : ℕ → Sight → Result Bool RaiseOf) → self.new ≡ record self.old {
              calls = changed id (effect.called_of go plan barrier owner) self.old.calls;
            }) }
    {
        self.settle(id, CallState::Selected);
        self.give_to(id, owner)?;
        Ok(())
    }

    // A call that is not queued is made on an entry of this task or object.
    fn give_to(&mut self, id: usize, owner: Owner) -> Result<(), AllocError>
        requires { is_queued (slice_index_or self.old.calls id no_call).state ≡ false }
        ensures { OnOk result ((go : Orders Spot) → (plan : Plan) →
            (barrier : ℕ → Sight → Result Bool RaiseOf) → self.new ≡ record self.old {
              calls = changed id (effect.called_of go plan barrier owner) self.old.calls;
            }) }
    {
        if id >= self.calls.len() {
            return Ok(());
        }
        let alloc = *self.calls.allocator();
        self.calls[id].set_owner(alloc, owner)?;
        Ok(())
    }
}

// How a call of this form is made again: a conditional one as a timed one, whose time is when it was made.
fn form_again(form: Form) -> Form
    ensures { (go : Orders Spot) → (plan : Plan) → (barrier : ℕ → Sight → Result Bool RaiseOf) →
        result ≡ effect.form_again go plan barrier form }
{
    match form {
        Form::Plain => Form::Plain,
        Form::Conditional(time) => Form::TimedTo(time),
        Form::TimedTo(time) => Form::TimedTo(time),
    }
}
