// The place of an entry call among all of them.

ghost use Rattle.std.specs.Prelude.{◌≡◌, ℕ, false, not, Bool, Result, IfNone, IfOk, IfSome, OnErr, OnOk};
ghost use Rattle.aud_text.specs.declared.raise.Raise.{Raise as RaiseOf};
ghost use Rattle.aud_typed.specs.Tree.{Plan};
ghost use Rattle.aud_meaning.specs.Evaluation.{Sight};
ghost use Rattle.aud_meaning.specs.Orders.{Orders};
ghost use Rattle.aud_meaning.specs.declared.state.CallState.TheVariants.{Queued};
ghost use Rattle.aud_meaning.specs.Parts.{is_queued, no_call};
ghost use Rattle.aud_meaning.specs.Tasks as effect;
ghost use Rattle.aud_code.specs.Places.{Spot};
ghost use Rattle.aud_over.specs.Over.{call_if, is_call_over};
ghost use Rattle.aud_calls.specs.View.{made_call, plain_call, plain_slot, IsKept};

use crate::calls::{Call, NewCall};
use aud_meaning::state::{Again, CallState, Owner};
use aud_text::int32::Int32;
use std::alloc::{AllocError, Global};

/// A call that is kept; or how far one is of which nothing else is kept, since it is over.
#[derive(Drop)]
pub enum Slot {
    Kept(Box<Call>),
    GivenBack(CallState),
}

impl Slot {
    /// That of a call that is made just now.
    pub(crate) fn of_new(alloc: Global, call: NewCall) -> Result<Self, AllocError>
        ensures { IfOk result (λ slot. plain_slot slot ≡ made_call call) }
    {
        let call = Box::new(alloc, Call::of_new(alloc, call))?;
        Ok(Slot::Kept(call))
    }

    /// The call, if it is kept.
    pub(crate) fn kept(&self) -> Option<&Call>
        ensures some { IfSome result (λ call. plain_slot self.now ≡ plain_call call.now) }
        ensures none { IfNone result (plain_slot self.now ≡ record no_call {
          state = (plain_slot self.now).state;
        }) }
    {
        match self {
            Slot::Kept(call) => Some(call),
            Slot::GivenBack(_) => None,
        }
    }

    /// How far it is.
    pub(crate) fn state(&self) -> CallState
        ensures { result ≡ (plain_slot self.now).state }
    {
        match self {
            Slot::Kept(call) => call.state,
            Slot::GivenBack(state) => *state,
        }
    }

    /// Whose entry it names now.
    pub(crate) fn owner(&self) -> Owner
        ensures { result ≡ (plain_slot self.now).owner }
    {
        match self {
            Slot::Kept(call) => call.owner,
            Slot::GivenBack(_) => Owner::Object(0),
        }
    }

    /// Which entry.
    pub(crate) fn entry(&self) -> usize
        ensures { result ≡ (plain_slot self.now).entry }
    {
        match self {
            Slot::Kept(call) => call.entry,
            Slot::GivenBack(_) => 0,
        }
    }

    /// Whether it is queued.
    pub(crate) fn is_queued(&self) -> bool
        ensures { result ≡ is_queued (plain_slot self.now).state }
    {
        matches!(self.state(), CallState::Queued)
    }

    /// It comes so far.
    pub(crate) fn set_state(&mut self, state: CallState)
        ensures { plain_slot self.new ≡ record (plain_slot self.old) { state = state } }
    {
        match self {
            Slot::Kept(call) => call.state = state,
            Slot::GivenBack(old) => *old = state,
        }
    }

    /// It is kept from now on.
    ///
    /// # Errors
    ///
    /// Where memory is refused.
    pub(crate) fn keep(&mut self, alloc: Global) -> Result<(), AllocError>
        ensures kept { OnOk result (IsKept self.new) }
        ensures same { plain_slot self.new ≡ plain_slot self.old }
    {
        if let Slot::GivenBack(state) = self {
            let call = Box::new(alloc, Call::bare(alloc, *state))?;
            *self = Slot::Kept(call);
        }
        Ok(())
    }

    /// It is made again, as this says, with these values of its formals.
    ///
    /// # Errors
    ///
    /// Where memory is refused.
    pub(crate) fn retarget(
        &mut self,
        alloc: Global,
        again: Again,
        values: Vec<Int32>,
    ) -> Result<(), AllocError>
        ensures does { OnOk result ((go : Orders Spot) → (plan : Plan) →
            (barrier : ℕ → Sight → Result Bool RaiseOf) → plain_slot self.new ≡
            effect.retargeted go plan barrier again values.items (plain_slot self.old)) }
        ensures settled { OnOk result (is_queued (plain_slot self.new).state ≡ false) }
        ensures same { OnErr result (plain_slot self.new ≡ plain_slot self.old) }
    {
        self.keep(alloc)?;
        self.retarget_kept(again, values);
        Ok(())
    }

    // The same, of one that is kept.
    fn retarget_kept(&mut self, again: Again, values: Vec<Int32>)
        requires { IsKept self.old }
        ensures does { (go : Orders Spot) → (plan : Plan) →
            (barrier : ℕ → Sight → Result Bool RaiseOf) → plain_slot self.new ≡
            effect.retargeted go plan barrier again values.items (plain_slot self.old) }
        ensures settled { is_queued (plain_slot self.new).state ≡ false }
    {
        if let Slot::Kept(call) = self {
            call.retarget(again, values);
        }
    }

    /// It is made on an entry of this task or object.
    ///
    /// # Errors
    ///
    /// Where memory is refused.
    pub(crate) fn set_owner(&mut self, alloc: Global, owner: Owner) -> Result<(), AllocError>
        ensures does { OnOk result ((go : Orders Spot) → (plan : Plan) →
            (barrier : ℕ → Sight → Result Bool RaiseOf) → plain_slot self.new ≡
            effect.called_of go plan barrier owner (plain_slot self.old)) }
        ensures settled { OnOk result (is_queued (plain_slot self.new).state ≡ false) }
        ensures same { OnErr result (plain_slot self.new ≡ plain_slot self.old) }
    {
        self.keep(alloc)?;
        self.give_kept(owner);
        Ok(())
    }

    // The same, of one that is kept.
    fn give_kept(&mut self, owner: Owner)
        requires { IsKept self.old }
        ensures does { (go : Orders Spot) → (plan : Plan) →
            (barrier : ℕ → Sight → Result Bool RaiseOf) →
            plain_slot self.new ≡ effect.called_of go plan barrier owner (plain_slot self.old) }
        ensures settled { is_queued (plain_slot self.new).state ≡ false }
    {
        if let Slot::Kept(call) = self {
            call.owner = owner;
            call.state = CallState::Selected;
        }
    }

    /// It is queued, as the arrival of this number.
    pub(crate) fn queue(&mut self, arrival: usize)
        requires { IsKept self.old }
        ensures { plain_slot self.new ≡ record (plain_slot self.old) {
          state = Queued;
          arrival = arrival;
        } }
    {
        if let Slot::Kept(call) = self {
            call.state = CallState::Queued;
            call.arrival = arrival;
        }
    }

    /// Nothing of it is kept if it is over.
    pub(crate) fn give_back(&mut self)
        ensures { plain_slot self.new
            ≡ call_if (not (is_call_over (plain_slot self.old).state)) (plain_slot self.old) }
    {
        match self {
            Slot::Kept(_) => self.give_up(),
            Slot::GivenBack(state) => {
                if matches!(state, CallState::Cancelled) {
                    *state = CallState::Done;
                }
            }
        }
    }

    // The same, apart: of most calls ever made nothing is kept, and a look over all of them is to be short.
    #[inline(never)]
    fn give_up(&mut self)
        ensures { plain_slot self.new
            ≡ call_if (not (is_call_over (plain_slot self.old).state)) (plain_slot self.old) }
    {
        match self.state() {
            CallState::Queued | CallState::Selected => {}
            CallState::Done | CallState::Cancelled => *self = Slot::GivenBack(CallState::Done),
        }
    }
}
