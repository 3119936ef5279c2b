// Entry calls on their way (RM 9.5.3).

ghost use Rattle.std.specs.Prelude.{◌≡◌, map, IfOk, OnOk};
ghost use Rattle.aud_meaning.specs.declared.state.CallState.TheVariants.{Selected};
ghost use Rattle.aud_meaning.specs.Parts.{arrives, call_number, call_of, calls_on_object, cancels, new_call, on_call, queue, Waiting};
ghost use Rattle.aud_calls.specs.Queues.{oldest};
ghost use Rattle.aud_calls.specs.View.{made_call};

use crate::state::State;
use aud_calls::calls::NewCall;
use std::alloc::{AllocError, Global};

impl State {
    /// A call is made. It gives the call's number.
    ///
    /// # Errors
    ///
    /// Where memory is refused. Nothing is said of the state then.
    pub fn make_call(&mut self, call: NewCall) -> Result<usize, AllocError>
        ensures made { OnOk result (self.new ≡ new_call (made_call call) self.old) }
        ensures number { IfOk result (λ id. id ≡ call_number self.old) }
    {
        let id = self.calls.push(call)?;
        Ok(id)
    }

    /// A call arrives on the entry that it names now, behind those that are queued there.
    ///
    /// # Errors
    ///
    /// Where memory is refused. Nothing is said of the state then.
    pub fn arrive(&mut self, id: usize) -> Result<(), AllocError>
        ensures { OnOk result (self.new ≡ arrives id self.old) }
    {
        self.calls.arrive(id)?;
        Ok(())
    }

    /// A call is selected, and leaves its queue.
    pub fn select_call(&mut self, id: usize)
        ensures { self.new ≡ on_call id (λ a. record a { state = Selected }) self.old }
    {
        self.calls.select(id);
    }

    /// A call is cancelled, and leaves its queue.
    pub fn cancel_call(&mut self, id: usize)
        ensures { self.new ≡ cancels id self.old }
    {
        self.calls.cancel(id);
    }

    /// The number of the call that waits for longest on an entry, whose owner is a task or an object.
    pub fn first_queued(&self, owner: usize, entry: usize) -> Option<usize>
        ensures { result ≡ oldest (queue owner entry self.now.shared.calls) }
    {
        self.calls.first(owner, entry)
    }

    /// The entry that a call names.
    pub fn call_entry(&self, id: usize) -> usize
        ensures { result ≡ (call_of id self.now).entry }
    {
        self.calls.entry(id)
    }

    /// The calls that are queued on an object's entries, by their numbers.
    ///
    /// # Errors
    ///
    /// Where memory is refused.
    pub fn queued_on_object(&self, alloc: Global, object: usize) -> Result<Vec<usize>, AllocError>
        ensures { IfOk result (λ ids. ids.items ≡ calls_on_object object self.now.shared.calls) }
    {
        self.calls.queued_on_object(alloc, object)
    }

    /// The calls that are queued on an entry, the one that waits for longest first.
    pub fn queued(&self, owner: usize, entry: usize) -> &[usize]
        ensures { result.now ≡ map (λ (w : Waiting). w.call) (queue owner entry self.now.shared.calls) }
    {
        self.calls.queued(owner, entry)
    }
}
