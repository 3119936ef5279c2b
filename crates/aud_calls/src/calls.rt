// Entry calls (RM 9.5.3).

ghost use Rattle.std.specs.Prelude.{◌≡◌, ℕ, suc, [], ◌∷◌, ◌++◌, ◌&&◌, false, nat_eq, if◌then◌else◌, IfNone, IfOk, IfSome, OnOk, length, map, slice_index_or};
ghost use Rattle.aud_meaning.specs.Parts.{calls_on_object, calls_on_task, changed, contains, is_object, is_queued, is_task, no_call, numbers, owner_number, queue, Waiting};
ghost use Rattle.aud_over.specs.Over.{calls_left};
ghost use Rattle.aud_calls.specs.Queues.{calls_by, is_at, oldest, waiting, without};
ghost use Rattle.aud_calls.specs.View.{made_call, plain_call, plain_slot};

mod again;
pub mod cancelling;

use crate::queues::Queues;
use crate::slot::Slot;
use aud_meaning::state::{CallState, Form, Owner};
use aud_store::target::Back;
use aud_text::int32::Int32;
use aud_text::place::Pos;
use std::alloc::{AllocError, Global};
use std::marker::Model;

// So many cells may be kept for calls before it is worth a look which are over.
const DUE: usize = 8_192;

// A call takes as much memory besides its values as so many cells do, and each formal that is copied back as so many.
const CALL: usize = 40;

const BACK: usize = 8;

/// An entry call: whose it is, the entry that it is queued on now, the number of its arrival there, the formals' values, those of
/// formals that this entry has not, what is copied back, whether it stays on its queue whatever happens to its caller (RM 9.5.4),
/// where it stands, and how far it is.
#[derive(Drop)]
pub struct Call {
    pub caller: usize,
    pub owner: Owner,
    pub entry: usize,
    pub arrival: usize,
    pub values: Vec<Int32>,
    pub unseen: Vec<Int32>,
    pub backs: Vec<Back>,
    pub form: Form,
    pub stays: bool,
    pub at: Pos,
    pub state: CallState,
}

/// An entry call that is made, and queued nowhere yet: whose it is, the entry, the formals' values, what is copied
/// back, how it is made, and where it stands.
#[derive(Drop)]
pub struct NewCall {
    pub caller: usize,
    pub owner: Owner,
    pub entry: usize,
    pub values: Vec<Int32>,
    pub backs: Vec<Back>,
    pub form: Form,
    pub at: Pos,
}

impl NewCall {
    // How much memory it takes, in cells.
    fn cells(&self) -> usize {
        let backs = self.backs.len().saturating_mul(BACK);
        self.values.len().saturating_add(backs).saturating_add(CALL)
    }
}

impl Call {
    /// One that was made just now.
    pub(crate) fn of_new(alloc: Global, call: NewCall) -> Self
        ensures { plain_call result ≡ made_call call }
    {
        let NewCall {
            caller,
            owner,
            entry,
            values,
            backs,
            form,
            at,
        } = call;
        Call {
            caller,
            owner,
            entry,
            arrival: 0,
            values,
            unseen: Vec::new(alloc),
            backs,
            form,
            stays: false,
            at,
            state: CallState::Selected,
        }
    }

    /// One of which nothing is known but how far it is.
    pub(crate) fn bare(alloc: Global, state: CallState) -> Self
        ensures { plain_call result ≡ record no_call { state = state } }
    {
        Call {
            caller: 0,
            owner: Owner::Object(0),
            entry: 0,
            arrival: 0,
            values: Vec::new(alloc),
            unseen: Vec::new(alloc),
            backs: Vec::new(alloc),
            form: Form::Plain,
            stays: false,
            at: Pos { line: 0, col: 0 },
            state,
        }
    }
}

/// All entry calls ever made, by their numbers, and those that are queued, by their entries. Of those that are given
/// back nothing is kept but that they are over.
// What is fresh came since calls were last given back.
#[derive(Drop)]
pub struct Calls {
    calls: Vec<Slot>,
    arrivals: usize,
    queues: Queues,
    fresh: usize,
}

impl Model for Calls {
    ghost use Rattle.std.specs.Prelude.{map};
    ghost use Rattle.aud_calls.specs.Queues.{AreInLine};
    ghost use Rattle.aud_calls.specs.View.{plain_slot, Kept};

    ghost Value = { Kept };

    ghost view = { λ c. record { calls = map plain_slot c.calls.items; arrivals = c.arrivals } };

    ghost invariant = { λ c. AreInLine (map plain_slot c.calls.items) c.arrivals c.queues };
}

impl Calls {
    /// No calls.
    pub fn new(alloc: Global) -> Self
        ensures { result ≡ record { calls = []; arrivals = 0 } }
    {
        Calls {
            calls: Vec::new(alloc),
            arrivals: 0,
            queues: Queues::new(alloc),
            fresh: 0,
        }
    }

    /// One more call. It gives the call's number.
    ///
    /// # Errors
    ///
    /// Where memory is refused.
    pub fn push(&mut self, call: NewCall) -> Result<usize, AllocError>
        ensures pushed { OnOk result (self.new ≡ record self.old {
          calls = self.old.calls ++ made_call call ∷ [];
        }) }
        ensures number { IfOk result (λ id. id ≡ length self.old.calls) }
    {
        let id = self.calls.len();
        let fresh = self.fresh.saturating_add(call.cells());
        let slot = Slot::of_new(*self.calls.allocator(), call)?;
        self.calls.push(slot)?;
        self.fresh = fresh;
        Ok(id)
    }

    /// A call arrives on the entry that it names now, behind those that are queued there.
    ///
    /// # Errors
    ///
    /// Where memory is refused. Nothing is said of the call then.
    pub fn arrive(&mut self, id: usize) -> Result<(), AllocError>
        ensures { OnOk result (self.new ≡ record self.old {
          calls = changed id (λ a. record a {
            state = CallState.Queued;
            arrival = self.old.arrivals;
          }) self.old.calls;
          arrivals = suc self.old.arrivals;
        }) }
    {
        self.settle(id, CallState::Done);
        self.put_last(id)?;
        Ok(())
    }

    /// A call is selected, and queued no more.
    pub fn select(&mut self, id: usize)
        ensures { self.new ≡ record self.old {
          calls = changed id (λ a. record a { state = CallState.Selected }) self.old.calls;
        } }
    {
        self.settle(id, CallState::Selected);
    }

    /// A call is over.
    pub fn finish(&mut self, id: usize)
        ensures { self.new ≡ record self.old {
          calls = changed id (λ a. record a { state = CallState.Done }) self.old.calls;
        } }
    {
        self.settle(id, CallState::Done);
    }

    /// A call is cancelled.
    pub fn cancel(&mut self, id: usize)
        ensures { self.new ≡ record self.old {
          calls = changed id (λ a. record a { state = CallState.Cancelled }) self.old.calls;
        } }
    {
        self.settle(id, CallState::Cancelled);
    }

    // A call comes so far, and is queued no more.
    fn settle(&mut self, id: usize, state: CallState)
        requires { is_queued state ≡ false }
        ensures { self.new ≡ record self.old {
          calls = changed id (λ a. record a { state = state }) self.old.calls;
        } }
    {
        if id < self.calls.len() {
            leave(&mut self.queues, &self.calls[id], id);
            self.calls[id].set_state(state);
        }
    }

    // A call that is not queued comes behind those that are queued on its entry.
    fn put_last(&mut self, id: usize) -> Result<(), AllocError>
        requires { is_queued (slice_index_or self.old.calls id no_call).state ≡ false }
        ensures { OnOk result (self.new ≡ record self.old {
          calls = changed id (λ a. record a {
            state = CallState.Queued;
            arrival = self.old.arrivals;
          }) self.old.calls;
          arrivals = suc self.old.arrivals;
        }) }
    {
        let arrivals = self.arrivals.checked_add(1).ok_or(AllocError)?;
        if id >= self.calls.len() {
            self.arrivals = arrivals;
            return Ok(());
        }
        let alloc = *self.calls.allocator();
        self.calls[id].keep(alloc)?;
        let slot = &self.calls[id];
        self.queues.join(number_of(slot.owner()), slot.entry(), id)?;
        self.calls[id].queue(self.arrivals);
        self.arrivals = arrivals;
        Ok(())
    }

    /// Whether so much was kept for calls since some were last given back that it is worth the time to look for more; so that all
    /// looks together take no longer than the calls did. Any answer is right.
    pub fn is_due(&self) -> bool {
        DUE.max(self.calls.len()) <= self.fresh
    }

    /// Gives back the calls that are over, but for these. Their numbers stay.
    pub fn forget(&mut self, served: &[usize])
        ensures { self.new ≡ record self.old {
          calls = calls_left (λ id. contains id served.now) 0 self.old.calls;
        } }
    {
        give_back(&mut self.calls, served);
        self.fresh = 0;
    }

    /// The number of the call that waits for longest on an entry, whose owner is a task or an object.
    pub fn first(&self, owner: usize, entry: usize) -> Option<usize>
        ensures { result ≡ oldest (queue owner entry self.now.calls) }
    {
        match self.queues.calls(owner, entry) {
            [oldest, ..] => Some(*oldest),
            [] => None,
        }
    }

    /// How many are queued on an entry.
    pub fn count(&self, owner: usize, entry: usize) -> usize
        ensures { result ≡ length (queue owner entry self.now.calls) }
    {
        self.queues.calls(owner, entry).len()
    }

    /// The calls that are queued on an entry, the one that waits for longest first.
    pub fn queued(&self, owner: usize, entry: usize) -> &[usize]
        ensures { result.now ≡ map (λ (w : Waiting). w.call) (queue owner entry self.now.calls) }
    {
        self.queues.calls(owner, entry)
    }

    /// Whose a call is.
    pub fn caller(&self, id: usize) -> usize
        ensures { result ≡ (slice_index_or self.now.calls id no_call).caller }
    {
        match self.kept(id) {
            Some(call) => call.caller,
            None => 0,
        }
    }

    /// Where it stands.
    pub fn at(&self, id: usize) -> Pos
        ensures { result ≡ (slice_index_or self.now.calls id no_call).at }
    {
        match self.kept(id) {
            Some(call) => call.at,
            None => Pos { line: 0, col: 0 },
        }
    }

    /// How far it is.
    pub fn state(&self, id: usize) -> CallState
        ensures { result ≡ (slice_index_or self.now.calls id no_call).state }
    {
        match self.calls.get(id) {
            Some(slot) => slot.state(),
            None => CallState::Done,
        }
    }

    /// What it is queued on.
    pub fn owner(&self, id: usize) -> Owner
        ensures { result ≡ (slice_index_or self.now.calls id no_call).owner }
    {
        match self.kept(id) {
            Some(call) => call.owner,
            None => Owner::Object(0),
        }
    }

    /// The entry that it names.
    pub fn entry(&self, id: usize) -> usize
        ensures { result ≡ (slice_index_or self.now.calls id no_call).entry }
    {
        match self.kept(id) {
            Some(call) => call.entry,
            None => 0,
        }
    }

    /// How it was made.
    pub fn form(&self, id: usize) -> Form
        ensures { result ≡ (slice_index_or self.now.calls id no_call).form }
    {
        match self.kept(id) {
            Some(call) => call.form,
            None => Form::Plain,
        }
    }

    /// The values of the formals with which it was made.
    pub fn values(&self, id: usize) -> &[Int32]
        ensures { result.now ≡ (slice_index_or self.now.calls id no_call).values }
    {
        match self.kept(id) {
            Some(call) => &call.values,
            None => &[],
        }
    }

    /// Those of formals that its entry has not.
    pub fn unseen(&self, id: usize) -> &[Int32]
        ensures { result.now ≡ (slice_index_or self.now.calls id no_call).unseen }
    {
        match self.kept(id) {
            Some(call) => &call.unseen,
            None => &[],
        }
    }

    /// Whether it stays on its queue whatever happens to its caller.
    pub fn stays(&self, id: usize) -> bool
        ensures { result ≡ (slice_index_or self.now.calls id no_call).stays }
    {
        match self.kept(id) {
            Some(call) => call.stays,
            None => false,
        }
    }

    /// What is copied back at its end.
    pub fn backs(&self, id: usize) -> &[Back]
        ensures { result.now ≡ (slice_index_or self.now.calls id no_call).backs }
    {
        match self.kept(id) {
            Some(call) => &call.backs,
            None => &[],
        }
    }

    // A call, if it is kept. Of any other nothing is known but how far it is.
    fn kept(&self, id: usize) -> Option<&Call>
        ensures some { IfSome result (λ call. slice_index_or self.now.calls id no_call ≡ plain_call call.now) }
        ensures none { IfNone result (slice_index_or self.now.calls id no_call ≡ record no_call {
          state = (slice_index_or self.now.calls id no_call).state;
        }) }
    {
        match self.calls.get(id) {
            Some(slot) => slot.kept(),
            None => None,
        }
    }

    /// Those that are queued on a task's entries, by their numbers.
    pub fn queued_on_task(&self, alloc: Global, task: usize) -> Result<Vec<usize>, AllocError>
        ensures { IfOk result (λ ids. ids.items ≡ calls_on_task task self.now.calls) }
    {
        let mut ids = self.all_queued(alloc)?;
        ids.retain(|id| is_task(self.owner(*id), task));
        Ok(ids)
    }

    /// Those that are queued on an object's entries, by their numbers.
    pub fn queued_on_object(&self, alloc: Global, object: usize) -> Result<Vec<usize>, AllocError>
        ensures { IfOk result (λ ids. ids.items ≡ calls_on_object object self.now.calls) }
    {
        let mut ids = self.all_queued(alloc)?;
        ids.retain(|id| is_object(self.owner(*id), object));
        Ok(ids)
    }

    /// Those of a task that are queued, but for those that stay, by their numbers.
    pub fn queued_by(&self, alloc: Global, caller: usize) -> Result<Vec<usize>, AllocError>
        ensures { IfOk result (λ ids. ids.items ≡ calls_by caller self.now.calls) }
    {
        let mut ids = self.all_by(alloc, caller)?;
        ids.retain(|id| !self.stays(*id));
        Ok(ids)
    }

    // All of a task that are queued, by their numbers.
    fn all_by(&self, alloc: Global, caller: usize) -> Result<Vec<usize>, AllocError>
        ensures { IfOk result (λ ids. ids.items ≡
            numbers (λ c. is_queued c.state && nat_eq c.caller caller) 0 self.now.calls) }
    {
        let mut ids = self.all_queued(alloc)?;
        ids.retain(|id| self.caller(*id) == caller);
        Ok(ids)
    }

    // Those that are queued, by their numbers. The queues tell, since most of all calls ever made are over.
    fn all_queued(&self, alloc: Global) -> Result<Vec<usize>, AllocError>
        ensures { IfOk result (λ ids. ids.items ≡
            numbers (λ c. is_queued c.state) 0 self.now.calls) }
    {
        let mut ids = self.queues.all(alloc)?;
        ids.retain(|id| self.is_queued(*id));
        ids.sort_unstable();
        ids.dedup();
        Ok(ids)
    }

    // Whether it is queued.
    fn is_queued(&self, id: usize) -> bool
        ensures { result ≡ is_queued (slice_index_or self.now.calls id no_call).state }
    {
        matches!(self.state(id), CallState::Queued)
    }
}

// Those of these calls that are over, but for the ones of these numbers, are given back.
fn give_back(calls: &mut Vec<Slot>, served: &[usize])
    ensures { map plain_slot calls.new.items
        ≡ calls_left (λ id. contains id served.now) 0 (map plain_slot calls.old.items) }
{
    for id in 0..calls.len() {
        if !served.contains(&id) {
            calls[id].give_back();
        }
    }
}

// A call leaves its queue, if it is in one.
fn leave(queues: &mut Queues, slot: &Slot, id: usize)
    ensures { (owner entry : ℕ) → waiting owner entry queues.new
        ≡ (if is_at owner entry (plain_slot slot.now)
        then without id (waiting owner entry queues.old) else waiting owner entry queues.old) }
{
    if slot.is_queued() {
        queues.leave(number_of(slot.owner()), slot.entry(), id);
    }
}

// The number of a task or an object.
fn number_of(owner: Owner) -> usize
    ensures { result ≡ owner_number owner }
{
    match owner {
        Owner::Task(task) => task,
        Owner::Object(object) => object,
    }
}

// Whether it is this task.
fn is_task(owner: Owner, task: usize) -> bool
    ensures { result ≡ is_task task owner }
{
    match owner {
        Owner::Task(number) => number == task,
        Owner::Object(_) => false,
    }
}

// Whether it is this object.
fn is_object(owner: Owner, object: usize) -> bool
    ensures { result ≡ is_object object owner }
{
    match owner {
        Owner::Task(_) => false,
        Owner::Object(number) => number == object,
    }
}
