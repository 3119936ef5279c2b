// Accepts, and the calls that they take (RM 9.5.2).

ghost use Rattle.std.specs.Prelude.{◌≡◌, ◌&&◌, filter, find, length, map, nat_eq, not, IfOk, OnOk};
ghost use Rattle.aud_meaning.specs.Configuration.{for_accept, Shared};
ghost use Rattle.aud_meaning.specs.Effects.{opens};
ghost use Rattle.aud_meaning.specs.Parts.{acting, alone, is_accepting, is_callable, on_task, open_alternatives, own_of};
ghost use Rattle.aud_meaning.specs.Ties.Part.{rest_of, shared_by};
ghost use Rattle.aud_code.specs.Control.{going};
ghost use Rattle.aud_state.specs.Chosen.{chosen};
ghost use Rattle.aud_state.specs.View.{begins_accept, plain_task};

use crate::state::State;
use crate::task::Task;
use aud_code::sound_code::SoundCode;
use aud_meaning::state::{OpenAccept, Status};
use aud_sequential::progress::Progress;
use aud_text::int32::Int32;
use aud_text::place::Pos;
use std::alloc::{AllocError, Global};

impl Task {
    // Of its open alternatives for an entry the one of this number, or else the first.
    fn open_alternative(&self, entry: usize, alternative: Option<usize>) -> Option<OpenAccept>
        ensures { result ≡
            chosen alternative (open_alternatives (plain_task self.now).own entry) }
    {
        if self.is_open() {
            choose(self.condition.accepts(), entry, alternative)
        } else {
            None
        }
    }

    // The numbers of its open alternatives for an entry.
    fn open_alternatives(&self, alloc: Global, entry: usize) -> Result<Vec<usize>, AllocError>
        ensures { IfOk result (λ numbers. numbers.items ≡
            map (λ a. a.alternative) (open_alternatives (plain_task self.now).own entry)) }
    {
        if self.is_open() {
            let numbers = numbers_for(alloc, self.condition.accepts(), entry)?;
            return Ok(numbers);
        }
        Ok(Vec::new(alloc))
    }

    // Whether it is blocked at accepts that may take a call.
    fn is_open(&self) -> bool
        ensures { result ≡ (is_accepting self.now.condition.status && not self.now.condition.abnormal) }
    {
        matches!(self.condition.status(), Status::Accepting) && !self.condition.is_abnormal()
    }

    // What the accept of this alternative does begins.
    fn accept_body(&mut self, code: &SoundCode, alternative: usize)
        ensures { plain_task self.new ≡
            begins_accept (going code.now) alternative (plain_task self.old) }
    {
        self.parked.accept(code, alternative);
        self.go_on();
    }

    // The frame of an accept is opened for a call.
    fn open_accept(
        &mut self,
        progress: &mut Progress,
        alloc: Global,
        call: usize,
        region: usize,
        at: Pos,
        values: &[Int32],
    ) -> Result<(), AllocError>
        ensures does { OnOk result ((shared : Shared) →
            acting (plain_task self.new) (shared_by shared progress.new) ≡
            (let t = acting (plain_task self.old) (shared_by shared progress.old) in
            opens (for_accept call) region at t.own.display values.now (length values.now) t)) }
        ensures kept { OnOk result (rest_of progress.new ≡ rest_of progress.old) }
    {
        progress.exchange(&mut self.parked);
        progress.open_accept(alloc, call, region, at, values)?;
        progress.exchange(&mut self.parked);
        Ok(())
    }
}

impl State {
    /// Whether a task's entries may be called (RM 9.5.3(21)).
    #[tactic(auto, using(crate::proofs::TaskLaws::Changed::own_got, crate::proofs::TaskLaws::Changed::own_past))]
    pub fn is_callable(&self, task: usize) -> bool
        ensures { result ≡ is_callable (own_of task self.now) }
    {
        if task < self.tasks.len() {
            let found = &self.tasks[task];
            return found.is_callable();
        }
        false
    }

    /// Of a task's open alternatives for an entry the one of this number, or else the first; none where the entry isn't open
    /// (RM 9.5.3(7)).
    pub fn open_alternative(
        &self,
        task: usize,
        entry: usize,
        alternative: Option<usize>,
    ) -> Option<OpenAccept>
        ensures { result ≡
            chosen alternative (open_alternatives (own_of task self.now) entry) }
    {
        if task < self.tasks.len() {
            let found = &self.tasks[task];
            return found.open_alternative(entry, alternative);
        }
        None
    }

    /// The numbers of a task's open alternatives for an entry; none where the entry isn't open.
    ///
    /// # Errors
    ///
    /// Where memory is refused.
    pub fn open_alternatives(
        &self,
        alloc: Global,
        task: usize,
        entry: usize,
    ) -> Result<Vec<usize>, AllocError>
        ensures { IfOk result (λ numbers. numbers.items ≡
            map (λ a. a.alternative) (open_alternatives (own_of task self.now) entry)) }
    {
        if task < self.tasks.len() {
            let found = &self.tasks[task];
            return found.open_alternatives(alloc, entry);
        }
        Ok(Vec::new(alloc))
    }

    /// What the accept of this alternative does begins, at which a task stands.
    pub fn accept_body(&mut self, code: &SoundCode, n: usize, alternative: usize)
        ensures { self.new ≡ on_task n (begins_accept (going code.now) alternative) self.old }
    {
        if n < self.tasks.len() {
            self.tasks[n].accept_body(code, alternative);
        }
    }

    /// The frame of an accept is opened in a task, for a call with these values of its formals.
    ///
    /// # Errors
    ///
    /// Where memory is refused. Nothing is said of the state then.
    pub fn open_accept(
        &mut self,
        alloc: Global,
        n: usize,
        call: usize,
        region: usize,
        at: Pos,
        values: &[Int32],
    ) -> Result<(), AllocError>
        ensures { OnOk result (self.new ≡ alone (λ t. opens (for_accept call) region at
            t.own.display values.now (length values.now) t) n self.old) }
    {
        if n < self.tasks.len() {
            self.tasks[n].open_accept(&mut self.progress, alloc, call, region, at, values)?;
        }
        Ok(())
    }
}

// The numbers of those for an entry.
fn numbers_for(
    alloc: Global,
    accepts: &[OpenAccept],
    entry: usize,
) -> Result<Vec<usize>, AllocError>
    ensures { IfOk result (λ numbers. numbers.items ≡
        map (λ a. a.alternative) (filter (λ a. nat_eq a.entry entry) accepts.now)) }
{
    accepts
        .iter()
        .filter(|accept| accept.entry == entry)
        .map(|accept| accept.alternative)
        .collect(alloc)
}

// Of these alternatives for an entry the one of this number, or else the first.
fn choose(accepts: &[OpenAccept], entry: usize, alternative: Option<usize>) -> Option<OpenAccept>
    ensures { result ≡ chosen alternative (filter (λ a. nat_eq a.entry entry) accepts.now) }
{
    let first = first_for(accepts, entry);
    match alternative {
        None => first,
        Some(number) => numbered(accepts, entry, number).or(first),
    }
}

// The first for an entry.
fn first_for(accepts: &[OpenAccept], entry: usize) -> Option<OpenAccept>
    ensures { result ≡ find (λ a. nat_eq a.entry entry) accepts.now }
{
    accepts.iter().find(|accept| accept.entry == entry).copied()
}

// The first for an entry that has this number.
fn numbered(accepts: &[OpenAccept], entry: usize, number: usize) -> Option<OpenAccept>
    ensures { result ≡
        find (λ a. nat_eq a.entry entry && nat_eq a.alternative number) accepts.now }
{
    accepts
        .iter()
        .find(|accept| accept.entry == entry && accept.alternative == number)
        .copied()
}
