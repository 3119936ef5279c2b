// The queues of entries (RM 9.5.3, D.4).

ghost use Rattle.std.specs.Prelude.{◌≡◌, ℕ, ◌∷◌, ◌++◌, [], IfNone, IfOk, IfSome, OnErr, OnOk};
ghost use Rattle.aud_meaning.specs.Parts.{any, contains};
ghost use Rattle.aud_calls.specs.Queues.{AreOthers, Changes, IsFirst, IsSame, is_of, waiting, without};

use std::alloc::{AllocError, Global};

/// The calls that are queued on an entry, by their numbers, in order of their arrival. The entry's owner is a task or an object.
#[derive(Drop)]
pub(crate) struct Queue {
    owner: usize,
    entry: usize,
    calls: Vec<usize>,
}

impl Queue {
    // Whether it is the queue of this entry.
    fn is_of(&self, owner: usize, entry: usize) -> bool
        ensures { result ≡ is_of owner entry self.now }
    {
        self.entry == entry && self.owner == owner
    }
}

/// A queue for each entry on which calls are queued.
#[derive(Drop)]
pub(crate) struct Queues {
    queues: Vec<Queue>,
}

impl Queues {
    /// No call is queued.
    pub(crate) fn new(alloc: Global) -> Self
        ensures { result.queues.items ≡ [] }
    {
        Queues {
            queues: Vec::new(alloc),
        }
    }

    /// The calls that are queued on an entry, the oldest one first.
    pub(crate) fn calls(&self, owner: usize, entry: usize) -> &[usize]
        ensures { result.now ≡ waiting owner entry self.now }
    {
        match self.find(owner, entry) {
            Some(at) => &self.queues[at].calls,
            None => &[],
        }
    }

    /// The calls of all queues, by their numbers.
    ///
    /// # Errors
    ///
    /// Where memory is refused.
    pub(crate) fn all(&self, alloc: Global) -> Result<Vec<usize>, AllocError>
        ensures { IfOk result (λ ids. (id : ℕ) → contains id ids.items ≡
            any (λ queue. contains id queue.calls.items) self.now.queues.items) }
    {
        let mut ids = Vec::new(alloc);
        for queue in &self.queues {
            ids.extend_from_slice(&queue.calls)?;
        }
        Ok(ids)
    }

    /// A call comes behind those that are queued on an entry.
    pub(crate) fn join(&mut self, owner: usize, entry: usize, call: usize) -> Result<(), AllocError>
        ensures joined { OnOk result
            (Changes owner entry (λ calls. calls ++ call ∷ []) self.old self.new) }
        ensures kept { OnErr result (IsSame self.old self.new) }
    {
        match self.find(owner, entry) {
            Some(at) => {
                self.queues[at].calls.push(call)?;
                Ok(())
            }
            None => {
                self.begin(owner, entry, call)?;
                Ok(())
            }
        }
    }

    /// A call leaves the queue of an entry.
    pub(crate) fn leave(&mut self, owner: usize, entry: usize, call: usize)
        ensures { Changes owner entry (without call) self.old self.new }
    {
        if let Some(at) = self.find(owner, entry) {
            self.queues[at].calls.retain(|other| *other != call);
            self.close(owner, entry);
        }
    }

    // A queue for an entry that has none, with one call.
    fn begin(&mut self, owner: usize, entry: usize, call: usize) -> Result<(), AllocError>
        requires { AreOthers owner entry self.old.queues.items }
        ensures joined { OnOk result
            (Changes owner entry (λ calls. calls ++ call ∷ []) self.old self.new) }
        ensures kept { OnErr result (IsSame self.old self.new) }
    {
        let mut calls = Vec::new(*self.queues.allocator());
        calls.push(call)?;
        self.queues.push(Queue {
            owner,
            entry,
            calls,
        })?;
        Ok(())
    }

    // An entry on which no call is queued needs no queue.
    fn close(&mut self, owner: usize, entry: usize)
        ensures { IsSame self.old self.new }
    {
        if self.calls(owner, entry).is_empty() {
            self.queues.retain(|queue| !queue.is_of(owner, entry));
        }
    }

    // Where the queue of an entry stands.
    fn find(&self, owner: usize, entry: usize) -> Option<usize>
        ensures found { IfSome result (IsFirst owner entry self.now.queues.items) }
        ensures absent { IfNone result (AreOthers owner entry self.now.queues.items) }
    {
        for (at, queue) in self.queues.iter().enumerate() {
            if queue.is_of(owner, entry) {
                return Some(at);
            }
        }
        None
    }
}
