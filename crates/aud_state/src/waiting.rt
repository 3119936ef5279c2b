// What tasks wait for.

ghost use Rattle.std.specs.Prelude.{◌≡◌, ◌∷◌, [], false, IfOk};
ghost use Rattle.aud_meaning.specs.declared.state.Status.TheVariants.{Calling};
ghost use Rattle.aud_meaning.specs.Parts.{blocks, no_waits, stands_at_call};
ghost use Rattle.aud_state.specs.View.{plain_task, plain_waits};

use crate::state::State;
use crate::task::{Task, Waits};
use aud_meaning::state::{OpenAccept, OpenDelay, Status};
use aud_text::place::Pos;
use std::alloc::{AllocError, Global};

impl Waits {
    /// One accept alone.
    ///
    /// # Errors
    ///
    /// Where memory is refused.
    pub fn for_accept(alloc: Global, accept: OpenAccept) -> Result<Self, AllocError>
        ensures { IfOk result (λ waits. plain_waits waits ≡
            record { accepts = accept ∷ []; delays = []; terminate = false }) }
    {
        let mut accepts = Vec::new(alloc);
        accepts.push(accept)?;
        Ok(Waits {
            accepts,
            delays: Vec::new(alloc),
            terminate: false,
        })
    }

    /// One delay alone.
    ///
    /// # Errors
    ///
    /// Where memory is refused.
    pub fn for_delay(alloc: Global, delay: OpenDelay) -> Result<Self, AllocError>
        ensures { IfOk result (λ waits. plain_waits waits ≡
            record { accepts = []; delays = delay ∷ []; terminate = false }) }
    {
        let mut delays = Vec::new(alloc);
        delays.push(delay)?;
        Ok(Waits {
            accepts: Vec::new(alloc),
            delays,
            terminate: false,
        })
    }
}

impl Task {
    // It waits for its entry call.
    fn stand_at_call(&mut self, id: usize, at: Pos)
        ensures { plain_task self.new ≡ record (plain_task self.old) {
          own = record (blocks Calling at no_waits (plain_task self.old).own) { call = id };
        } }
    {
        self.condition.come_free_to(Status::Calling);
        self.at = at;
        self.call = id;
    }
}

impl State {
    /// A task waits for its entry call, which it makes at this place.
    pub fn stand_at_call(&mut self, n: usize, id: usize, at: Pos)
        ensures { self.new ≡ stands_at_call n id at self.old }
    {
        if n < self.tasks.len() {
            self.tasks[n].stand_at_call(id, at);
        }
    }
}
