// Tasks that begin to wait, go on, or become abnormal.

ghost use Rattle.std.specs.Prelude.{◌≡◌, true};
ghost use Rattle.aud_meaning.specs.Parts.{blocks, on_own, runs};
ghost use Rattle.aud_state.specs.View.{plain_task, plain_waits};

use crate::state::State;
use crate::task::{Task, Waits};
use aud_meaning::state::Status;
use aud_text::place::Pos;

impl Task {
    // It is blocked at this place, and at these.
    fn wait(&mut self, status: Status, at: Pos, waits: Waits)
        ensures { plain_task self.new ≡ record (plain_task self.old) {
          own = blocks status at (plain_waits waits) (plain_task self.old).own;
        } }
    {
        self.condition.wait(status, waits);
        self.at = at;
    }

    // It is abnormal.
    fn make_abnormal(&mut self)
        ensures { plain_task self.new ≡ record (plain_task self.old) {
          own = record (plain_task self.old).own { abnormal = true };
        } }
    {
        self.condition.make_abnormal();
    }
}

impl State {
    /// A task begins to wait, where it stands in the text and at these alternatives.
    pub fn wait(&mut self, n: usize, status: Status, at: Pos, waits: Waits)
        ensures { self.new ≡ on_own n (blocks status at (plain_waits waits)) self.old }
    {
        if n < self.tasks.len() {
            self.tasks[n].wait(status, at, waits);
        }
    }

    /// It waits no more.
    pub fn go_on(&mut self, n: usize)
        ensures { self.new ≡ on_own n runs self.old }
    {
        if n < self.tasks.len() {
            self.tasks[n].go_on();
        }
    }

    /// It is abnormal (RM 9.8(4)).
    pub fn make_abnormal(&mut self, n: usize)
        ensures { self.new ≡ on_own n (λ own. record own { abnormal = true }) self.old }
    {
        if n < self.tasks.len() {
            self.tasks[n].make_abnormal();
        }
    }
}
