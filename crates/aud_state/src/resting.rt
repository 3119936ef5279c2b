// Tasks that rest.

ghost use Rattle.std.specs.Prelude.{◌≡◌, ◌<◌, ◌≤◌, ℕ, length, IsTrue};
ghost use Rattle.aud_state.specs.Resting.{is_later, IsUndisturbed, Rests, RestsBy};
ghost use Rattle.aud_state.specs.View.{plain_task};

use crate::state::State;
use crate::task::Task;
use aud_calls::calls::Calls;
use aud_calls::calls::cancelling::cancel_time;
use aud_meaning::state::Status;

impl State {
    /// Whether a task rests: it waits for other tasks, or for a time that has not come. So much one look at it tells;
    /// it may have no move in other cases, too.
    // A run asks it of each task before each step that it looks for.
    #[inline(always)]
    pub fn rests(&self, task: usize) -> bool
        ensures { IsTrue result → Rests task self.now }
    {
        if task < self.tasks.len() {
            return self.tasks[task].rests(self.clock(), &self.calls);
        }
        false
    }

    /// The first task from this number on of which one look does not tell that it rests. Where there is none, a number
    /// behind all.
    pub fn next_awake(&self, from: usize) -> usize
        ensures on { from ≤ result }
        ensures within { from < result → result ≤ length self.now.tasks }
        ensures rest { (n : ℕ) → from ≤ n → n < result → Rests n self.now }
    {
        let count = self.len();
        for task in from..count {
            if !self.rests(task) {
                return task;
            }
        }
        from.max(count)
    }
}

impl Task {
    #[inline(always)]
    fn rests(&self, clock: u64, calls: &Calls) -> bool
        ensures { IsTrue result →
            RestsBy self.now.condition.status clock calls.now.calls (plain_task self.now).own }
    {
        if self.condition.rests(clock) {
            return true;
        }
        match self.condition.status() {
            Status::Calling => {
                self.is_undisturbed() && is_later(cancel_time(calls.form(self.call)), clock)
            }
            Status::Created
            | Status::Running
            | Status::Activating
            | Status::Accepting
            | Status::Delaying
            | Status::Completed
            | Status::Terminated => false,
        }
    }

    // Whether it is not abnormal and services no object.
    #[inline(always)]
    fn is_undisturbed(&self) -> bool
        ensures { IsTrue result → IsUndisturbed (plain_task self.now).own }
    {
        !self.condition.is_abnormal() && self.condition.serving().is_none()
    }
}

// Whether a time, if there is one, has not come.
fn is_later(time: Option<u64>, clock: u64) -> bool
    ensures { result ≡ is_later clock time }
{
    match time {
        Some(time) => clock < time,
        None => true,
    }
}
