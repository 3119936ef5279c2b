// What is done to tasks, one by one.

ghost use Rattle.std.specs.Prelude.{◌≡◌, ◌<◌, suc, ◌||◌, [], None, Some, false};
ghost use Rattle.aud_meaning.specs.declared.state.Status.TheVariants as status;
ghost use Rattle.aud_meaning.specs.Effects.{closed, out_of, out_of_loops, pends};
ghost use Rattle.aud_meaning.specs.Parts.{blocks, no_waits, on_control, on_own, on_task, runs};
ghost use Rattle.aud_code.specs.Control.{going};
ghost use Rattle.aud_state.specs.View.{goes_on_behind, handles_it, resumes};

use crate::object::Object;
use crate::task::Task;
use aud_calls::calls::Calls;
use aud_code::sound_code::SoundCode;
use aud_meaning::state::Pending;
use aud_sequential::progress::Progress;
use aud_text::limits::STEPS;
use aud_text::place::Pos;
use aud_typed::program::Exception;
use std::alloc::Global;
use std::marker::Model;

/// All tasks ever created, by their numbers, of which the main procedure has the first; what all share, with nothing in
/// the place of a task's part; all entry calls and all protected objects.
// The task that took the last step is kept to be looked at first.
pub struct State {
    pub(crate) tasks: Vec<Task>,
    pub(crate) last_mover: usize,
    pub(crate) progress: Progress,
    pub(crate) calls: Calls,
    pub(crate) objects: Vec<Object>,
}

// One call wherever it is dropped.
impl Drop for State {
    fn drop(self) {
        let State {
            tasks: _,
            last_mover: _,
            progress: _,
            calls: _,
            objects: _,
        } = self;
    }
}

impl Model for State {
    ghost use Rattle.aud_meaning.specs.Configuration.{All};
    ghost use Rattle.aud_code.specs.Places.{Spot};
    ghost use Rattle.aud_state.specs.View.{all_of};

    ghost Value = { All Spot };

    ghost view = { λ s. all_of s.tasks.items s.progress s.calls s.objects.items };
}

impl State {
    /// A task goes on, and the part of this number follows of what stands there.
    pub fn resume(&mut self, code: &SoundCode, n: usize, part: usize)
        ensures { self.new ≡ on_task n (resumes (going code.now) part) self.old }
    {
        if n < self.tasks.len() {
            self.tasks[n].resume(code, part);
        }
    }

    /// The part of this number follows of what stands there.
    pub fn take(&mut self, code: &SoundCode, n: usize, part: usize)
        ensures { self.new ≡ on_control n ((going code.now).takes part) self.old }
    {
        if n < self.tasks.len() {
            self.tasks[n].take(code, part);
        }
    }

    /// It goes on behind the construct at whose end it stands, with nothing pending.
    pub fn pass_end(&mut self, code: &SoundCode, n: usize)
        ensures { self.new
            ≡ on_task n (λ t. record t {
              control = (going code.now).behind t.control;
              own = record t.own { pending = None };
            }) self.old }
    {
        if n < self.tasks.len() {
            self.tasks[n].pass_end(code);
        }
    }

    /// An exception leaves the innermost construct around its place, and is pending no more.
    pub fn leave_by(&mut self, code: &SoundCode, n: usize, exception: Exception)
        ensures { self.new
            ≡ on_task n (λ t. record t {
              control = (going code.now).left exception t.control;
              own = record t.own { pending = None };
            }) self.old }
    {
        if n < self.tasks.len() {
            self.tasks[n].leave_by(code, exception);
        }
    }

    /// It goes on, with an exception pending where it stands.
    pub fn fail(&mut self, n: usize, exception: Exception, at: Pos)
        ensures { self.new ≡ on_own n (λ own. pends exception at (runs own)) self.old }
    {
        if n < self.tasks.len() {
            self.tasks[n].fail(exception, at);
        }
    }

    /// An exception is pending where it stands.
    pub fn raise(&mut self, n: usize, exception: Exception, at: Pos)
        ensures { self.new ≡ on_own n (pends exception at) self.old }
    {
        if n < self.tasks.len() {
            self.tasks[n].raise(exception, at);
        }
    }

    /// It waits until the tasks that it activates are activated.
    pub fn block_activating(&mut self, n: usize, at: Pos)
        ensures { self.new
            ≡ on_own n (λ own. record (blocks status.Activating at no_waits own) { failed = false }) self.old }
    {
        if n < self.tasks.len() {
            self.tasks[n].block_activating(at);
        }
    }

    /// All activations have ended for which it waited: it goes on behind them, or has Tasking_Error pending.
    pub fn go_on_behind(&mut self, code: &SoundCode, n: usize)
        ensures { self.new ≡ on_task n (goes_on_behind (going code.now)) self.old }
    {
        if n < self.tasks.len() {
            self.tasks[n].go_on_behind(code);
        }
    }

    /// Its activation begins, for which another one waits.
    pub fn begin(&mut self, n: usize, activator: usize)
        ensures { self.new
            ≡ on_own n (λ own. record own { status = status.Running; activator = Some activator }) self.old }
    {
        if n < self.tasks.len() {
            self.tasks[n].begin(activator);
        }
    }

    /// Its body is completed, by an exception or without one.
    pub fn complete_own(&mut self, n: usize, raised: Option<Exception>)
        ensures { self.new
            ≡ on_own n (λ own. record own {
              status = status.Completed;
              pending = None;
              raised = raised;
              waits = no_waits;
            }) self.old }
    {
        if n < self.tasks.len() {
            self.tasks[n].complete_own(raised);
        }
    }

    /// It is terminated, and loses its frames.
    pub fn terminate_own(&mut self, alloc: Global, n: usize)
        ensures { self.new
            ≡ on_own n (λ own. record own {
              status = status.Terminated;
              pending = None;
              display = [];
              opened = [];
              waits = no_waits;
            }) self.old }
    {
        if n < self.tasks.len() {
            self.tasks[n].terminate_own(alloc);
        }
    }

    /// An activation for which it waits has failed, or not.
    pub fn note_failure(&mut self, n: usize, failed: bool)
        ensures { self.new ≡ on_own n (λ own. record own { failed = own.failed || failed }) self.old }
    {
        if n < self.tasks.len() {
            self.tasks[n].note_failure(failed);
        }
    }

    /// No task waits for its activation any more.
    pub fn not_awaited(&mut self, n: usize)
        ensures { self.new ≡ on_own n (λ own. record own { activator = None }) self.old }
    {
        if n < self.tasks.len() {
            self.tasks[n].not_awaited();
        }
    }

    /// The innermost construct around its place handles what is pending (RM 11.4(7)).
    pub fn handle(&mut self, code: &SoundCode, n: usize, pending: Pending)
        ensures { self.new ≡ on_task n (handles_it (going code.now) pending) self.old }
    {
        if n < self.tasks.len() {
            self.tasks[n].handle(code, pending);
        }
    }

    /// Its innermost frame is left.
    pub fn close(&mut self, n: usize)
        ensures { self.new ≡ on_own n closed self.old }
    {
        if n < self.tasks.len() {
            self.tasks[n].close();
        }
    }

    /// Its innermost frame is left, with an exception pending behind it.
    pub fn close_raising(&mut self, n: usize, exception: Exception, at: Pos)
        ensures { self.new ≡ on_own n (λ own. pends exception at (closed own)) self.old }
    {
        if n < self.tasks.len() {
            self.tasks[n].close_raising(exception, at);
        }
    }

    /// The frames of so many loops are left.
    pub fn out_of(&mut self, n: usize, loops: usize)
        ensures { self.new ≡ on_own n (out_of loops) self.old }
    {
        if n < self.tasks.len() {
            self.tasks[n].out_of(loops);
        }
    }

    /// The frames of the loops within its innermost construct are left.
    pub fn out_of_loops(&mut self, n: usize)
        ensures { self.new ≡ on_own n out_of_loops self.old }
    {
        if n < self.tasks.len() {
            self.tasks[n].out_of_loops();
        }
    }

    /// One step more is taken, by this task.
    pub fn count_step(&mut self, task: usize)
        requires { self.old.steps < STEPS }
        ensures { self.new ≡ record self.old { steps = suc self.old.steps } }
    {
        self.last_mover = task;
        self.progress.count_step();
    }
}
