// Tasks.

ghost use Rattle.std.specs.Prelude.{◌≡◌, ◌||◌, ◌&&◌, [], None, Some, false, not, nat_eq, ℕ, Bool, Result};
ghost use Rattle.aud_text.specs.declared.raise.Raise.{Raise as RaiseOf};
ghost use Rattle.aud_typed.specs.Tree.{Plan};
ghost use Rattle.aud_meaning.specs.Evaluation.{Sight};
ghost use Rattle.aud_meaning.specs.Listings.{serves_now};
ghost use Rattle.aud_meaning.specs.Orders.{Orders};
ghost use Rattle.aud_meaning.specs.Tasks as effect;
ghost use Rattle.aud_code.specs.Places.{Spot};
ghost use Rattle.aud_meaning.specs.declared.state.Status.TheVariants.{Activating, Completed, Running, Terminated};
ghost use Rattle.aud_meaning.specs.Effects.{closed, out_of, out_of_loops, pends};
ghost use Rattle.aud_meaning.specs.Parts.{any, blocks, depends, is_created, may_terminate, is_callable, is_terminated, no_waits, runs};
ghost use Rattle.aud_code.specs.Control.{going};
ghost use Rattle.aud_state.specs.View.{goes_on_behind, handles_it, plain_task, plain_waits, resumes};

use crate::condition::Condition;
use aud_code::sound_code::SoundCode;
use aud_meaning::state::{Again, OpenAccept, OpenDelay, Pending, Restart, Status};
use aud_sequential::progress::parked::Parked;
use aud_text::name::Name;
use aud_text::place::Pos;
use aud_text::raise::Raise;
use aud_typed::program::Exception;
use std::alloc::Global;

/// What a task is blocked at, besides an entry call.
#[derive(Drop)]
pub struct Waits {
    pub accepts: Vec<OpenAccept>,
    pub delays: Vec<OpenDelay>,
    pub terminate: bool,
}

impl Waits {
    /// It is blocked at nothing.
    pub(crate) fn none(alloc: Global) -> Self
        ensures { plain_waits result ≡ no_waits }
    {
        Waits {
            accepts: Vec::new(alloc),
            delays: Vec::new(alloc),
            terminate: false,
        }
    }

    /// It is blocked at nothing any more.
    pub(crate) fn clear(&mut self)
        ensures { plain_waits self.new ≡ no_waits }
    {
        self.accepts.clear();
        self.delays.clear();
        self.terminate = false;
    }
}

/// A task: its name, of an element of an array with its number; its type, its body; what it works on by itself; the
/// exception that completed it; the masters that it depends on; the declarative part that created it; the task that
/// waits for its activation; whether an activation that it waited for failed; where it is blocked; how far it is, and
/// at what it is blocked; its entry call; where the accept or entry body that it is leaving makes its call again, and the call that
/// it then makes on an object; the object from which it withdraws.
#[derive(Drop)]
pub struct Task {
    pub(crate) name: Name,
    pub(crate) element: Option<i64>,
    pub(crate) task_type: Option<usize>,
    pub(crate) unit: usize,
    pub(crate) parked: Parked,
    pub(crate) raised: Option<Exception>,
    pub(crate) masters: Vec<usize>,
    pub(crate) part: usize,
    pub(crate) activator: Option<usize>,
    pub(crate) failed: bool,
    pub(crate) at: Pos,
    pub(crate) condition: Condition,
    pub(crate) call: usize,
    pub(crate) again: Option<Again>,
    pub(crate) restart: Option<Restart>,
    pub(crate) withdraw: Option<usize>,
}

impl Task {
    // It goes on.
    pub(crate) fn go_on(&mut self)
        ensures { plain_task self.new ≡ record (plain_task self.old) {
          own = runs (plain_task self.old).own;
        } }
    {
        self.condition.come_free_to(Status::Running);
    }

    // It is blocked, at no accept and no delay.
    fn block(&mut self, status: Status, at: Pos)
        ensures { plain_task self.new ≡ record (plain_task self.old) {
          own = blocks status at no_waits (plain_task self.old).own;
        } }
    {
        self.condition.come_free_to(status);
        self.at = at;
    }

    /// Whether its entries may be called.
    pub(crate) fn is_callable(&self) -> bool
        ensures { result ≡ is_callable (plain_task self.now).own }
    {
        match self.condition.status() {
            Status::Completed | Status::Terminated => false,
            Status::Created
            | Status::Running
            | Status::Activating
            | Status::Accepting
            | Status::Delaying
            | Status::Calling => !self.condition.is_abnormal(),
        }
    }

    /// Whether it services an object: it is about to, or an entry body is under way for another task's call.
    pub(crate) fn is_servicing(&self) -> bool
        ensures { (plan : Plan) → (barrier : ℕ → Sight → Result Bool RaiseOf) → result
            ≡ serves_now plan barrier (plain_task self.now).own.serving (plain_task self.now).own.opened }
    {
        match self.condition.serving() {
            Some(_) => true,
            None => self.parked.stack().is_serving(),
        }
    }

    /// Whether it is terminated.
    pub(crate) fn is_terminated(&self) -> bool
        ensures { result ≡ is_terminated self.now.condition.status }
    {
        matches!(self.condition.status(), Status::Terminated)
    }

    /// Whether it is created and not activated.
    pub(crate) fn is_created(&self) -> bool
        ensures { result ≡ is_created self.now.condition.status }
    {
        matches!(self.condition.status(), Status::Created)
    }

    /// Whether it waits for activations.
    pub(crate) fn is_activating(&self) -> bool
        ensures { (go : Orders Spot) → (plan : Plan) → (barrier : ℕ → Sight → Result Bool RaiseOf) →
            result ≡ effect.is_activating go plan barrier self.now.condition.status }
    {
        matches!(self.condition.status(), Status::Activating)
    }

    /// Whether the declarative part with this frame has created it, and not activated it.
    pub(crate) fn is_created_by(&self, part: usize) -> bool
        ensures { result ≡ (is_created (plain_task self.now).own.status
            && nat_eq (plain_task self.now).own.part part) }
    {
        self.is_created() && self.part == part
    }

    /// Whether one of these declarative parts has created it, and not activated it.
    pub(crate) fn is_created_in(&self, parts: &[usize]) -> bool
        ensures { result ≡ (is_created (plain_task self.now).own.status
            && any (λ part. nat_eq part (plain_task self.now).own.part) parts.now) }
    {
        self.is_created() && parts.contains(&self.part)
    }

    /// Whether that task waits for its activation.
    pub(crate) fn is_awaited_by(&self, activator: usize) -> bool
        ensures { (go : Orders Spot) → (plan : Plan) → (barrier : ℕ → Sight → Result Bool RaiseOf) →
            result ≡ effect.is_awaited_by go plan barrier activator (plain_task self.now) }
    {
        match self.activator {
            Some(task) => task == activator,
            None => false,
        }
    }

    /// Whether it is blocked at a selective accept with an open terminate alternative (RM 9.7.1(16)).
    pub(crate) fn may_terminate(&self) -> bool
        ensures { result ≡ may_terminate (plain_task self.now).own }
    {
        matches!(self.condition.status(), Status::Accepting)
            && self.condition.has_terminate()
            && !self.condition.is_abnormal()
    }

    /// Whether a master cannot be left because of it (RM 9.3(5)).
    pub(crate) fn holds(&self, master: usize) -> bool
        ensures { result ≡ (depends master (plain_task self.now).own
            && not (may_terminate (plain_task self.now).own)) }
    {
        self.depends_on(master) && !self.may_terminate()
    }

    /// Whether it depends on the master and isn't terminated.
    pub(crate) fn depends_on(&self, master: usize) -> bool
        ensures { result ≡ depends master (plain_task self.now).own }
    {
        !self.is_terminated() && self.masters.contains(&master)
    }

    /// A task goes on, and the part of this number follows of what stands there.
    pub(crate) fn resume(&mut self, code: &SoundCode, part: usize)
        ensures { plain_task self.new ≡ resumes (going code.now) part (plain_task self.old) }
    {
        self.parked.take(code, part);
        self.go_on();
    }

    /// The part of this number follows of what stands there.
    pub(crate) fn take(&mut self, code: &SoundCode, part: usize)
        ensures { plain_task self.new
            ≡ record (plain_task self.old) {
              control = (going code.now).takes part (plain_task self.old).control;
            } }
    {
        self.parked.take(code, part);
    }

    /// It goes on behind the construct at whose end it stands, with nothing pending.
    pub(crate) fn pass_end(&mut self, code: &SoundCode)
        ensures { plain_task self.new
            ≡ record (plain_task self.old) {
              control = (going code.now).behind (plain_task self.old).control;
              own = record (plain_task self.old).own { pending = None };
            } }
    {
        self.parked.pass_end(code);
        self.parked.set_pending(None);
    }

    /// An exception leaves the innermost construct around its place, and is pending no more.
    pub(crate) fn leave_by(&mut self, code: &SoundCode, exception: Exception)
        ensures { plain_task self.new
            ≡ record (plain_task self.old) {
              control = (going code.now).left exception (plain_task self.old).control;
              own = record (plain_task self.old).own { pending = None };
            } }
    {
        self.parked.leave_by(code, exception);
        self.parked.set_pending(None);
    }

    /// It goes on, with an exception pending where it stands.
    pub(crate) fn fail(&mut self, exception: Exception, at: Pos)
        ensures { plain_task self.new
            ≡ record (plain_task self.old) {
              own = pends exception at (runs (plain_task self.old).own);
            } }
    {
        self.parked.set_pending(Some(Pending { exception, at }));
        self.go_on();
    }

    /// An exception is pending where it stands.
    pub(crate) fn raise(&mut self, exception: Exception, at: Pos)
        ensures { plain_task self.new
            ≡ record (plain_task self.old) { own = pends exception at (plain_task self.old).own } }
    {
        self.parked.set_pending(Some(Pending { exception, at }));
    }

    /// It waits until the tasks that it activates are activated.
    pub(crate) fn block_activating(&mut self, at: Pos)
        ensures { plain_task self.new
            ≡ record (plain_task self.old) {
              own = record (blocks Activating at no_waits (plain_task self.old).own) {
                failed = false;
              };
            } }
    {
        self.block(Status::Activating, at);
        self.failed = false;
    }

    /// All activations have ended for which it waited: it goes on behind them, or has Tasking_Error pending.
    pub(crate) fn go_on_behind(&mut self, code: &SoundCode)
        ensures { plain_task self.new ≡ goes_on_behind (going code.now) (plain_task self.old) }
    {
        self.parked.take(code, 0);
        if self.failed {
            let exception = Exception::Predefined(Raise::Tasking);
            self.parked.set_pending(Some(Pending {
                exception,
                at: self.at,
            }));
        }
        self.go_on();
    }

    /// Its activation begins, for which another one waits.
    pub(crate) fn begin(&mut self, activator: usize)
        ensures { plain_task self.new
            ≡ record (plain_task self.old) {
              own = record (plain_task self.old).own {
                status = Running;
                activator = Some activator;
              };
            } }
    {
        self.condition.come_to(Status::Running);
        self.activator = Some(activator);
    }

    /// Its body is completed, by an exception or without one.
    pub(crate) fn complete_own(&mut self, raised: Option<Exception>)
        ensures { plain_task self.new
            ≡ record (plain_task self.old) {
              own = record (plain_task self.old).own {
                status = Completed;
                pending = None;
                raised = raised;
                waits = no_waits;
              };
            } }
    {
        self.condition.come_free_to(Status::Completed);
        self.parked.set_pending(None);
        self.raised = raised;
    }

    /// It is terminated, and loses its frames.
    pub(crate) fn terminate_own(&mut self, alloc: Global)
        ensures { plain_task self.new
            ≡ record (plain_task self.old) {
              own = record (plain_task self.old).own {
                status = Terminated;
                pending = None;
                display = [];
                opened = [];
                waits = no_waits;
              };
            } }
    {
        self.condition.come_free_to(Status::Terminated);
        self.parked.lose_frames(alloc);
    }

    /// An activation for which it waits has failed, or not.
    pub(crate) fn note_failure(&mut self, failed: bool)
        ensures { plain_task self.new
            ≡ record (plain_task self.old) {
              own = record (plain_task self.old).own {
                failed = (plain_task self.old).own.failed || failed;
              };
            } }
    {
        self.failed = self.failed || failed;
    }

    /// No task waits for its activation any more.
    pub(crate) fn not_awaited(&mut self)
        ensures { plain_task self.new
            ≡ record (plain_task self.old) {
              own = record (plain_task self.old).own { activator = None };
            } }
    {
        self.activator = None;
    }

    /// The innermost construct around its place handles what is pending.
    pub(crate) fn handle(&mut self, code: &SoundCode, pending: Pending)
        ensures { plain_task self.new ≡ handles_it (going code.now) pending (plain_task self.old) }
    {
        self.parked.handle(code, pending);
    }

    /// Its innermost frame is left.
    pub(crate) fn close(&mut self)
        ensures { plain_task self.new
            ≡ record (plain_task self.old) { own = closed (plain_task self.old).own } }
    {
        self.parked.close();
    }

    /// Its innermost frame is left, with an exception pending behind it.
    pub(crate) fn close_raising(&mut self, exception: Exception, at: Pos)
        ensures { plain_task self.new
            ≡ record (plain_task self.old) {
              own = pends exception at (closed (plain_task self.old).own);
            } }
    {
        self.parked.close();
        self.parked.set_pending(Some(Pending { exception, at }));
    }

    /// The frames of so many loops are left.
    pub(crate) fn out_of(&mut self, loops: usize)
        ensures { plain_task self.new
            ≡ record (plain_task self.old) { own = out_of loops (plain_task self.old).own } }
    {
        self.parked.close_times(loops);
    }

    /// The frames of the loops within its innermost construct are left.
    pub(crate) fn out_of_loops(&mut self)
        ensures { plain_task self.new
            ≡ record (plain_task self.old) { own = out_of_loops (plain_task self.old).own } }
    {
        self.parked.close_loops();
    }
}
