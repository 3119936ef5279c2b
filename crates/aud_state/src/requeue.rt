// Calls that an accept or entry body makes again (RM 9.5.4).

ghost use Rattle.std.specs.Prelude.{◌≡◌, ℕ, None, Some, Bool, Result, OnOk, slice_get};
ghost use Rattle.aud_text.specs.declared.raise.Raise.{Raise as RaiseOf};
ghost use Rattle.aud_typed.specs.Tree.{Plan};
ghost use Rattle.aud_meaning.specs.Configuration.{TaskAt};
ghost use Rattle.aud_meaning.specs.Effects.{out_of, pends};
ghost use Rattle.aud_meaning.specs.Evaluation.{Sight};
ghost use Rattle.aud_meaning.specs.Orders.{Orders};
ghost use Rattle.aud_meaning.specs.Parts.{alone, call_of, on_call, on_own};
ghost use Rattle.aud_meaning.specs.Step as step;
ghost use Rattle.aud_meaning.specs.Tasks as effect;
ghost use Rattle.aud_code.specs.Control.{going};
ghost use Rattle.aud_code.specs.Flat.{end_at};
ghost use Rattle.aud_code.specs.Places.{goes, Spot};
ghost use Rattle.aud_code.specs.View.{plain_way};
ghost use Rattle.aud_state.specs.View.{leaves_accept, plain_task};

use crate::state::State;
use crate::task::Task;
use aud_code::line::Way;
use aud_code::sound_code::SoundCode;
use aud_meaning::state::{Again, Owner, Restart};
use aud_text::int32::Int32;
use aud_text::place::Pos;
use aud_typed::program::Exception;
use std::alloc::AllocError;

impl Task {
    // Out of loops at once; what it then leaves makes its call again.
    fn requeue(&mut self, way: Way, again: Again)
        ensures { plain_task self.new ≡ record (plain_task self.old) {
          control = goes way.to (plain_task self.old).control;
          own = out_of way.loops (record (plain_task self.old).own { again = Some again });
        } }
    {
        self.parked.go(way.to);
        self.parked.close_times(way.loops);
        self.again = Some(again);
    }

    // It makes a call again on an object.
    fn set_restart(&mut self, restart: Restart)
        ensures { plain_task self.new ≡ record (plain_task self.old) {
          own = record (plain_task self.old).own { restart = Some restart };
        } }
    {
        self.restart = Some(restart);
    }

    // It makes no call again.
    fn clear_restart(&mut self)
        ensures { plain_task self.new ≡ record (plain_task self.old) {
          own = record (plain_task self.old).own { restart = None };
        } }
    {
        self.restart = None;
    }

    // It leaves the frame of an accept.
    fn close_accept(&mut self)
        ensures { plain_task self.new ≡ record (plain_task self.old) {
          own = leaves_accept (plain_task self.old).own;
        } }
    {
        self.parked.close();
        self.again = None;
    }

    // The same, with an exception pending behind it.
    fn close_accept_raising(&mut self, exception: Exception, at: Pos)
        ensures { plain_task self.new ≡ record (plain_task self.old) {
          own = pends exception at (leaves_accept (plain_task self.old).own);
        } }
    {
        self.close_accept();
        self.raise(exception, at);
    }
}

impl State {
    /// A task goes out of an accept or entry body by a way, to its end, which makes the call again.
    pub fn requeue(&mut self, code: &SoundCode, n: usize, way: Way, again: Again)
        requires { (t : TaskAt Spot) → slice_get self.old.tasks n ≡ Some t →
            (end_at code.now t.control.place).exit ≡ Some (plain_way way) }
        ensures { (plan : Plan) → (barrier : ℕ → Sight → Result Bool RaiseOf) →
            self.new ≡ alone (λ t. step.out_of_loops (going code.now) plan barrier way.loops
            (step.requeued (going code.now) plan barrier again t)) n self.old }
    {
        let _ = code;
        if n < self.tasks.len() {
            self.tasks[n].requeue(way, again);
        }
    }

    /// A task makes a call again on an object, as its next step.
    pub fn set_restart(&mut self, n: usize, restart: Restart)
        ensures { self.new ≡ on_own n (λ own. record own { restart = Some restart }) self.old }
    {
        if n < self.tasks.len() {
            self.tasks[n].set_restart(restart);
        }
    }

    /// It makes none again.
    pub fn clear_restart(&mut self, n: usize)
        ensures { self.new ≡ on_own n (λ own. record own { restart = None }) self.old }
    {
        if n < self.tasks.len() {
            self.tasks[n].clear_restart();
        }
    }

    /// It leaves the frame of an accept, which is its innermost one.
    pub fn close_accept(&mut self, n: usize)
        ensures { self.new ≡ on_own n leaves_accept self.old }
    {
        if n < self.tasks.len() {
            self.tasks[n].close_accept();
        }
    }

    /// The same, with an exception pending behind it.
    pub fn close_accept_raising(&mut self, n: usize, exception: Exception, at: Pos)
        ensures { self.new ≡ on_own n (λ own. pends exception at (leaves_accept own)) self.old }
    {
        if n < self.tasks.len() {
            self.tasks[n].close_accept_raising(exception, at);
        }
    }

    /// A call is made again, as this says, with these values of its formals. It is queued no more.
    ///
    /// # Errors
    ///
    /// Where memory is refused. Nothing is said of the state then.
    pub fn retarget_call(
        &mut self,
        id: usize,
        again: Again,
        values: Vec<Int32>,
    ) -> Result<(), AllocError>
        ensures { OnOk result ((go : Orders Spot) → (plan : Plan) →
            (barrier : ℕ → Sight → Result Bool RaiseOf) →
            self.new ≡ on_call id (effect.retargeted go plan barrier again values.items) self.old) }
    {
        self.calls.retarget(id, again, values)?;
        Ok(())
    }

    /// A call is made on an entry of this task or object. It is queued no more.
    ///
    /// # Errors
    ///
    /// Where memory is refused. Nothing is said of the state then.
    pub fn call_on(&mut self, id: usize, owner: Owner) -> Result<(), AllocError>
        ensures { OnOk result ((go : Orders Spot) → (plan : Plan) →
            (barrier : ℕ → Sight → Result Bool RaiseOf) →
            self.new ≡ on_call id (effect.called_of go plan barrier owner) self.old) }
    {
        self.calls.call_on(id, owner)?;
        Ok(())
    }

    /// Whether a call that is made again is cancelled instead, since its caller is abnormal and it does not stay (RM 9.5.4(17)).
    pub fn is_lost(&self, id: usize) -> bool
        ensures { (go : Orders Spot) → (plan : Plan) → (barrier : ℕ → Sight → Result Bool RaiseOf) →
            result ≡ effect.is_lost go plan barrier (call_of id self.now) self.now }
    {
        if self.stays(id) {
            return false;
        }
        self.is_abnormal(self.caller(id))
    }
}
