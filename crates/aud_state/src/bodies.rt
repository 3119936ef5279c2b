// Bodies of objects that tasks enter and leave (RM 9.5.1, 9.5.2).

ghost use Rattle.std.specs.Prelude.{◌≡◌, None, length, OnOk};
ghost use Rattle.aud_meaning.specs.declared.state.Status.TheVariants.{Running};
ghost use Rattle.aud_meaning.specs.Configuration.{Shared};
ghost use Rattle.aud_meaning.specs.Effects.{opens};
ghost use Rattle.aud_meaning.specs.Parts.{acting, alone, on_control, on_own, on_task};
ghost use Rattle.aud_meaning.specs.Ties.Part.{rest_of, shared_by};
ghost use Rattle.aud_code.specs.Control.{going};
ghost use Rattle.aud_sequential.specs.Shown.{plans_of, unit_in};
ghost use Rattle.aud_store.specs.Ties.Stored.{copies_of, plain_purpose};
ghost use Rattle.aud_state.specs.View.{begins_entry, goes_back, plain_task};

use crate::state::State;
use crate::task::Task;
use aud_code::sound_code::SoundCode;
use aud_meaning::state::{Resumed, Status};
use aud_sequential::progress::Progress;
use aud_store::purpose::Purpose;
use aud_store::target::Back;
use aud_text::int32::Int32;
use aud_text::place::Pos;
use aud_typed::program::Unit;
use std::alloc::{AllocError, Global};

impl Task {
    // It begins a body, and comes back to where it stands.
    fn enter(&mut self, code: &SoundCode, unit: usize) -> Result<(), AllocError>
        ensures { OnOk result (plain_task self.new ≡ record (plain_task self.old) {
          control = (going code.now).enters unit (plain_task self.old).control;
        }) }
    {
        self.parked.enter(code, unit)?;
        Ok(())
    }

    // It begins an entry body, whatever it stood at.
    fn begin_entry(&mut self, code: &SoundCode, unit: usize) -> Result<(), AllocError>
        ensures { OnOk result (plain_task self.new ≡
            begins_entry (going code.now) unit (plain_task self.old)) }
    {
        self.parked.enter(code, unit)?;
        self.parked.set_pending(None);
        self.condition.come_to(Status::Running);
        self.condition.serve(None);
        Ok(())
    }

    // The frame of a body of an object is opened, which sees the frames of the object.
    fn open_for(
        &mut self,
        progress: &mut Progress,
        alloc: Global,
        units: &[Unit],
        unit: usize,
        purpose: Purpose,
        backs: &[Back],
        display: &[usize],
        at: Pos,
        values: &[Int32],
    ) -> Result<(), AllocError>
        requires copies { copies_of purpose ≡ length backs.now }
        ensures does { OnOk result ((shared : Shared) →
            acting (plain_task self.new) (shared_by shared progress.new) ≡
            opens (plain_purpose purpose backs.now) (unit_in (plans_of units.now) unit).region at
            display.now values.now (length values.now)
            (acting (plain_task self.old) (shared_by shared progress.old))) }
        ensures kept { OnOk result (rest_of progress.new ≡ rest_of progress.old) }
    {
        progress.exchange(&mut self.parked);
        progress.open_apart(alloc, units, unit, purpose, backs, display, at, values)?;
        progress.exchange(&mut self.parked);
        Ok(())
    }

    // It leaves the frame of an entry body, and goes back to what it was at.
    fn go_back(&mut self, resumed: Resumed)
        ensures { plain_task self.new ≡ record (plain_task self.old) {
          own = goes_back resumed (plain_task self.old).own;
        } }
    {
        self.parked.close();
        self.parked.set_pending(resumed.pending);
        self.condition.come_to(resumed.status);
        self.again = None;
    }
}

impl State {
    /// A task begins the body of this number, and comes back to where it stands.
    ///
    /// # Errors
    ///
    /// Where memory is refused. Nothing is said of the state then.
    pub fn enter(&mut self, code: &SoundCode, n: usize, unit: usize) -> Result<(), AllocError>
        ensures { OnOk result (self.new ≡ on_control n ((going code.now).enters unit) self.old) }
    {
        if n < self.tasks.len() {
            self.tasks[n].enter(code, unit)?;
        }
        Ok(())
    }

    /// A task begins an entry body. What it waits for or has pending is set aside.
    ///
    /// # Errors
    ///
    /// Where memory is refused. Nothing is said of the state then.
    pub fn begin_entry(&mut self, code: &SoundCode, n: usize, unit: usize) -> Result<(), AllocError>
        ensures { OnOk result (self.new ≡ on_task n (begins_entry (going code.now) unit) self.old) }
    {
        if n < self.tasks.len() {
            self.tasks[n].begin_entry(code, unit)?;
        }
        Ok(())
    }

    /// The frame of a body of an object is opened in a task, with these values of its formals. It sees the frames of a
    /// display, and its own; these formals are copied back at its end.
    ///
    /// # Errors
    ///
    /// Where memory is refused. Nothing is said of the state then.
    pub fn open_for(
        &mut self,
        alloc: Global,
        units: &[Unit],
        n: usize,
        unit: usize,
        purpose: Purpose,
        backs: &[Back],
        display: &[usize],
        at: Pos,
        values: &[Int32],
    ) -> Result<(), AllocError>
        requires copies { copies_of purpose ≡ length backs.now }
        ensures { OnOk result (self.new ≡ alone (λ t. opens (plain_purpose purpose backs.now)
            (unit_in (plans_of units.now) unit).region at display.now values.now
            (length values.now) t) n self.old) }
    {
        if n < self.tasks.len() {
            let progress = &mut self.progress;
            self.tasks[n].open_for(
                progress, alloc, units, unit, purpose, backs, display, at, values,
            )?;
        }
        Ok(())
    }

    /// A task leaves the frame of an entry body, and goes back to what it was at: its own call, or an exception that was pending.
    pub fn go_back(&mut self, n: usize, resumed: Resumed)
        ensures { self.new ≡ on_own n (goes_back resumed) self.old }
    {
        if n < self.tasks.len() {
            self.tasks[n].go_back(resumed);
        }
    }
}
