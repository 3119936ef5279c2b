// Protected actions, and the servicing of objects (RM 9.5.1, 9.5.3).

ghost use Rattle.std.specs.Prelude.{◌≡◌, ◌++◌, ◌∷◌, [], None, Some, filter, length, nat_eq, not, IfOk, OnOk};
ghost use Rattle.aud_meaning.specs.Effects.{has_room};
ghost use Rattle.aud_meaning.specs.Parts.{acts_on, begin_action, end_action, in_the_way, object_of, on_object, on_own, on_shared, own_of};
ghost use Rattle.aud_state.specs.View.{plain_object, plain_task, with_object};

use crate::object::Object;
use crate::state::State;
use crate::task::Task;
use aud_meaning::state::{Action, Serving};
use aud_text::int32::Int32;
use std::alloc::{AllocError, Global};

impl Object {
    // A task begins an action on it.
    fn begin(&mut self, task: usize, reading: bool) -> Result<(), AllocError>
        ensures { OnOk result (plain_object self.new ≡ record (plain_object self.old) {
          actions = (plain_object self.old).actions
              ++ record { task = task; reading = reading } ∷ [];
        }) }
    {
        self.actions.push(Action { task, reading })?;
        Ok(())
    }

    // The action of a task on it ends.
    fn end(&mut self, task: usize)
        ensures { plain_object self.new ≡ record (plain_object self.old) {
          actions = filter (λ a. not (nat_eq a.task task)) (plain_object self.old).actions;
        } }
    {
        self.actions.retain(|action| action.task != task);
    }

    // Whether another task's action is in the way of one of a task.
    fn is_in_the_way(&self, task: usize, reading: bool) -> bool
        ensures { result ≡ in_the_way task reading (plain_object self.now) }
    {
        for action in &self.actions {
            if action.task != task && !(reading && action.reading) {
                return true;
            }
        }
        false
    }
}

impl Task {
    // It services this, or nothing.
    fn set_serving(&mut self, serving: Option<Serving>)
        ensures { plain_task self.new ≡ record (plain_task self.old) {
          own = record (plain_task self.old).own { serving = serving };
        } }
    {
        self.condition.serve(serving);
    }

    // It withdraws from no object.
    fn clear_withdraw(&mut self)
        ensures { plain_task self.new ≡ record (plain_task self.old) {
          own = record (plain_task self.old).own { withdraw = None };
        } }
    {
        self.withdraw = None;
    }
}

impl State {
    /// A task begins an action on an object; where there is no object of this number, nothing changes.
    ///
    /// # Errors
    ///
    /// Where memory is refused. Nothing is said of the state then.
    pub fn begin_action(
        &mut self,
        task: usize,
        object: usize,
        reading: bool,
    ) -> Result<(), AllocError>
        ensures { OnOk result (self.new ≡ begin_action task object reading self.old) }
    {
        if object < self.objects.len() {
            self.objects[object].begin(task, reading)?;
        }
        Ok(())
    }

    /// The action of a task on an object ends, and with it the servicing of the object.
    pub fn end_action(&mut self, task: usize, object: usize)
        ensures { self.new ≡ end_action task object self.old }
    {
        self.let_go(task, object);
        self.stop_serving(task);
    }

    // The action of a task on an object ends.
    fn let_go(&mut self, task: usize, object: usize)
        ensures { self.new ≡ on_object object (λ o. record o {
          actions = filter (λ a. not (nat_eq a.task task)) o.actions;
        }) self.old }
    {
        if object < self.objects.len() {
            self.objects[object].end(task);
        }
    }

    // It services no object.
    fn stop_serving(&mut self, n: usize)
        ensures { self.new ≡ on_own n (λ own. record own { serving = None }) self.old }
    {
        if n < self.tasks.len() {
            self.tasks[n].set_serving(None);
        }
    }

    /// A task that has an object's action stands where it services the object.
    pub fn serve(&mut self, n: usize, serving: Serving)
        ensures { self.new ≡ on_own n (λ own. record own { serving = Some serving }) self.old }
    {
        if n < self.tasks.len() {
            self.tasks[n].set_serving(Some(serving));
        }
    }

    /// It withdraws from no object.
    pub fn clear_withdraw(&mut self, n: usize)
        ensures { self.new ≡ on_own n (λ own. record own { withdraw = None }) self.old }
    {
        if n < self.tasks.len() {
            self.tasks[n].clear_withdraw();
        }
    }

    /// Whether a task has an action under way on an object.
    pub fn acts_on(&self, task: usize, object: usize) -> bool
        ensures { result ≡ acts_on task (object_of object self.now) }
    {
        match self.objects.get(object) {
            Some(found) => found.acts_on(task),
            None => false,
        }
    }

    /// Whether another task's action on an object is in the way of one of a task; functions may run together (RM 9.5.1(5, 6)).
    pub fn is_in_the_way(&self, task: usize, reading: bool, object: usize) -> bool
        ensures { result ≡ in_the_way task reading (object_of object self.now) }
    {
        match self.objects.get(object) {
            Some(found) => found.is_in_the_way(task, reading),
            None => false,
        }
    }

    /// The declaration of an object.
    pub fn declaration(&self, object: usize) -> usize
        ensures { result ≡ (object_of object self.now).declaration }
    {
        match self.objects.get(object) {
            Some(found) => found.declaration,
            None => 0,
        }
    }

    /// The frames that the bodies of an object see, outermost first.
    pub fn object_display(&self, object: usize) -> &[usize]
        ensures { result.now ≡ (object_of object self.now).display }
    {
        match self.objects.get(object) {
            Some(found) => &found.display,
            None => &[],
        }
    }

    /// The actions under way on an object, in the order in which they began.
    pub fn actions(&self, object: usize) -> &[Action]
        ensures { result.now ≡ (object_of object self.now).actions }
    {
        match self.objects.get(object) {
            Some(found) => &found.actions,
            None => &[],
        }
    }

    /// How many objects were ever created.
    pub fn objects(&self) -> usize
        ensures { result ≡ length self.now.shared.objects }
    {
        self.objects.len()
    }

    /// An object is created with these cells of its components, which its bodies see behind all that a task sees, the one whose
    /// declarative part it stands in. It gives the object's number.
    ///
    /// # Errors
    ///
    /// Where memory is refused. Nothing is said of the state then.
    pub fn create_object(
        &mut self,
        alloc: Global,
        declaration: usize,
        cells: &[Int32],
        n: usize,
    ) -> Result<usize, AllocError>
        ensures number { IfOk result (λ object. object ≡ length self.old.shared.objects) }
        ensures created { OnOk result (self.new ≡
            on_shared (with_object declaration cells.now (own_of n self.old).display) self.old) }
    {
        let object = self.objects.len();
        let mut display = self.display_of(alloc, n)?;
        let frame = self.progress.make_frame(alloc, cells)?;
        display.push(frame)?;
        self.objects.push(Object {
            declaration,
            display,
            actions: Vec::new(alloc),
        })?;
        Ok(object)
    }

    // The frames that a task sees, outermost first.
    fn display_of(&self, alloc: Global, task: usize) -> Result<Vec<usize>, AllocError>
        ensures { IfOk result (λ display. display.items ≡ (own_of task self.now).display) }
    {
        let mut display = Vec::new(alloc);
        display.extend_from_slice(self.seen_by(task))?;
        Ok(display)
    }

    // Those frames, not copied.
    #[tactic(auto, using(crate::proofs::TaskLaws::Changed::own_got, crate::proofs::TaskLaws::Changed::own_past))]
    fn seen_by(&self, task: usize) -> &[usize]
        ensures { result.now ≡ (own_of task self.now).display }
    {
        if task < self.tasks.len() {
            let found = &self.tasks[task];
            return found.parked.stack().display();
        }
        &[]
    }

    /// Whether a task may open one frame more.
    #[tactic(auto, using(crate::proofs::TaskLaws::Changed::own_got, crate::proofs::TaskLaws::Changed::own_past))]
    pub fn has_room(&self, task: usize) -> bool
        ensures { result ≡ has_room (own_of task self.now) }
    {
        if task < self.tasks.len() {
            let found = &self.tasks[task];
            return found.parked.stack().has_room();
        }
        true
    }
}
