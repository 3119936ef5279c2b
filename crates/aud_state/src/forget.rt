// Frames and calls that are over are given back.

ghost use Rattle.std.specs.Prelude.{◌≡◌, ◌||◌, ℕ, [], true, if◌then◌else◌, map, slice_index_or, IfOk, OnOk, OnErr};
ghost use Rattle.aud_meaning.specs.Parts.{any, contains, is_terminated, owns, with_frames};
ghost use Rattle.aud_over.specs.Over.{forgotten, is_made_again, is_served, object_names, own_serves};
ghost use Rattle.aud_state.specs.Held.{calls_given_back, given_back, is_held, keeps};
ghost use Rattle.aud_state.specs.View.{plain_object, plain_task};

use crate::object::Object;
use crate::state::State;
use crate::task::Task;
use std::alloc::{AllocError, Global};

impl State {
    /// Whether so many frames were made since frames were last given back that looking for some is worth its time. Any answer is
    /// right.
    pub fn are_frames_due(&self) -> bool {
        self.progress.is_due()
    }

    /// Gives back the frames that are over: those that no task sees, has open or comes back to, that lie around no
    /// object, and that are no master of a task which isn't terminated (RM 9.3). Nothing depends on them any more. All
    /// others stay as they are.
    ///
    /// # Errors
    ///
    /// Where memory is refused. Nothing has changed then.
    pub fn forget_frames(&mut self, alloc: Global) -> Result<(), AllocError>
        ensures given_back { OnOk result (self.new ≡ given_back self.old) }
        ensures left { OnOk result (forgotten self.new ≡ forgotten self.old) }
        ensures others { self.new ≡ with_frames self.new.shared.frames self.old }
        ensures held { (frame : ℕ) → is_held frame self.old ≡ true →
            slice_index_or self.new.shared.frames frame [] ≡
            slice_index_or self.old.shared.frames frame [] }
        ensures refused { OnErr result (self.new ≡ self.old) }
    {
        let mut kept = kept_by_tasks(alloc, &self.tasks)?;
        put_around(&self.objects, &mut kept)?;
        self.progress.forget(&mut kept);
        Ok(())
    }

    /// Whether so many calls were made since calls were last given back that looking for some is worth its time. Any
    /// answer is right.
    pub fn are_calls_due(&self) -> bool {
        self.calls.is_due()
    }

    /// Gives back the calls that are over, for which no frame is open, and which no task makes again. Nothing depends on them any more. All others
    /// stay as they are, and all keep their numbers.
    ///
    /// # Errors
    ///
    /// Where memory is refused. Nothing has changed then.
    pub fn forget_calls(&mut self, alloc: Global) -> Result<(), AllocError>
        ensures given_back { OnOk result (self.new ≡ calls_given_back self.old) }
        ensures left { OnOk result (forgotten self.new ≡ forgotten self.old) }
        ensures refused { OnErr result (self.new ≡ self.old) }
    {
        let served = served_by_tasks(alloc, &self.tasks)?;
        self.calls.forget(&served);
        Ok(())
    }
}

impl Task {
    // Puts the frames that it keeps after others: those that it names, and unless it is terminated those of the masters
    // on which it depends.
    fn put_kept(&self, kept: &mut Vec<usize>) -> Result<(), AllocError>
        ensures { OnOk result ((frame : ℕ) → contains frame kept.new.items ≡
            (contains frame kept.old.items || keeps frame (plain_task self.now))) }
    {
        self.parked.stack().names(kept)?;
        kept.extend_from_slice(self.masters_held())?;
        Ok(())
    }

    // Puts the calls for which it has frames open after others, and the one that it makes again.
    fn put_served(&self, alloc: Global, served: &mut Vec<usize>) -> Result<(), AllocError>
        ensures { OnOk result ((id : ℕ) → contains id served.new.items ≡
            (contains id served.old.items || own_serves id (plain_task self.now).own)) }
    {
        let own = self.parked.stack().served(alloc)?;
        served.extend_from_slice(&own)?;
        self.put_restart(served)?;
        Ok(())
    }

    // Puts the call that it makes again on an object after others.
    fn put_restart(&self, served: &mut Vec<usize>) -> Result<(), AllocError>
        ensures { OnOk result ((id : ℕ) → contains id served.new.items ≡
            (contains id served.old.items || is_made_again id self.now.restart)) }
    {
        match self.restart {
            None => Ok(()),
            Some(restart) => {
                served.push(restart.call)?;
                Ok(())
            }
        }
    }

    // The masters on which it depends, unless it is terminated.
    fn masters_held(&self) -> &[usize]
        ensures { result.now
            ≡ (if is_terminated self.now.condition.status then [] else self.now.masters.items) }
    {
        if self.is_terminated() {
            &[]
        } else {
            &self.masters
        }
    }
}

// The frames that these tasks keep.
fn kept_by_tasks(alloc: Global, tasks: &[Task]) -> Result<Vec<usize>, AllocError>
    ensures { IfOk result (λ kept. (frame : ℕ) →
        contains frame kept.items ≡ any (keeps frame) (map plain_task tasks.now)) }
{
    let mut kept = Vec::new(alloc);
    for task in tasks {
        task.put_kept(&mut kept)?;
    }
    Ok(kept)
}

// The calls for which these tasks have frames open, and those that they make again.
fn served_by_tasks(alloc: Global, tasks: &[Task]) -> Result<Vec<usize>, AllocError>
    ensures { IfOk result (λ served. (id : ℕ) →
        contains id served.items ≡ is_served (owns (map plain_task tasks.now)) id) }
{
    let mut served = Vec::new(alloc);
    for task in tasks {
        task.put_served(alloc, &mut served)?;
    }
    Ok(served)
}

// Puts the frames around these objects after others.
fn put_around(objects: &[Object], kept: &mut Vec<usize>) -> Result<(), AllocError>
    ensures { OnOk result ((frame : ℕ) → contains frame kept.new.items ≡
        (contains frame kept.old.items || any (object_names frame) (map plain_object objects.now))) }
{
    for object in objects {
        kept.extend_from_slice(&object.display)?;
    }
    Ok(())
}
