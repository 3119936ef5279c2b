// What abort reads of tasks and their calls, and what it changes (RM 9.8).

ghost use Rattle.std.specs.Prelude.{◌≡◌, ℕ, Bool, Result, Some, IfOk, map};
ghost use Rattle.aud_text.specs.declared.raise.Raise.{Raise as RaiseOf};
ghost use Rattle.aud_typed.specs.Tree.{Plan};
ghost use Rattle.aud_meaning.specs.Evaluation.{Sight};
ghost use Rattle.aud_meaning.specs.Orders.{Orders};
ghost use Rattle.aud_meaning.specs.Parts.{any, contains, on_own, own_of};
ghost use Rattle.aud_meaning.specs.Tasks as effect;
ghost use Rattle.aud_code.specs.Places.{Spot};
ghost use Rattle.aud_calls.specs.Queues.{calls_by};
ghost use Rattle.aud_state.specs.Aborting.{body_frame};
ghost use Rattle.aud_state.specs.View.{plain_task};

use crate::state::State;
use crate::task::Task;
use std::alloc::{AllocError, Global};

impl Task {
    // Whether it depends on one of these masters, terminated or not.
    fn is_under_any(&self, masters: &[usize]) -> bool
        ensures { result ≡ any (λ m. contains m (plain_task self.now).own.masters) masters.now }
    {
        for master in masters {
            if self.masters.contains(master) {
                return true;
            }
        }
        false
    }

    // Whether it becomes abnormal as the task of this number, where these are named that have these bodies (RM 9.8(4, 13)).
    fn is_hit(&self, named: &[usize], bodies: &[usize], n: usize) -> bool
        ensures { (go : Orders Spot) → (plan : Plan) → (barrier : ℕ → Sight → Result Bool RaiseOf) →
            result ≡ effect.is_hit go plan barrier named.now bodies.now n (plain_task self.now).own }
    {
        !self.is_terminated() && (named.contains(&n) || self.is_under_any(bodies))
    }

    // It is to withdraw from an object.
    fn set_withdraw(&mut self, object: usize)
        ensures { plain_task self.new ≡ record (plain_task self.old) {
          own = record (plain_task self.old).own { withdraw = Some object };
        } }
    {
        self.withdraw = Some(object);
    }
}

impl State {
    /// The tasks that become abnormal where these are named that have these bodies, by their numbers (RM 9.8(4, 13)).
    ///
    /// # Errors
    ///
    /// Where memory is refused.
    pub fn hit(
        &self,
        alloc: Global,
        named: &[usize],
        bodies: &[usize],
    ) -> Result<Vec<usize>, AllocError>
        ensures { IfOk result (λ ns. (go : Orders Spot) → (plan : Plan) →
            (barrier : ℕ → Sight → Result Bool RaiseOf) →
            ns.items ≡ effect.hit_from go plan barrier named.now bodies.now 0 self.now.tasks) }
    {
        hit_among(alloc, &self.tasks, named, bodies)
    }

    /// The frame of a task's body; none where the body has not begun, or the task is terminated.
    pub fn body_frame(&self, task: usize) -> Option<usize>
        ensures { result ≡ body_frame (own_of task self.now).opened }
    {
        if self.opened(task).is_empty() {
            None
        } else {
            Some(self.body_master(task))
        }
    }

    /// The calls of a task that are queued, but for those that stay, by their numbers.
    ///
    /// # Errors
    ///
    /// Where memory is refused.
    pub fn queued_by(&self, alloc: Global, caller: usize) -> Result<Vec<usize>, AllocError>
        ensures { IfOk result (λ ids. ids.items ≡ calls_by caller self.now.shared.calls) }
    {
        self.calls.queued_by(alloc, caller)
    }

    /// A task is to withdraw from an object (RM 9.8(15)).
    pub fn set_withdraw(&mut self, n: usize, object: usize)
        ensures { self.new ≡ on_own n (λ own. record own { withdraw = Some object }) self.old }
    {
        if n < self.tasks.len() {
            self.tasks[n].set_withdraw(object);
        }
    }
}

// Of these tasks those that become abnormal.
fn hit_among(
    alloc: Global,
    tasks: &[Task],
    named: &[usize],
    bodies: &[usize],
) -> Result<Vec<usize>, AllocError>
    ensures { IfOk result (λ ns. (go : Orders Spot) → (plan : Plan) →
        (barrier : ℕ → Sight → Result Bool RaiseOf) →
        ns.items ≡ effect.hit_from go plan barrier named.now bodies.now 0 (map plain_task tasks.now)) }
{
    let mut found = Vec::new(alloc);
    for (n, task) in tasks.iter().enumerate() {
        if task.is_hit(named, bodies, n) {
            found.push(n)?;
        }
    }
    Ok(found)
}
