// Tasks that are found among all.

ghost use Rattle.std.specs.Prelude.{◌≡◌, ◌&&◌, ℕ, Bool, Result, IfOk, length, map, nat_eq, not};
ghost use Rattle.aud_text.specs.declared.raise.Raise.{Raise as RaiseOf};
ghost use Rattle.aud_typed.specs.Tree.{Plan};
ghost use Rattle.aud_meaning.specs.Effects.{innermost};
ghost use Rattle.aud_meaning.specs.Evaluation.{Sight};
ghost use Rattle.aud_meaning.specs.Listings.{serves_now};
ghost use Rattle.aud_meaning.specs.Orders.{Orders};
ghost use Rattle.aud_meaning.specs.Parts.{acts_on, any, body_master, depends, in_action, is_created, may_terminate};
ghost use Rattle.aud_meaning.specs.Parts.{numbers, own_of, Closable};
ghost use Rattle.aud_meaning.specs.Tasks as effect;
ghost use Rattle.aud_code.specs.Places.{Spot};
ghost use Rattle.aud_state.specs.View.{plain_object, plain_task};

use crate::object::Object;
use crate::state::State;
use crate::task::Task;
use std::alloc::{AllocError, Global};

impl State {
    /// The tasks that depend on a master, by their numbers.
    ///
    /// # Errors
    ///
    /// Where memory is refused.
    pub fn dependents(&self, alloc: Global, master: usize) -> Result<Vec<usize>, AllocError>
        ensures { IfOk result (λ ns. ns.items ≡
            numbers (λ t. depends master t.own) 0 self.now.tasks) }
    {
        dependents_among(alloc, &self.tasks, master)
    }

    /// The tasks that the declarative part with this frame has created, and not activated.
    ///
    /// # Errors
    ///
    /// Where memory is refused.
    pub fn not_activated(&self, alloc: Global, part: usize) -> Result<Vec<usize>, AllocError>
        ensures { IfOk result (λ ns. ns.items ≡ numbers
            (λ t. is_created t.own.status && nat_eq t.own.part part) 0 self.now.tasks) }
    {
        not_activated_among(alloc, &self.tasks, part)
    }

    /// The tasks that one of the declarative parts with these frames has created, and not activated.
    ///
    /// # Errors
    ///
    /// Where memory is refused.
    pub fn created_in(&self, alloc: Global, parts: &[usize]) -> Result<Vec<usize>, AllocError>
        ensures { IfOk result (λ ns. ns.items ≡ numbers (λ t. is_created t.own.status
            && any (λ part. nat_eq part t.own.part) parts.now) 0 self.now.tasks) }
    {
        created_among(alloc, &self.tasks, parts)
    }

    /// Whether nothing keeps a master from being left (RM 9.3(5)).
    pub fn closable(&self, master: usize) -> bool
        ensures { result ≡ Closable master self.now }
    {
        // Who took the last step goes on in most cases, and so keeps the masters that it depends on.
        if self.last_mover < self.tasks.len() && self.tasks[self.last_mover].holds(master) {
            return false;
        }
        !holds(&self.tasks, master)
    }

    /// Whether a task depends on a master and isn't terminated (RM 9.3).
    pub fn has_dependents(&self, master: usize) -> bool
        ensures { result ≡ any (λ t. depends master t.own) self.now.tasks }
    {
        depend(&self.tasks, master)
    }

    /// Whether a task waits for the activation of another one.
    pub fn awaits(&self, task: usize) -> bool
        ensures { (go : Orders Spot) → (plan : Plan) → (barrier : ℕ → Sight → Result Bool RaiseOf) →
            result ≡ any (effect.is_awaited_by go plan barrier task) self.now.tasks }
    {
        is_awaiting(&self.tasks, task)
    }

    /// The frames that a task has open, the innermost one first.
    ///
    /// # Errors
    ///
    /// Where memory is refused.
    pub fn frames(&self, alloc: Global, task: usize) -> Result<Vec<usize>, AllocError>
        ensures { IfOk result (λ frames. frames.items ≡
            map (λ o. o.frame) (own_of task self.now).opened) }
    {
        if task < self.tasks.len() {
            let found = &self.tasks[task];
            return found.parked.stack().frames(alloc);
        }
        Ok(Vec::new(alloc))
    }

    /// How many tasks were ever created.
    pub fn len(&self) -> usize
        ensures { result ≡ length self.now.tasks }
    {
        self.tasks.len()
    }

    /// Whether a task has a protected action under way (RM 9.5.1(4)).
    pub fn in_action(&self, task: usize) -> bool
        ensures { result ≡ in_action task self.now }
    {
        is_acting(&self.objects, task)
    }

    /// The calls whose accepts a task has under way, the innermost one first.
    ///
    /// # Errors
    ///
    /// Where memory is refused.
    pub fn accepts_under_way(&self, alloc: Global, task: usize) -> Result<Vec<usize>, AllocError>
        ensures { IfOk result (λ calls. (go : Orders Spot) → (plan : Plan) →
            (barrier : ℕ → Sight → Result Bool RaiseOf) → calls.items ≡
            effect.accepts_under_way go plan barrier (own_of task self.now).opened) }
    {
        if task < self.tasks.len() {
            let found = &self.tasks[task];
            let calls = found.parked.stack().accepts(alloc)?;
            return Ok(calls);
        }
        Ok(Vec::new(alloc))
    }

    /// Whether a task services an object: it is about to, or an entry body is under way for another task's call.
    #[tactic(auto, using(crate::proofs::TaskLaws::Changed::own_got, crate::proofs::TaskLaws::Changed::own_past))]
    pub fn is_servicing(&self, task: usize) -> bool
        ensures { (plan : Plan) → (barrier : ℕ → Sight → Result Bool RaiseOf) → result ≡ serves_now plan barrier
            (own_of task self.now).serving (own_of task self.now).opened }
    {
        if task < self.tasks.len() {
            let found = &self.tasks[task];
            return found.is_servicing();
        }
        false
    }

    /// The innermost of a task's open frames.
    #[tactic(auto, using(crate::proofs::TaskLaws::Changed::own_got, crate::proofs::TaskLaws::Changed::own_past))]
    pub fn innermost(&self, task: usize) -> usize
        ensures { result ≡ innermost (own_of task self.now).opened }
    {
        if task < self.tasks.len() {
            let found = &self.tasks[task];
            return found.parked.stack().innermost_number();
        }
        0
    }

    /// The outermost of a task's open frames, its body's.
    #[tactic(auto, using(crate::proofs::TaskLaws::Changed::own_got, crate::proofs::TaskLaws::Changed::own_past))]
    pub fn body_master(&self, task: usize) -> usize
        ensures { result ≡ body_master (own_of task self.now) }
    {
        if task < self.tasks.len() {
            let found = &self.tasks[task];
            return found.parked.stack().outermost();
        }
        0
    }

    /// The body of a task.
    #[tactic(auto, using(crate::proofs::TaskLaws::Changed::own_got, crate::proofs::TaskLaws::Changed::own_past))]
    pub fn unit(&self, task: usize) -> usize
        ensures { result ≡ (own_of task self.now).unit }
    {
        if task < self.tasks.len() {
            let found = &self.tasks[task];
            return found.unit;
        }
        0
    }

    /// The task that waits for its activation.
    #[tactic(auto, using(crate::proofs::TaskLaws::Changed::own_got, crate::proofs::TaskLaws::Changed::own_past))]
    pub fn activator(&self, task: usize) -> Option<usize>
        ensures { result ≡ (own_of task self.now).activator }
    {
        if task < self.tasks.len() {
            let found = &self.tasks[task];
            return found.activator;
        }
        None
    }

    /// Whether it waits for activations.
    #[tactic(auto, using(crate::proofs::TaskLaws::Changed::own_got, crate::proofs::TaskLaws::Changed::own_past))]
    pub fn is_activating(&self, task: usize) -> bool
        ensures { (go : Orders Spot) → (plan : Plan) → (barrier : ℕ → Sight → Result Bool RaiseOf) →
            result ≡ effect.is_activating go plan barrier (own_of task self.now).status }
    {
        if task < self.tasks.len() {
            let found = &self.tasks[task];
            return found.is_activating();
        }
        false
    }
}

// Of these tasks those that depend on a master.
fn dependents_among(alloc: Global, tasks: &[Task], master: usize) -> Result<Vec<usize>, AllocError>
    ensures { IfOk result (λ ns. ns.items ≡
        numbers (λ t. depends master t.own) 0 (map plain_task tasks.now)) }
{
    let mut found = Vec::new(alloc);
    for (n, task) in tasks.iter().enumerate() {
        if task.depends_on(master) {
            found.push(n)?;
        }
    }
    Ok(found)
}

// Of these tasks those that a declarative part has created, and not activated.
fn not_activated_among(alloc: Global, tasks: &[Task], part: usize) -> Result<Vec<usize>, AllocError>
    ensures { IfOk result (λ ns. ns.items ≡
        numbers (λ t. is_created t.own.status && nat_eq t.own.part part) 0 (map plain_task tasks.now)) }
{
    let mut found = Vec::new(alloc);
    for (n, task) in tasks.iter().enumerate() {
        if task.is_created_by(part) {
            found.push(n)?;
        }
    }
    Ok(found)
}

// Of these tasks those that one of some declarative parts has created, and not activated.
fn created_among(alloc: Global, tasks: &[Task], parts: &[usize]) -> Result<Vec<usize>, AllocError>
    ensures { IfOk result (λ ns. ns.items ≡
        numbers (λ t. is_created t.own.status && any (λ part. nat_eq part t.own.part) parts.now) 0 (map plain_task tasks.now)) }
{
    let mut found = Vec::new(alloc);
    for (n, task) in tasks.iter().enumerate() {
        if task.is_created_in(parts) {
            found.push(n)?;
        }
    }
    Ok(found)
}

// Whether one of these tasks depends on a master.
fn depend(tasks: &[Task], master: usize) -> bool
    ensures { result ≡ any (λ t. depends master t.own) (map plain_task tasks.now) }
{
    for n in (0..tasks.len()).rev() {
        if tasks[n].depends_on(master) {
            return true;
        }
    }
    false
}

// Whether one of these tasks keeps a master from being left.
fn holds(tasks: &[Task], master: usize) -> bool
    ensures { result ≡ any (λ t. depends master t.own && not (may_terminate t.own))
        (map plain_task tasks.now) }
{
    // What depends on an inner master came last.
    for n in (0..tasks.len()).rev() {
        if tasks[n].holds(master) {
            return true;
        }
    }
    false
}

// Whether a task waits for the activation of one of these.
fn is_awaiting(tasks: &[Task], activator: usize) -> bool
    ensures { (go : Orders Spot) → (plan : Plan) → (barrier : ℕ → Sight → Result Bool RaiseOf) →
        result ≡ any (effect.is_awaited_by go plan barrier activator) (map plain_task tasks.now) }
{
    for task in tasks {
        if task.is_awaited_by(activator) {
            return true;
        }
    }
    false
}

// Whether a task has an action under way on one of these objects.
fn is_acting(objects: &[Object], task: usize) -> bool
    ensures { result ≡ any (acts_on task) (map plain_object objects.now) }
{
    for object in objects {
        if object.acts_on(task) {
            return true;
        }
    }
    false
}
