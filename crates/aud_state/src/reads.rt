// What is read of one task.

ghost use Rattle.std.specs.Prelude.{◌≡◌, ◌||◌, ◌&&◌, [], Some, map, reverse, slice_get, slice_index_or, IsTrue};
ghost use Rattle.aud_typed.specs.Tree.{Plan};
ghost use Rattle.aud_meaning.specs.Configuration.{TaskAt};
ghost use Rattle.aud_meaning.specs.Evaluation.{Sight};
ghost use Rattle.aud_meaning.specs.Parts.{call_of, is_idle, is_queued, is_selected, object_of, own_of};
ghost use Rattle.aud_code.specs.Places.{Spot};
ghost use Rattle.aud_store.specs.Ties.Extents.{extent, extent_in};
ghost use Rattle.aud_state.specs.Reads.{cancelled_from, coming_by, is_free, place_by, IsOfItsKind, IsPlain, LeavesBy};
ghost use Rattle.aud_state.specs.View.{element_name, plain_task};

use crate::state::State;
use crate::task::Task;
use aud_calls::calls::cancelling::cancel_time;
use aud_code::sound_code::SoundCode;
use aud_meaning::state::{
    Again, CallState, Form, OpenAccept, OpenDelay, Owner, Pending, Restart, Serving, Status,
    StepKind,
};
use aud_store::stack::Open;
use aud_text::int32::Int32;
use aud_text::place::Pos;

/// The name of a task: of an element of an array that of the array, and the number of the element.
#[derive(Clone, Copy)]
pub struct TaskName<'a> {
    pub name: &'a [u8],
    pub element: Option<i64>,
}

impl State {
    /// Its name, which is empty where there is no such task.
    #[tactic(auto, using(crate::proofs::TaskLaws::Changed::own_got, crate::proofs::TaskLaws::Changed::own_past))]
    pub fn name(&self, task: usize) -> TaskName<'_>
        ensures { element_name result.name.now result.element ≡ (own_of task self.now).name }
    {
        if task < self.tasks.len() {
            let found = &self.tasks[task];
            return TaskName {
                name: found.name.as_bytes(),
                element: found.element,
            };
        }
        TaskName {
            name: &[],
            element: None,
        }
    }

    /// The exception that is pending in a task.
    #[tactic(auto, using(crate::proofs::TaskLaws::Changed::own_got, crate::proofs::TaskLaws::Changed::own_past))]
    pub fn pending(&self, task: usize) -> Option<Pending>
        ensures { result ≡ (own_of task self.now).pending }
    {
        if task < self.tasks.len() {
            let found = &self.tasks[task];
            return found.parked.pending();
        }
        None
    }

    /// The place in the code where it stands.
    pub fn place(&self, task: usize) -> usize
        ensures { (t : TaskAt Spot) → slice_get self.now.tasks task ≡ Some t →
            result ≡ t.control.place }
    {
        if task < self.tasks.len() {
            let found = &self.tasks[task];
            return found.parked.standing().place;
        }
        0
    }

    /// The type of a task; none of the main one.
    #[tactic(auto, using(crate::proofs::TaskLaws::Changed::own_got, crate::proofs::TaskLaws::Changed::own_past))]
    pub fn task_type(&self, task: usize) -> Option<usize>
        ensures { result ≡ (own_of task self.now).task_type }
    {
        if task < self.tasks.len() {
            let found = &self.tasks[task];
            return found.task_type;
        }
        None
    }

    /// How far a task is.
    #[tactic(auto, using(crate::proofs::TaskLaws::Changed::own_got, crate::proofs::TaskLaws::Changed::own_past))]
    pub fn status(&self, task: usize) -> Status
        ensures { result ≡ (own_of task self.now).status }
    {
        if task < self.tasks.len() {
            let found = &self.tasks[task];
            return found.condition.status();
        }
        Status::Terminated
    }

    /// Where it is blocked.
    #[tactic(auto, using(crate::proofs::TaskLaws::Changed::own_got, crate::proofs::TaskLaws::Changed::own_past))]
    pub fn blocked_at(&self, task: usize) -> Pos
        ensures { result ≡ (own_of task self.now).at }
    {
        if task < self.tasks.len() {
            let found = &self.tasks[task];
            return found.at;
        }
        Pos { line: 0, col: 0 }
    }

    /// The delays that it waits for.
    #[tactic(auto, using(crate::proofs::TaskLaws::Changed::own_got, crate::proofs::TaskLaws::Changed::own_past))]
    pub fn delays(&self, task: usize) -> &[OpenDelay]
        ensures { result.now ≡ (own_of task self.now).waits.delays }
    {
        if task < self.tasks.len() {
            let found = &self.tasks[task];
            return found.condition.delays();
        }
        &[]
    }

    /// The accepts that it waits at, in the order of the text.
    #[tactic(auto, using(crate::proofs::TaskLaws::Changed::own_got, crate::proofs::TaskLaws::Changed::own_past))]
    pub fn accepts(&self, task: usize) -> &[OpenAccept]
        ensures { result.now ≡ (own_of task self.now).waits.accepts }
    {
        if task < self.tasks.len() {
            let found = &self.tasks[task];
            return found.condition.accepts();
        }
        &[]
    }

    /// Whether it waits at an open terminate alternative.
    #[tactic(auto, using(crate::proofs::TaskLaws::Changed::own_got, crate::proofs::TaskLaws::Changed::own_past))]
    pub fn has_terminate(&self, task: usize) -> bool
        ensures { result ≡ (own_of task self.now).waits.terminate }
    {
        if task < self.tasks.len() {
            let found = &self.tasks[task];
            return found.condition.has_terminate();
        }
        false
    }

    /// Its open frames, the outermost one first.
    #[tactic(auto, using(crate::proofs::TaskLaws::Changed::own_got, crate::proofs::TaskLaws::Changed::own_past))]
    pub fn opened(&self, task: usize) -> &[Open]
        ensures { map extent_in result.now ≡ map extent (reverse (own_of task self.now).opened) }
    {
        if task < self.tasks.len() {
            let found = &self.tasks[task];
            return found.parked.stack().opened();
        }
        &[]
    }

    /// The cells of a frame; none where there is no frame of this number, or it was given back.
    pub fn frame(&self, number: usize) -> &[Int32]
        ensures { result.now ≡ slice_index_or self.now.shared.frames number [] }
    {
        self.progress.store().cells(number)
    }

    /// Its entry call.
    #[tactic(auto, using(crate::proofs::TaskLaws::Changed::own_got, crate::proofs::TaskLaws::Changed::own_past))]
    pub fn call(&self, task: usize) -> usize
        ensures { result ≡ (own_of task self.now).call }
    {
        if task < self.tasks.len() {
            let found = &self.tasks[task];
            return found.call;
        }
        0
    }

    /// The object that it services.
    #[tactic(auto, using(crate::proofs::TaskLaws::Changed::own_got, crate::proofs::TaskLaws::Changed::own_past))]
    pub fn serving(&self, task: usize) -> Option<Serving>
        ensures { result ≡ (own_of task self.now).serving }
    {
        if task < self.tasks.len() {
            let found = &self.tasks[task];
            return found.condition.serving();
        }
        None
    }

    /// Where the accept or entry body that it is leaving makes its call again (RM 9.5.4).
    #[tactic(auto, using(crate::proofs::TaskLaws::Changed::own_got, crate::proofs::TaskLaws::Changed::own_past))]
    pub fn again(&self, task: usize) -> Option<Again>
        ensures { result ≡ (own_of task self.now).again }
    {
        if task < self.tasks.len() {
            let found = &self.tasks[task];
            return found.again;
        }
        None
    }

    /// The call that it makes again, on an object.
    #[tactic(auto, using(crate::proofs::TaskLaws::Changed::own_got, crate::proofs::TaskLaws::Changed::own_past))]
    pub fn restart(&self, task: usize) -> Option<Restart>
        ensures { result ≡ (own_of task self.now).restart }
    {
        if task < self.tasks.len() {
            let found = &self.tasks[task];
            return found.restart;
        }
        None
    }

    /// Whether it is abnormal (RM 9.8).
    #[tactic(auto, using(crate::proofs::TaskLaws::Changed::own_got, crate::proofs::TaskLaws::Changed::own_past))]
    pub fn is_abnormal(&self, task: usize) -> bool
        ensures { result ≡ (own_of task self.now).abnormal }
    {
        if task < self.tasks.len() {
            let found = &self.tasks[task];
            return found.condition.is_abnormal();
        }
        false
    }

    /// Whether it runs, is not abnormal, services no object and makes no other task's call again, as most tasks do at most steps.
    #[tactic(auto, using(crate::proofs::TaskLaws::Changed::own_got, crate::proofs::TaskLaws::Changed::own_past))]
    pub fn is_plain(&self, task: usize) -> bool
        ensures { IsTrue result → IsPlain (own_of task self.now) }
    {
        if task < self.tasks.len() {
            let found = &self.tasks[task];
            return found.is_plain();
        }
        false
    }

    /// The object from which it withdraws.
    #[tactic(auto, using(crate::proofs::TaskLaws::Changed::own_got, crate::proofs::TaskLaws::Changed::own_past))]
    pub fn withdraw(&self, task: usize) -> Option<usize>
        ensures { result ≡ (own_of task self.now).withdraw }
    {
        if task < self.tasks.len() {
            let found = &self.tasks[task];
            return found.withdraw;
        }
        None
    }

    /// Whether its entry call is selected (RM 9.5.3(8)).
    pub fn is_selected(&self, task: usize) -> bool
        ensures { result ≡ is_selected (call_of (own_of task self.now).call self.now).state }
    {
        matches!(self.call_state(self.call(task)), CallState::Selected)
    }

    /// Whether its entry call is selected, or stays on its queue whatever happens (RM 9.5.4).
    pub fn is_bound_call(&self, task: usize) -> bool
        ensures { result ≡ (is_selected (call_of (own_of task self.now).call self.now).state
            || (is_queued (call_of (own_of task self.now).call self.now).state
            && (call_of (own_of task self.now).call self.now).stays)) }
    {
        self.is_bound(self.call(task))
    }

    // Whether a call is selected, or stays on its queue.
    fn is_bound(&self, id: usize) -> bool
        ensures { result ≡ (is_selected (call_of id self.now).state
            || (is_queued (call_of id self.now).state && (call_of id self.now).stays)) }
    {
        match self.call_state(id) {
            CallState::Selected => true,
            CallState::Queued => self.stays(id),
            CallState::Done | CallState::Cancelled => false,
        }
    }

    /// The time from which on its entry call can be cancelled, unless it stays, while that is queued and its object has no action
    /// under way.
    pub fn cancelled_from(&self, task: usize) -> Option<u64>
        ensures { result ≡ cancelled_from (call_of (own_of task self.now).call self.now) self.now }
    {
        let id = self.call(task);
        if self.calls.can_leave(id) && self.is_free(id) {
            cancel_time(self.call_form(id))
        } else {
            None
        }
    }

    /// Whether an object has no action under way.
    pub fn is_idle(&self, object: usize) -> bool
        ensures { result ≡ is_idle (object_of object self.now) }
    {
        match self.objects.get(object) {
            Some(found) => found.is_idle(),
            None => true,
        }
    }

    /// The master that its own next step leaves, if that is the end of a block or procedure (RM 9.3).
    pub fn master_left(&self, code: &SoundCode, task: usize) -> Option<usize>
        ensures { (plan : Plan) → (s : Sight) → LeavesBy (own_of task self.now) result
            (coming_by code.now plan s (slice_get self.now.tasks task)) }
    {
        if task < self.tasks.len() {
            let found = &self.tasks[task];
            return found.master_left(code);
        }
        None
    }

    /// The kind of its own next step.
    pub fn next_kind(&self, code: &SoundCode, task: usize) -> StepKind
        ensures { (plan : Plan) → (s : Sight) → IsOfItsKind (own_of task self.now) result
            (coming_by code.now plan s (slice_get self.now.tasks task)) }
    {
        if task < self.tasks.len() {
            let found = &self.tasks[task];
            return found.next_kind(code);
        }
        StepKind::Complete
    }

    /// The place that is shown for it.
    pub fn shown_place(&self, code: &SoundCode, task: usize) -> Pos
        ensures { result ≡ place_by code.now (slice_get self.now.tasks task) }
    {
        if task < self.tasks.len() {
            let found = &self.tasks[task];
            return found.shown_place(code);
        }
        Pos { line: 0, col: 0 }
    }

    /// How far a call is.
    pub fn call_state(&self, id: usize) -> CallState
        ensures { result ≡ (call_of id self.now).state }
    {
        self.calls.state(id)
    }

    /// Whether it stays on its queue whatever happens to its caller (RM 9.5.4).
    pub fn stays(&self, id: usize) -> bool
        ensures { result ≡ (call_of id self.now).stays }
    {
        self.calls.stays(id)
    }

    // Whether the object that it is queued on has no action under way.
    fn is_free(&self, id: usize) -> bool
        ensures { result ≡ is_free (call_of id self.now).owner self.now }
    {
        match self.calls.owner(id) {
            Owner::Task(_) => true,
            Owner::Object(object) => self.is_idle(object),
        }
    }

    /// How a call was made.
    pub fn call_form(&self, id: usize) -> Form
        ensures { result ≡ (call_of id self.now).form }
    {
        self.calls.form(id)
    }
}

impl Task {
    // Whether it runs, is not abnormal, services no object and makes no other task's call again.
    fn is_plain(&self) -> bool
        ensures { IsTrue result → IsPlain (plain_task self.now).own }
    {
        matches!(self.condition.status(), Status::Running)
            && !self.condition.is_abnormal()
            && self.condition.serving().is_none()
            && self.restart.is_none()
    }

    // The master that its own next step leaves.
    fn master_left(&self, code: &SoundCode) -> Option<usize>
        ensures { (plan : Plan) → (s : Sight) → LeavesBy (plain_task self.now).own result
            (coming_by code.now plan s (Some (plain_task self.now))) }
    {
        self.parked.standing().master_left(code)
    }

    // The kind of its own next step.
    fn next_kind(&self, code: &SoundCode) -> StepKind
        ensures { (plan : Plan) → (s : Sight) → IsOfItsKind (plain_task self.now).own result
            (coming_by code.now plan s (Some (plain_task self.now))) }
    {
        self.parked.standing().next_kind(code)
    }

    // The place that is shown for it.
    fn shown_place(&self, code: &SoundCode) -> Pos
        ensures { result ≡ place_by code.now (Some (plain_task self.now)) }
    {
        self.parked.standing().shown_place(code)
    }
}
