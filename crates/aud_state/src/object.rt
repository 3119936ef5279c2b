// Protected objects.

ghost use Rattle.std.specs.Prelude.{◌≡◌};
ghost use Rattle.aud_meaning.specs.Parts.{acts_on, is_idle};
ghost use Rattle.aud_state.specs.View.{plain_object};

use aud_meaning::state::Action;

/// A protected object: its declaration, the frames that its bodies see, that of its components last, and the actions under way.
#[derive(Drop)]
pub struct Object {
    pub(crate) declaration: usize,
    pub(crate) display: Vec<usize>,
    pub(crate) actions: Vec<Action>,
}

impl Object {
    /// Whether it has no action under way.
    pub(crate) fn is_idle(&self) -> bool
        ensures { result ≡ is_idle (plain_object self.now) }
    {
        self.actions.is_empty()
    }

    /// Whether a task has an action under way on it.
    pub(crate) fn acts_on(&self, task: usize) -> bool
        ensures { result ≡ acts_on task (plain_object self.now) }
    {
        for action in &self.actions {
            if action.task == task {
                return true;
            }
        }
        false
    }
}
