// Entry calls that can be cancelled (RM 9.5.4, 9.7.2).

ghost use Rattle.std.specs.Prelude.{◌≡◌, slice_index_or};
ghost use Rattle.aud_meaning.specs.Parts.{no_call};
ghost use Rattle.aud_calls.specs.Cancelling.{can_leave, time_by};

use crate::calls::Calls;
use aud_meaning::state::Form;

impl Calls {
    /// Whether a call can leave its queue before it is selected: it is queued, and does not stay whatever happens to its
    /// caller.
    pub fn can_leave(&self, id: usize) -> bool
        ensures { result ≡ can_leave (slice_index_or self.now.calls id no_call) }
    {
        self.is_queued(id) && !self.stays(id)
    }
}

/// The time that a call of this form waits for.
pub fn cancel_time(form: Form) -> Option<u64>
    ensures { result ≡ time_by form }
{
    match form {
        Form::Plain | Form::Conditional(_) => None,
        Form::TimedTo(time) => Some(time),
    }
}
