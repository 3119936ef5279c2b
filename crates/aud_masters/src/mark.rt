// What of a task decides whether masters may be left.

ghost use Rattle.std.specs.Prelude.{◌≡◌};
ghost use Rattle.aud_meaning.specs.Parts.{on_own};
ghost use Rattle.aud_masters.specs.Marks.{marked};

use aud_meaning::state::Status;
use aud_state::state::State;
use aud_state::task::Waits as Alternatives;
use aud_text::place::Pos;

/// A task begins to wait, perhaps at an open terminate alternative; it goes on; or it is abnormal (RM 9.3(6), 9.8(4)).
pub enum Change {
    Waits(Status, Pos, Alternatives),
    GoesOn,
    Abnormal,
}

/// This becomes of a task.
pub fn mark(state: &mut State, task: usize, change: Change)
    ensures { state.new ≡ on_own task (marked change) state.old }
{
    match change {
        Change::Waits(status, at, waits) => state.wait(task, status, at, waits),
        Change::GoesOn => state.go_on(task),
        Change::Abnormal => state.make_abnormal(task),
    }
}
