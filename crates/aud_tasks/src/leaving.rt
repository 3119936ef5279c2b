// Constructs that a task leaves without any other task.

ghost use Rattle.std.specs.Prelude.{◌<◌, length, IsTrue};
ghost use Rattle.aud_tasks.specs.Running.{EndsConstruct, LeavesAlone};

use aud_code::line::Last;
use aud_code::sound_code::SoundCode;
use aud_state::state::State;

/// Whether a task is to leave a block or procedure next on which no task depends. Where frames are due to be given back,
/// it is not looked for.
pub(crate) fn leaves_alone(state: &State, code: &SoundCode, task: usize) -> bool
    ensures leaves { IsTrue result → LeavesAlone code.now task state.now }
    ensures within { IsTrue result → task < length state.now.tasks }
{
    if state.len() <= task || state.are_frames_due() {
        return false;
    }
    if state.pending(task).is_some() || state.is_cut() {
        return false;
    }
    let place = state.place(task);
    if code.len() <= place {
        return false;
    }
    let Some(end) = code.ending(place) else {
        return false;
    };
    if !ends_construct(&end.last) {
        return false;
    }
    let Some(master) = state.master_left(code, task) else {
        return false;
    };
    !state.has_dependents(master)
}

// Whether a step that ends so leaves a construct.
fn ends_construct(last: &Last) -> bool
    ensures { IsTrue result → EndsConstruct last.now }
{
    matches!(last, Last::Ends(_, _) | Last::Leaves { .. })
}
