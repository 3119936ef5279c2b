// The laws of the configurations that programs come to. Each function does nothing: its contract is the law.

ghost use Rattle.aud_framed.specs.Fitting.{BodiesKeptLaw, ComesOpenLaw, FitsFramedLaw, RunOpenLaw};
ghost use Rattle.aud_framed.specs.OfTasks.{OfTasksLaw, TasksMeetLaw};
ghost use Rattle.aud_framed.specs.Runs.{RunFramedLaw, ComesLaw, ComesFramedLaw};

/// Tasks hold their frames in each configuration that a program comes to, and in each of which the same is left.
pub fn run_framed_law()
    ensures framed { RunFramedLaw }
    ensures left { ComesFramedLaw }
{}

/// The same is left of what steps and runs make of such a one.
pub fn comes_law()
    ensures comes { ComesLaw }
{}

/// Completed tasks keep their frames, of which the outermost is a body's.
pub fn bodies_kept_law()
    ensures kept { BodiesKeptLaw }
{}

/// What a task does next fits the frames that it holds.
pub fn fits_framed_law()
    ensures fits { FitsFramedLaw }
{}

/// In each configuration that a program comes to those frames are open that are seen, and what is left is what is open.
pub fn run_open_law()
    ensures open { RunOpenLaw }
    ensures left { ComesOpenLaw }
{}

/// A program without protected objects meets what code alone doesn't say, in each configuration that it comes to.
pub fn tasks_meet_law()
    ensures meet { TasksMeetLaw }
{}

/// So tasks hold their frames in each, and those frames are open that are seen.
pub fn of_tasks_law()
    ensures holds { OfTasksLaw }
{}
