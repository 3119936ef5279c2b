// The laws of the frames that tasks hold. Each function does nothing: its contract is the law.

ghost use Rattle.std.specs.Prelude.{List};
ghost use Rattle.aud_meaning.specs.Configuration.{Item};
ghost use Rattle.aud_code.specs.Places.{Spot};
ghost use Rattle.aud_framed.specs.Framed.{FramedOpensLaw, FramedSuppliedLaw, KeptFramedLaw, KeptMissedLaw};
ghost use Rattle.aud_framed.specs.Stepping.{LoneFramedLaw, HandledStepLaw, CallKeptLaw, MasterKeptLaw, ClosedKeptLaw, PartKeptLaw, BlockKeptLaw, DelayKeptLaw, ExpiresKeptLaw, ProcedureKeptLaw, LeftKeptLaw, BodyKeptLaw, ActivationKeptLaw, AcceptKeptLaw, SelectedKeptLaw, MeetsKeptLaw, LeadsLaw};
ghost use Rattle.aud_framed.specs.Enabled.{EnabledLaw};
ghost use Rattle.aud_framed.specs.Turns.{EndsKeptLaw, ActsKeptLaw, FramedLaw};
ghost use Rattle.aud_framed.specs.StepsOfTasks.{ActivatesKeptLaw, ActivatedKeptLaw, DeclaresTasksKeptLaw, AcceptsKeptLaw, CallsTaskKeptLaw, AcceptEndedKeptLaw, AcceptEndsAgainLaw, AcceptLeftKeptLaw, LeavesKeptLaw, SelectsKeptLaw, AbortsKeptLaw};
ghost use Rattle.aud_framed.specs.StepsOfObjects.{ActionBegunLaw, ActionEndedLaw, ServicedLaw, OperationBegunLaw, EntryEnteredLaw, OperationEndedLaw, OperationLeftLaw, EntryEndedLaw, EntryLeftLaw, ServesLaw, BarrierMetLaw, CallExpiresLaw, WithdrawsLaw, AbortedCompletesLaw, ObjectDeclaredLaw, EligibleLaw, TaskUnservedLaw, StartsAgainLaw, CallsObjectKeptLaw};
ghost use Rattle.aud_framed.specs.Ways.{PartFramedLaw, InsideFramedLaw, BlockFramedLaw, AcceptFramedLaw, TurnFramedLaw, WayFramedLaw, BeginsFramedLaw, EntersFramedLaw, ServesFramedLaw, AcceptsFramedLaw, OffersFramedLaw, EndsFramedLaw, LeavesFramedLaw, ActivatesFramedLaw, HandledFramedLaw, LeftFramedLaw, HeldFitsLaw};

/// Where a part of a step follows, and behind blocks, accepts and loops, a task holds the frames that are open there.
pub fn ways_law()
    ensures part { PartFramedLaw }
    ensures inside { InsideFramedLaw }
    ensures block { BlockFramedLaw }
    ensures accept { AcceptFramedLaw }
    ensures turn { TurnFramedLaw }
    ensures way { WayFramedLaw }
{}

/// So it does in bodies that are begun, and in what accepts do.
pub fn bodies_law()
    ensures begins { BeginsFramedLaw }
    ensures enters { EntersFramedLaw }
    ensures serves { ServesFramedLaw }
    ensures accepts { AcceptsFramedLaw }
{}

/// Where the end of a construct leads.
pub fn ends_law()
    ensures ends { EndsFramedLaw }
    ensures leaves { LeavesFramedLaw }
{}

/// Where exceptions go: to a handler, or out of the innermost construct; behind an activation that failed.
pub fn exceptions_law()
    ensures handled { HandledFramedLaw }
    ensures left { LeftFramedLaw }
    ensures activates { ActivatesFramedLaw }
{}

/// The accepts that a step opens lead into what they do.
pub fn offers_law()
    ensures offers { OffersFramedLaw }
{}

/// It holds at the beginning. What a user supplies changes nothing of it; nor does what is over count for it, nor for calls that are missed.
pub fn kept_law()
    ensures opens { FramedOpensLaw }
    ensures supplied { FramedSuppliedLaw }
    ensures framed { KeptFramedLaw }
    ensures statements { KeptMissedLaw (List Item) }
    ensures code { KeptMissedLaw Spot }
{}

/// What a step asks fits the frames that a task holds.
pub fn fits_law()
    ensures fits { HeldFitsLaw }
{}

/// What a task asks that concerns it alone keeps the frames that tasks hold.
pub fn lone_law()
    ensures lone { LoneFramedLaw }
{}

/// So does the handler of an exception that is pending.
pub fn handled_step_law()
    ensures handled { HandledStepLaw }
{}

/// So does the end of a call that nobody serves.
pub fn call_kept_law()
    ensures kept { CallKeptLaw }
{}

/// A master that is left keeps them.
pub fn master_kept_law()
    ensures kept { MasterKeptLaw }
{}

/// A task that is closed keeps them.
pub fn closed_kept_law()
    ensures kept { ClosedKeptLaw }
{}

/// An exception in a declarative part keeps them.
pub fn part_kept_law()
    ensures kept { PartKeptLaw }
{}

/// A block that is left at its end keeps them.
pub fn block_kept_law()
    ensures kept { BlockKeptLaw }
{}

/// A delay that begins keeps them.
pub fn delay_kept_law()
    ensures kept { DelayKeptLaw }
{}

/// A delay whose time has come keeps them.
pub fn expires_kept_law()
    ensures kept { ExpiresKeptLaw }
{}

/// A procedure that is left at its end keeps them.
pub fn procedure_kept_law()
    ensures kept { ProcedureKeptLaw }
{}

/// An exception that leaves a block or a procedure keeps them.
pub fn left_kept_law()
    ensures kept { LeftKeptLaw }
{}

/// Code whose steps end as those of code in memory do has the ways that they take.
pub fn leads_law()
    ensures leads { LeadsLaw }
{}

/// A task that completes keeps them.
pub fn body_kept_law()
    ensures kept { BodyKeptLaw }
{}

/// An activation that ends keeps them.
pub fn activation_kept_law()
    ensures kept { ActivationKeptLaw }
{}

/// A task that waits at an accept keeps them.
pub fn accept_kept_law()
    ensures kept { AcceptKeptLaw }
{}

/// A call that is selected keeps them.
pub fn selected_kept_law()
    ensures selected { SelectedKeptLaw }
{}

/// A call that is accepted at once keeps them.
pub fn meets_kept_law()
    ensures kept { MeetsKeptLaw }
{}

/// What a declarative part has created is activated, which keeps them.
pub fn activates_kept_law()
    ensures kept { ActivatesKeptLaw }
{}

/// A task's own activation ends, which keeps them.
pub fn activated_kept_law()
    ensures kept { ActivatedKeptLaw }
{}

/// Tasks are declared, which keeps them.
pub fn declares_tasks_kept_law()
    ensures kept { DeclaresTasksKeptLaw }
{}

/// The step accept keeps them, whatever the accept does.
pub fn accepts_kept_law()
    ensures kept { AcceptsKeptLaw }
{}

/// A call of a task's entry keeps them, whether it is accepted at once, queued or refused.
pub fn calls_task_kept_law()
    ensures kept { CallsTaskKeptLaw }
{}

/// What an accept does is left at its end or by an exception, which keeps them.
pub fn accept_ends_kept_law()
    ensures ended { AcceptEndedKeptLaw }
    ensures left { AcceptLeftKeptLaw }
{}

/// A block that is left together with loops around it keeps them.
pub fn leaves_kept_law()
    ensures kept { LeavesKeptLaw }
{}

/// A selective accept keeps them.
pub fn selects_kept_law()
    ensures kept { SelectsKeptLaw }
{}

/// Tasks are aborted, which keeps them.
pub fn aborts_kept_law()
    ensures kept { AbortsKeptLaw }
{}

/// An action on an object that begins, and one that ends, keep them.
pub fn actions_law()
    ensures begun { ActionBegunLaw }
    ensures ended { ActionEndedLaw }
{}

/// An object that is serviced keeps them.
pub fn serviced_law()
    ensures serviced { ServicedLaw }
{}

/// An operation of an object that is called keeps them.
pub fn operation_begun_law()
    ensures begun { OperationBegunLaw }
{}

/// An entry's body that is entered keeps them.
pub fn entry_entered_law()
    ensures entered { EntryEnteredLaw }
{}

/// An operation of an object that is left keeps them.
pub fn operation_ended_law()
    ensures ended { OperationEndedLaw }
    ensures left { OperationLeftLaw }
{}

/// An entry's body that is left keeps them.
pub fn entry_ended_law()
    ensures ended { EntryEndedLaw }
    ensures left { EntryLeftLaw }
{}

/// A call on an object that is served keeps them.
pub fn serves_law()
    ensures serves { ServesLaw }
    ensures eligible { EligibleLaw }
{}

/// A call that meets its entry's barrier keeps them.
pub fn barrier_met_law()
    ensures met { BarrierMetLaw }
{}

/// A call of an object's entry keeps them, whether the body is entered, or the call is queued or refused.
pub fn calls_object_kept_law()
    ensures kept { CallsObjectKeptLaw }
{}

/// A call that is cancelled at its time, and a task that withdraws from an object, keep them.
pub fn cancelled_law()
    ensures expires { CallExpiresLaw }
    ensures withdraws { WithdrawsLaw }
{}

/// An aborted task that completes keeps them.
pub fn aborted_completes_law()
    ensures completes { AbortedCompletesLaw }
{}

/// A protected object that is declared keeps them.
pub fn object_declared_law()
    ensures declared { ObjectDeclaredLaw }
{}

/// An enabled move tells that nothing is in the way of its task, and that the entry that it serves is one of the object's.
pub fn enabled_law()
    ensures tells { EnabledLaw }
{}

/// A construct of a task's own that is left keeps the frames that tasks hold, whatever it is.
pub fn ends_kept_law()
    ensures kept { EndsKeptLaw }
{}

/// What a task's own statements ask keeps them.
pub fn acts_kept_law()
    ensures kept { ActsKeptLaw }
{}

/// An enabled step keeps them, if what is asked meets what code alone doesn't say.
pub fn framed_law()
    ensures step { FramedLaw }
{}

/// Who serves a call on a task's entry.
pub fn task_unserved_law()
    ensures unserved { TaskUnservedLaw }
{}

/// A call that is made again on an object keeps them.
pub fn starts_again_law()
    ensures starts { StartsAgainLaw }
{}

/// What an accept does is left and its call made again, which keeps them.
pub fn accept_ends_again_law()
    ensures kept { AcceptEndsAgainLaw }
{}
