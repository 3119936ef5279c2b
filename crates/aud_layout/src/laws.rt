// The laws that tie the code of a program to its meaning, for the whole language. Each function does nothing: its contract is
// the law.

ghost use Rattle.aud_layout.specs.Asking.{DeclarationLaw, NullLaw, AssignmentLaw, PutLaw, AskedLaw, ComingLaw, BarrierLaw};
ghost use Rattle.aud_layout.specs.Law.{LayoutAgreementLaw, AgreementLaw, SeenLaw, OrderLaw, MovesLaw, StateLaw, RaisedLaw, StepLaw, RunLaw, OpeningLaw, SupplyLaw, AdvanceLaw, StartLaw, SoundLaw, TabledLaw, SeenTabledLaw, FramesTabledLaw};
ghost use Rattle.aud_layout.specs.Written.{WrittenLaw};

/// The instructions of a declaration ask for the variable with its initial value (RM 3.3.1).
pub fn declaration_law()
    ensures { DeclarationLaw }
{}

/// A null statement asks for nothing but to go on (RM 5.1).
pub fn null_law()
    ensures { NullLaw }
{}

/// The instructions of an assignment find its target, then the value, and ask for the one in the other (RM 5.2).
pub fn assignment_law()
    ensures { AssignmentLaw }
{}

/// The instructions of a put statement make its text (RM A.10.7).
pub fn put_law()
    ensures { PutLaw }
{}

/// The instructions of every statement ask for what the statement asks for.
pub fn asked_law()
    ensures { AskedLaw }
{}

/// Those before the mark tell what comes next, as the statement does.
pub fn coming_law()
    ensures { ComingLaw }
{}

/// The instructions of a barrier give its value (RM 9.5.2(7)).
pub fn barrier_law()
    ensures { BarrierLaw }
{}

/// Places of code, one a step, agree with statements, wherever a task stands and whatever is ordered.
pub fn layout_agreement_law()
    ensures { LayoutAgreementLaw }
{}

/// Code as instructions agrees with statements.
pub fn agreement_law()
    ensures { AgreementLaw }
{}

/// What is seen of the tasks is the same, and with it each view.
pub fn seen_law()
    ensures { SeenLaw }
{}

/// Whatever is ordered, code and statements stay together.
pub fn order_law()
    ensures { OrderLaw }
{}

/// What can happen next is the same: the enabled moves, the state, and the exception that left the main procedure.
pub fn moves_law()
    ensures moves { MovesLaw }
    ensures state { StateLaw }
    ensures raised { RaisedLaw }
{}

/// A step of the code is the step of the program, of whatever kind.
pub fn step_law()
    ensures { StepLaw }
{}

/// A run of the code is the run of the program.
pub fn run_law()
    ensures { RunLaw }
{}

/// The code of a program begins as the program does (RM 10.2).
pub fn opening_law()
    ensures { OpeningLaw }
{}

/// Choices, and time on the clock, are supplied to the code as to the program (RM 9.6).
pub fn supply_law()
    ensures choices { SupplyLaw }
    ensures time { AdvanceLaw }
{}

/// A task that has something left to do stands where a step begins.
pub fn start_law()
    ensures { StartLaw }
{}

/// The code of every program is sound whose declarative parts alone activate tasks (RM 9.2(3)).
pub fn sound_law()
    ensures { SoundLaw }
{}

/// The table of operands that belongs to the code of every program fits it.
pub fn tabled_law()
    ensures { TabledLaw }
{}

/// A table that counts the frames of a scoped program's code fits it (RM 8.3).
pub fn seen_tabled_law()
    ensures { SeenTabledLaw }
{}

/// The code of each scoped program has such a table, by which each body begins with the frames of its level.
pub fn frames_tabled_law()
    ensures { FramesTabledLaw }
{}

/// The code of every program, line by line from its first to its last.
pub fn written_law()
    ensures { WrittenLaw }
{}
