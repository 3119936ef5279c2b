// Code: a list of lines. Each step of a task is some instructions and the ending behind them. A place counts lines from 0.

use crate::counts::Counts;
use crate::instruction::Instruction;
use aud_meaning::state::Construct;
use aud_text::place::Pos;
use aud_typed::program::{Exception, Subtype, Tasks, Variable};

/// A way out of loops or a body: the place, and how many loops' frames are left at once.
#[derive(Clone, Copy)]
pub struct Way {
    pub to: usize,
    pub loops: usize,
}

/// A `for` loop (RM 5.5): where it begins and where its `for` stands, the number of its parameter's table, and whether it goes
/// from the last value to the first.
#[derive(Clone, Copy)]
pub struct ForLoop {
    pub at: Pos,
    pub next_at: Pos,
    pub region: usize,
    pub backward: bool,
}

/// What a statement's step does with its operands.
#[derive(Clone, Copy)]
pub enum Ending {
    /// The next variable of the innermost frame has the newest Integer. While fewer than `up_to` of them are elaborated, the
    /// step leads to the place where it began, `again` (RM 3.3.1(7)).
    Declare { up_to: usize, again: usize },
    /// The next variable of the innermost frame is an array of this many elements (RM 3.6).
    DeclareArray(Subtype, usize),
    Null,
    /// The newest target has the newest Integer.
    Assign,
    /// The text goes to the output.
    Put,
    /// Where the newest truth value is true, the step leads to this place: into an `if` (RM 5.3).
    If(usize),
    /// The same, into a `while` loop (RM 5.5).
    While(usize),
    /// A `for` loop from the second newest Integer to the newest: unless its range is empty, its parameter has a frame, and the
    /// step leads inside (RM 5.5(9)).
    Loop { control: ForLoop, inside: usize },
    /// Where the newest truth value is true, the step leads out of loops (RM 5.7).
    Exit(Way),
    /// RM 11.3.
    Raise(Exception),
    /// Raises the exception again that is being handled (RM 11.3(5)).
    RaiseAgain,
    /// A block's frame, of the variables of this table; the step leads inside (RM 5.6).
    Block { region: usize, inside: usize },
    /// The step leads out of a procedure, to its end (RM 6.5).
    Return(Way),
    /// The same out of a function, whose value is the newest Integer.
    ReturnValue(Way),
    /// The frame of a procedure, the body of this number; the step leads to its beginning (RM 6.4).
    Call(usize),
    /// A call of an entry of the object in whose action the step is done, which raises Program_Error (RM 9.5.1(8 to 16)).
    OwnCall,
}

/// The place of the statements that handle these exceptions, or all others where the flag holds (RM 11.2).
#[derive(Drop)]
pub struct Guard {
    pub others: bool,
    pub choices: Vec<Exception>,
    pub to: usize,
}

/// How an entry is called (RM 9.5.3, 9.7.2, 9.7.3).
#[derive(Clone, Copy)]
pub enum CallKind {
    Plain,
    Conditional,
    Timed,
}

/// Where a selective accept leads by one of its alternatives: behind the alternative, and to what its accept does, which is the
/// same place where that does nothing.
#[derive(Clone, Copy)]
pub struct Offer {
    pub behind: usize,
    pub body: usize,
}

/// The entry at which a call is made again, whether it has formals, and whether the call can be cancelled there as before
/// (RM 9.5.4).
#[derive(Clone, Copy)]
pub struct EntryAgain {
    pub entry: usize,
    pub with_formals: bool,
    pub with_abort: bool,
}

/// What a statement's step does that concerns other tasks, the clock, or the end of the accept or entry body around it.
#[derive(Drop)]
pub enum Among {
    /// The next variable of the innermost frame is these tasks, which are created (RM 9.1).
    DeclareTasks(Tasks),
    /// The next variable of the innermost frame is an object of this declaration (RM 9.4).
    DeclareObject(usize),
    /// The tasks are activated that the declarative part has created (RM 9.2(3)).
    Activate,
    /// The activation of the task ends (RM 9.2(5)).
    Activated,
    /// A call of this entry of the task that is named. The step leads to the place `otherwise` where the call is left
    /// (RM 9.5.3, 9.7.2, 9.7.3).
    Call {
        entry: usize,
        kind: CallKind,
        otherwise: usize,
    },
    /// The same of an entry of the object whose number the variable's cell holds.
    CallObject {
        object: Variable,
        entry: usize,
        kind: CallKind,
        otherwise: usize,
    },
    /// A call of a procedure or function, the body of this number, of the object whose number the variable's cell holds; the step
    /// leads to its beginning (RM 9.5.1(3)).
    Operation {
        object: Variable,
        unit: usize,
    },
    /// The task is blocked for the time that is waited for (RM 9.6).
    Delay,
    /// A call of this entry is accepted, with the table of its formals where something is done, which begins at the
    /// place `body`; else the step leads there (RM 9.5.2).
    Accept {
        entry: usize,
        region: Option<usize>,
        body: usize,
    },
    /// An open alternative is done, or the else part, if there is one, with which the place of the next step begins (RM
    /// 9.7.1). The step itself begins at the place `own`.
    Select {
        has_else: bool,
        own: usize,
        offers: Vec<Offer>,
    },
    /// The tasks that are named, and those that depend on them, become abnormal (RM 9.8).
    Abort,
    /// The step leads out of an accept or entry body, to its end, which makes its call again on an entry of the task that is named
    /// (RM 9.5.4).
    RequeueTask {
        again: EntryAgain,
        way: Way,
    },
    /// The same on an entry of the object whose number the variable's cell holds.
    RequeueObject {
        object: Variable,
        again: EntryAgain,
        way: Way,
    },
}

/// How a step ends.
#[derive(Drop)]
pub enum Last {
    /// A statement's step that concerns its task alone, and the place where the next one begins, unless it leads elsewhere.
    Does(Ending, usize),
    /// A statement's step that concerns others, and the place where the next one begins, unless it leads elsewhere.
    Concerns(Among, usize),
    /// The parameter of a `for` loop has its next value, and the step leads inside, or the loop is left, and it leads behind it.
    Continues {
        control: ForLoop,
        behind: usize,
        inside: usize,
    },
    /// Behind guarded statements, where the handlers of their exceptions are found.
    Guards(Vec<Guard>),
    /// The end of a construct; what comes behind it, where it is no body.
    Ends(Construct, usize),
    /// Leaves a block, and this many loops around it, on the way out of them to a place.
    Leaves {
        loops: usize,
        to: usize,
    },
}

/// The ending of a step: where the step stands in the text, the place where an exception goes that is pending here, and the
/// place of the step that opened the innermost frame that is open here (directly in a body there is none).
#[derive(Drop)]
pub struct EndLine {
    pub last: Last,
    pub at: Pos,
    pub out: usize,
    pub within: Option<usize>,
}

/// What stands at a place. The ending of the step that begins at a place is the first one from there on.
#[derive(Drop)]
pub enum Line {
    Instruction(Instruction),
    End(EndLine),
}

/// The barrier of an entry (RM 9.5.2(7)): its instructions, an ending behind them that takes a truth value, how many operands
/// stand before each of these lines, and how many frames are open whose variables may be named there, that of its object the
/// innermost.
#[derive(Drop)]
pub struct Barrier {
    pub lines: Vec<Line>,
    pub operands: Vec<Counts>,
    pub frames: usize,
}

/// A program's code: its lines, how many operands stand before each of them and how many frames are open there, the place where
/// each body begins, by the bodies' numbers, the place for a number that no body has, the body of each type of tasks, and the
/// barriers, by the entries' numbers.
#[derive(Drop)]
pub struct Code {
    pub lines: Vec<Line>,
    pub operands: Vec<Counts>,
    pub seen: Vec<usize>,
    pub starts: Vec<usize>,
    pub spare: usize,
    pub tasks: Vec<usize>,
    pub barriers: Vec<Barrier>,
}
