// Typed programs. Operators and statements that follow one another are lists, so that a program is as deep in memory as its
// text is nested, however long it is. What is not taken apart elsewhere has a drop of its own, which is proved once.

ghost use Rattle.std.specs.Prelude.{◌≡◌, IfOk};
ghost use Rattle.aud_typed.specs.Ties.View.{milliseconds_in, plain_tasks};

use aud_text::int32::Int32;
use aud_text::name::Name;
use aud_text::place::Pos;
use aud_text::raise::Raise;
use aud_text::text::Text;
use std::alloc::{AllocError, Global};

/// A variable: the level of its frame, the main procedure's being 0, and its number there, by declaration.
#[derive(Clone, Copy)]
pub struct Variable {
    pub level: usize,
    pub index: usize,
}

/// A one-dimensional array: the cell of its first element, its lower bound and its length (RM 3.6).
#[derive(Clone, Copy)]
pub struct ArrayAt {
    pub first: Variable,
    pub low: i32,
    pub length: usize,
}

/// A scalar subtype (RM 3.5).
#[derive(Clone, Copy)]
pub enum Subtype {
    Integer,
    Natural,
    Positive,
    Boolean,
}

/// An operator on one Integer.
#[derive(Clone, Copy)]
pub enum Unary {
    Negative,
    Magnitude,
}

/// An operator on two Integers.
#[derive(Clone, Copy)]
pub enum Binary {
    Sum,
    Difference,
    Product,
    Quotient,
    Modulus,
    Remainder,
}

/// A relation (RM 4.5.2).
#[derive(Clone, Copy)]
pub enum Relation {
    Equal,
    Unequal,
    Less,
    AtMost,
    Greater,
    AtLeast,
}

/// A logical operator that evaluates both sides (RM 4.5.1).
#[derive(Clone, Copy, PartialEq, Eq)]
pub enum Logical {
    And,
    Or,
    Xor,
}

/// An exception: a predefined one, or a declared one by its number (RM 11.1).
#[derive(Clone, Copy, PartialEq, Eq)]
pub enum Exception {
    Predefined(Raise),
    Declared(usize),
}

/// An expression of type Integer.
#[derive(Drop)]
#[cycle(integer)]
pub enum IntegerExpression {
    Number(Int32),
    Variable(Variable),
    /// An element of an array, by its index (RM 4.1.1).
    Element(ArrayAt, Box<IntegerExpression>),
    Unary(Unary, Box<IntegerExpression>),
    /// An operand, and operations one after the other on what stands before them.
    Chain(Box<IntegerExpression>, Vec<Operation>),
    /// How many calls are queued on an entry of the task or protected object whose number is in the variable (RM 9.9(5)).
    Count(Variable, usize),
}

/// An operator and its right operand; the left one is all that stands before it in its chain.
#[derive(Drop)]
#[cycle(integer)]
pub struct Operation {
    pub operator: Binary,
    pub right: IntegerExpression,
}

/// A task, whose number is in a cell: a variable, or an element of an array, by its index (RM 9.1).
pub enum TaskName {
    Single(Variable),
    Element(ArrayAt, IntegerExpression),
}

impl Drop for TaskName {
    fn drop(self) {
        match self {
            TaskName::Single(_) => {}
            TaskName::Element(_, index) => drop(index),
        }
    }
}

/// An operator of a logical expression (RM 4.4(2)): one that evaluates both sides, or a short circuit.
#[derive(Clone, Copy, PartialEq, Eq)]
pub enum Connective {
    Logical(Logical),
    AndThen,
    OrElse,
}

/// An expression of type Boolean.
#[derive(Drop)]
pub enum BooleanExpression {
    Truth(bool),
    Variable(Variable),
    /// An element of an array, by its index (RM 4.1.1).
    Element(ArrayAt, IntegerExpression),
    Not(Box<BooleanExpression>),
    /// Of two Integers.
    Relation(Relation, IntegerExpression, IntegerExpression),
    /// Of two truth values.
    Comparison(Relation, Box<BooleanExpression>, Box<BooleanExpression>),
    /// An operand, and others, each with the same operator on what stands before it.
    Chain(Connective, Box<BooleanExpression>, Vec<BooleanExpression>),
    /// T'Callable (RM 9.9(2)).
    Callable(TaskName),
    /// T'Terminated (RM 9.9(3)).
    Terminated(TaskName),
}

/// A value for a place that asks for a subtype.
pub enum ValueExpression {
    /// Constraint_Error is raised where it is not in the subtype's range (RM 4.6(51)).
    Whole(Subtype, IntegerExpression),
    Truth(BooleanExpression),
}

impl Drop for ValueExpression {
    fn drop(self) {
        match self {
            ValueExpression::Whole(_, value) => drop(value),
            ValueExpression::Truth(value) => drop(value),
        }
    }
}

/// What is assigned, with its subtype: a variable, or an element of an array, by its index.
pub enum Reference {
    Scalar(Variable, Subtype),
    Element(ArrayAt, IntegerExpression, Subtype),
}

impl Drop for Reference {
    fn drop(self) {
        match self {
            Reference::Scalar(_, _) => {}
            Reference::Element(_, index, _) => drop(index),
        }
    }
}

/// An argument of a call (RM 6.4.1).
pub enum Argument {
    /// The value of a formal of mode in.
    ByValue(ValueExpression),
    /// The variable of a formal of this subtype, of mode in out where the flag holds, and else out.
    ByCopy(bool, Subtype, Reference),
}

impl Drop for Argument {
    fn drop(self) {
        match self {
            Argument::ByValue(value) => drop(value),
            Argument::ByCopy(_, _, reference) => drop(reference),
        }
    }
}

/// A call of the procedure or function whose unit has this number, with these arguments, and what the value of a function is
/// assigned to (RM 6.4).
#[derive(Drop)]
pub struct Calling {
    pub unit: usize,
    pub arguments: Vec<Argument>,
    pub into: Option<Reference>,
}

/// Whose entry is called: a task's, or that of the protected object whose number is in the variable (RM 9.5.3).
pub enum Callee {
    Task(TaskName),
    Object(Variable),
}

impl Drop for Callee {
    fn drop(self) {
        match self {
            Callee::Task(task) => drop(task),
            Callee::Object(_) => {}
        }
    }
}

/// The entry, of this number, at which a call is made again, whether it has formals, and whether the call can be cancelled there as
/// before (RM 9.5.4).
pub struct Requeue {
    pub callee: Callee,
    pub entry: usize,
    pub with_formals: bool,
    pub with_abort: bool,
}

impl Drop for Requeue {
    fn drop(self) {
        let Requeue {
            callee,
            entry: _,
            with_formals: _,
            with_abort: _,
        } = self;
        drop(callee);
    }
}

/// A text, which is put out.
#[derive(Drop)]
pub enum TextExpression {
    Literal(Text),
    /// Integer'Image of a value (RM 4.10).
    Image(IntegerExpression),
    /// Boolean'Image of a value.
    ImageTruth(BooleanExpression),
    /// A text, and those that follow it.
    Join(Box<TextExpression>, Vec<TextExpression>),
    /// What ends a line.
    NewLine,
}

/// So many seconds and thousandths of a second (RM 9.6).
#[derive(Clone, Copy)]
pub struct Duration {
    pub seconds: u32,
    pub thousandths: u16,
}

impl Duration {
    /// The same in milliseconds.
    pub fn milliseconds(self) -> u64
        ensures { result ≡ milliseconds_in self }
    {
        u64::from(self.seconds) * 1000 + u64::from(self.thousandths)
    }
}

/// How long is waited (RM 9.6).
pub enum DelayExpression {
    Fixed(Duration),
    /// This number of seconds, and none where it is negative.
    Seconds(IntegerExpression),
}

impl Drop for DelayExpression {
    fn drop(self) {
        match self {
            DelayExpression::Fixed(_) => {}
            DelayExpression::Seconds(seconds) => drop(seconds),
        }
    }
}

/// How an entry is called (RM 9.5.3).
pub enum CallForm {
    Plain,
    /// It is left where it is not accepted at once (RM 9.7.3).
    Conditional,
    /// It is left after this time (RM 9.7.2).
    Timed(DelayExpression),
}

impl Drop for CallForm {
    fn drop(self) {
        match self {
            CallForm::Plain | CallForm::Conditional => {}
            CallForm::Timed(delay) => drop(delay),
        }
    }
}

/// The tasks of one name: a single one, or the elements of an array from its lower bound on (RM 9.1).
#[derive(Drop)]
pub struct Tasks {
    /// The number of their type.
    pub task_type: usize,
    pub name: Name,
    pub low: i32,
    pub is_array: bool,
    pub length: usize,
}

impl Tasks {
    /// The same tasks, in memory of their own.
    pub fn try_clone(&self, alloc: Global) -> Result<Self, AllocError>
        ensures { IfOk result (λ ts. plain_tasks ts ≡ plain_tasks self.now) }
    {
        Ok(Tasks {
            task_type: self.task_type,
            name: self.name.try_clone(alloc)?,
            low: self.low,
            is_array: self.is_array,
            length: self.length,
        })
    }
}

/// A statement, or the elaboration of an object declaration, with the place of its first token.
#[cycle(statement)]
pub enum Statement {
    /// The next variables of the innermost frame, until this number of them is elaborated, each with an initial value of its own
    /// (RM 3.3.1(7)).
    Declare(Pos, usize, ValueExpression),
    /// The next variable of the innermost frame: an array of this many elements, each with the value of its subtype that is
    /// nearest to zero (RM 3.6; profile choice of the value).
    DeclareArray(Pos, Subtype, usize),
    /// The next variable of the innermost frame: these tasks, which are created (RM 9.2(1)).
    DeclareTasks(Pos, Tasks),
    /// The next variable of the innermost frame: a protected object of this declaration, with the initial values of its components
    /// (RM 9.4).
    DeclareObject(Pos, usize, Vec<ValueExpression>),
    /// The activation of the task ends whose body it stands in (RM 9.2(5)).
    Activated(Pos),
    Null(Pos),
    Assign(Pos, Reference, ValueExpression),
    Put(Pos, TextExpression),
    If(Box<IfStatement>),
    /// While the condition is true, its statements are done again (RM 5.5).
    While(Pos, BooleanExpression, Box<Statements>),
    /// A loop that is left by an exit, if at all.
    Loop(Box<Statements>),
    For(Box<ForStatement>),
    /// Out of the loop that is this number of loops further out than the innermost one, where the condition is true (RM 5.7).
    Exit(Pos, usize, BooleanExpression),
    /// RM 11.3.
    Raise(Pos, Exception),
    /// Raises the exception again that is being handled (RM 11.3(5)).
    RaiseAgain(Pos),
    Block(Box<BlockStatement>),
    /// The procedure is left in which it stands (RM 6.5).
    Return(Pos),
    /// The function is left in which it stands, with this value (RM 6.5).
    ReturnValue(Pos, ValueExpression),
    /// A call of a procedure, or of an operation of the object in whose body it stands (RM 6.4, 9.5(3)).
    ProcedureCall(Pos, Calling),
    /// A call of an entry of the object in whose body it stands, which raises Program_Error once its arguments are
    /// evaluated (RM 9.5.1(8 to 16)).
    OwnEntryCall(Pos, Vec<Argument>, CallForm),
    /// A call, from outside, of an operation of the protected object whose number is in the variable (RM 9.5(4)).
    OperationCall(Pos, Variable, Calling),
    EntryCall(Box<EntryCallStatement>),
    /// RM 9.6.
    Delay(Pos, DelayExpression),
    Accept(Box<AcceptStatement>),
    Select(Box<SelectStatement>),
    /// These tasks, and those that depend on them, become abnormal (RM 9.8).
    Abort(Pos, Vec<TaskName>),
    /// The accept or entry body is left in which it stands, and its call is made again (RM 9.5.4).
    Requeue(Pos, Box<Requeue>),
}

impl Drop for Statement {
    #[cycle(statement)]
    fn drop(self) {
        match self {
            Statement::DeclareArray(_, _, _)
            | Statement::Activated(_)
            | Statement::Null(_)
            | Statement::Raise(_, _)
            | Statement::RaiseAgain(_)
            | Statement::Return(_) => {}
            Statement::Declare(_, _, value) => drop(value),
            Statement::DeclareTasks(_, tasks) => drop(tasks),
            Statement::DeclareObject(_, _, values) => drop(values),
            Statement::Assign(_, target, value) => {
                drop(target);
                drop(value);
            }
            Statement::Put(_, text) => drop(text),
            Statement::If(statement) => drop(statement),
            Statement::While(_, condition, statements) => {
                drop(condition);
                drop(statements);
            }
            Statement::Loop(statements) => drop(statements),
            Statement::For(statement) => drop(statement),
            Statement::Exit(_, _, condition) => drop(condition),
            Statement::Block(statement) => drop(statement),
            Statement::ReturnValue(_, value) => drop(value),
            Statement::ProcedureCall(_, calling) => drop(calling),
            Statement::OwnEntryCall(_, arguments, form) => {
                drop(arguments);
                drop(form);
            }
            Statement::OperationCall(_, _, calling) => drop(calling),
            Statement::EntryCall(call) => drop(call),
            Statement::Delay(_, delay) => drop(delay),
            Statement::Accept(accept) => drop(accept),
            Statement::Select(select) => drop(select),
            Statement::Abort(_, tasks) => drop(tasks),
            Statement::Requeue(_, requeue) => drop(requeue),
        }
    }
}

/// The condition and statements behind `if`, those behind each `elsif`, and the statements behind `else`, which are none where
/// there is no `else` (RM 5.3).
#[cycle(statement)]
pub struct IfStatement {
    pub first: Arm,
    pub others: Vec<Arm>,
    pub otherwise: Vec<Statement>,
}

impl Drop for IfStatement {
    #[cycle(statement)]
    fn drop(self) {
        let IfStatement {
            first,
            others,
            otherwise,
        } = self;
        drop(first);
        drop(others);
        drop(otherwise);
    }
}

/// A condition, where its `if` or `elsif` stands, and the statements that are done where it is true.
#[cycle(statement)]
pub struct Arm {
    pub at: Pos,
    pub condition: BooleanExpression,
    pub statements: Statements,
}

impl Drop for Arm {
    #[cycle(statement)]
    fn drop(self) {
        let Arm {
            at: _,
            condition,
            statements,
        } = self;
        drop(condition);
        drop(statements);
    }
}

/// A `for` loop (RM 5.5): where it begins and where its `for` stands, the number of its parameter's table, and whether it goes
/// from the last value to the first.
#[cycle(statement)]
pub struct ForStatement {
    pub at: Pos,
    pub next_at: Pos,
    pub region: usize,
    pub backward: bool,
    pub first: IntegerExpression,
    pub last: IntegerExpression,
    pub statements: Statements,
}

impl Drop for ForStatement {
    #[cycle(statement)]
    fn drop(self) {
        let ForStatement {
            at: _,
            next_at: _,
            region: _,
            backward: _,
            first,
            last,
            statements,
        } = self;
        drop(first);
        drop(last);
        drop(statements);
    }
}

/// A block, with the number of the table of its variables (RM 5.6).
#[cycle(statement)]
pub struct BlockStatement {
    pub at: Pos,
    pub region: usize,
    pub body: Body,
}

impl Drop for BlockStatement {
    #[cycle(statement)]
    fn drop(self) {
        let BlockStatement {
            at: _,
            region: _,
            body,
        } = self;
        drop(body);
    }
}

/// A call of the entry of this number (RM 9.5.3); the statements behind the call of a conditional or timed one, and those behind
/// its `else` or its delay, which are done where the call is left (RM 9.7.2, 9.7.3).
#[cycle(statement)]
pub struct EntryCallStatement {
    pub at: Pos,
    pub callee: Callee,
    pub entry: usize,
    pub arguments: Vec<Argument>,
    pub form: CallForm,
    pub after: Vec<Statement>,
    pub otherwise: Vec<Statement>,
}

impl Drop for EntryCallStatement {
    #[cycle(statement)]
    fn drop(self) {
        let EntryCallStatement {
            at: _,
            callee,
            entry: _,
            arguments,
            form,
            after,
            otherwise,
        } = self;
        drop(callee);
        drop(arguments);
        drop(form);
        drop(after);
        drop(otherwise);
    }
}

/// An accept of a call of the entry of this number, and what it does then, if it does something (RM 9.5.2).
#[cycle(statement)]
pub struct AcceptStatement {
    pub at: Pos,
    pub entry: usize,
    pub doing: Option<Doing>,
}

impl Drop for AcceptStatement {
    #[cycle(statement)]
    fn drop(self) {
        let AcceptStatement {
            at: _,
            entry: _,
            doing,
        } = self;
        drop(doing);
    }
}

/// What is done in a rendezvous, with the number of the table of the entry's formals (RM 9.5.2).
#[cycle(statement)]
pub struct Doing {
    pub region: usize,
    pub body: Body,
}

impl Drop for Doing {
    #[cycle(statement)]
    fn drop(self) {
        let Doing { region: _, body } = self;
        drop(body);
    }
}

/// A selective accept (RM 9.7.1): its alternatives, and the statements behind `else`, which are none where there is no `else`.
#[cycle(statement)]
pub struct SelectStatement {
    pub at: Pos,
    pub alternatives: Vec<Alternative>,
    pub otherwise: Vec<Statement>,
}

impl Drop for SelectStatement {
    #[cycle(statement)]
    fn drop(self) {
        let SelectStatement {
            at: _,
            alternatives,
            otherwise,
        } = self;
        drop(alternatives);
        drop(otherwise);
    }
}

/// An alternative of a selective accept, which is open where its guard is true (RM 9.7.1).
#[cycle(statement)]
pub enum Alternative {
    /// An accept, and the statements behind it.
    Accept {
        guard: BooleanExpression,
        accept: AcceptStatement,
        after: Vec<Statement>,
    },
    /// A delay, and the statements behind it.
    Delay {
        guard: BooleanExpression,
        delay: DelayExpression,
        after: Vec<Statement>,
    },
    Terminate {
        guard: BooleanExpression,
    },
}

impl Drop for Alternative {
    #[cycle(statement)]
    fn drop(self) {
        match self {
            Alternative::Accept {
                guard,
                accept,
                after,
            } => {
                drop(guard);
                drop(accept);
                drop(after);
            }
            Alternative::Delay {
                guard,
                delay,
                after,
            } => {
                drop(guard);
                drop(delay);
                drop(after);
            }
            Alternative::Terminate { guard } => drop(guard),
        }
    }
}

/// Declarations, a `begin`, statements and their handlers, and an `end` (RM 11.2).
#[cycle(statement)]
pub struct Body {
    pub declarations: Vec<Statement>,
    /// Where its `begin` stands.
    pub begin: Pos,
    /// Whether its `begin` activates the tasks that its declarations create (RM 9.2(3)).
    pub activates: bool,
    pub statements: Statements,
    pub handlers: Vec<Handler>,
    /// Where its `end` stands.
    pub end: Pos,
}

impl Drop for Body {
    #[cycle(statement)]
    fn drop(self) {
        let Body {
            declarations,
            begin: _,
            activates: _,
            statements,
            handlers,
            end: _,
        } = self;
        drop(declarations);
        drop(statements);
        drop(handlers);
    }
}

/// What is done for these exceptions, or for all others where the flag holds (RM 11.2).
#[cycle(statement)]
pub struct Handler {
    pub others: bool,
    pub choices: Vec<Exception>,
    pub statements: Statements,
}

impl Drop for Handler {
    #[cycle(statement)]
    fn drop(self) {
        let Handler {
            others: _,
            choices,
            statements,
        } = self;
        drop(choices);
        drop(statements);
    }
}

/// A sequence of statements (RM 5.1(2)): the first, and those behind it.
// The first lies in a box, since the prover lays out in each function all that lies in a value and in no box.
#[derive(Drop)]
#[cycle(statement)]
pub struct Statements {
    pub first: Box<Statement>,
    pub others: Vec<Statement>,
}

/// How a variable is shown: as a number or as False or True, or as this many of them, or not at all where it has this many cells.
#[derive(Clone, Copy)]
pub enum Shown {
    Whole,
    Truth,
    Wholes(usize),
    Truths(usize),
    Hidden(usize),
}

/// The name of a variable, constant, task or protected object, and how its value is shown.
pub struct Named {
    pub name: Name,
    pub shown: Shown,
}

impl Drop for Named {
    fn drop(self) {
        let Named { name, shown: _ } = self;
        drop(name);
    }
}

/// A procedure's body (RM 6.3), a task's (RM 9.1), or that of an operation or entry of a protected object (RM 9.4): how many
/// frames it sees besides its own, the number of the table of its formals and variables, whether it is a function's, and where it
/// begins. The first variable of a task's body is the task's own number. Around the frame of an operation or entry body is that
/// of its object: the object's own number, and the components.
pub struct Unit {
    pub level: usize,
    pub region: usize,
    pub is_function: bool,
    pub at: Pos,
    pub body: Body,
}

impl Drop for Unit {
    fn drop(self) {
        let Unit {
            level: _,
            region: _,
            is_function: _,
            at: _,
            body,
        } = self;
        drop(body);
    }
}

/// A task type, or the type of a single task: the unit that is its body, and its entries, by their numbers (RM 9.1).
pub struct TaskType {
    pub unit: usize,
    pub entries: Vec<usize>,
}

impl Drop for TaskType {
    fn drop(self) {
        let TaskType { unit: _, entries } = self;
        drop(entries);
    }
}

/// A declaration of a protected object: its name, how many frames are open around its own, its components in the order of their
/// declarations, and its entries, by their numbers (RM 9.4). One more is open around the frame of each operation and entry body,
/// the object's own.
pub struct ProtectedObject {
    pub name: Name,
    pub level: usize,
    pub components: Vec<Named>,
    pub entries: Vec<usize>,
}

impl Drop for ProtectedObject {
    fn drop(self) {
        let ProtectedObject {
            name,
            level: _,
            components,
            entries,
        } = self;
        drop(name);
        drop(components);
        drop(entries);
    }
}

/// An entry of a task, which has no body, or of a protected object, and how many formals it has (RM 9.5.2).
pub struct Entry {
    pub name: Name,
    pub formals: usize,
    pub body: Option<EntryBody>,
}

impl Drop for Entry {
    fn drop(self) {
        let Entry {
            name,
            formals: _,
            body,
        } = self;
        drop(name);
        drop(body);
    }
}

/// The unit that is the body of a protected entry, and its barrier (RM 9.5.2(7)).
pub struct EntryBody {
    pub unit: usize,
    pub barrier: BooleanExpression,
}

impl Drop for EntryBody {
    fn drop(self) {
        let EntryBody { unit: _, barrier } = self;
        drop(barrier);
    }
}

/// A typed program: its procedures, tasks and protected objects, which have blocks and `for` loops.
pub struct Program {
    pub name: Name,
    /// The bodies of procedures, tasks, operations and protected entries, in the order of their declarations: that of the main
    /// procedure first.
    pub units: Vec<Unit>,
    /// The types of the tasks, in the order of their declarations.
    pub tasks: Vec<TaskType>,
    /// The protected objects, in the order of their declarations.
    pub objects: Vec<ProtectedObject>,
    /// The entries of tasks and objects, by their numbers.
    pub entries: Vec<Entry>,
    /// The formals, variables and constants of each frame, in the order of their declarations, by the frames' tables.
    pub regions: Vec<Vec<Named>>,
    /// The names of the exceptions that are declared, by their numbers.
    pub exceptions: Vec<Name>,
}

// A drop of its own is one call wherever a program is dropped; a derived one would be its parts' drops, each time anew.
impl Drop for Program {
    fn drop(self) {
        let Program {
            name: _,
            units: _,
            tasks: _,
            objects: _,
            entries: _,
            regions: _,
            exceptions: _,
        } = self;
    }
}
