// Syntax trees. A list that is never empty is its first element and the others.

use aud_text::int32::Int32;
use aud_text::name::Name as Spelling;
use aud_text::place::Pos;
use aud_text::text::Text;

/// An occurrence of an identifier (RM 2.3).
pub struct Ident {
    pub name: Spelling,
    pub at: Pos,
}

impl Drop for Ident {
    fn drop(self) {
        let Ident { name, at: _ } = self;
        drop(name);
    }
}

/// A whole number (RM 2.4): its value, none where it is larger than any Integer, and where it stands.
#[derive(Clone, Copy)]
pub struct Number {
    pub value: Option<Int32>,
    pub at: Pos,
}

/// A real number (RM 2.4): its whole part, none where that is larger than any Integer, what follows its point in thousandths,
/// none where that has more than three digits, and where it stands.
#[derive(Clone, Copy)]
pub struct Real {
    pub whole: Option<Int32>,
    pub thousandths: Option<u16>,
    pub at: Pos,
}

/// A string literal (RM 2.6): its characters, and where it stands.
pub struct Literal {
    pub text: Text,
    pub at: Pos,
}

impl Drop for Literal {
    fn drop(self) {
        let Literal { text, at: _ } = self;
        drop(text);
    }
}

/// A unary adding operator (RM 4.5.4).
#[derive(Clone, Copy)]
pub enum Sign {
    Plus,
    Minus,
}

/// A sign before the first term, and where it stands.
#[derive(Clone, Copy)]
pub struct Signed {
    pub sign: Sign,
    pub at: Pos,
}

/// A binary adding operator (RM 4.5.3).
#[derive(Clone, Copy)]
pub enum Adding {
    Plus,
    Minus,
    Join,
}

/// A multiplying operator (RM 4.5.5).
#[derive(Clone, Copy)]
pub enum Multiplying {
    Times,
    Divide,
    Modulo,
    Remainder,
}

/// A highest precedence operator (RM 4.5.6).
#[derive(Clone, Copy)]
pub enum Highest {
    Magnitude,
    Not,
}

/// An operator before a primary, and where it stands.
#[derive(Clone, Copy)]
pub struct Operator {
    pub highest: Highest,
    pub at: Pos,
}

/// A relational operator (RM 4.5.2).
#[derive(Clone, Copy)]
pub enum Relational {
    Equal,
    Unequal,
    Less,
    AtMost,
    Greater,
    AtLeast,
}

/// A logical operator, or a short-circuit control form (RM 4.5.1).
#[derive(Clone, Copy, PartialEq, Eq)]
pub enum Connective {
    And,
    Or,
    Xor,
    AndThen,
    OrElse,
}

/// An expression (RM 4.4).
#[cycle(expression)]
pub enum Expression {
    /// One relation, with no logical operator.
    Alone(Relation),
    /// Several relations.
    Connected(Box<Chain>),
}

// A drop of its own is one call wherever such a tree is let go; a derived one would be its parts' drops, each time anew.
impl Drop for Expression {
    #[cycle(expression)]
    fn drop(self) {
        match self {
            Expression::Alone(relation) => drop(relation),
            Expression::Connected(chain) => drop(chain),
        }
    }
}

/// Relations with the same operator between each two (RM 4.4(2)): the first, the second, and those behind them.
#[cycle(expression)]
pub struct Chain {
    pub connective: Connective,
    pub first: Relation,
    pub second: Relation,
    pub others: Vec<Relation>,
}

impl Drop for Chain {
    #[cycle(expression)]
    fn drop(self) {
        let Chain {
            connective: _,
            first,
            second,
            others,
        } = self;
        drop(first);
        drop(second);
        drop(others);
    }
}

/// A relation (RM 4.4(3)).
#[cycle(expression)]
pub enum Relation {
    /// What is compared with nothing.
    Unrelated(Simple),
    /// What is compared.
    Related(Box<Comparison>),
}

impl Drop for Relation {
    #[cycle(expression)]
    fn drop(self) {
        match self {
            Relation::Unrelated(operand) => drop(operand),
            Relation::Related(comparison) => drop(comparison),
        }
    }
}

/// Two operands that are compared.
#[cycle(expression)]
pub struct Comparison {
    pub operator: Relational,
    pub left: Simple,
    pub right: Simple,
}

impl Drop for Comparison {
    #[cycle(expression)]
    fn drop(self) {
        let Comparison {
            operator: _,
            left,
            right,
        } = self;
        drop(left);
        drop(right);
    }
}

/// Terms that are added (RM 4.4(4)).
#[cycle(expression)]
pub struct Simple {
    pub sign: Option<Signed>,
    pub first: Term,
    pub rest: Vec<Added>,
}

impl Drop for Simple {
    #[cycle(expression)]
    fn drop(self) {
        let Simple {
            sign: _,
            first,
            rest,
        } = self;
        drop(first);
        drop(rest);
    }
}

/// A further term.
#[cycle(expression)]
pub struct Added {
    pub operator: Adding,
    pub term: Term,
}

impl Drop for Added {
    #[cycle(expression)]
    fn drop(self) {
        let Added { operator: _, term } = self;
        drop(term);
    }
}

/// Factors that are multiplied (RM 4.4(5)).
#[cycle(expression)]
pub struct Term {
    pub first: Factor,
    pub rest: Vec<Multiplied>,
}

impl Drop for Term {
    #[cycle(expression)]
    fn drop(self) {
        let Term { first, rest } = self;
        drop(first);
        drop(rest);
    }
}

/// A further factor.
#[cycle(expression)]
pub struct Multiplied {
    pub operator: Multiplying,
    pub factor: Factor,
}

impl Drop for Multiplied {
    #[cycle(expression)]
    fn drop(self) {
        let Multiplied {
            operator: _,
            factor,
        } = self;
        drop(factor);
    }
}

/// A primary with the operator before it (RM 4.4(6)).
#[cycle(expression)]
pub struct Factor {
    pub operator: Option<Operator>,
    pub primary: Primary,
}

impl Drop for Factor {
    #[cycle(expression)]
    fn drop(self) {
        let Factor {
            operator: _,
            primary,
        } = self;
        drop(primary);
    }
}

/// A primary (RM 4.4(7)).
#[cycle(expression)]
pub enum Primary {
    Integer(Number),
    Text(Literal),
    Name(Box<Name>),
    /// The prefix, the attribute's name and its argument (RM 4.1.4).
    Attribute(Box<Name>, Ident, Option<Box<Expression>>),
    /// An expression in parentheses, and where they open.
    Group(Pos, Box<Expression>),
}

impl Drop for Primary {
    #[cycle(expression)]
    fn drop(self) {
        match self {
            Primary::Integer(_) => {}
            Primary::Text(literal) => drop(literal),
            Primary::Name(name) => drop(name),
            Primary::Attribute(prefix, designator, argument) => {
                drop(prefix);
                drop(designator);
                drop(argument);
            }
            Primary::Group(_, inner) => drop(inner),
        }
    }
}

/// A name (RM 4.1): its first part, and those behind points.
#[cycle(expression)]
pub struct Name {
    pub first: NamePart,
    pub others: Vec<NamePart>,
}

impl Drop for Name {
    #[cycle(expression)]
    fn drop(self) {
        let Name { first, others } = self;
        drop(first);
        drop(others);
    }
}

/// An identifier of a name, and the arguments in the parentheses behind it.
#[cycle(expression)]
pub struct NamePart {
    pub ident: Ident,
    pub args: Vec<Expression>,
}

impl Drop for NamePart {
    #[cycle(expression)]
    fn drop(self) {
        let NamePart { ident, args } = self;
        drop(ident);
        drop(args);
    }
}

/// The names of a declaration: the first, and those behind it (RM 3.3.1).
pub struct Identifiers {
    pub first: Ident,
    pub others: Vec<Ident>,
}

impl Drop for Identifiers {
    fn drop(self) {
        let Identifiers { first, others } = self;
        drop(first);
        drop(others);
    }
}

/// A bound of an array (RM 3.6.1): whether a minus stands before it, and its number.
#[derive(Clone, Copy)]
pub struct Bound {
    pub negative: bool,
    pub number: Number,
}

/// How formal parameters are passed (RM 6.1), and where that is written.
#[derive(Clone, Copy)]
pub enum Mode {
    /// It is not written, which means `in`.
    Unstated,
    In(Pos),
    Out(Pos),
    /// Where its `in` stands.
    InOut(Pos),
}

/// Formal parameters of one mode and subtype (RM 6.1).
pub struct Formal {
    pub names: Identifiers,
    pub mode: Mode,
    pub subtype: Ident,
}

impl Drop for Formal {
    fn drop(self) {
        let Formal {
            names,
            mode: _,
            subtype,
        } = self;
        drop(names);
        drop(subtype);
    }
}

/// A declaration (RM 3.1).
#[cycle(statement)]
pub enum Declaration {
    /// Variables, their subtype and their initial value (RM 3.3.1).
    Object(Identifiers, Ident, Option<Expression>),
    /// Constants, their subtype and their value (RM 3.3.1).
    Constant(Identifiers, Ident, Expression),
    /// Arrays, the bounds of their index, and the subtype of their elements (RM 3.3.1, 3.6).
    Array(Identifiers, Bound, Bound, Ident),
    /// Exceptions (RM 11.1).
    Exception(Identifiers),
    Procedure(Box<ProcedureDeclaration>),
    Task(TaskDeclaration),
    TaskBody(Box<TaskBody>),
    Protected(ProtectedDeclaration),
    ProtectedBody(Box<ProtectedBody>),
}

impl Drop for Declaration {
    #[cycle(statement)]
    fn drop(self) {
        match self {
            Declaration::Object(names, subtype, value) => {
                drop(names);
                drop(subtype);
                drop(value);
            }
            Declaration::Constant(names, subtype, value) => {
                drop(names);
                drop(subtype);
                drop(value);
            }
            Declaration::Array(names, _, _, subtype) => {
                drop(names);
                drop(subtype);
            }
            Declaration::Exception(names) => drop(names),
            Declaration::Procedure(procedure) => drop(procedure),
            Declaration::Task(task) => drop(task),
            Declaration::TaskBody(body) => drop(body),
            Declaration::Protected(object) => drop(object),
            Declaration::ProtectedBody(body) => drop(body),
        }
    }
}

/// A procedure and its body (RM 6.3): where its `procedure` stands, its name, its formal parameters, and its declarations.
#[cycle(statement)]
pub struct ProcedureDeclaration {
    pub at: Pos,
    pub name: Ident,
    pub formals: Vec<Formal>,
    pub declarations: Vec<Declaration>,
    pub body: Body,
}

impl Drop for ProcedureDeclaration {
    #[cycle(statement)]
    fn drop(self) {
        let ProcedureDeclaration {
            at: _,
            name,
            formals,
            declarations,
            body,
        } = self;
        drop(name);
        drop(formals);
        drop(declarations);
        drop(body);
    }
}

/// A task or a task type (RM 9.1): where its `task` stands, which it is, its name, and its definition, if it has one.
#[derive(Drop)]
pub struct TaskDeclaration {
    pub at: Pos,
    pub is_type: bool,
    pub name: Ident,
    pub definition: Option<TaskDefinition>,
}

/// What stands in the declaration of a task behind `is` (RM 9.1(4)): its entries, and the name behind `end`.
pub struct TaskDefinition {
    pub entries: Vec<EntryDeclaration>,
    pub end_name: Option<Ident>,
}

impl Drop for TaskDefinition {
    fn drop(self) {
        let TaskDefinition { entries, end_name } = self;
        drop(entries);
        drop(end_name);
    }
}

/// An entry (RM 9.5.2(2)): its name and its formal parameters.
pub struct EntryDeclaration {
    pub name: Ident,
    pub formals: Vec<Formal>,
}

impl Drop for EntryDeclaration {
    fn drop(self) {
        let EntryDeclaration { name, formals } = self;
        drop(name);
        drop(formals);
    }
}

/// The body of a task or a task type (RM 9.1(6)): where its `task` stands, its name, and its declarations.
#[cycle(statement)]
pub struct TaskBody {
    pub at: Pos,
    pub name: Ident,
    pub declarations: Vec<Declaration>,
    pub body: Body,
}

impl Drop for TaskBody {
    #[cycle(statement)]
    fn drop(self) {
        let TaskBody {
            at: _,
            name,
            declarations,
            body,
        } = self;
        drop(name);
        drop(declarations);
        drop(body);
    }
}

/// A protected object (RM 9.4): where its `protected` stands, its name, its operations, what stands behind `private`, if that
/// is written, and the name behind `end`.
#[derive(Drop)]
pub struct ProtectedDeclaration {
    pub at: Pos,
    pub name: Ident,
    pub operations: Vec<Operation>,
    pub private_items: Option<Vec<PrivateItem>>,
    pub end_name: Option<Ident>,
}

/// What a protected object does for others (RM 9.4(5)): its name, and its formal parameters.
pub enum Operation {
    Entry(EntryDeclaration),
    Procedure(Ident, Vec<Formal>),
    /// With the subtype of its value.
    Function(Ident, Vec<Formal>, Ident),
}

impl Drop for Operation {
    fn drop(self) {
        match self {
            Operation::Entry(entry) => drop(entry),
            Operation::Procedure(name, formals) => {
                drop(name);
                drop(formals);
            }
            Operation::Function(name, formals, subtype) => {
                drop(name);
                drop(formals);
                drop(subtype);
            }
        }
    }
}

/// What stands in a protected object behind `private` (RM 9.4(6)).
pub enum PrivateItem {
    Operation(Operation),
    /// Components, their subtype and their initial value.
    Components(Identifiers, Ident, Option<Expression>),
}

impl Drop for PrivateItem {
    fn drop(self) {
        match self {
            PrivateItem::Operation(operation) => drop(operation),
            PrivateItem::Components(names, subtype, value) => {
                drop(names);
                drop(subtype);
                drop(value);
            }
        }
    }
}

/// The body of a protected object (RM 9.4(7)): where its `protected` stands, its name, the bodies of its operations, and the
/// name behind `end`.
#[cycle(statement)]
pub struct ProtectedBody {
    pub at: Pos,
    pub name: Ident,
    pub bodies: Vec<OperationBody>,
    pub end_name: Option<Ident>,
}

impl Drop for ProtectedBody {
    #[cycle(statement)]
    fn drop(self) {
        let ProtectedBody {
            at: _,
            name,
            bodies,
            end_name,
        } = self;
        drop(name);
        drop(bodies);
        drop(end_name);
    }
}

/// The body of an operation (RM 9.4(8)): where its first word stands, its name, its formal parameters, and its declarations.
#[cycle(statement)]
pub struct OperationBody {
    pub kind: OperationKind,
    pub at: Pos,
    pub name: Ident,
    pub formals: Vec<Formal>,
    pub declarations: Vec<Declaration>,
    pub body: Body,
}

impl Drop for OperationBody {
    #[cycle(statement)]
    fn drop(self) {
        let OperationBody {
            kind,
            at: _,
            name,
            formals,
            declarations,
            body,
        } = self;
        drop(kind);
        drop(name);
        drop(formals);
        drop(declarations);
        drop(body);
    }
}

/// Of which operation a body is (RM 9.4(8)).
pub enum OperationKind {
    /// Of an entry with this barrier (RM 9.5.2(7)).
    Entry(Expression),
    Procedure,
    /// Of a function whose value has this subtype.
    Function(Ident),
}

impl Drop for OperationKind {
    fn drop(self) {
        match self {
            OperationKind::Entry(barrier) => drop(barrier),
            OperationKind::Procedure => {}
            OperationKind::Function(subtype) => drop(subtype),
        }
    }
}

/// A statement (RM 5.1).
#[cycle(statement)]
pub enum Statement {
    /// A null statement, and where it stands.
    Null(Pos),
    Assign(Name, Expression),
    /// What is called; the arguments are those of the name.
    Call(Name),
    If(Box<IfStatement>),
    Loop(Box<LoopStatement>),
    Block(Box<BlockStatement>),
    /// Where `exit` stands, the name of the loop that is left, and the condition (RM 5.7).
    Exit(Pos, Option<Ident>, Option<Expression>),
    /// Where `return` stands, and the value that is returned, if there is one (RM 6.5).
    Return(Pos, Option<Expression>),
    /// Where `raise` stands, and the exception; none is named where one is raised again (RM 11.3).
    Raise(Pos, Option<Ident>),
    Accept(Box<AcceptStatement>),
    Delay(Box<Delay>),
    Select(Box<SelectStatement>),
    /// A timed or a conditional entry call.
    SelectCall(Box<SelectedCall>),
    Abort(Box<AbortStatement>),
    /// Where `requeue` stands, the entry at which the call is made again, and whether `with abort` stands there (RM 9.5.4).
    Requeue(Pos, Box<Name>, bool),
}

impl Drop for Statement {
    #[cycle(statement)]
    fn drop(self) {
        match self {
            Statement::Null(_) => {}
            Statement::Assign(name, value) => {
                drop(name);
                drop(value);
            }
            Statement::Call(name) => drop(name),
            Statement::If(statement) => drop(statement),
            Statement::Loop(statement) => drop(statement),
            Statement::Block(statement) => drop(statement),
            Statement::Exit(_, label, condition) => {
                drop(label);
                drop(condition);
            }
            Statement::Return(_, value) => drop(value),
            Statement::Raise(_, exception) => drop(exception),
            Statement::Accept(statement) => drop(statement),
            Statement::Delay(statement) => drop(statement),
            Statement::Select(statement) => drop(statement),
            Statement::SelectCall(statement) => drop(statement),
            Statement::Abort(statement) => drop(statement),
            Statement::Requeue(_, target, _) => drop(target),
        }
    }
}

/// An abort statement (RM 9.8): where its `abort` stands, and the tasks that it names.
pub struct AbortStatement {
    pub at: Pos,
    pub first: Name,
    pub others: Vec<Name>,
}

impl Drop for AbortStatement {
    fn drop(self) {
        let AbortStatement {
            at: _,
            first,
            others,
        } = self;
        drop(first);
        drop(others);
    }
}

/// An if statement (RM 5.3): what stands behind `if`, what behind each `elsif`, and the statements behind `else`, of which
/// there are none where there is no `else`.
#[cycle(statement)]
pub struct IfStatement {
    pub first: Arm,
    pub others: Vec<Arm>,
    pub otherwise: Vec<Statement>,
}

impl Drop for IfStatement {
    #[cycle(statement)]
    fn drop(self) {
        let IfStatement {
            first,
            others,
            otherwise,
        } = self;
        drop(first);
        drop(others);
        drop(otherwise);
    }
}

/// A condition, where its `if` or `elsif` stands, and the statements behind its `then`.
#[cycle(statement)]
pub struct Arm {
    pub at: Pos,
    pub condition: Expression,
    pub statements: Statements,
}

impl Drop for Arm {
    #[cycle(statement)]
    fn drop(self) {
        let Arm {
            at: _,
            condition,
            statements,
        } = self;
        drop(condition);
        drop(statements);
    }
}

/// A loop statement (RM 5.5): its name, where its first word behind that stands, its statements, the name behind `end loop`,
/// and where its semicolon stands.
#[cycle(statement)]
pub struct LoopStatement {
    pub label: Option<Ident>,
    pub at: Pos,
    pub iteration: Iteration,
    pub statements: Statements,
    pub name: Option<Ident>,
    pub semicolon: Pos,
}

impl Drop for LoopStatement {
    #[cycle(statement)]
    fn drop(self) {
        let LoopStatement {
            label,
            at: _,
            iteration,
            statements,
            name,
            semicolon: _,
        } = self;
        drop(label);
        drop(iteration);
        drop(statements);
        drop(name);
    }
}

/// How often a loop is gone through (RM 5.5(3)).
pub enum Iteration {
    /// There is no iteration scheme.
    Forever,
    /// As long as the condition is true.
    While(Expression),
    /// Once for each value of the parameter.
    For(LoopParameter),
}

impl Drop for Iteration {
    fn drop(self) {
        match self {
            Iteration::Forever => {}
            Iteration::While(condition) => drop(condition),
            Iteration::For(parameter) => drop(parameter),
        }
    }
}

/// The parameter of a for loop (RM 5.5(4)), whether its values come in reverse, and their bounds.
pub struct LoopParameter {
    pub name: Ident,
    pub reverse: bool,
    pub low: Simple,
    pub high: Simple,
}

impl Drop for LoopParameter {
    fn drop(self) {
        let LoopParameter {
            name,
            reverse: _,
            low,
            high,
        } = self;
        drop(name);
        drop(low);
        drop(high);
    }
}

/// A block statement (RM 5.6): its name, where its first word behind that stands, whether that is `declare`, and the
/// declarations behind it.
#[cycle(statement)]
pub struct BlockStatement {
    pub label: Option<Ident>,
    pub at: Pos,
    pub declare: bool,
    pub declarations: Vec<Declaration>,
    pub body: Body,
}

impl Drop for BlockStatement {
    #[cycle(statement)]
    fn drop(self) {
        let BlockStatement {
            label,
            at: _,
            declare: _,
            declarations,
            body,
        } = self;
        drop(label);
        drop(declarations);
        drop(body);
    }
}

/// An accept statement (RM 9.5.2(3)): where its `accept` stands, its entry, its formal parameters, and what is done, if anything
/// is, with `do` in place of `begin`.
#[cycle(statement)]
pub struct AcceptStatement {
    pub at: Pos,
    pub name: Ident,
    pub formals: Vec<Formal>,
    pub doing: Option<Box<Body>>,
}

impl Drop for AcceptStatement {
    #[cycle(statement)]
    fn drop(self) {
        let AcceptStatement {
            at: _,
            name,
            formals,
            doing,
        } = self;
        drop(name);
        drop(formals);
        drop(doing);
    }
}

/// A delay statement (RM 9.6), and where its `delay` stands.
pub enum Delay {
    Seconds(Pos, Real),
    /// Duration, which stands there, of an expression.
    Duration(Pos, Pos, Expression),
}

impl Drop for Delay {
    fn drop(self) {
        match self {
            Delay::Seconds(_, _) => {}
            Delay::Duration(_, _, value) => drop(value),
        }
    }
}

/// A selective accept (RM 9.7.1): where its `select` stands, its alternatives, and the statements behind `else`, of which there
/// are none where there is no `else`.
#[cycle(statement)]
pub struct SelectStatement {
    pub at: Pos,
    pub first: Guarded,
    pub others: Vec<Guarded>,
    pub otherwise: Vec<Statement>,
}

impl Drop for SelectStatement {
    #[cycle(statement)]
    fn drop(self) {
        let SelectStatement {
            at: _,
            first,
            others,
            otherwise,
        } = self;
        drop(first);
        drop(others);
        drop(otherwise);
    }
}

/// An alternative behind its guard, if it has one (RM 9.7.1(2)).
#[cycle(statement)]
pub struct Guarded {
    pub guard: Option<Expression>,
    pub alternative: Alternative,
}

impl Drop for Guarded {
    #[cycle(statement)]
    fn drop(self) {
        let Guarded { guard, alternative } = self;
        drop(guard);
        drop(alternative);
    }
}

/// What is waited for, and the statements behind it (RM 9.7.1(3)).
#[cycle(statement)]
pub enum Alternative {
    Accept(AcceptStatement, Vec<Statement>),
    Delay(Delay, Vec<Statement>),
    Terminate,
}

impl Drop for Alternative {
    #[cycle(statement)]
    fn drop(self) {
        match self {
            Alternative::Accept(accept, behind) => {
                drop(accept);
                drop(behind);
            }
            Alternative::Delay(delay, behind) => {
                drop(delay);
                drop(behind);
            }
            Alternative::Terminate => {}
        }
    }
}

/// A timed or a conditional entry call (RM 9.7.2, 9.7.3): where its `select` stands, the call, the statements behind it, and what
/// is done in place of it.
#[cycle(statement)]
pub struct SelectedCall {
    pub at: Pos,
    pub call: Name,
    pub behind: Vec<Statement>,
    pub otherwise: Otherwise,
}

impl Drop for SelectedCall {
    #[cycle(statement)]
    fn drop(self) {
        let SelectedCall {
            at: _,
            call,
            behind,
            otherwise,
        } = self;
        drop(call);
        drop(behind);
        drop(otherwise);
    }
}

/// What is done in place of an entry call: statements behind a delay, or at once.
#[cycle(statement)]
pub enum Otherwise {
    Delay(Delay, Vec<Statement>),
    Else(Statements),
}

impl Drop for Otherwise {
    #[cycle(statement)]
    fn drop(self) {
        match self {
            Otherwise::Delay(delay, behind) => {
                drop(delay);
                drop(behind);
            }
            Otherwise::Else(statements) => drop(statements),
        }
    }
}

/// A sequence of statements (RM 5.1(2)): the first, and those behind it.
// The first lies in a box, since the prover lays out in each function all that lies in a value and in no box.
#[derive(Drop)]
#[cycle(statement)]
pub struct Statements {
    pub first: Box<Statement>,
    pub others: Vec<Statement>,
}

/// A sequence of statements with handlers (RM 11.2(2)): where its `begin` and its `end` stand, the name behind `end`, and where
/// the semicolon stands.
#[cycle(statement)]
pub struct Body {
    pub begin: Pos,
    pub statements: Statements,
    pub handlers: Vec<Handler>,
    pub end: Pos,
    pub name: Option<Ident>,
    pub semicolon: Pos,
}

impl Drop for Body {
    #[cycle(statement)]
    fn drop(self) {
        let Body {
            begin: _,
            statements,
            handlers,
            end: _,
            name,
            semicolon: _,
        } = self;
        drop(statements);
        drop(handlers);
        drop(name);
    }
}

/// An exception handler (RM 11.2(3)): for what it is, and its statements.
#[cycle(statement)]
pub struct Handler {
    pub choices: Choices,
    pub statements: Statements,
}

impl Drop for Handler {
    #[cycle(statement)]
    fn drop(self) {
        let Handler {
            choices,
            statements,
        } = self;
        drop(choices);
        drop(statements);
    }
}

/// The exceptions for which a handler is (RM 11.2(5)).
pub enum Choices {
    /// These.
    Named(Identifiers),
    /// All that no handler before it names, and where `others` stands.
    Others(Pos),
}

impl Drop for Choices {
    fn drop(self) {
        match self {
            Choices::Named(names) => drop(names),
            Choices::Others(_) => {}
        }
    }
}

/// A context clause for Ada.Text_IO, and where it begins.
#[derive(Clone, Copy)]
pub enum Context {
    /// A with clause (RM 10.1.2).
    With(Pos),
    /// A use clause (RM 8.4).
    Use(Pos),
}

/// A program: its main procedure, and the context clauses before it (RM 10.1.1).
pub struct Unit {
    pub context: Vec<Context>,
    /// Where its `procedure` stands.
    pub at: Pos,
    pub name: Ident,
    pub declarations: Vec<Declaration>,
    pub body: Body,
}

impl Drop for Unit {
    fn drop(self) {
        let Unit {
            context,
            at: _,
            name,
            declarations,
            body,
        } = self;
        drop(context);
        drop(name);
        drop(declarations);
        drop(body);
    }
}
