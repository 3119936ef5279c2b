// Declarations and statements of the parts that were read.
//
// None of these functions is inlined: what they have by value does not stand in the stack frames of
// statements that lie in one another.

ghost use Rattle.std.specs.Prelude.{◌≡◌, ◌++◌, ◌∷◌, [], map, IfOk, Some};
ghost use Rattle.aud_syntax.specs.Plain as m;
ghost use Rattle.aud_syntax.specs.Ties.View.{plain_name, plain_expression, plain_statement, plain_statements, plain_others, plain_iteration, arm_list, plain_choices, handler_list, plain_body, plain_done, plain_accept, plain_formal, plain_declaration, plain_declarations, plain_names};
ghost use Rattle.aud_grammar.specs.Actions.{begin_of};
ghost use Rattle.aud_parse.specs.Ties.Parts.{assigned_or_called, else_statements, iteration_of, begins_at, declared_in, is_declared, declares_at};

use crate::scheme::Scheme;
use aud_syntax::tree::{
    AbortStatement, AcceptStatement, Arm, BlockStatement, Body, Choices, Declaration, Expression,
    Formal, Handler, Ident, IfStatement, Iteration, LoopStatement, Name, ProcedureDeclaration,
    Statement, Statements, TaskBody,
};
use aud_text::place::Pos;
use std::alloc::{AllocError, Global};

/// A condition, and the statements that are for it.
pub type Branch = (Box<Expression>, Box<Statements>);

/// The name behind `end`, if there is one, and where the semicolon stands.
pub type End = (Option<Ident>, Pos);

/// The declarations of a block behind `declare`, and where that stands.
pub type Declare = (Pos, Vec<Declaration>);

/// A name, and the formal parameters behind it.
pub type Specification = (Ident, Vec<Formal>);

/// A tree in a box. It is of any type, so what drops it where memory is refused is one call.
#[inline(never)]
pub fn boxed<T: Drop>(alloc: Global, tree: T) -> Result<Box<T>, AllocError>
    ensures { IfOk result (λ b. b.value ≡ tree) }
{
    Ok(Box::new(alloc, tree)?)
}

/// A list with one tree more.
#[inline(never)]
pub fn add<T: Drop>(all: Vec<T>, next: Box<T>) -> Result<Vec<T>, AllocError>
    ensures { IfOk result (λ v. v.items ≡ all.items ++ next.value ∷ []) }
{
    let mut all = all;
    all.push(Box::into_inner(next))?;
    Ok(all)
}

/// A condition and its statements, as a branch of an if statement.
#[inline(never)]
pub fn arm_of(alloc: Global, at: Pos, parts: Branch) -> Result<Box<Arm>, AllocError>
    ensures { IfOk result (λ b. b.value ≡
        record { at = at; condition = parts.0.value; statements = parts.1.value }) }
{
    let (condition, statements) = parts;
    let arm = Arm {
        at,
        condition: Box::into_inner(condition),
        statements: Box::into_inner(statements),
    };
    boxed(alloc, arm)
}

/// A statement, and those behind it.
#[inline(never)]
pub fn in_order(
    alloc: Global,
    first: Box<Statement>,
    others: Vec<Statement>,
) -> Result<Box<Statements>, AllocError>
    ensures { IfOk result (λ b. b.value ≡ record { first = first; others = others }) }
{
    boxed(alloc, Statements { first, others })
}

/// An assignment to the name, or a call of it where there is no value (RM 5.2, 6.4).
#[inline(never)]
pub fn assign_or_call(
    alloc: Global,
    name: Name,
    value: Option<Expression>,
) -> Result<Box<Statement>, AllocError>
    ensures { IfOk result (λ b. plain_statement b.value ≡
        assigned_or_called (plain_name name) value) }
{
    let Some(value) = value else {
        return Ok(boxed(alloc, Statement::Call(name))?);
    };
    Ok(boxed(alloc, Statement::Assign(name, value))?)
}

/// An abort statement (RM 9.8).
#[inline(never)]
pub fn made_abort(
    alloc: Global,
    at: Pos,
    first: Box<Name>,
    others: Vec<Name>,
) -> Result<Box<Statement>, AllocError>
    ensures { IfOk result (λ b. plain_statement b.value ≡
        m.abort at (plain_name first.value) (plain_names others.items)) }
{
    let first = Box::into_inner(first);
    let statement = boxed(alloc, AbortStatement { at, first, others })?;
    boxed(alloc, Statement::Abort(statement))
}

/// The statements of an else part, of which there are none where it is missing.
pub fn else_part(
    alloc: Global,
    otherwise: Option<Box<Statements>>,
) -> Result<Vec<Statement>, AllocError>
    ensures { IfOk result (λ v. v.items ≡ else_statements otherwise) }
{
    let Some(inner) = otherwise else {
        return Ok(Vec::new(alloc));
    };
    let Statements { first, mut others } = Box::into_inner(inner);
    others.insert(0, Box::into_inner(first))?;
    Ok(others)
}

/// An if statement (RM 5.3).
#[inline(never)]
pub fn made_if(
    alloc: Global,
    at: Pos,
    first: Branch,
    others: Vec<Arm>,
    otherwise: Option<Box<Statements>>,
) -> Result<Box<Statement>, AllocError>
    ensures { IfOk result (λ b. plain_statement b.value ≡
        m.if_then at (plain_expression first.0.value) (plain_statements first.1.value)
        (arm_list others.items) (plain_others (else_statements otherwise))) }
{
    let otherwise = else_part(alloc, otherwise)?;
    let arm = arm_of(alloc, at, first)?;
    let first = Box::into_inner(arm);
    let statement = boxed(
        alloc,
        IfStatement {
            first,
            others,
            otherwise,
        },
    )?;
    boxed(alloc, Statement::If(statement))
}

// Where a loop begins: at its iteration scheme, or at `loop`.
fn begins_at(scheme: &Option<Scheme>, begin: Pos) -> Pos
    ensures { result ≡ begins_at scheme.now begin }
{
    match scheme {
        None => begin,
        Some(found) => found.0,
    }
}

// How often a loop is gone through.
fn iteration_of(scheme: Option<Scheme>) -> Iteration
    ensures { plain_iteration result ≡ iteration_of scheme }
{
    match scheme {
        None => Iteration::Forever,
        Some((_, iteration)) => Box::into_inner(iteration),
    }
}

/// A loop statement (RM 5.5).
#[inline(never)]
pub fn made_loop(
    alloc: Global,
    label: Option<Ident>,
    scheme: Option<Scheme>,
    begin: Pos,
    inner: Box<Statements>,
    end: End,
) -> Result<Box<Statement>, AllocError>
    ensures { IfOk result (λ b. plain_statement b.value ≡
        m.loop label (begins_at scheme begin) (iteration_of scheme)
        (plain_statements inner.value) end.0 end.1) }
{
    let at = begins_at(&scheme, begin);
    let iteration = iteration_of(scheme);
    let statements = Box::into_inner(inner);
    let (name, semicolon) = end;
    let statement = boxed(
        alloc,
        LoopStatement {
            label,
            at,
            iteration,
            statements,
            name,
            semicolon,
        },
    )?;
    boxed(alloc, Statement::Loop(statement))
}

/// A handler of its choices and its statements (RM 11.2(3)).
#[inline(never)]
pub fn handler_of(
    alloc: Global,
    choices: Box<Choices>,
    inner: Box<Statements>,
) -> Result<Box<Handler>, AllocError>
    ensures { IfOk result (λ b. b.value ≡
        record { choices = choices.value; statements = inner.value }) }
{
    let handler = Handler {
        choices: Box::into_inner(choices),
        statements: Box::into_inner(inner),
    };
    boxed(alloc, handler)
}

/// Statements with handlers, between `begin` and `end` (RM 11.2).
#[inline(never)]
pub fn made_body(
    alloc: Global,
    begin: Pos,
    parts: (Box<Statements>, Vec<Handler>),
    end: Pos,
    last: End,
) -> Result<Box<Body>, AllocError>
    ensures { IfOk result (λ b. plain_body b.value ≡
        m.body begin (plain_statements parts.0.value) (handler_list parts.1.items) end last.0
        last.1) }
{
    let (inner, handlers) = parts;
    let (name, semicolon) = last;
    let statements = Box::into_inner(inner);
    boxed(
        alloc,
        Body {
            begin,
            statements,
            handlers,
            end,
            name,
            semicolon,
        },
    )
}

// Where a block begins: at `declare`, or at `begin`.
fn declares_at(declare: &Option<Declare>, begin: Pos) -> Pos
    ensures { result ≡ declares_at declare.now begin }
{
    match declare {
        None => begin,
        Some(found) => found.0,
    }
}

// Whether a block begins with `declare`.
fn is_declared(declare: &Option<Declare>) -> bool
    ensures { result ≡ is_declared declare.now }
{
    match declare {
        None => false,
        Some(_) => true,
    }
}

// The declarations of a block.
fn declared_in(alloc: Global, declare: Option<Declare>) -> Vec<Declaration>
    ensures { plain_declarations result.items ≡ declared_in declare }
{
    match declare {
        None => Vec::new(alloc),
        Some((_, all)) => all,
    }
}

/// A block statement (RM 5.6).
#[inline(never)]
pub fn made_block(
    alloc: Global,
    label: Option<Ident>,
    declare: Option<Declare>,
    inner: Box<Body>,
) -> Result<Box<Statement>, AllocError>
    ensures { IfOk result (λ b. plain_statement b.value ≡
        m.block label (declares_at declare (begin_of (plain_body inner.value)))
        (is_declared declare) (declared_in declare) (plain_body inner.value)) }
{
    let body = Box::into_inner(inner);
    let at = declares_at(&declare, body.begin);
    let is_declared = is_declared(&declare);
    let declarations = declared_in(alloc, declare);
    let statement = boxed(
        alloc,
        BlockStatement {
            label,
            at,
            declare: is_declared,
            declarations,
            body,
        },
    )?;
    boxed(alloc, Statement::Block(statement))
}

/// A procedure and its body (RM 6.3).
#[inline(never)]
pub fn made_procedure(
    alloc: Global,
    at: Pos,
    specification: Specification,
    declarations: Vec<Declaration>,
    inner: Box<Body>,
) -> Result<Box<Declaration>, AllocError>
    ensures { IfOk result (λ b. plain_declaration b.value ≡
        m.procedure at specification.0 (map plain_formal specification.1.items)
        (plain_declarations declarations.items) (plain_body inner.value)) }
{
    let (name, formals) = specification;
    let body = Box::into_inner(inner);
    let procedure = boxed(
        alloc,
        ProcedureDeclaration {
            at,
            name,
            formals,
            declarations,
            body,
        },
    )?;
    boxed(alloc, Declaration::Procedure(procedure))
}

/// An accept statement (RM 9.5.2(3)).
#[inline(never)]
pub fn made_accept(
    alloc: Global,
    at: Pos,
    head: Specification,
    doing: Option<Box<Body>>,
) -> Result<Box<AcceptStatement>, AllocError>
    ensures { IfOk result (λ b. plain_accept b.value ≡
        m.accept at head.0 (map plain_formal head.1.items) (plain_done doing)) }
{
    let (name, formals) = head;
    boxed(
        alloc,
        AcceptStatement {
            at,
            name,
            formals,
            doing,
        },
    )
}

/// The body of a task (RM 9.1(6)).
#[inline(never)]
pub fn made_task_body(
    alloc: Global,
    at: Pos,
    name: Ident,
    declarations: Vec<Declaration>,
    inner: Box<Body>,
) -> Result<Box<Declaration>, AllocError>
    ensures { IfOk result (λ b. plain_declaration b.value ≡
        m.task_body at name (plain_declarations declarations.items) (plain_body inner.value)) }
{
    let body = Box::into_inner(inner);
    let task = boxed(
        alloc,
        TaskBody {
            at,
            name,
            declarations,
            body,
        },
    )?;
    boxed(alloc, Declaration::TaskBody(task))
}
