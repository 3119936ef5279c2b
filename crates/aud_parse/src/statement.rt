// Declarations (RM 3.1), statements (RM 5.1) and bodies (RM 11.2).
//
// They lie in one another, so what is called at each level has boxes in its stack frame, and no
// trees. What is made of them is made by functions that are not inlined (`crate::build`).

#![tactic(auto, using(aud_cursor::proofs::Passing::turns_over))]

ghost use Rattle.std.specs.Prelude.{◌≡◌, ◌∷◌, [], ℕ, false};
ghost use Rattle.aud_lex.specs.declared.token.Kind.TheVariants as kind;
ghost use Rattle.aud_grammar.specs.Grammar as g;
ghost use Rattle.aud_grammar.specs.Grammar.{N, T, P, Opt, Rep};
ghost use Rattle.aud_grammar.specs.First.{next_in};
ghost use Rattle.aud_grammar.specs.Actions.{an_ident, token, made};
ghost use Rattle.aud_cursor.specs.Ties.Items.{vec_item, opt_item, boxed_item};
ghost use Rattle.aud_parse_expr.specs.Ties.Items.{expression_item};
ghost use Rattle.aud_parse.specs.Ties.Items.{assigned_item, rest_item, scheme_item, statement_item, boxed_statement_item, boxed_statements_item, arm_item, handler_item, boxed_handler_item, boxed_body_item, doing_item, boxed_accept_item, boxed_alternative_item, else_item, last_item, further_item, boxed_otherwise_item, guarded_items, declaration_item, boxed_declaration_item, declare_item, operation_body_item, boxed_operation_body_item};
ghost use Rattle.aud_parse.specs.Ties.Alternatives.{alternative_of, remaining, followed, MayComplete};
ghost use Rattle.aud_parse.specs.Ties.Parts.{behind_label};
ghost use Rattle.aud_cursor.specs.Ties.Reads.{Reads, MayRead, ReadsFlat, Completes, ReadsAll};

use crate::abort::abort;
use crate::build::{
    Branch, Declare, add, arm_of, assign_or_call, boxed, handler_of, in_order, made_accept,
    made_block, made_body, made_if, made_loop, made_procedure, made_task_body,
};
use crate::build_protected::made_operation_body;
use crate::build_select::{
    accept_alternative_of, accepting_of, delay_alternative_of, guarded_of, made_select,
    made_select_call, or_delay_of, or_else_of,
};
use crate::declaration::named_declaration;
use crate::delay::{delay, delay_statement};
use crate::formals::{head, specification};
use crate::operation::OPERATIONS;
use crate::operation_head::operation_head;
use crate::protected::{end_protected_body, protected_declaration};
use crate::requeue::requeue;
use crate::scheme::{Scheme, opt_scheme};
use crate::select::{Form, Seen, first_form, next_form, opt_guard, terminate_alternative};
use crate::task::task_declaration;
use aud_cursor::behind::{both, ended};
use aud_cursor::choice_list::choices;
use aud_cursor::cursor::{Fault, Read, Rest, accept, deeper, is, is_one_of, token, word};
use aud_cursor::leaf::{ident, opt_ident};
use aud_lex::token::{Kind, Token};
use aud_parse_expr::expression::{expression, name, opt_args, opt_expression, opt_value, selected};
use aud_syntax::tree::{
    AcceptStatement, Alternative, Arm, Body, Declaration, Expression, Guarded, Handler, Ident,
    Name, NamePart, OperationBody, Otherwise, Statement, Statements,
};
use std::alloc::Global;

const DECLARATIONS: [Kind; 4] = [
    Kind::Identifier,
    Kind::Procedure,
    Kind::Task,
    Kind::Protected,
];

const STATEMENTS: [Kind; 16] = [
    Kind::Null,
    Kind::Identifier,
    Kind::If,
    Kind::While,
    Kind::For,
    Kind::Loop,
    Kind::Declare,
    Kind::Begin,
    Kind::Exit,
    Kind::Return,
    Kind::Raise,
    Kind::Accept,
    Kind::Delay,
    Kind::Select,
    Kind::Abort,
    Kind::Requeue,
];

const LOOPS: [Kind; 3] = [Kind::While, Kind::For, Kind::Loop];

const BLOCKS: [Kind; 2] = [Kind::Declare, Kind::Begin];

/// A null statement (RM 5.1(6)).
#[inline(never)]
fn null(alloc: Global, start: Rest) -> Read<Box<Statement>>
    ensures { ReadsFlat boxed_statement_item (N g.NullStatement) start.entry result }
{
    let (t, rest) = token(start, Kind::Null)?;
    let statement = boxed(alloc, Statement::Null(t.at()))?;
    ended(statement, rest, Kind::Semicolon)
}

/// What is assigned, behind the name (RM 5.2).
fn assignment(alloc: Global, start: Rest, room: u32) -> Read<Expression>
    ensures { Reads assigned_item (N g.Assignment) room start.entry result }
{
    let rest = word(start, Kind::Becomes)?;
    let (value, rest) = expression(alloc, rest, room)?;
    ended(Box::into_inner(value), rest, Kind::Semicolon)
}

/// What is assigned to a name; nothing, where it is called (RM 5.2, 6.4).
fn statement_rest(alloc: Global, start: Rest, room: u32) -> Read<Option<Expression>>
    ensures { Reads rest_item (N g.StatementRest) room start.entry result }
{
    if is(start, Kind::Becomes) {
        let (value, rest) = assignment(alloc, start, room)?;
        return Ok((Some(value), rest));
    }
    let rest = word(start, Kind::Semicolon)?;
    Ok((None, rest))
}

/// An assignment or a call, behind the first identifier of its name (RM 5.2, 6.4).
#[inline(never)]
fn named(alloc: Global, ident: Ident, start: Rest, room: u32) -> Read<Box<Statement>>
    ensures { Completes (λ es. made g.NameStatement (an_ident ident ∷ es))
        boxed_statement_item (N g.NamedStatement ∷ []) room start.entry result }
{
    let (args, rest) = opt_args(alloc, start, room)?;
    let (others, rest) = selected(alloc, rest, room)?;
    let first = NamePart { ident, args };
    let name = Name { first, others };
    let ((name, value), rest) = both(name, statement_rest(alloc, rest, room))?;
    let statement = assign_or_call(alloc, name, value)?;
    Ok((statement, rest))
}

/// An exit statement (RM 5.7).
#[inline(never)]
fn exit(alloc: Global, start: Rest, room: u32) -> Read<Box<Statement>>
    ensures { Reads boxed_statement_item (N g.Exit) room start.entry result }
{
    let (t, rest) = token(start, Kind::Exit)?;
    let (label, rest) = opt_ident(alloc, rest)?;
    let (condition, rest) = opt_value(alloc, rest, room, Kind::When)?;
    let statement = boxed(alloc, Statement::Exit(t.at(), label, condition))?;
    ended(statement, rest, Kind::Semicolon)
}

/// A return statement (RM 6.5).
#[inline(never)]
fn return_statement(alloc: Global, start: Rest, room: u32) -> Read<Box<Statement>>
    ensures { Reads boxed_statement_item (N g.Return) room start.entry result }
{
    let (t, rest) = token(start, Kind::Return)?;
    let (value, rest) = opt_expression(alloc, rest, room)?;
    let statement = boxed(alloc, Statement::Return(t.at(), value))?;
    ended(statement, rest, Kind::Semicolon)
}

/// A raise statement (RM 11.3).
#[inline(never)]
fn raise(alloc: Global, start: Rest) -> Read<Box<Statement>>
    ensures { ReadsFlat boxed_statement_item (N g.Raise) start.entry result }
{
    let (t, rest) = token(start, Kind::Raise)?;
    let (exception, rest) = opt_ident(alloc, rest)?;
    let statement = boxed(alloc, Statement::Raise(t.at(), exception))?;
    ended(statement, rest, Kind::Semicolon)
}

/// A procedure and its body (RM 6.3).
#[cycle(statement)]
#[inline(never)]
fn procedure(alloc: Global, start: Rest, room: u32) -> Read<Box<Declaration>>
    ensures { Reads boxed_declaration_item (N g.Procedure) room start.entry result }
{
    let (begin, rest) = token(start, Kind::Procedure)?;
    let (parts, rest) = specification(alloc, rest, room)?;
    let (declarations, rest) = opt_declarations(alloc, rest, room)?;
    let (body, rest) = body(alloc, rest, room)?;
    let declaration = made_procedure(alloc, begin.at(), parts, declarations, body)?;
    Ok((declaration, rest))
}

/// The name behind `body`, and the `is` behind it.
#[inline(never)]
fn body_name(alloc: Global, start: Rest) -> Read<Ident>
    ensures { (room : ℕ) → ReadsAll (λ name. an_ident name ∷ [])
        (T kind.Body ∷ N g.Identifier ∷ T kind.Is ∷ []) room start.entry result }
{
    let rest = word(start, Kind::Body)?;
    let (name, rest) = ident(alloc, rest)?;
    ended(name, rest, Kind::Is)
}

/// A task or a task type, or the body of one (RM 9.1).
#[cycle(statement)]
#[inline(never)]
fn task(alloc: Global, start: Rest, room: u32) -> Read<Box<Declaration>>
    ensures { Reads boxed_declaration_item (N g.Task) room start.entry result }
{
    let (begin, rest) = token(start, Kind::Task)?;
    if !is(rest, Kind::Body) {
        return task_declaration(alloc, begin, rest, room);
    }
    let (name, rest) = body_name(alloc, rest)?;
    let (declarations, rest) = opt_declarations(alloc, rest, room)?;
    let (body, rest) = body(alloc, rest, room)?;
    let declaration = made_task_body(alloc, begin.at(), name, declarations, body)?;
    Ok((declaration, rest))
}

/// The body of an operation (RM 9.4(8)).
#[cycle(statement)]
#[inline(never)]
fn operation_body(alloc: Global, start: Rest, room: u32) -> Read<Box<OperationBody>>
    ensures { Reads boxed_operation_body_item (N g.OperationBody) room start.entry result }
{
    let (head, rest) = operation_head(alloc, start, room)?;
    let (declarations, rest) = opt_declarations(alloc, rest, room)?;
    let (body, rest) = body(alloc, rest, room)?;
    let operation = made_operation_body(alloc, head, declarations, body)?;
    Ok((operation, rest))
}

/// The bodies of operations.
#[cycle(statement)]
fn operation_bodies(alloc: Global, start: Rest, room: u32) -> Read<Vec<OperationBody>>
    ensures { MayRead (vec_item operation_body_item) (Rep g.OperationBody) room start.entry result }
{
    let mut all = Vec::new(alloc);
    let mut rest = start;
    'turns: while is_one_of(rest, &OPERATIONS) {
        let (next, after) = operation_body(alloc, rest, room)?;
        all = add(all, next)?;
        rest = after;
    }
    Ok((all, rest))
}

/// A protected object, or the body of one (RM 9.4).
#[cycle(statement)]
#[inline(never)]
fn protected(alloc: Global, start: Rest, room: u32) -> Read<Box<Declaration>>
    ensures { Reads boxed_declaration_item (N g.Protected) room start.entry result }
{
    let (begin, rest) = token(start, Kind::Protected)?;
    if !is(rest, Kind::Body) {
        return protected_declaration(alloc, begin, rest, room);
    }
    let (name, rest) = body_name(alloc, rest)?;
    let (bodies, rest) = operation_bodies(alloc, rest, room)?;
    end_protected_body(alloc, (name, bodies), begin, rest)
}

/// A declaration (RM 3.1).
#[cycle(statement)]
fn declaration(alloc: Global, start: Rest, room: u32) -> Read<Box<Declaration>>
    ensures { Reads boxed_declaration_item (N g.Declaration) room start.entry result }
{
    if is(start, Kind::Identifier) {
        return named_declaration(alloc, start, room);
    }
    if is(start, Kind::Procedure) {
        return procedure(alloc, start, room);
    }
    if is(start, Kind::Task) {
        return task(alloc, start, room);
    }
    protected(alloc, start, room)
}

/// Declarations, if there are any, which lie one level deeper (RM 3.11).
#[cycle(statement)]
pub fn opt_declarations(alloc: Global, start: Rest, room: u32) -> Read<Vec<Declaration>>
    ensures { MayRead (vec_item declaration_item) (Opt g.Declarations) room start.entry result }
{
    let mut all = Vec::new(alloc);
    if !is_one_of(start, &DECLARATIONS) {
        return Ok((all, start));
    }
    let inside = deeper(start, room, true)?;
    let mut rest = start;
    'turns: loop {
        let (next, after) = declaration(alloc, rest, inside)?;
        all = add(all, next)?;
        if !is_one_of(after, &DECLARATIONS) {
            return Ok((all, after));
        }
        rest = after;
    }
}

/// The declarations of a block behind `declare`, if that comes next (RM 5.6).
#[cycle(statement)]
#[inline(never)]
fn opt_declare(alloc: Global, start: Rest, room: u32) -> Read<Option<Declare>>
    ensures { MayRead (opt_item declare_item) (Opt g.Declare) room start.entry result }
{
    if let Some((t, behind)) = accept(start, Kind::Declare) {
        let (all, rest) = opt_declarations(alloc, behind, room)?;
        return Ok((Some((t.at(), all)), rest));
    }
    Ok((None, start))
}

/// What ends a loop, and the loop of all its parts.
#[inline(never)]
fn end_loop<'a>(
    alloc: Global,
    parts: (Option<Ident>, Option<Scheme>, Box<Statements>),
    begin: &Token,
    start: Rest<'a>,
) -> Read<'a, Box<Statement>>
    ensures { (room : ℕ) → Completes
        (λ es. behind_label parts.0 (made g.Loop (opt_item scheme_item parts.1
        ∷ token begin.now ∷ boxed_statements_item parts.2 ∷ es)))
        boxed_statement_item
        (T kind.End ∷ T kind.Loop ∷ Opt g.Identifier ∷ P kind.Semicolon ∷ [])
        room start.entry result }
{
    let (parts, rest) = ended(parts, start, Kind::End)?;
    let (parts, rest) = ended(parts, rest, Kind::Loop)?;
    let ((parts, name), rest) = both(parts, opt_ident(alloc, rest))?;
    let (((label, scheme, inner), last), rest) = both(parts, token(rest, Kind::Semicolon))?;
    let statement = made_loop(alloc, label, scheme, begin.at(), inner, (name, last.at()))?;
    Ok((statement, rest))
}

/// A loop statement behind its name, if it has one (RM 5.5).
#[cycle(statement)]
#[inline(never)]
fn loop_statement(
    alloc: Global,
    label: Option<Ident>,
    start: Rest,
    room: u32,
) -> Read<Box<Statement>>
    ensures { Completes (λ es. behind_label label es) boxed_statement_item (N g.Loop ∷ [])
        room start.entry result }
{
    let (scheme, rest) = opt_scheme(alloc, start, room)?;
    let (begin, rest) = token(rest, Kind::Loop)?;
    let (inner, rest) = statements(alloc, rest, room)?;
    end_loop(alloc, (label, scheme, inner), begin, rest)
}

/// A block statement behind its name, if it has one (RM 5.6).
#[cycle(statement)]
#[inline(never)]
fn block(alloc: Global, label: Option<Ident>, start: Rest, room: u32) -> Read<Box<Statement>>
    ensures { Completes (λ es. behind_label label es) boxed_statement_item (N g.Block ∷ [])
        room start.entry result }
{
    let (declare, rest) = opt_declare(alloc, start, room)?;
    let (body, rest) = body(alloc, rest, room)?;
    let statement = made_block(alloc, label, declare, body)?;
    Ok((statement, rest))
}

/// A statement that begins with a name: the label of a loop or a block (RM 5.5, 5.6), or what is
/// assigned to or called.
#[cycle(statement)]
fn name_statement(alloc: Global, start: Rest, room: u32) -> Read<Box<Statement>>
    ensures { Reads boxed_statement_item (N g.NameStatement) room start.entry result }
{
    let (ident, rest) = ident(alloc, start)?;
    let Some((_, behind)) = accept(rest, Kind::Colon) else {
        return named(alloc, ident, rest, room);
    };
    if is_one_of(behind, &LOOPS) {
        return loop_statement(alloc, Some(ident), behind, room);
    }
    block(alloc, Some(ident), behind, room)
}

/// A condition of an if statement (RM 5.3).
#[inline(never)]
fn condition(alloc: Global, start: Rest, room: u32) -> Read<Box<Expression>>
    ensures { Reads (boxed_item expression_item) (N g.Expression) room start.entry result }
{
    expression(alloc, start, room)
}

/// A condition, and the statements behind `then`.
#[cycle(statement)]
fn guarded(alloc: Global, start: Rest, room: u32) -> Read<Branch>
    ensures { ReadsAll guarded_items
        (N g.Expression ∷ T kind.Then ∷ N g.Statements ∷ []) room start.entry result }
{
    let (condition, rest) = condition(alloc, start, room)?;
    let rest = word(rest, Kind::Then)?;
    let (inner, rest) = statements(alloc, rest, room)?;
    Ok(((condition, inner), rest))
}

/// The further conditions of an if statement, and their statements (RM 5.3).
#[cycle(statement)]
fn elsifs(alloc: Global, start: Rest, room: u32) -> Read<Vec<Arm>>
    ensures { MayRead (vec_item arm_item) (Rep g.Elsif) room start.entry result }
{
    let mut all = Vec::new(alloc);
    let mut rest = start;
    'turns: while let Some((t, behind)) = accept(rest, Kind::Elsif) {
        let (parts, after) = guarded(alloc, behind, room)?;
        let next = arm_of(alloc, t.at(), parts)?;
        all = add(all, next)?;
        rest = after;
    }
    Ok((all, rest))
}

/// The statements behind `else`, if there are any.
#[cycle(statement)]
fn opt_else(alloc: Global, start: Rest, room: u32) -> Read<Option<Box<Statements>>>
    ensures { MayRead (opt_item boxed_statements_item) (Opt g.ElsePart) room start.entry result }
{
    if let Some((_, behind)) = accept(start, Kind::Else) {
        let (inner, rest) = statements(alloc, behind, room)?;
        return Ok((Some(inner), rest));
    }
    Ok((None, start))
}

/// What ends an if statement, and the statement of all its parts.
#[inline(never)]
fn end_if<'a>(
    alloc: Global,
    parts: (Branch, Vec<Arm>, Option<Box<Statements>>),
    begin: &Token,
    start: Rest<'a>,
) -> Read<'a, Box<Statement>>
    ensures { (room : ℕ) → Completes
        (λ es. made g.If (token begin.now ∷ boxed_item expression_item parts.0.0
        ∷ boxed_statements_item parts.0.1 ∷ vec_item arm_item parts.1
        ∷ opt_item boxed_statements_item parts.2 ∷ es))
        boxed_statement_item
        (T kind.End ∷ T kind.If ∷ T kind.Semicolon ∷ [])
        room start.entry result }
{
    let (parts, rest) = ended(parts, start, Kind::End)?;
    let (parts, rest) = ended(parts, rest, Kind::If)?;
    let ((first, others, otherwise), rest) = ended(parts, rest, Kind::Semicolon)?;
    let statement = made_if(alloc, begin.at(), first, others, otherwise)?;
    Ok((statement, rest))
}

/// An if statement (RM 5.3).
#[cycle(statement)]
#[inline(never)]
fn if_statement(alloc: Global, start: Rest, room: u32) -> Read<Box<Statement>>
    ensures { Reads boxed_statement_item (N g.If) room start.entry result }
{
    let (begin, rest) = token(start, Kind::If)?;
    let (first, rest) = guarded(alloc, rest, room)?;
    let (others, rest) = elsifs(alloc, rest, room)?;
    let (otherwise, rest) = opt_else(alloc, rest, room)?;
    end_if(alloc, (first, others, otherwise), begin, rest)
}

/// What is done in an accept statement, if anything is: it stands behind `do` in place of `begin`
/// (RM 9.5.2(3)).
#[cycle(statement)]
fn opt_do(alloc: Global, start: Rest, room: u32) -> Read<Option<Box<Body>>>
    ensures { Reads doing_item (N g.AcceptRest) room start.entry result }
{
    if let Some((begin, behind)) = accept(start, Kind::Do) {
        let (body, rest) = in_body(alloc, begin, behind, room)?;
        return Ok((Some(body), rest));
    }
    let rest = word(start, Kind::Semicolon)?;
    Ok((None, rest))
}

/// An accept statement.
#[cycle(statement)]
#[inline(never)]
fn accept_statement(alloc: Global, start: Rest, room: u32) -> Read<Box<AcceptStatement>>
    ensures { Reads boxed_accept_item (N g.Accept) room start.entry result }
{
    let (begin, rest) = token(start, Kind::Accept)?;
    let (parts, rest) = head(alloc, rest, room)?;
    let (doing, rest) = opt_do(alloc, rest, room)?;
    let statement = made_accept(alloc, begin.at(), parts, doing)?;
    Ok((statement, rest))
}

/// An accept statement, as a statement.
#[cycle(statement)]
fn accepting(alloc: Global, start: Rest, room: u32) -> Read<Box<Statement>>
    ensures { Reads boxed_statement_item (N g.AcceptStatement) room start.entry result }
{
    let (accept, rest) = accept_statement(alloc, start, room)?;
    let statement = accepting_of(alloc, accept)?;
    Ok((statement, rest))
}

/// Statements, if there are any.
#[cycle(statement)]
#[inline(never)]
fn opt_statements(alloc: Global, start: Rest, room: u32) -> Read<Option<Box<Statements>>>
    ensures { MayRead (opt_item boxed_statements_item) (Opt g.Statements) room start.entry result }
{
    if is_one_of(start, &STATEMENTS) {
        let (inner, rest) = statements(alloc, start, room)?;
        return Ok((Some(inner), rest));
    }
    Ok((None, start))
}

/// An accept alternative (RM 9.7.1(5)).
#[cycle(statement)]
#[inline(never)]
fn accept_alternative(alloc: Global, start: Rest, room: u32) -> Read<Box<Alternative>>
    ensures { Reads boxed_alternative_item (N g.AcceptAlternative) room start.entry result }
{
    let (accept, rest) = accept_statement(alloc, start, room)?;
    let (behind, rest) = opt_statements(alloc, rest, room)?;
    let alternative = accept_alternative_of(alloc, accept, behind)?;
    Ok((alternative, rest))
}

/// A delay alternative (RM 9.7.1(6)).
#[cycle(statement)]
#[inline(never)]
fn delay_alternative(alloc: Global, start: Rest, room: u32) -> Read<Box<Alternative>>
    ensures { Reads boxed_alternative_item (N g.DelayAlternative) room start.entry result }
{
    let (delay, rest) = delay(alloc, start, room)?;
    let (behind, rest) = opt_statements(alloc, rest, room)?;
    let alternative = delay_alternative_of(alloc, delay, behind)?;
    Ok((alternative, rest))
}

/// An alternative that begins so.
#[cycle(statement)]
fn alternative(alloc: Global, form: Form, start: Rest, room: u32) -> Read<Box<Alternative>>
    ensures { Reads boxed_alternative_item (N (alternative_of form)) room start.entry result }
{
    match form {
        Form::Accept => accept_alternative(alloc, start, room),
        Form::Delay => delay_alternative(alloc, start, room),
        Form::Terminate => terminate_alternative(alloc, start),
    }
}

/// The statements behind `else`.
#[cycle(statement)]
fn else_part(alloc: Global, start: Rest, room: u32) -> Read<Box<Statements>>
    ensures { Reads boxed_statements_item (N g.ElsePart) room start.entry result }
{
    let rest = word(start, Kind::Else)?;
    statements(alloc, rest, room)
}

/// The statements behind `else` that accepts may end with, if there are any.
#[cycle(statement)]
fn after_accepts(alloc: Global, start: Rest, room: u32) -> Read<Option<Box<Statements>>>
    ensures { next_in (kind.Or ∷ []) start.entry.tokens.now ≡ false →
        MayRead (opt_item else_item) (Opt g.AfterAccept) room start.entry result }
{
    if is(start, Kind::Else) {
        let (inner, rest) = else_part(alloc, start, room)?;
        return Ok((Some(inner), rest));
    }
    Ok((None, start))
}

/// What follows the last alternative: statements behind `else`, where there may be some.
#[cycle(statement)]
fn after_last(alloc: Global, seen: Seen, start: Rest, room: u32) -> Read<Option<Box<Statements>>>
    ensures { next_in (kind.Or ∷ []) start.entry.tokens.now ≡ false →
        MayComplete (followed seen) last_item (remaining seen) room start.entry result }
{
    match seen {
        Seen::Accepts => after_accepts(alloc, start, room),
        Seen::AcceptsAndDelays | Seen::AcceptsAndTerminate => Ok((None, start)),
        Seen::Delays | Seen::Terminate => Err(Fault::Wrong(start)),
    }
}

/// The alternatives behind the first, and the statements behind `else`, if there are any.
#[cycle(statement)]
#[inline(never)]
fn more_alternatives(
    alloc: Global,
    seen: Seen,
    start: Rest,
    room: u32,
) -> Read<(Vec<Guarded>, Option<Box<Statements>>)>
    ensures { MayComplete (followed seen) further_item (remaining seen) room start.entry result }
{
    let mut all = Vec::new(alloc);
    let mut so_far = seen;
    let mut rest = start;
    'turns: while let Some((_, behind)) = accept(rest, Kind::Or) {
        let (guard, behind) = opt_guard(alloc, behind, room)?;
        let (form, next) = next_form(so_far, behind);
        let (one, after) = alternative(alloc, form, behind, room)?;
        let one = guarded_of(alloc, guard, one)?;
        all = add(all, one)?;
        so_far = next;
        rest = after;
    }
    let (otherwise, rest) = after_last(alloc, so_far, rest, room)?;
    Ok(((all, otherwise), rest))
}

/// A selective accept, behind its first word (RM 9.7.1).
#[cycle(statement)]
#[inline(never)]
fn select_accept<'a>(
    alloc: Global,
    begin: &Token,
    start: Rest<'a>,
    room: u32,
) -> Read<'a, Box<Statement>>
    ensures { Completes (λ es. made g.Select (token begin.now ∷ es)) boxed_statement_item
        (N g.AcceptSelect ∷ []) room start.entry result }
{
    let (guard, rest) = opt_guard(alloc, start, room)?;
    let (form, seen) = first_form(rest);
    let (first, rest) = alternative(alloc, form, rest, room)?;
    let first = guarded_of(alloc, guard, first)?;
    let (parts, rest) = more_alternatives(alloc, seen, rest, room)?;
    let (others, otherwise) = parts;
    let statement = made_select(alloc, begin.at(), first, others, otherwise)?;
    Ok((statement, rest))
}

/// What is done in place of an entry call when its time is over (RM 9.7.2).
#[cycle(statement)]
#[inline(never)]
fn or_delay(alloc: Global, start: Rest, room: u32) -> Read<Box<Otherwise>>
    ensures { Reads boxed_otherwise_item (N g.OrDelay) room start.entry result }
{
    let rest = word(start, Kind::Or)?;
    let (delay, rest) = delay(alloc, rest, room)?;
    let (behind, rest) = opt_statements(alloc, rest, room)?;
    let otherwise = or_delay_of(alloc, delay, behind)?;
    Ok((otherwise, rest))
}

/// What is done in place of an entry call: when its time is over, or where it does not begin at once
/// (RM 9.7.3).
#[cycle(statement)]
fn otherwise(alloc: Global, start: Rest, room: u32) -> Read<Box<Otherwise>>
    ensures { Reads boxed_otherwise_item (N g.Otherwise) room start.entry result }
{
    if is(start, Kind::Or) {
        return or_delay(alloc, start, room);
    }
    let (inner, rest) = else_part(alloc, start, room)?;
    let otherwise = or_else_of(alloc, inner)?;
    Ok((otherwise, rest))
}

/// A timed or a conditional entry call, behind its first word (RM 9.7.2, 9.7.3).
#[cycle(statement)]
#[inline(never)]
fn select_call<'a>(
    alloc: Global,
    begin: &Token,
    start: Rest<'a>,
    room: u32,
) -> Read<'a, Box<Statement>>
    ensures { Completes (λ es. made g.Select (token begin.now ∷ es)) boxed_statement_item
        (N g.CallSelect ∷ []) room start.entry result }
{
    let (call, rest) = name(alloc, start, room)?;
    let rest = word(rest, Kind::Semicolon)?;
    let (behind, rest) = opt_statements(alloc, rest, room)?;
    let (other, rest) = otherwise(alloc, rest, room)?;
    let statement = made_select_call(alloc, begin.at(), call, behind, other)?;
    Ok((statement, rest))
}

/// A select statement behind its first word, up to its `end`.
#[cycle(statement)]
fn select_rest<'a>(
    alloc: Global,
    begin: &Token,
    start: Rest<'a>,
    room: u32,
) -> Read<'a, Box<Statement>>
    ensures { Completes (λ es. made g.Select (token begin.now ∷ es)) boxed_statement_item
        (N g.SelectRest ∷ []) room start.entry result }
{
    if is(start, Kind::Identifier) {
        return select_call(alloc, begin, start, room);
    }
    select_accept(alloc, begin, start, room)
}

/// A select statement (RM 9.7).
#[cycle(statement)]
#[inline(never)]
fn select(alloc: Global, start: Rest, room: u32) -> Read<Box<Statement>>
    ensures { Reads boxed_statement_item (N g.Select) room start.entry result }
{
    let (begin, rest) = token(start, Kind::Select)?;
    let (statement, rest) = select_rest(alloc, begin, rest, room)?;
    let (statement, rest) = ended(statement, rest, Kind::End)?;
    let (statement, rest) = ended(statement, rest, Kind::Select)?;
    ended(statement, rest, Kind::Semicolon)
}

/// A statement.
#[cycle(statement)]
fn statement(alloc: Global, start: Rest, room: u32) -> Read<Box<Statement>>
    ensures { Reads boxed_statement_item (N g.Statement) room start.entry result }
{
    if is(start, Kind::Null) {
        return null(alloc, start);
    }
    if is(start, Kind::Identifier) {
        return name_statement(alloc, start, room);
    }
    if is(start, Kind::If) {
        return if_statement(alloc, start, room);
    }
    if is_one_of(start, &LOOPS) {
        return loop_statement(alloc, None, start, room);
    }
    if is_one_of(start, &BLOCKS) {
        return block(alloc, None, start, room);
    }
    if is(start, Kind::Exit) {
        return exit(alloc, start, room);
    }
    if is(start, Kind::Return) {
        return return_statement(alloc, start, room);
    }
    if is(start, Kind::Raise) {
        return raise(alloc, start);
    }
    if is(start, Kind::Accept) {
        return accepting(alloc, start, room);
    }
    if is(start, Kind::Delay) {
        return delay_statement(alloc, start, room);
    }
    if is(start, Kind::Select) {
        return select(alloc, start, room);
    }
    if is(start, Kind::Abort) {
        return abort(alloc, start, room);
    }
    requeue(alloc, start, room)
}

/// The further statements.
#[cycle(statement)]
fn more_statements(alloc: Global, start: Rest, room: u32) -> Read<Vec<Statement>>
    ensures { MayRead (vec_item statement_item) (Rep g.Statement) room start.entry result }
{
    let mut all = Vec::new(alloc);
    let mut rest = start;
    'turns: while is_one_of(rest, &STATEMENTS) {
        let (next, after) = statement(alloc, rest, room)?;
        all = add(all, next)?;
        rest = after;
    }
    Ok((all, rest))
}

/// Statements, at least one, which lie one level deeper.
#[cycle(statement)]
fn statements(alloc: Global, start: Rest, room: u32) -> Read<Box<Statements>>
    ensures { Reads boxed_statements_item (N g.Statements) room start.entry result }
{
    let inside = deeper(start, room, is_one_of(start, &STATEMENTS))?;
    let (first, rest) = statement(alloc, start, inside)?;
    let (others, rest) = more_statements(alloc, rest, inside)?;
    let statements = in_order(alloc, first, others)?;
    Ok((statements, rest))
}

/// A handler of exceptions (RM 11.2(3)).
#[cycle(statement)]
fn handler(alloc: Global, start: Rest, room: u32) -> Read<Box<Handler>>
    ensures { Reads boxed_handler_item (N g.Handler) room start.entry result }
{
    let rest = word(start, Kind::When)?;
    let (choices, rest) = choices(alloc, rest)?;
    let rest = word(rest, Kind::Arrow)?;
    let (inner, rest) = statements(alloc, rest, room)?;
    let handler = handler_of(alloc, choices, inner)?;
    Ok((handler, rest))
}

/// The handlers behind `exception`, if there are any.
#[cycle(statement)]
fn opt_handlers(alloc: Global, start: Rest, room: u32) -> Read<Vec<Handler>>
    ensures { MayRead (vec_item handler_item) (Opt g.Handlers) room start.entry result }
{
    let mut all = Vec::new(alloc);
    let Some((_, behind)) = accept(start, Kind::Exception) else {
        return Ok((all, start));
    };
    let mut rest = behind;
    'turns: loop {
        let (next, after) = handler(alloc, rest, room)?;
        all = add(all, next)?;
        if !is(after, Kind::When) {
            return Ok((all, after));
        }
        rest = after;
    }
}

/// What ends statements with handlers, and these.
#[inline(never)]
fn end_body<'a>(
    alloc: Global,
    parts: (Box<Statements>, Vec<Handler>),
    begin: &Token,
    start: Rest<'a>,
) -> Read<'a, Box<Body>>
    ensures { (room : ℕ) → Completes
        (λ es. made g.Body (token begin.now ∷ boxed_statements_item parts.0
        ∷ vec_item handler_item parts.1 ∷ es))
        boxed_body_item
        (P kind.End ∷ Opt g.Identifier ∷ P kind.Semicolon ∷ [])
        room start.entry result }
{
    let ((parts, end), rest) = both(parts, token(start, Kind::End))?;
    let ((parts, name), rest) = both(parts, opt_ident(alloc, rest))?;
    let ((parts, last), rest) = both(parts, token(rest, Kind::Semicolon))?;
    let body = made_body(alloc, begin.at(), parts, end.at(), (name, last.at()))?;
    Ok((body, rest))
}

/// Statements with handlers, behind their first word (RM 11.2).
#[cycle(statement)]
fn in_body<'a>(alloc: Global, begin: &Token, start: Rest<'a>, room: u32) -> Read<'a, Box<Body>>
    ensures { Completes (λ es. made g.Body (token begin.now ∷ es)) boxed_body_item
        (N g.Statements ∷ Opt g.Handlers ∷ P kind.End ∷ Opt g.Identifier ∷ P kind.Semicolon ∷ [])
        room start.entry result }
{
    let (inner, rest) = statements(alloc, start, room)?;
    let (handlers, rest) = opt_handlers(alloc, rest, room)?;
    end_body(alloc, (inner, handlers), begin, rest)
}

/// Statements with handlers, between `begin` and `end` (RM 6.3, 11.2).
#[cycle(statement)]
#[inline(never)]
pub fn body(alloc: Global, start: Rest, room: u32) -> Read<Box<Body>>
    ensures { Reads boxed_body_item (N g.Body) room start.entry result }
{
    let (begin, rest) = token(start, Kind::Begin)?;
    in_body(alloc, begin, rest, room)
}
