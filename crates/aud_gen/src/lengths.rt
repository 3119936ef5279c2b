// How many lines each part of a program becomes: a number that stops at the largest one.

ghost use Rattle.std.specs.Prelude.{◌≡◌, ◌+◌, ◌^◌, ◌-◌, ◌<◌, ℕ, length, IfOk};
ghost use Rattle.aud_typed.specs.Tree.{part_of};
ghost use Rattle.aud_typed.specs.Ties.View.{alternatives_in, doing_in, entry_call_in, select_in, plain_delay, plain_form};
ghost use Rattle.aud_typed.specs.Ties.View.{plain_argument, plain_arguments, plain_callee, plain_calling, plain_into, plain_values};
ghost use Rattle.aud_typed.specs.Ties.View.{plain_integer, plain_task, plain_task_names, plain_boolean, plain_value, plain_reference, plain_text, plain_statement, plain_statements, statements_in, if_in, for_in, handlers_in, elaborations_in, body_in, block_in};
ghost use Rattle.aud_typed.specs.declared.program.Subtype.{Subtype};
ghost use Rattle.aud_layout.specs.Instructions.{argument_code, arguments_code, copied_code};
ghost use Rattle.aud_layout.specs.Instructions.{delay_code, form_code, guards_code, delays_code, instructions_of};
ghost use Rattle.aud_layout.specs.Instructions.{called_code, components_code, entered_code, into_code, requeue_code};
ghost use Rattle.aud_layout.specs.Instructions.{integer_code, task_code, names_code, condition_code, value_code, reference_code, text_code};
ghost use Rattle.aud_layout.specs.Layout.{statement_size_by, part_size_by, handlers_size_by, body_size_by, end_place_by, doing_size_by, offered_size_by};
ghost use Rattle.aud_layout.specs.Written.{flat_step};
ghost use Rattle.aud_gen.specs.Writes.{alone, alternative_size, arm_length, callee_code, choice_code, counted};

use aud_typed::program::{
    Alternative, Argument, Arm, BlockStatement, Body, BooleanExpression, CallForm, Callee, Calling,
    DelayExpression, Doing, EntryCallStatement, ForStatement, Handler, IfStatement,
    IntegerExpression, Reference, SelectStatement, Statement, Statements, TaskName, TextExpression,
    ValueExpression,
};
use std::alloc::AllocError;

/// Of an expression of type Integer.
pub fn integer_length(e: &IntegerExpression) -> usize
    ensures { result ≡ counted (length (integer_code (plain_integer e.now))) }
{
    match e {
        IntegerExpression::Number(_) => 1,
        IntegerExpression::Variable(_) => 1,
        IntegerExpression::Count(..) => 1,
        IntegerExpression::Element(_, index) => integer_length(index).saturating_add(1),
        IntegerExpression::Unary(_, x) => integer_length(x).saturating_add(1),
        IntegerExpression::Chain(first, rest) => {
            let mut total = integer_length(first);
            for next in rest {
                total = total
                    .saturating_add(integer_length(&next.right))
                    .saturating_add(1);
            }
            total
        }
    }
}

/// Of the name of a task.
fn task_length(t: &TaskName) -> usize
    ensures { result ≡ counted (length (task_code (plain_task t.now))) }
{
    match t {
        TaskName::Single(_) => 1,
        TaskName::Element(_, index) => integer_length(index).saturating_add(1),
    }
}

// Of the names of tasks.
fn names_length(tasks: &[TaskName]) -> usize
    ensures { result ≡ counted (length (names_code (plain_task_names tasks.now))) }
{
    let mut total: usize = 0;
    for task in tasks {
        total = total.saturating_add(task_length(task)).saturating_add(1);
    }
    total
}

/// Of an expression of type Boolean.
pub fn boolean_length(e: &BooleanExpression) -> usize
    ensures { result ≡ counted (length (condition_code (plain_boolean e.now))) }
{
    match e {
        BooleanExpression::Truth(_) => 1,
        BooleanExpression::Variable(_) => 2,
        BooleanExpression::Element(_, index) => integer_length(index).saturating_add(2),
        BooleanExpression::Not(x) => boolean_length(x).saturating_add(1),
        BooleanExpression::Relation(_, x, y) => {
            integer_length(x)
                .saturating_add(integer_length(y))
                .saturating_add(1)
        }
        BooleanExpression::Comparison(_, x, y) => {
            boolean_length(x)
                .saturating_add(boolean_length(y))
                .saturating_add(1)
        }
        BooleanExpression::Chain(_, first, rest) => {
            let mut total = boolean_length(first);
            for next in rest {
                total = total.saturating_add(boolean_length(next)).saturating_add(1);
            }
            total
        }
        BooleanExpression::Callable(task) => task_length(task).saturating_add(1),
        BooleanExpression::Terminated(task) => task_length(task).saturating_add(1),
    }
}

// Of a value for a place that asks for a subtype.
fn value_length(e: &ValueExpression) -> usize
    ensures { result ≡ counted (length (value_code (plain_value e.now))) }
{
    match e {
        ValueExpression::Whole(_, x) => integer_length(x).saturating_add(1),
        ValueExpression::Truth(x) => boolean_length(x).saturating_add(1),
    }
}

// Of a text.
fn text_length(t: &TextExpression) -> usize
    ensures { result ≡ counted (length (text_code (plain_text t.now))) }
{
    match t {
        TextExpression::Literal(_) => 1,
        TextExpression::Image(e) => integer_length(e).saturating_add(1),
        TextExpression::ImageTruth(e) => boolean_length(e).saturating_add(1),
        TextExpression::Join(first, rest) => {
            let mut total = text_length(first);
            for next in rest {
                total = total.saturating_add(text_length(next));
            }
            total
        }
        TextExpression::NewLine => 1,
    }
}

// Of what is assigned.
fn reference_length(r: &Reference) -> usize
    ensures { result ≡ counted (length (reference_code (plain_reference r.now))) }
{
    match r {
        Reference::Scalar(..) => 1,
        Reference::Element(_, index, _) => integer_length(index).saturating_add(1),
    }
}

// Of an argument of a call, whatever the number of its formal.
fn argument_length(argument: &Argument) -> usize
    ensures { (number : ℕ) →
        result ≡ counted (length (argument_code number (plain_argument argument.now))) }
{
    match argument {
        Argument::ByValue(e) => value_length(e).saturating_add(1),
        Argument::ByCopy(is_in, _, r) => {
            reference_length(r)
                .saturating_add(first_value_length(*is_in))
                .saturating_add(1)
        }
    }
}

// Of what a formal of mode in out or out begins with, whatever its subtype.
fn first_value_length(is_in: bool) -> usize
    ensures { (formal : Subtype) → result ≡ length (copied_code is_in formal) }
{
    if is_in { 2 } else { 1 }
}

// Of all arguments of a call.
fn arguments_length(arguments: &[Argument]) -> usize
    ensures { result ≡ counted (length (arguments_code 0 (plain_arguments arguments.now))) }
{
    let mut total: usize = 0;
    for argument in arguments {
        total = total.saturating_add(argument_length(argument));
    }
    total
}

/// Of a delay.
pub fn delay_length(e: &DelayExpression) -> usize
    ensures { result ≡ counted (length (delay_code (plain_delay e.now))) }
{
    match e {
        DelayExpression::Fixed(_) => 1,
        DelayExpression::Seconds(x) => integer_length(x).saturating_add(1),
    }
}

// Of the time that a call waits.
fn form_length(form: &CallForm) -> usize
    ensures { result ≡ counted (length (form_code (plain_form form.now))) }
{
    match form {
        CallForm::Plain => 0,
        CallForm::Conditional => 0,
        CallForm::Timed(e) => delay_length(e),
    }
}

// Of the arguments of a call, and the time that it waits.
fn called_length(arguments: &[Argument], form: &CallForm) -> usize
    ensures { result ≡
        counted (length (called_code (plain_arguments arguments.now) (plain_form form.now))) }
{
    arguments_length(arguments).saturating_add(form_length(form))
}

// Of whose entry is called.
fn callee_length(callee: &Callee) -> usize
    ensures { result ≡ counted (length (callee_code (plain_callee callee.now))) }
{
    match callee {
        Callee::Task(task) => task_length(task).saturating_add(2),
        Callee::Object(_) => 0,
    }
}

// Of whose entry a call is made again on.
fn requeue_length(callee: &Callee) -> usize
    ensures { result ≡ counted (length (requeue_code (plain_callee callee.now))) }
{
    match callee {
        Callee::Task(task) => task_length(task).saturating_add(1),
        Callee::Object(_) => 0,
    }
}

/// Of the instructions of an entry call.
pub fn call_length(call: &EntryCallStatement) -> usize
    ensures { result ≡ counted (length (instructions_of (entry_call_in call.now))) }
{
    callee_length(&call.callee).saturating_add(called_length(&call.arguments, &call.form))
}

// Of what the value of a function is assigned to.
fn into_length(into: &Option<Reference>) -> usize
    ensures { result ≡ counted (length (into_code (plain_into into.now))) }
{
    match into {
        Some(r) => reference_length(r),
        None => 0,
    }
}

// Of a call of a procedure or function.
fn calling_length(calling: &Calling) -> usize
    ensures { result ≡ counted (length (entered_code (plain_calling calling.now))) }
{
    into_length(&calling.into).saturating_add(arguments_length(&calling.arguments))
}

// Of the initial values of an object's components.
fn components_length(components: &[ValueExpression]) -> usize
    ensures { result ≡ counted (length (components_code (plain_values components.now))) }
{
    let mut total: usize = 0;
    for component in components {
        total = total
            .saturating_add(value_length(component))
            .saturating_add(1);
    }
    total
}

/// Of the instructions of a selective accept: the guards of its alternatives, the mark, and their delays.
pub fn choice_length(alternatives: &[Alternative]) -> usize
    ensures { result ≡ counted (length (choice_code (alternatives_in alternatives.now))) }
{
    guards_length(alternatives)
        .saturating_add(delays_length(alternatives))
        .saturating_add(1)
}

fn guards_length(alternatives: &[Alternative]) -> usize
    ensures { result ≡ counted (length (guards_code 1 (alternatives_in alternatives.now))) }
{
    let mut total: usize = 0;
    for alternative in alternatives {
        total = total.saturating_add(guard_length(alternative));
    }
    total
}

// Of the guard of an alternative, whatever its number.
fn guard_length(alternative: &Alternative) -> usize
    ensures { (number : ℕ) →
        result ≡ counted (length (guards_code number (alone alternative.now))) }
{
    match alternative {
        Alternative::Accept { guard, .. } => boolean_length(guard).saturating_add(1),
        Alternative::Delay { guard, .. } => boolean_length(guard).saturating_add(1),
        Alternative::Terminate { guard } => boolean_length(guard).saturating_add(1),
    }
}

fn delays_length(alternatives: &[Alternative]) -> usize
    ensures { result ≡ counted (length (delays_code 1 (alternatives_in alternatives.now))) }
{
    let mut total: usize = 0;
    for alternative in alternatives {
        total = total.saturating_add(time_length(alternative));
    }
    total
}

// Of the delay of an alternative, whatever its number.
fn time_length(alternative: &Alternative) -> usize
    ensures { (number : ℕ) →
        result ≡ counted (length (delays_code number (alone alternative.now))) }
{
    match alternative {
        Alternative::Accept { .. } => 0,
        Alternative::Delay { delay, .. } => delay_length(delay).saturating_add(2),
        Alternative::Terminate { .. } => 0,
    }
}

/// The place behind so many lines that stand at a place.
///
/// # Errors
///
/// Memory is refused where it or their number has stopped at the largest number, since no memory holds such code.
pub fn place_behind(place: usize, lines: usize) -> Result<usize, AllocError>
    ensures same { IfOk result (λ n. n ≡ place + lines) }
    ensures whole { IfOk result (λ n. n < 2 ^ 64 - 1) }
{
    let behind = place.saturating_add(lines);
    if behind < usize::MAX {
        Ok(behind)
    } else {
        Err(AllocError)
    }
}

/// The place behind statements that stand at a place.
pub fn behind_statements(place: usize, ss: &Statements, ways: usize) -> Result<usize, AllocError>
    ensures { IfOk result (λ n.
        n ≡ place + statement_size_by flat_step (statements_in ss.now) ways) }
{
    place_behind(place, statements_length(ss, ways))
}

/// Of a statement, with all that is in it, out of which this number of ways leads: of the loops around it, and out of the body.
#[cycle(lengths)]
pub fn statement_length(s: &Statement, ways: usize) -> usize
    ensures { result ≡ counted (statement_size_by flat_step (plain_statement s.now) ways) }
{
    match s {
        Statement::Declare(_, _, e) => value_length(e).saturating_add(1),
        Statement::DeclareArray(..) => 1,
        Statement::Null(_) => 1,
        Statement::Assign(_, target, e) => {
            reference_length(target)
                .saturating_add(value_length(e))
                .saturating_add(1)
        }
        Statement::Put(_, t) => text_length(t).saturating_add(1),
        Statement::If(branches) => if_length(branches, ways),
        Statement::While(_, condition, body) => {
            boolean_length(condition)
                .saturating_add(statements_length(body, ways.saturating_add(1)))
                .saturating_add(1)
        }
        Statement::Loop(body) => statements_length(body, ways.saturating_add(1)),
        Statement::For(s) => for_length(s, ways),
        Statement::Exit(_, _, condition) => boolean_length(condition).saturating_add(1),
        Statement::Raise(..) => 1,
        Statement::RaiseAgain(_) => 1,
        Statement::Block(block) => block_length(block, ways),
        Statement::Return(_) => 1,
        Statement::ReturnValue(_, e) => value_length(e).saturating_add(1),
        Statement::ProcedureCall(_, calling) => calling_length(calling).saturating_add(1),
        Statement::OwnEntryCall(_, arguments, form) => {
            called_length(arguments, form).saturating_add(1)
        }
        Statement::OperationCall(_, _, calling) => calling_length(calling).saturating_add(1),
        Statement::DeclareTasks(..) => 1,
        Statement::DeclareObject(_, _, components) => {
            components_length(components).saturating_add(2)
        }
        Statement::Activated(_) => 1,
        Statement::EntryCall(call) => entry_call_length(call, ways),
        Statement::Delay(_, e) => delay_length(e).saturating_add(1),
        Statement::Accept(accept) => doing_length(&accept.doing).saturating_add(1),
        Statement::Select(select) => select_length(select, ways),
        Statement::Abort(_, tasks) => names_length(tasks).saturating_add(1),
        Statement::Requeue(_, requeue) => requeue_length(&requeue.callee).saturating_add(1),
    }
}

// The step of the call, the statements behind it, and those behind its `else` or delay.
#[cycle(lengths)]
fn entry_call_length(call: &EntryCallStatement, ways: usize) -> usize
    ensures { result ≡ counted (statement_size_by flat_step (entry_call_in call.now) ways) }
{
    call_length(call)
        .saturating_add(list_length(&call.after, ways))
        .saturating_add(list_length(&call.otherwise, ways))
        .saturating_add(1)
}

/// Of what an accept does, if it does something.
#[cycle(lengths)]
pub fn doing_length(doing: &Option<Doing>) -> usize
    ensures { result ≡ counted (doing_size_by flat_step (doing_in doing.now)) }
{
    match doing {
        Some(doing) => body_length(&doing.body, 1),
        None => 0,
    }
}

// The step of the selective accept, what lies in its alternatives, and the statements behind its `else`.
#[cycle(lengths)]
fn select_length(select: &SelectStatement, ways: usize) -> usize
    ensures { result ≡ counted (statement_size_by flat_step (select_in select.now) ways) }
{
    choice_length(&select.alternatives)
        .saturating_add(alternatives_length(&select.alternatives, ways))
        .saturating_add(list_length(&select.otherwise, ways))
        .saturating_add(1)
}

/// Of what lies in alternatives.
#[cycle(lengths)]
pub fn alternatives_length(alternatives: &[Alternative], ways: usize) -> usize
    ensures { result ≡
        counted (offered_size_by flat_step (alternatives_in alternatives.now) ways) }
{
    let mut total: usize = 0;
    for alternative in alternatives {
        total = total.saturating_add(alternative_length(alternative, ways));
    }
    total
}

/// Of what the accept of an alternative does, and the statements behind that.
#[cycle(lengths)]
pub fn alternative_length(alternative: &Alternative, ways: usize) -> usize
    ensures { result ≡ counted (alternative_size alternative.now ways) }
{
    match alternative {
        Alternative::Accept { accept, after, .. } => {
            doing_length(&accept.doing).saturating_add(list_length(after, ways))
        }
        Alternative::Delay { after, .. } => list_length(after, ways),
        Alternative::Terminate { .. } => 0,
    }
}

#[cycle(lengths)]
fn if_length(s: &IfStatement, ways: usize) -> usize
    ensures { result ≡ counted (statement_size_by flat_step (if_in s.now) ways) }
{
    let mut total = arm_length(&s.first, ways).saturating_add(list_length(&s.otherwise, ways));
    for arm in &s.others {
        total = total.saturating_add(arm_length(arm, ways));
    }
    total
}

#[cycle(lengths)]
fn arm_length(arm: &Arm, ways: usize) -> usize
    ensures { result ≡ counted (arm_length arm.now ways) }
{
    boolean_length(&arm.condition)
        .saturating_add(statements_length(&arm.statements, ways))
        .saturating_add(1)
}

// The bounds and the step of the loop, the step `next`, and its statements.
#[cycle(lengths)]
fn for_length(s: &ForStatement, ways: usize) -> usize
    ensures { result ≡ counted (statement_size_by flat_step (for_in s.now) ways) }
{
    integer_length(&s.first)
        .saturating_add(integer_length(&s.last))
        .saturating_add(statements_length(&s.statements, ways.saturating_add(1)))
        .saturating_add(2)
}

// The step of the block, its body, and a line for each way out of it.
#[cycle(lengths)]
fn block_length(block: &BlockStatement, ways: usize) -> usize
    ensures { result ≡ counted (statement_size_by flat_step (block_in block.now) ways) }
{
    body_length(&block.body, ways)
        .saturating_add(ways)
        .saturating_add(1)
}

// Of a body: its declarations and their activation, its statements, the line that guards them, its handlers, and its end.
#[cycle(lengths)]
fn body_length(body: &Body, ways: usize) -> usize
    ensures { result ≡ counted (body_size_by flat_step (body_in body.now) ways) }
{
    place_of_end(body, 0, ways).saturating_add(1)
}

/// The place of a body's end, where the body begins at a place.
#[cycle(lengths)]
pub fn place_of_end(body: &Body, place: usize, ways: usize) -> usize
    ensures { result ≡ counted (end_place_by flat_step (body_in body.now) place ways) }
{
    place
        .saturating_add(elaborations_length(body, ways))
        .saturating_add(statements_length(&body.statements, ways))
        .saturating_add(handlers_length(&body.handlers, ways))
        .saturating_add(1)
}

/// Of what a body does before its statements: its declarations, and the activation at its `begin`.
#[cycle(lengths)]
pub fn elaborations_length(body: &Body, ways: usize) -> usize
    ensures { result ≡
        counted (part_size_by flat_step (part_of (elaborations_in body.now)) ways) }
{
    let declared = list_length(&body.declarations, ways);
    if body.activates {
        declared.saturating_add(1)
    } else {
        declared
    }
}

// Of handlers.
#[cycle(lengths)]
fn handlers_length(handlers: &[Handler], ways: usize) -> usize
    ensures { result ≡ counted (handlers_size_by flat_step (handlers_in handlers.now) ways) }
{
    let mut total: usize = 0;
    for handler in handlers {
        total = total.saturating_add(statements_length(&handler.statements, ways));
    }
    total
}

/// Of statements.
#[cycle(lengths)]
pub fn statements_length(ss: &Statements, ways: usize) -> usize
    ensures { result ≡ counted (statement_size_by flat_step (statements_in ss.now) ways) }
{
    statement_length(&ss.first, ways).saturating_add(list_length(&ss.others, ways))
}

/// Of statements, of which there may be none.
#[cycle(lengths)]
pub fn list_length(ss: &[Statement], ways: usize) -> usize
    ensures { result ≡
        counted (part_size_by flat_step (part_of (plain_statements ss.now)) ways) }
{
    let mut total: usize = 0;
    for s in ss {
        total = total.saturating_add(statement_length(s, ways));
    }
    total
}
