// The canonical text of declarations, statements and bodies, which lie in one another.

ghost use Rattle.aud_syntax.specs.Ties.Writes.{Writes};
ghost use Rattle.aud_syntax.specs.Ties.View.{plain_declaration, plain_declarations, plain_procedure, plain_task_body, plain_protected_body, plain_operation_body, operation_body_list, plain_expression, plain_maybe, plain_name, plain_statement, plain_others, plain_statements, plain_if, arm_list, plain_iteration, plain_parameter, plain_choices, plain_loop_statement, plain_block, plain_body, handler_list, plain_delay, plain_accept, plain_done, plain_select, guarded_list, plain_alternative, plain_selected_call, plain_other, plain_names, plain_abort};
ghost use Rattle.aud_syntax.specs.Why.Printed.{declaration_words, declarations_words, operation_body_words, operation_bodies_words, null_words, assignment_words, call_words, label_words, reverse_words, iteration_words, exit_words, value_words, return_words, raise_words, declare_words, choices_words, expression_words, arm_words, arms_words, otherwise_words, statement_words, more_statements_words, statements_words, body_words, handler_words, handlers_words, handled_words, words_behind, seconds_words, duration_words, delay_words, accept_words, doing_words, guard_words, terminate_words, guarded_words, alternative_words, alternatives_words, other_words, end_select_words, more_names_words, with_abort_words, requeue_words};

use crate::declarations::{
    push_array, push_constant, push_exceptions, push_formals, push_head, push_object, push_task,
};
use crate::expressions::{
    push_expression, push_in_parentheses, push_maybe, push_name, push_simple,
};
use crate::protected::{push_ending, push_operation_head, push_protected};
use crate::tree::{
    AbortStatement, AcceptStatement, Alternative, Arm, BlockStatement, Body, Choices, Declaration,
    Delay, Expression, Guarded, Handler, Ident, IfStatement, Iteration, LoopParameter,
    LoopStatement, Name, OperationBody, Otherwise, ProcedureDeclaration, ProtectedBody, Real,
    SelectStatement, SelectedCall, Statement, Statements, TaskBody,
};
use crate::words::{
    push_end_name, push_ident, push_idents, push_last_word, push_real, push_two_words, push_word,
};
use crate::writing::Written;

#[cycle(statement)]
pub fn push_declarations(out: &mut Written, declarations: &[Declaration])
    ensures { Writes out.old out.new
        (declarations_words (plain_declarations declarations.now)) }
{
    for next in declarations {
        push_declaration(out, next);
    }
}

// RM 3.1
#[cycle(statement)]
fn push_declaration(out: &mut Written, declaration: &Declaration)
    ensures { Writes out.old out.new
        (declaration_words (plain_declaration declaration.now)) }
{
    match declaration {
        Declaration::Object(names, subtype, value) => push_object(out, names, subtype, value),
        Declaration::Constant(names, subtype, value) => push_constant(out, names, subtype, value),
        Declaration::Array(names, low, high, subtype) => {
            push_array(out, names, *low, *high, subtype);
        }
        Declaration::Exception(names) => push_exceptions(out, names),
        Declaration::Procedure(procedure) => push_procedure(out, procedure),
        Declaration::Task(task) => push_task(out, task),
        Declaration::TaskBody(task) => push_task_body(out, task),
        Declaration::Protected(object) => push_protected(out, object),
        Declaration::ProtectedBody(object) => push_protected_body(out, object),
    }
}

// RM 6.3
#[cycle(statement)]
fn push_procedure(out: &mut Written, procedure: &ProcedureDeclaration)
    ensures { Writes out.old out.new
        (declaration_words (plain_procedure procedure.now)) }
{
    push_word(out, b"procedure");
    push_ident(out, &procedure.name);
    push_formals(out, &procedure.formals);
    push_last_word(out, b"is");
    push_declarations(out, &procedure.declarations);
    push_body(out, &procedure.body);
}

// RM 9.1(6)
#[cycle(statement)]
fn push_task_body(out: &mut Written, task: &TaskBody)
    ensures { Writes out.old out.new (declaration_words (plain_task_body task.now)) }
{
    push_two_words(out, b"task", b"body");
    push_ident(out, &task.name);
    push_last_word(out, b"is");
    push_declarations(out, &task.declarations);
    push_body(out, &task.body);
}

// RM 9.4(7)
#[cycle(statement)]
fn push_protected_body(out: &mut Written, object: &ProtectedBody)
    ensures { Writes out.old out.new
        (declaration_words (plain_protected_body object.now)) }
{
    push_two_words(out, b"protected", b"body");
    push_ident(out, &object.name);
    push_last_word(out, b"is");
    push_operation_bodies(out, &object.bodies);
    push_ending(out, &object.end_name);
}

#[cycle(statement)]
fn push_operation_bodies(out: &mut Written, bodies: &[OperationBody])
    ensures { Writes out.old out.new
        (operation_bodies_words (operation_body_list bodies.now)) }
{
    for next in bodies {
        push_operation_body(out, next);
    }
}

// RM 9.4(8)
#[cycle(statement)]
fn push_operation_body(out: &mut Written, operation: &OperationBody)
    ensures { Writes out.old out.new
        (operation_body_words (plain_operation_body operation.now)) }
{
    push_operation_head(out, &operation.kind, &operation.name, &operation.formals);
    push_last_word(out, b"is");
    push_declarations(out, &operation.declarations);
    push_body(out, &operation.body);
}

#[cycle(statement)]
fn push_statements(out: &mut Written, statements: &Statements)
    ensures { Writes out.old out.new (statements_words (plain_statements statements.now)) }
{
    push_statement(out, &statements.first);
    push_more_statements(out, &statements.others);
}

#[cycle(statement)]
fn push_more_statements(out: &mut Written, others: &[Statement])
    ensures { Writes out.old out.new (more_statements_words (plain_others others.now)) }
{
    for next in others {
        push_statement(out, next);
    }
}

// RM 5.1
#[cycle(statement)]
fn push_statement(out: &mut Written, statement: &Statement)
    ensures { Writes out.old out.new (statement_words (plain_statement statement.now)) }
{
    match statement {
        Statement::Null(_) => push_null(out),
        Statement::Assign(target, value) => push_assignment(out, target, value),
        Statement::Call(name) => push_call(out, name),
        Statement::If(statement) => push_if(out, statement),
        Statement::Loop(statement) => push_loop(out, statement),
        Statement::Block(statement) => push_block(out, statement),
        Statement::Exit(_, label, condition) => push_exit(out, label, condition),
        Statement::Return(_, value) => push_return(out, value),
        Statement::Raise(_, exception) => push_raise(out, exception),
        Statement::Accept(statement) => push_accept(out, statement),
        Statement::Delay(statement) => push_delay(out, statement),
        Statement::Select(statement) => push_select(out, statement),
        Statement::SelectCall(statement) => push_selected_call(out, statement),
        Statement::Abort(statement) => push_abort(out, statement),
        Statement::Requeue(_, target, with_abort) => push_requeue(out, target, *with_abort),
    }
}

// RM 5.3
#[cycle(statement)]
fn push_if(out: &mut Written, statement: &IfStatement)
    ensures { Writes out.old out.new (statement_words (plain_if statement.now)) }
{
    push_arm(out, b"if", &statement.first);
    push_arms(out, &statement.others);
    push_otherwise(out, &statement.otherwise);
    push_two_words(out, b"end", b"if");
    push_last_word(out, b";");
}

#[cycle(statement)]
fn push_arms(out: &mut Written, arms: &[Arm])
    ensures { Writes out.old out.new (arms_words (arm_list arms.now)) }
{
    for next in arms {
        push_arm(out, b"elsif", next);
    }
}

// `if` or `elsif`, and what stands behind it.
#[cycle(statement)]
fn push_arm(out: &mut Written, spelling: &[u8], arm: &Arm)
    ensures { Writes out.old out.new
        (arm_words spelling.now (expression_words (plain_expression arm.now.condition))
        (statements_words (plain_statements arm.now.statements))) }
{
    push_word(out, spelling);
    push_expression(out, &arm.condition);
    push_last_word(out, b"then");
    push_statements(out, &arm.statements);
}

// The else part, if there is one.
#[cycle(statement)]
fn push_otherwise(out: &mut Written, statements: &[Statement])
    ensures { Writes out.old out.new
        (otherwise_words (plain_others statements.now)
        (more_statements_words (plain_others statements.now))) }
{
    if statements.is_empty() {
        return;
    }
    push_last_word(out, b"else");
    push_more_statements(out, statements);
}

// RM 5.5
#[cycle(statement)]
fn push_loop(out: &mut Written, statement: &LoopStatement)
    ensures { Writes out.old out.new
        (statement_words (plain_loop_statement statement.now)) }
{
    push_label(out, &statement.label);
    push_iteration(out, &statement.iteration);
    push_last_word(out, b"loop");
    push_statements(out, &statement.statements);
    push_two_words(out, b"end", b"loop");
    push_end_name(out, &statement.name);
    push_last_word(out, b";");
}

fn push_label(out: &mut Written, label: &Option<Ident>)
    ensures { Writes out.old out.new (label_words label.now) }
{
    match label {
        None => {}
        Some(label) => {
            push_ident(out, label);
            push_word(out, b":");
        }
    }
}

// RM 5.5(3)
fn push_iteration(out: &mut Written, iteration: &Iteration)
    ensures { Writes out.old out.new (iteration_words (plain_iteration iteration.now)) }
{
    match iteration {
        Iteration::Forever => {}
        Iteration::While(condition) => {
            push_word(out, b"while");
            push_expression(out, condition);
        }
        Iteration::For(parameter) => push_parameter(out, parameter),
    }
}

// RM 5.5(4)
fn push_parameter(out: &mut Written, parameter: &LoopParameter)
    ensures { Writes out.old out.new (iteration_words (plain_parameter parameter.now)) }
{
    push_word(out, b"for");
    push_ident(out, &parameter.name);
    push_word(out, b"in");
    push_reverse(out, parameter.reverse);
    push_simple(out, &parameter.low);
    push_word(out, b"..");
    push_simple(out, &parameter.high);
}

fn push_reverse(out: &mut Written, reverse: bool)
    ensures { Writes out.old out.new (reverse_words reverse) }
{
    if reverse {
        push_word(out, b"reverse");
    }
}

// RM 5.6
#[cycle(statement)]
fn push_block(out: &mut Written, statement: &BlockStatement)
    ensures { Writes out.old out.new
        (statement_words (plain_block statement.now)) }
{
    push_label(out, &statement.label);
    push_declare(out, statement.declare);
    push_declarations(out, &statement.declarations);
    push_body(out, &statement.body);
}

fn push_declare(out: &mut Written, declare: bool)
    ensures { Writes out.old out.new (declare_words declare) }
{
    if declare {
        push_last_word(out, b"declare");
    }
}

// RM 11.2
#[cycle(statement)]
pub fn push_body(out: &mut Written, body: &Body)
    ensures { Writes out.old out.new (body_words (plain_body body.now)) }
{
    push_enclosed(out, b"begin", body);
}

// The same behind another word in place of `begin`.
#[cycle(statement)]
fn push_enclosed(out: &mut Written, spelling: &[u8], body: &Body)
    ensures { Writes out.old out.new (words_behind spelling.now (plain_body body.now)) }
{
    push_last_word(out, spelling);
    push_statements(out, &body.statements);
    push_handled(out, &body.handlers);
    push_word(out, b"end");
    push_end_name(out, &body.name);
    push_last_word(out, b";");
}

// The handlers of a body, if there are any.
#[cycle(statement)]
fn push_handled(out: &mut Written, handlers: &[Handler])
    ensures { Writes out.old out.new
        (handled_words (handler_list handlers.now) (handlers_words (handler_list handlers.now))) }
{
    if handlers.is_empty() {
        return;
    }
    push_last_word(out, b"exception");
    push_handlers(out, handlers);
}

#[cycle(statement)]
fn push_handlers(out: &mut Written, handlers: &[Handler])
    ensures { Writes out.old out.new (handlers_words (handler_list handlers.now)) }
{
    for next in handlers {
        push_handler(out, next);
    }
}

// RM 11.2(3)
#[cycle(statement)]
fn push_handler(out: &mut Written, handler: &Handler)
    ensures { Writes out.old out.new
        (handler_words (plain_choices handler.now.choices)
        (statements_words (plain_statements handler.now.statements))) }
{
    push_word(out, b"when");
    push_choices(out, &handler.choices);
    push_last_word(out, b"=>");
    push_statements(out, &handler.statements);
}

// RM 11.2(5)
fn push_choices(out: &mut Written, choices: &Choices)
    ensures { Writes out.old out.new (choices_words (plain_choices choices.now)) }
{
    match choices {
        Choices::Named(names) => push_idents(out, b"|", names),
        Choices::Others(_) => push_word(out, b"others"),
    }
}

// RM 9.5.2(3)
#[cycle(statement)]
fn push_accept(out: &mut Written, statement: &AcceptStatement)
    ensures { Writes out.old out.new (accept_words (plain_accept statement.now)) }
{
    push_head(out, b"accept", &statement.name, &statement.formals);
    push_doing(out, &statement.doing);
}

#[cycle(statement)]
fn push_doing(out: &mut Written, doing: &Option<Box<Body>>)
    ensures { Writes out.old out.new (doing_words (plain_done doing.now)) }
{
    match doing {
        None => push_last_word(out, b";"),
        Some(body) => push_enclosed(out, b"do", body),
    }
}

// RM 9.7.1
#[cycle(statement)]
fn push_select(out: &mut Written, statement: &SelectStatement)
    ensures { Writes out.old out.new (statement_words (plain_select statement.now)) }
{
    push_last_word(out, b"select");
    push_guarded(out, &statement.first);
    push_alternatives(out, &statement.others);
    push_otherwise(out, &statement.otherwise);
    push_end_select(out);
}

// The alternatives behind the first.
#[cycle(statement)]
fn push_alternatives(out: &mut Written, others: &[Guarded])
    ensures { Writes out.old out.new (alternatives_words (guarded_list others.now)) }
{
    for next in others {
        push_last_word(out, b"or");
        push_guarded(out, next);
    }
}

// RM 9.7.1(2)
#[cycle(statement)]
fn push_guarded(out: &mut Written, guarded: &Guarded)
    ensures { Writes out.old out.new
        (guarded_words (plain_maybe guarded.now.guard)
        (plain_alternative guarded.now.alternative)) }
{
    push_guard(out, &guarded.guard);
    push_alternative(out, &guarded.alternative);
}

// RM 9.7.1(3)
#[cycle(statement)]
fn push_alternative(out: &mut Written, alternative: &Alternative)
    ensures { Writes out.old out.new
        (alternative_words (plain_alternative alternative.now)) }
{
    match alternative {
        Alternative::Accept(statement, behind) => {
            push_accept(out, statement);
            push_more_statements(out, behind);
        }
        Alternative::Delay(delay, behind) => {
            push_delay(out, delay);
            push_more_statements(out, behind);
        }
        Alternative::Terminate => push_terminate(out),
    }
}

// RM 9.7.2, 9.7.3
#[cycle(statement)]
fn push_selected_call(out: &mut Written, statement: &SelectedCall)
    ensures { Writes out.old out.new
        (statement_words (plain_selected_call statement.now)) }
{
    push_last_word(out, b"select");
    push_call(out, &statement.call);
    push_more_statements(out, &statement.behind);
    push_other(out, &statement.otherwise);
    push_end_select(out);
}

// What is done in place of the call.
#[cycle(statement)]
fn push_other(out: &mut Written, otherwise: &Otherwise)
    ensures { Writes out.old out.new (other_words (plain_other otherwise.now)) }
{
    match otherwise {
        Otherwise::Delay(delay, behind) => {
            push_last_word(out, b"or");
            push_delay(out, delay);
            push_more_statements(out, behind);
        }
        Otherwise::Else(statements) => {
            push_last_word(out, b"else");
            push_statements(out, statements);
        }
    }
}

// RM 9.8
fn push_abort(out: &mut Written, statement: &AbortStatement)
    ensures { Writes out.old out.new (statement_words (plain_abort statement.now)) }
{
    push_word(out, b"abort");
    push_name(out, &statement.first);
    push_more_names(out, &statement.others);
    push_last_word(out, b";");
}

// Further names, each behind a comma.
fn push_more_names(out: &mut Written, others: &[Name])
    ensures { Writes out.old out.new (more_names_words (plain_names others.now)) }
{
    for next in others {
        push_word(out, b",");
        push_name(out, next);
    }
}

// RM 9.5.4
fn push_requeue(out: &mut Written, target: &Name, with_abort: bool)
    ensures { Writes out.old out.new (requeue_words (plain_name target.now) with_abort) }
{
    push_word(out, b"requeue");
    push_name(out, target);
    push_with_abort(out, with_abort);
    push_last_word(out, b";");
}

fn push_with_abort(out: &mut Written, with_abort: bool)
    ensures { Writes out.old out.new (with_abort_words with_abort) }
{
    if with_abort {
        push_two_words(out, b"with", b"abort");
    }
}

fn push_terminate(out: &mut Written)
    ensures { Writes out.old out.new terminate_words }
{
    push_word(out, b"terminate");
    push_last_word(out, b";");
}

fn push_end_select(out: &mut Written)
    ensures { Writes out.old out.new end_select_words }
{
    push_two_words(out, b"end", b"select");
    push_last_word(out, b";");
}

// The guard of an alternative, if it has one.
fn push_guard(out: &mut Written, guard: &Option<Expression>)
    ensures { Writes out.old out.new (guard_words (plain_maybe guard.now)) }
{
    match guard {
        None => {}
        Some(condition) => {
            push_word(out, b"when");
            push_expression(out, condition);
            push_last_word(out, b"=>");
        }
    }
}

// RM 9.6
fn push_delay(out: &mut Written, delay: &Delay)
    ensures { Writes out.old out.new (delay_words (plain_delay delay.now)) }
{
    match delay {
        Delay::Seconds(_, seconds) => push_seconds(out, *seconds),
        Delay::Duration(_, _, seconds) => push_duration(out, seconds),
    }
}

fn push_seconds(out: &mut Written, seconds: Real)
    ensures { Writes out.old out.new (seconds_words seconds) }
{
    push_word(out, b"delay");
    push_real(out, seconds);
    push_last_word(out, b";");
}

fn push_duration(out: &mut Written, seconds: &Expression)
    ensures { Writes out.old out.new (duration_words (plain_expression seconds.now)) }
{
    push_two_words(out, b"delay", b"DURATION");
    push_in_parentheses(out, seconds);
    push_last_word(out, b";");
}

// RM 5.7
fn push_exit(out: &mut Written, label: &Option<Ident>, condition: &Option<Expression>)
    ensures { Writes out.old out.new (exit_words label.now (plain_maybe condition.now)) }
{
    push_word(out, b"exit");
    push_end_name(out, label);
    push_maybe(out, b"when", condition);
    push_last_word(out, b";");
}

// RM 6.5
fn push_return(out: &mut Written, value: &Option<Expression>)
    ensures { Writes out.old out.new (return_words (plain_maybe value.now)) }
{
    push_word(out, b"return");
    push_value(out, value);
    push_last_word(out, b";");
}

// The value that is returned, if there is one.
fn push_value(out: &mut Written, value: &Option<Expression>)
    ensures { Writes out.old out.new (value_words (plain_maybe value.now)) }
{
    match value {
        None => {}
        Some(value) => push_expression(out, value),
    }
}

// RM 11.3
fn push_raise(out: &mut Written, exception: &Option<Ident>)
    ensures { Writes out.old out.new (raise_words exception.now) }
{
    push_word(out, b"raise");
    push_end_name(out, exception);
    push_last_word(out, b";");
}

fn push_null(out: &mut Written)
    ensures { Writes out.old out.new null_words }
{
    push_word(out, b"null");
    push_last_word(out, b";");
}

// RM 5.2
fn push_assignment(out: &mut Written, target: &Name, value: &Expression)
    ensures { Writes out.old out.new
        (assignment_words (plain_name target.now) (plain_expression value.now)) }
{
    push_name(out, target);
    push_word(out, b":=");
    push_expression(out, value);
    push_last_word(out, b";");
}

// RM 6.4
fn push_call(out: &mut Written, name: &Name)
    ensures { Writes out.old out.new (call_words (plain_name name.now)) }
{
    push_name(out, name);
    push_last_word(out, b";");
}
