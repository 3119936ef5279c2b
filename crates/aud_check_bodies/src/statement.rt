// Statements, declarative parts and bodies.

ghost use Rattle.std.specs.Prelude.{true, IfOk, OnOk};
ghost use Rattle.aud_syntax.specs.declared.tree.TaskBody.{out-TaskBody};
ghost use Rattle.aud_syntax.specs.declared.tree.ProcedureDeclaration.{out-ProcedureDeclaration};
ghost use Rattle.aud_syntax.specs.declared.tree.OperationBody.{out-OperationBody};
ghost use Rattle.aud_syntax.specs.declared.tree.ProtectedBody.{out-ProtectedBody};
ghost use Rattle.aud_syntax.specs.Ties.View.{plain_expression, plain_maybe, plain_statement, plain_others, plain_statements, plain_if_statement, arm_list, plain_loop_statement, plain_parameter, plain_block_statement, plain_body, handler_list, plain_declaration, plain_declarations, plain_procedure, plain_task_body, plain_operation_body, operation_body_list, plain_protected_body, plain_accept, plain_alternative as plain_source_alternative, guarded_list, plain_select_statement, plain_selected_call, plain_other};
ghost use Rattle.aud_typed.specs.Ties.View.{plain_body as plain_typed_body, plain_statement as plain_typed_statement};
ghost use Rattle.aud_check_bodies.specs.Statements.{labelled, arm_of, checked_loop, checked_statements, checked_others, checked_arms, checked_body, checked_handlers, checked_accept, checked_alternative, checked_alternatives, checked_otherwise, checked_declaration, checked_declarations, checked_bodies, checked_operation, body_behind};
ghost use Rattle.aud_check_bodies.specs.Tables.{next_region, region_kept};
ghost use Rattle.aud_check_bodies.specs.Tasks.{with_bodies};
ghost use Rattle.aud_check_bodies.specs.Ties.Arms.{plain_arm, plain_arms as plain_typed_arms, plain_handlers, plain_parts, plain_sequence, plain_items, plain_accepted, plain_alternative, plain_alternatives};
ghost use Rattle.aud_check_bodies.specs.Ties.DeclarativePart.{Declares, Enters};
ghost use Rattle.aud_names.specs.Ties.Regions.{plain_place};
ghost use Rattle.aud_check_bodies.specs.Ties.Objects.{ChecksBodies, one_place, both_places};
ghost use Rattle.aud_check_bodies.specs.Ties.Tables.{plain_tables};
ghost use Rattle.aud_typing.specs.Ties.Typing.{in_box};
ghost use Rattle.aud_check_bodies.specs.Ties.Within.{around_of, around_entering, Checks, ChecksStatement};

use crate::abort::abort;
use crate::accept::accept_head;
use crate::accept::number_of;
use crate::accept::with_accepted;
use crate::call::call;
use crate::declaration::DeclarativePart;
use crate::declaration::arrays;
use crate::declaration::declare_procedure;
use crate::declaration::exceptions;
use crate::declaration::objects;
use crate::delay::delay;
use crate::delay::delay_statement;
use crate::entry_call::entry_call_of;
use crate::formal::body_formals;
use crate::handler::all_choices;
use crate::handler::raise;
use crate::iteration::For;
use crate::iteration::bounds;
use crate::iteration::for_of;
use crate::iteration::forever;
use crate::iteration::while_of;
use crate::labels::Label;
use crate::labels::begin_at;
use crate::labels::exit_loop;
use crate::labels::with_label;
use crate::leaving::exit;
use crate::leaving::return_from;
use crate::made::Parts;
use crate::made::accept_doing;
use crate::made::accept_of;
use crate::made::accepted;
use crate::made::arm_of;
use crate::made::block_of;
use crate::made::body_of;
use crate::made::handler_of;
use crate::made::if_of;
use crate::made::in_order;
use crate::made::in_row;
use crate::made::null_at;
use crate::made::unit_of;
use crate::object::body_number;
use crate::object::declare_protected;
use crate::object::without_object_bodies;
use crate::object::without_part_bodies;
use crate::operation::DeclaredParts;
use crate::operation::Shape;
use crate::operation::around_bodies;
use crate::operation::body_shape;
use crate::operation::head_leaves;
use crate::operation::in_entry;
use crate::operation::is_function;
use crate::operation::matched;
use crate::operation::object_bodies;
use crate::operation::place_of;
use crate::requeue::requeue;
use crate::select::accepting;
use crate::select::call_head;
use crate::select::delaying;
use crate::select::select_of;
use crate::select::terminating;
use crate::tables::Tables;
use crate::tables::loop_region;
use crate::task::body_numbers;
use crate::task::declare_task;
use crate::task::running_within;
use crate::task::with_activation;
use crate::task::without_bodies;
use crate::value::assignment;
use crate::within::Entering;
use crate::within::Leaves;
use crate::within::Requeuing;
use crate::within::Within;
use crate::within::regions_within;
use aud_fault::fault::Least;
use aud_names::awaited::AwaitedPart;
use aud_names::behind::Left;
use aud_names::behind::Made;
use aud_names::behind::both;
use aud_names::behind::push;
use aud_names::names::Region;
use aud_names::names::Scope;
use aud_names::names::task_within;
use aud_names::objects::awaited_parts;
use aud_names::rules::right_label_at_end;
use aud_names::rules::right_name_at_end;
use aud_syntax::tree::AcceptStatement;
use aud_syntax::tree::Alternative;
use aud_syntax::tree::Arm;
use aud_syntax::tree::BlockStatement;
use aud_syntax::tree::Body;
use aud_syntax::tree::Declaration;
use aud_syntax::tree::Guarded;
use aud_syntax::tree::Handler;
use aud_syntax::tree::IfStatement;
use aud_syntax::tree::Iteration;
use aud_syntax::tree::LoopParameter;
use aud_syntax::tree::LoopStatement;
use aud_syntax::tree::OperationBody;
use aud_syntax::tree::Otherwise;
use aud_syntax::tree::ProcedureDeclaration;
use aud_syntax::tree::ProtectedBody;
use aud_syntax::tree::SelectStatement;
use aud_syntax::tree::SelectedCall;
use aud_syntax::tree::Statement;
use aud_syntax::tree::Statements;
use aud_syntax::tree::TaskBody;
use aud_typed::program::AcceptStatement as TypedAccept;
use aud_typed::program::Alternative as TypedAlternative;
use aud_typed::program::Arm as TypedArm;
use aud_typed::program::Body as TypedBody;
use aud_typed::program::Handler as TypedHandler;
use aud_typed::program::Statement as TypedStatement;
use aud_typed::program::Statements as TypedStatements;
use aud_typing::condition::condition;
use aud_typing::condition::maybe_condition;

// What is left of a statement.
type Stated = Left<TypedStatement>;

// A statement (RM 5.1) among these constructs.
#[cycle(statement)]
fn statement<'a>(
    statement: &'a Statement,
    within: Within<'_, 'a>,
    tables: &mut Tables,
    faults: &mut Least,
) -> Stated
    ensures { ChecksStatement result faults.old faults.new
        (plain_tables tables.old) (plain_tables tables.new)
        (plain_statement statement.now) within.entry }
{
    let scope = within.scope;
    match statement {
        Statement::Null(at) => null_at(scope.alloc(), *at),
        Statement::Assign(target, value) => assignment(target, value, scope, &*tables, faults),
        Statement::Call(name) => call(name, scope, &*tables, faults),
        Statement::If(statement) => if_statement(statement, within, tables, faults),
        Statement::Loop(statement) => loop_statement(statement, within, tables, faults),
        Statement::Block(statement) => block_statement(statement, within, tables, faults),
        Statement::Exit(at, name, condition) => {
            let found = exit_loop(name, within.labels);
            exit(*at, found, condition, scope, faults)
        }
        Statement::Return(at, value) => return_from(*at, value, within.leaves, scope, faults),
        Statement::Raise(at, name) => raise(*at, name, within.in_handler, scope, faults),
        Statement::Accept(source) => {
            let typed = accept(source, within, tables, faults)?;
            accepted(scope.alloc(), typed)
        }
        Statement::Delay(source) => delay_statement(source, scope, faults),
        Statement::Select(node) => select(node, within, tables, faults),
        Statement::SelectCall(node) => selected_call(node, within, tables, faults),
        Statement::Abort(source) => abort(source, scope, faults),
        Statement::Requeue(at, target, with_abort) => {
            requeue(
                *at,
                target,
                *with_abort,
                within.requeuing,
                within.profile,
                scope,
                &*tables,
                faults,
            )
        }
    }
}

// An if statement (RM 5.3).
#[cycle(statement)]
#[inline(never)]
fn if_statement<'a>(
    node: &'a IfStatement,
    within: Within<'_, 'a>,
    tables: &mut Tables,
    faults: &mut Least,
) -> Stated
    ensures { ChecksStatement result faults.old faults.new
        (plain_tables tables.old) (plain_tables tables.new)
        (plain_if_statement node.now) within.entry }
{
    let first = arm(&node.first, within, tables, faults)?;
    let arms = both(first, arms(&node.others, within, tables, faults))?;
    let otherwise = more_statements(&node.otherwise, within, tables, faults);
    let (arms, otherwise) = both(arms, otherwise)?;
    if_of(within.scope.alloc(), arms, otherwise)
}

// The arms behind each `elsif`.
#[cycle(statement)]
fn arms<'a>(
    arms: &'a [Arm],
    within: Within<'_, 'a>,
    tables: &mut Tables,
    faults: &mut Least,
) -> Made<Vec<TypedArm>>
    ensures { Checks plain_typed_arms result faults.old faults.new (plain_tables tables.new)
        (checked_arms (arm_list arms.now) (around_of within.entry) within.entry.scope.now
        (plain_tables tables.old)) }
{
    let mut typed = Vec::with_capacity(within.scope.alloc(), arms.len())?;
    for next in arms {
        push(&mut typed, arm(next, within, tables, faults)?)?;
    }
    Ok(typed)
}

// A condition, and the statements that are done where it is true.
#[tactic(auto, using(aud_typing::proofs::Notes::noted_append))]
#[cycle(statement)]
fn arm<'a>(
    arm: &'a Arm,
    within: Within<'_, 'a>,
    tables: &mut Tables,
    faults: &mut Least,
) -> Left<TypedArm>
    ensures { Checks (in_box plain_arm) result faults.old faults.new (plain_tables tables.new)
        (arm_of arm.now.at (plain_expression arm.now.condition) within.entry.scope.now
        (checked_statements (plain_statements arm.now.statements) (around_of within.entry)
        within.entry.scope.now (plain_tables tables.old))) }
{
    let condition = condition(&arm.condition, within.scope, faults)?;
    let statements = statements(&arm.statements, within, tables, faults);
    let (condition, statements) = both(condition, statements)?;
    arm_of(within.scope.alloc(), arm.at, condition, statements)
}

// A loop (RM 5.5), whose statements see its label.
#[cycle(statement)]
#[inline(never)]
fn loop_statement<'a>(
    node: &'a LoopStatement,
    within: Within<'_, 'a>,
    tables: &mut Tables,
    faults: &mut Least,
) -> Stated
    ensures { ChecksStatement result faults.old faults.new
        (plain_tables tables.old) (plain_tables tables.new)
        (plain_loop_statement node.now) within.entry }
{
    let scope = within.scope;
    right_label_at_end(&node.label, &node.name, node.semicolon, faults);
    match &node.iteration {
        Iteration::Forever => {
            let body = loop_body(node, within, tables, faults)?;
            forever(scope.alloc(), body)
        }
        Iteration::While(e) => {
            let condition = condition(e, scope, faults)?;
            let body = loop_body(node, within, tables, faults);
            let (condition, body) = both(condition, body)?;
            let at = begin_at(&node.label, node.at);
            while_of(scope.alloc(), at, condition, body)
        }
        Iteration::For(parameter) => for_loop(node, parameter, within, tables, faults),
    }
}

// A loop with a parameter (RM 5.5(4)), whose label has been checked.
#[cycle(statement)]
fn for_loop<'a>(
    node: &'a LoopStatement,
    parameter: &'a LoopParameter,
    within: Within<'_, 'a>,
    tables: &mut Tables,
    faults: &mut Least,
) -> Stated
    ensures { Checks (in_box plain_typed_statement) result faults.old faults.new
        (plain_tables tables.new)
        (checked_loop node.now.label node.now.at (plain_parameter parameter.now)
        (plain_statements node.now.statements) (around_of within.entry) within.entry.scope.now
        (plain_tables tables.old)) }
{
    let scope = within.scope;
    let outer = scope.regions()?;
    let own = loop_region(&parameter.name, scope)?;
    let region = tables.enter(&own)?;
    let bounds = bounds(parameter, scope, faults)?;
    let among = Scope::new(&own, &outer);
    let inner = Within {
        scope: &among,
        labels: within.labels,
        in_handler: within.in_handler,
        leaves: within.leaves,
        accepting: within.accepting,
        requeuing: within.requeuing,
        profile: within.profile,
    };
    let body = loop_body(node, inner, tables, faults);
    drop(among);
    drop(outer);
    drop(own);
    let (bounds, body) = both(bounds, body)?;
    let at = begin_at(&node.label, node.at);
    let head = For {
        at,
        next_at: node.at,
        region,
        backward: parameter.reverse,
    };
    for_of(scope.alloc(), head, bounds, body)
}

// The statements of a loop.
#[cycle(statement)]
fn loop_body<'a>(
    node: &'a LoopStatement,
    within: Within<'_, 'a>,
    tables: &mut Tables,
    faults: &mut Least,
) -> Left<TypedStatements>
    ensures { Checks (in_box plain_sequence) result faults.old faults.new (plain_tables tables.new)
        (checked_statements (plain_statements node.now.statements)
        (labelled true node.now.label (around_of within.entry)) within.entry.scope.now
        (plain_tables tables.old)) }
{
    let label = Label {
        is_loop: true,
        name: &node.label,
    };
    let labels = with_label(within.scope.alloc(), label, within.labels)?;
    let inner = Within {
        scope: within.scope,
        labels: &labels,
        in_handler: within.in_handler,
        leaves: within.leaves,
        accepting: within.accepting,
        requeuing: within.requeuing,
        profile: within.profile,
    };
    statements(&node.statements, inner, tables, faults)
}

// An accept (RM 9.5.2), whose statements see its formals.
#[cycle(statement)]
#[inline(never)]
fn accept<'a>(
    node: &'a AcceptStatement,
    within: Within<'_, 'a>,
    tables: &mut Tables,
    faults: &mut Least,
) -> Left<TypedAccept>
    ensures { Checks (in_box plain_accepted) result faults.old faults.new
        (plain_tables tables.new)
        (checked_accept (plain_accept node.now) (around_of within.entry) within.entry.scope.now
        (plain_tables tables.old)) }
{
    let scope = within.scope;
    let alloc = scope.alloc();
    let around = within.accepting;
    let head = accept_head(&node.name, &node.formals, around, scope, &*tables, faults)?;
    let entry = number_of(head.entry);
    let Some(source) = &node.doing else {
        return accept_of(alloc, node.at, entry);
    };
    let outer = scope.regions()?;
    let region = tables.enter(&head.region)?;
    let accepting = with_accepted(alloc, head.entry, around)?;
    let among = Scope::new(&head.region, &outer);
    let inner = Within {
        scope: &among,
        labels: &[],
        in_handler: within.in_handler,
        leaves: Leaves::Procedure,
        accepting: &accepting,
        requeuing: Requeuing::Accept,
        profile: &head.profile,
    };
    let parts = body(source, inner, tables, faults);
    drop(among);
    drop(outer);
    drop(head);
    drop(accepting);
    let parts = parts?;
    right_name_at_end(&node.name.name, &source.name, faults);
    accept_doing(alloc, node.at, entry, region, source, parts)
}

// A selective accept (RM 9.7.1).
#[cycle(statement)]
#[inline(never)]
fn select<'a>(
    node: &'a SelectStatement,
    within: Within<'_, 'a>,
    tables: &mut Tables,
    faults: &mut Least,
) -> Stated
    ensures { ChecksStatement result faults.old faults.new
        (plain_tables tables.old) (plain_tables tables.new)
        (plain_select_statement node.now) within.entry }
{
    let first = alternative(&node.first, within, tables, faults)?;
    let offered = both(first, alternatives(&node.others, within, tables, faults))?;
    let otherwise = more_statements(&node.otherwise, within, tables, faults);
    let (offered, otherwise) = both(offered, otherwise)?;
    select_of(within.scope.alloc(), node.at, offered, otherwise)
}

// The alternatives behind the first.
#[cycle(statement)]
fn alternatives<'a>(
    others: &'a [Guarded],
    within: Within<'_, 'a>,
    tables: &mut Tables,
    faults: &mut Least,
) -> Made<Vec<TypedAlternative>>
    ensures { Checks plain_alternatives result faults.old faults.new (plain_tables tables.new)
        (checked_alternatives (guarded_list others.now) (around_of within.entry)
        within.entry.scope.now (plain_tables tables.old)) }
{
    let mut typed = Vec::with_capacity(within.scope.alloc(), others.len())?;
    for next in others {
        push(&mut typed, alternative(next, within, tables, faults)?)?;
    }
    Ok(typed)
}

// An alternative behind its guard.
#[cycle(statement)]
#[inline(never)]
fn alternative<'a>(
    node: &'a Guarded,
    within: Within<'_, 'a>,
    tables: &mut Tables,
    faults: &mut Least,
) -> Left<TypedAlternative>
    ensures { Checks (in_box plain_alternative) result faults.old faults.new
        (plain_tables tables.new)
        (checked_alternative (plain_source_alternative node.now.alternative)
        (plain_maybe node.now.guard) (around_of within.entry) within.entry.scope.now
        (plain_tables tables.old)) }
{
    let scope = within.scope;
    let alloc = scope.alloc();
    let guard = maybe_condition(&node.guard, scope, faults)?;
    match &node.alternative {
        Alternative::Accept(source, behind) => {
            let head = both(guard, accept(source, within, tables, faults))?;
            let after = more_statements(behind, within, tables, faults);
            let (head, after) = both(head, after)?;
            accepting(alloc, head, after)
        }
        Alternative::Delay(source, behind) => {
            let head = both(guard, delay(source, scope, faults))?;
            let after = more_statements(behind, within, tables, faults);
            let (head, after) = both(head, after)?;
            delaying(alloc, head, after)
        }
        Alternative::Terminate => terminating(alloc, guard),
    }
}

// A timed or a conditional call (RM 9.7.2, 9.7.3).
#[cycle(statement)]
#[inline(never)]
fn selected_call<'a>(
    node: &'a SelectedCall,
    within: Within<'_, 'a>,
    tables: &mut Tables,
    faults: &mut Least,
) -> Stated
    ensures { ChecksStatement result faults.old faults.new
        (plain_tables tables.old) (plain_tables tables.new)
        (plain_selected_call node.now) within.entry }
{
    let scope = within.scope;
    let head = call_head(&node.call, &node.otherwise, scope, &*tables, faults)?;
    let behind = more_statements(&node.behind, within, tables, faults);
    let (head, behind) = both(head, behind)?;
    let rest = otherwise(&node.otherwise, within, tables, faults);
    let ((form, called), parts) = both(head, both(behind, rest))?;
    let form = Box::into_inner(form);
    entry_call_of(scope.alloc(), node.at, form, called, parts)
}

// What is done in place of a timed or a conditional call.
#[cycle(statement)]
fn otherwise<'a>(
    node: &'a Otherwise,
    within: Within<'_, 'a>,
    tables: &mut Tables,
    faults: &mut Least,
) -> Made<Vec<TypedStatement>>
    ensures { Checks plain_items result faults.old faults.new (plain_tables tables.new)
        (checked_otherwise (plain_other node.now) (around_of within.entry)
        within.entry.scope.now (plain_tables tables.old)) }
{
    match node {
        Otherwise::Delay(_, behind) => more_statements(behind, within, tables, faults),
        Otherwise::Else(inner) => in_row(statements(inner, within, tables, faults)?),
    }
}

// A block (RM 5.6), whose statements see its declarations and its label.
#[cycle(statement)]
#[inline(never)]
fn block_statement<'a>(
    node: &'a BlockStatement,
    within: Within<'_, 'a>,
    tables: &mut Tables,
    faults: &mut Least,
) -> Stated
    ensures { ChecksStatement result faults.old faults.new
        (plain_tables tables.old) (plain_tables tables.new)
        (plain_block_statement node.now) within.entry }
{
    let alloc = within.scope.alloc();
    right_label_at_end(&node.label, &node.body.name, node.body.semicolon, faults);
    let outer = within.scope.regions()?;
    let region = within.scope.frame()?;
    let label = Label {
        is_loop: false,
        name: &node.label,
    };
    let labels = with_label(alloc, label, within.labels)?;
    let entering = Entering {
        outer: &outer,
        labels: &labels,
        in_handler: within.in_handler,
        leaves: within.leaves,
        accepting: within.accepting,
        requeuing: within.requeuing,
        profile: within.profile,
        of_task: false,
    };
    let number = tables.next_region();
    let part = declared(&node.declarations, region, &outer, tables, faults)?;
    let body = body_behind(part, &node.body, entering, tables, faults);
    drop(labels);
    drop(outer);
    let body = body?;
    block_of(alloc, begin_at(&node.label, node.at), number, body)
}

/// The declarations of a region that is entered (RM 3.11): notes their faults, and answers the part behind them, whose names are
/// in the tables.
#[cycle(statement)]
#[inline(never)]
pub fn declared<'a>(
    source: &'a [Declaration],
    region: Region,
    outer: &[&'a Region],
    tables: &mut Tables,
    faults: &mut Least,
) -> Made<DeclarativePart>
    ensures { IfOk result (λ part. Enters faults.old faults.new outer.now part
        (next_region (plain_tables tables.old)) (plain_tables tables.new)
        (with_bodies (checked_declarations (plain_declarations source.now)
        (plain_place region outer.now) (region_kept (plain_tables tables.old))))) }
{
    let alloc = region.alloc;
    let number = tables.next_region();
    tables.keep_region(alloc)?;
    let mut part = DeclarativePart {
        region,
        elaborations: Vec::new(alloc),
    };
    for next in source {
        declaration(next, outer, &mut part, tables, faults)?;
    }
    without_bodies(&part.region.awaited, faults);
    without_object_bodies(&part.region.objects, faults);
    tables.name_region(number, &part.region)?;
    Ok(part)
}

/// The statements of a body behind its declarations: notes their faults, and answers what is left of the body.
#[cycle(statement)]
#[inline(never)]
pub fn body_behind<'a>(
    part: DeclarativePart,
    node: &'a Body,
    entering: Entering<'_, 'a>,
    tables: &mut Tables,
    faults: &mut Least,
) -> Left<TypedBody>
    ensures { Checks (in_box plain_typed_body) result faults.old faults.new
        (plain_tables tables.new)
        (body_behind entering.entry.of_task (plain_items part.elaborations) (plain_body node.now)
        (around_entering entering.entry) (plain_place part.region entering.entry.outer.now)
        (plain_tables tables.old)) }
{
    let DeclarativePart {
        region,
        mut elaborations,
    } = part;
    let alloc = region.alloc;
    let activates = with_activation(entering.of_task, node.begin, &mut elaborations)?;
    let scope = Scope::new(&region, entering.outer);
    let within = Within {
        scope: &scope,
        labels: entering.labels,
        in_handler: entering.in_handler,
        leaves: entering.leaves,
        accepting: entering.accepting,
        requeuing: entering.requeuing,
        profile: entering.profile,
    };
    let parts = body(node, within, tables, faults);
    drop(scope);
    drop(region);
    let (elaborations, parts) = both(elaborations, parts)?;
    body_of(alloc, node, elaborations, activates, parts)
}

// The declarations of a procedure's body, in the region of its formals.
#[cycle(statement)]
#[inline(never)]
fn procedure_part<'a>(
    node: &'a ProcedureDeclaration,
    region: Region,
    outer: &[&'a Region],
    tables: &mut Tables,
    faults: &mut Least,
) -> Made<DeclarativePart>
    ensures { IfOk result (λ part. Enters faults.old faults.new outer.now part
        (next_region (plain_tables tables.old)) (plain_tables tables.new)
        (with_bodies (checked_declarations (plain_declarations
        (out-ProcedureDeclaration node.now).declarations.items)
        (plain_place region outer.now) (region_kept (plain_tables tables.old))))) }
{
    declared(&node.declarations, region, outer, tables, faults)
}

// A procedure (RM 6.1, 6.3): adds its name to the part, and its formals and its body to the tables.
#[cycle(statement)]
#[inline(never)]
fn procedure<'a>(
    node: &'a ProcedureDeclaration,
    outer: &[&'a Region],
    part: &mut DeclarativePart,
    tables: &mut Tables,
    faults: &mut Least,
) -> Made<()>
    ensures { OnOk result (Declares faults.old faults.new outer.now part.old part.new
        (plain_tables tables.new)
        (checked_declaration (plain_procedure node.now) (plain_place part.old.region outer.now)
        (plain_tables tables.old))) }
{
    let alloc = part.region.alloc;
    let number = tables.next_unit();
    let (region, profile) = body_formals(&node.formals, &part.region, &*outer, faults)?;
    declare_procedure(&node.name, number, &mut part.region, faults)?;
    let regions = regions_within(&part.region, &*outer)?;
    tables.keep_unit(alloc, profile)?;
    let level = region.level;
    let own = tables.next_region();
    let inner = procedure_part(node, region, &regions, tables, faults)?;
    let entering = Entering {
        outer: &regions,
        labels: &[],
        in_handler: false,
        leaves: Leaves::Procedure,
        accepting: &[],
        requeuing: Requeuing::Nowhere,
        profile: &[],
        of_task: false,
    };
    let body = body_behind(inner, &node.body, entering, tables, faults);
    drop(regions);
    let body = body?;
    right_name_at_end(&node.name.name, &node.body.name, faults);
    let unit = unit_of(alloc, level, own, false, node.at, body)?;
    tables.put_unit(number, Box::into_inner(unit));
    Ok(())
}

// The declarations of a task's body, in the region of the body.
#[cycle(statement)]
#[inline(never)]
fn task_part<'a>(
    node: &'a TaskBody,
    region: Region,
    outer: &[&'a Region],
    tables: &mut Tables,
    faults: &mut Least,
) -> Made<DeclarativePart>
    ensures { IfOk result (λ part. Enters faults.old faults.new outer.now part
        (next_region (plain_tables tables.old)) (plain_tables tables.new)
        (with_bodies (checked_declarations (plain_declarations
        (out-TaskBody node.now).declarations.items)
        (plain_place region outer.now) (region_kept (plain_tables tables.old))))) }
{
    declared(&node.declarations, region, outer, tables, faults)
}

// The body of a task or a task type (RM 9.1): adds it to the tables, where its place was kept.
#[cycle(statement)]
#[inline(never)]
fn task_body<'a>(
    node: &'a TaskBody,
    outer: &[&'a Region],
    part: &mut DeclarativePart,
    tables: &mut Tables,
    faults: &mut Least,
) -> Made<()>
    ensures { OnOk result (Declares faults.old faults.new outer.now part.old part.new
        (plain_tables tables.new)
        (checked_declaration (plain_task_body node.now) (plain_place part.old.region outer.now)
        (plain_tables tables.old))) }
{
    let alloc = part.region.alloc;
    let numbers = body_numbers(&node.name, &mut part.region, tables, faults)?;
    let running = running_within(&node.name.name, numbers.task_type, &part.region)?;
    let level = running.level;
    let region = Region::of_task(alloc, level, numbers.task_type, &part.region.entries)?;
    let regions = task_within(&running, &part.region, &*outer)?;
    let own = tables.next_region();
    let inner = task_part(node, region, &regions, tables, faults)?;
    let entering = Entering {
        outer: &regions,
        labels: &[],
        in_handler: false,
        leaves: Leaves::Task,
        accepting: &[],
        requeuing: Requeuing::Nowhere,
        profile: &[],
        of_task: true,
    };
    let body = body_behind(inner, &node.body, entering, tables, faults);
    drop(regions);
    drop(running);
    let body = body?;
    right_name_at_end(&node.name.name, &node.body.name, faults);
    let unit = unit_of(alloc, level, own, false, node.at, body)?;
    tables.put_unit(numbers.unit, Box::into_inner(unit));
    Ok(())
}

// The declarations of the body of an operation or entry, in the region of its formals.
#[cycle(statement)]
#[inline(never)]
fn operation_part<'a>(
    node: &'a OperationBody,
    region: Region,
    outer: &[&'a Region],
    tables: &mut Tables,
    faults: &mut Least,
) -> Made<DeclarativePart>
    ensures { IfOk result (λ part. Enters faults.old faults.new outer.now part
        (next_region (plain_tables tables.old)) (plain_tables tables.new)
        (with_bodies (checked_declarations (plain_declarations
        (out-OperationBody node.now).declarations.items)
        (plain_place region outer.now) (region_kept (plain_tables tables.old))))) }
{
    declared(&node.declarations, region, outer, tables, faults)
}

// The body of an operation or entry (RM 9.4(8), 9.5.2), in the region of its object: adds it to the tables, where its
// place was kept.
#[cycle(statement)]
#[inline(never)]
fn operation_body<'a>(
    node: &'a OperationBody,
    declared_parts: DeclaredParts<'_>,
    own: &'a Region,
    outer: &'a [&'a Region],
    awaited: &mut Vec<AwaitedPart>,
    tables: &mut Tables,
    faults: &mut Least,
) -> Made<()>
    ensures { OnOk result (ChecksBodies faults.old faults.new awaited.new.items
        (plain_tables tables.new) (checked_operation (plain_operation_body node.now)
        (one_place declared_parts.entry own.now outer.now) awaited.old.items
        (plain_tables tables.old))) }
{
    let alloc = own.alloc;
    let kind = &node.kind;
    let ident = &node.name;
    let shape = body_shape(kind, &node.formals, own, outer, faults)?;
    let unit = matched(
        kind,
        ident,
        &shape,
        declared_parts,
        own,
        outer,
        awaited,
        tables,
        faults,
    );
    let (shape, number) = both(shape, unit)?;
    let Shape {
        region,
        profile,
        returned,
    } = shape;
    let regions = regions_within(own, outer)?;
    let level = region.level;
    let own_region = tables.next_region();
    let inner = operation_part(node, region, &regions, tables, faults)?;
    let entering = Entering {
        outer: &regions,
        labels: &[],
        in_handler: false,
        leaves: head_leaves(kind, returned),
        accepting: &[],
        requeuing: in_entry(kind, declared_parts.object),
        profile: &profile,
        of_task: false,
    };
    let body = body_behind(inner, &node.body, entering, tables, faults);
    drop(profile);
    drop(regions);
    let body = body?;
    right_name_at_end(&ident.name, &node.body.name, faults);
    let unit = unit_of(alloc, level, own_region, is_function(kind), node.at, body)?;
    tables.put_unit(number, Box::into_inner(unit));
    Ok(())
}

// The bodies of an object's operations and entries, each in the object's region as it is seen there.
#[cycle(statement)]
#[inline(never)]
fn bodies_within<'a>(
    node: &'a ProtectedBody,
    declared_parts: DeclaredParts<'_>,
    inside: (&'a Region, &'a [&'a Region]),
    in_function: (&'a Region, &'a [&'a Region]),
    awaited: &mut Vec<AwaitedPart>,
    tables: &mut Tables,
    faults: &mut Least,
) -> Made<()>
    ensures { OnOk result (ChecksBodies faults.old faults.new awaited.new.items
        (plain_tables tables.new)
        (checked_bodies (operation_body_list (out-ProtectedBody node.now).bodies.items)
        (both_places declared_parts.entry inside.entry in_function.entry) awaited.old.items
        (plain_tables tables.old))) }
{
    for next in &node.bodies {
        let (own, outer) = place_of(&next.kind, inside, in_function);
        operation_body(next, declared_parts, own, outer, awaited, tables, faults)?;
    }
    Ok(())
}

// The body of a protected object (RM 9.4(7)): adds the bodies of its operations and entries to the tables.
#[cycle(statement)]
#[inline(never)]
fn protected_body<'a>(
    node: &'a ProtectedBody,
    outer: &[&'a Region],
    part: &mut DeclarativePart,
    tables: &mut Tables,
    faults: &mut Least,
) -> Made<()>
    ensures { OnOk result (Declares faults.old faults.new outer.now part.old part.new
        (plain_tables tables.new)
        (checked_declaration (plain_protected_body node.now)
        (plain_place part.old.region outer.now) (plain_tables tables.old))) }
{
    let object = body_number(&node.name, &mut part.region, tables, faults)?;
    let region = &part.region;
    let name = &node.name.name;
    let (inside, in_function) = object_bodies(name, object, region, outer)?;
    let (around, around_function) = around_bodies(&inside, &in_function, region, &*outer)?;
    let mut awaited = awaited_parts(region.alloc, &region.parts, object)?;
    let declared_parts = DeclaredParts {
        object,
        parts: &region.parts,
    };
    let checked = bodies_within(
        node,
        declared_parts,
        (&inside.own, &around),
        (&in_function.own, &around_function),
        &mut awaited,
        tables,
        faults,
    );
    drop((around, around_function));
    drop((inside, in_function));
    let (awaited, ()) = both(awaited, checked)?;
    without_part_bodies(&awaited, faults);
    right_name_at_end(name, &node.end_name, faults);
    Ok(())
}

// A declaration (RM 3.1): notes its faults, and adds to the part and to the tables what it declares.
#[cycle(statement)]
fn declaration<'a>(
    declaration: &'a Declaration,
    outer: &[&'a Region],
    part: &mut DeclarativePart,
    tables: &mut Tables,
    faults: &mut Least,
) -> Made<()>
    ensures { OnOk result (Declares faults.old faults.new outer.now part.old part.new
        (plain_tables tables.new)
        (checked_declaration (plain_declaration declaration.now)
        (plain_place part.old.region outer.now) (plain_tables tables.old))) }
{
    match declaration {
        Declaration::Object(names, mark, initial) => {
            objects(names, mark, initial.as_ref(), false, outer, part, faults)
        }
        Declaration::Constant(names, mark, value) => {
            objects(names, mark, Some(value), true, outer, part, faults)
        }
        Declaration::Array(names, low, high, mark) => {
            arrays(names, (*low, *high), mark, outer, part, faults)
        }
        Declaration::Exception(names) => {
            exceptions(names, &mut part.region, &mut tables.exceptions, faults)
        }
        Declaration::Procedure(node) => procedure(node, outer, part, tables, faults),
        Declaration::Task(task) => declare_task(task, outer, part, tables, faults),
        Declaration::TaskBody(node) => task_body(node, outer, part, tables, faults),
        Declaration::Protected(node) => declare_protected(node, outer, part, tables, faults),
        Declaration::ProtectedBody(node) => protected_body(node, outer, part, tables, faults),
    }
}

// The statements and handlers of a body (RM 11.2).
#[cycle(statement)]
fn body<'a>(
    node: &'a Body,
    within: Within<'_, 'a>,
    tables: &mut Tables,
    faults: &mut Least,
) -> Made<Parts>
    ensures { Checks plain_parts result faults.old faults.new (plain_tables tables.new)
        (checked_body (plain_body node.now) (around_of within.entry) within.entry.scope.now
        (plain_tables tables.old)) }
{
    let statements = statements(&node.statements, within, tables, faults)?;
    let chosen = all_choices(&node.handlers, within.scope, faults);
    let (statements, ()) = both(statements, chosen)?;
    let inner = Within {
        scope: within.scope,
        labels: within.labels,
        in_handler: true,
        leaves: within.leaves,
        accepting: within.accepting,
        requeuing: within.requeuing,
        profile: within.profile,
    };
    let handlers = handlers(&node.handlers, inner, tables, faults);
    both(statements, handlers)
}

// The handlers of a body.
#[cycle(statement)]
fn handlers<'a>(
    handlers: &'a [Handler],
    within: Within<'_, 'a>,
    tables: &mut Tables,
    faults: &mut Least,
) -> Made<Vec<TypedHandler>>
    ensures { Checks plain_handlers result faults.old faults.new (plain_tables tables.new)
        (checked_handlers (handler_list handlers.now) (around_of within.entry)
        within.entry.scope.now (plain_tables tables.old)) }
{
    let scope = within.scope;
    let mut typed = Vec::with_capacity(scope.alloc(), handlers.len())?;
    for next in handlers {
        let statements = statements(&next.statements, within, tables, faults)?;
        push(&mut typed, handler_of(&next.choices, scope, statements)?)?;
    }
    Ok(typed)
}

// A sequence of statements (RM 5.1(2)).
#[cycle(statement)]
fn statements<'a>(
    statements: &'a Statements,
    within: Within<'_, 'a>,
    tables: &mut Tables,
    faults: &mut Least,
) -> Left<TypedStatements>
    ensures { Checks (in_box plain_sequence) result faults.old faults.new (plain_tables tables.new)
        (checked_statements (plain_statements statements.now) (around_of within.entry)
        within.entry.scope.now (plain_tables tables.old)) }
{
    let first = statement(&statements.first, within, tables, faults)?;
    let others = more_statements(&statements.others, within, tables, faults);
    let (first, others) = both(first, others)?;
    in_order(within.scope.alloc(), first, others)
}

#[cycle(statement)]
fn more_statements<'a>(
    others: &'a [Statement],
    within: Within<'_, 'a>,
    tables: &mut Tables,
    faults: &mut Least,
) -> Made<Vec<TypedStatement>>
    ensures { Checks plain_items result faults.old faults.new (plain_tables tables.new)
        (checked_others (plain_others others.now) (around_of within.entry)
        within.entry.scope.now (plain_tables tables.old)) }
{
    let mut typed = Vec::with_capacity(within.scope.alloc(), others.len())?;
    for next in others {
        push(&mut typed, statement(next, within, tables, faults)?)?;
    }
    Ok(typed)
}
